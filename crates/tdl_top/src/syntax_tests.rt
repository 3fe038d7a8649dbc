//! Sources in which a token is out of place, and where.

use crate::Status;
use crate::cases::{COMPILE, Case, refused, try_case};
use crate::plain_tests::changed;
use std::alloc::{AllocError, Global};
use std::test::Fail;

/// Changes of the source of P after which a token is out of place: its line, its column, and the
/// line that says so.
const SYNTAX: [(&str, &[(&str, &str)], u32, u32, &str); 7] = [
    (
        "a sign after the end",
        &[("  }\n}\n", "  }\n};\n")],
        11,
        2,
        "tdl: syntax at P.tdl:11:2\n",
    ),
    (
        "no last brace",
        &[("  }\n}\n", "  }\n")],
        11,
        1,
        "tdl: syntax at P.tdl:11:1\n",
    ),
    (
        "two words without a blank",
        &[("sensor int", "sensorint")],
        2,
        3,
        "tdl: syntax at P.tdl:2:3\n",
    ),
    (
        "a reserved module",
        &[("P {", "to {")],
        1,
        8,
        "tdl: syntax at P.tdl:1:8\n",
    ),
    (
        "a reserved output",
        &[("int o", "int long"), ("o := o + a", "long := long + a")],
        5,
        16,
        "tdl: syntax at P.tdl:5:16\n",
    ),
    (
        "a mode that begins with a digit",
        &[("main", "9n")],
        8,
        14,
        "tdl: syntax at P.tdl:8:14\n",
    ),
    (
        "no number",
        &[("200us", "xus")],
        3,
        25,
        "tdl: syntax at P.tdl:3:25\n",
    ),
];

// A call of `compile` of this source that is refused at a token out of place.
fn no_sentence<'a>(source: &'a str, line: u32, col: u32, err: &'a str) -> Case<'a> {
    let word = 1;
    Case {
        words: &COMPILE,
        source: Some(source),
        ..refused(Status::BadSyntax { word, line, col }, err)
    }
}

#[test]
fn a_token_out_of_place_is_told(rt: HostRuntime) -> Result<(), Fail> {
    for (_name, changes, line, col, err) in SYNTAX {
        let source = changed(rt.alloc(), changes)?;
        let case = no_sentence(source.as_str(), line, col, err);
        try_case(&rt, rt.alloc(), &case)?;
    }
    Ok(())
}

#[test]
fn a_source_is_a_sentence(rt: HostRuntime) -> Result<(), Fail> {
    let cases = [
        no_sentence("", 1, 1, "tdl: syntax at P.tdl:1:1\n"),
        no_sentence("module ;", 1, 8, "tdl: syntax at P.tdl:1:8\n"),
        no_sentence(
            "module P {\n// no end",
            2,
            10,
            "tdl: syntax at P.tdl:2:10\n",
        ),
    ];
    for case in cases.iter() {
        try_case(&rt, rt.alloc(), case)?;
    }
    Ok(())
}

// That its module has no start mode.
const NO_START: Status = Status::BadProgram {
    word: 1,
    rule: 12,
    line: 1,
    col: 8,
};

// A module with a task whose body is `begin`, `times` times `part`, `middle` and `times` times
// `close`.
fn task_of(
    alloc: Global,
    begin: &str,
    part: &str,
    times: u32,
    middle: &str,
    close: &str,
) -> Result<String, AllocError> {
    let mut source = String::from_str(alloc, "module P { task t [wcet=1us] { ")?;
    source.push_str(begin)?;
    for _ in 0..times {
        source.push_str(part)?;
    }
    source.push_str(middle)?;
    for _ in 0..times {
        source.push_str(close)?;
    }
    source.push_str(" } }")?;
    Ok(source)
}

#[test]
fn expressions_have_a_length(rt: HostRuntime) -> Result<(), Fail> {
    let long = task_of(rt.alloc(), "a := -", "1 + ", 255, "1;", "")?;
    let longer = task_of(rt.alloc(), "a := ", "1 + ", 256, "1;", "")?;
    let cases = [
        Case {
            words: &COMPILE,
            source: Some(long.as_str()),
            ..refused(NO_START, "tdl: program C12 at P.tdl:1:8\n")
        },
        no_sentence(longer.as_str(), 1, 1061, "tdl: syntax at P.tdl:1:1061\n"),
    ];
    for case in cases.iter() {
        try_case(&rt, rt.alloc(), case)?;
    }
    Ok(())
}

#[test]
fn blocks_have_a_depth(rt: HostRuntime) -> Result<(), Fail> {
    let deep = task_of(rt.alloc(), "", "repeat 1 { ", 16, "", "} ")?;
    let deeper = task_of(rt.alloc(), "", "repeat 1 { ", 17, "", "} ")?;
    let cases = [
        Case {
            words: &COMPILE,
            source: Some(deep.as_str()),
            ..refused(NO_START, "tdl: program C12 at P.tdl:1:8\n")
        },
        no_sentence(deeper.as_str(), 1, 217, "tdl: syntax at P.tdl:1:217\n"),
    ];
    for case in cases.iter() {
        try_case(&rt, rt.alloc(), case)?;
    }
    Ok(())
}
