//! Calls of several sources.

use crate::Status;
use crate::cases::{Case, refused, try_case};
use crate::samples::padded;
use std::alloc::Global;
use std::process::Abort;
use std::test::Fail;

const TWO: [&str; 5] = ["compile", "P.tdl", "Q.tdl", "--out", "b"];

const THREE: [&str; 6] = ["compile", "P.tdl", "Q.tdl", "R.tdl", "--out", "b"];

const P_FOUR_TIMES: [&str; 8] = [
    "compile", "P.tdl", "P.tdl", "P.tdl", "P.tdl", "Q.tdl", "--out", "b",
];

// A call with `P.tdl`, which is plain, and further files, that is refused.
fn with_others<'a>(
    words: &'a [&'a str],
    more: &'a [(&'a str, &'a str)],
    status: Status,
    err: &'a str,
) -> Case<'a> {
    Case {
        words,
        more,
        ..refused(status, err)
    }
}

fn syntax(word: usize, line: u32, col: u32) -> Status {
    Status::BadSyntax { word, line, col }
}

const LAWFUL_Q: &str = "module Q { start mode m [period=1ms] { } }";

const LAWFUL_R: &str = "module R { start mode m [period=1ms] { } }";

#[test]
fn good_sources_that_are_not_one_are_of_another_form(rt: HostRuntime) -> Result<(), Fail> {
    let form = Status::BadForm { word: 1 };
    let cases = [
        with_others(&TWO, &[("Q.tdl", LAWFUL_Q)], form, "tdl: form P.tdl\n"),
        with_others(
            &THREE,
            &[("Q.tdl", LAWFUL_Q), ("R.tdl", LAWFUL_R)],
            form,
            "tdl: form P.tdl\n",
        ),
    ];
    for case in cases.iter() {
        try_case(&rt, rt.alloc(), case)?;
    }
    Ok(())
}

fn rule(word: usize, rule: u8, line: u32, col: u32) -> Status {
    Status::BadProgram {
        word,
        rule,
        line,
        col,
    }
}

#[test]
fn the_first_broken_rule_is_told(rt: HostRuntime) -> Result<(), Fail> {
    let twice = ["run", "P.tdl", "P.tdl", "--out", "b", "--scen", "s"];
    let cases = [
        with_others(
            &TWO,
            &[("Q.tdl", "module Q { }")],
            rule(2, 12, 1, 8),
            "tdl: program C12 at Q.tdl:1:8\n",
        ),
        // The source comes before the place.
        with_others(
            &THREE,
            &[("Q.tdl", "module\nQ { }"), ("R.tdl", "module R { }")],
            rule(2, 12, 2, 1),
            "tdl: program C12 at Q.tdl:2:1\n",
        ),
        with_others(
            &twice,
            &[],
            rule(2, 1, 1, 8),
            "tdl: program C1 at P.tdl:1:8\n",
        ),
    ];
    for case in cases.iter() {
        try_case(&rt, rt.alloc(), case)?;
    }
    Ok(())
}

#[test]
fn the_first_bad_source_is_told(rt: HostRuntime) -> Result<(), Fail> {
    let token = Status::BadToken {
        word: 2,
        line: 1,
        col: 12,
    };
    let cases = [
        with_others(
            &TWO,
            &[("Q.tdl", "module Q {")],
            syntax(2, 1, 11),
            "tdl: syntax at Q.tdl:1:11\n",
        ),
        // All tokens come before the first that is out of place.
        with_others(
            &TWO,
            &[("Q.tdl", "module { {  $")],
            Status::BadToken {
                word: 2,
                line: 1,
                col: 13,
            },
            "tdl: token at Q.tdl:1:13\n",
        ),
        with_others(
            &THREE,
            &[("Q.tdl", "module Q { $"), ("R.tdl", "module")],
            token,
            "tdl: token at Q.tdl:1:12\n",
        ),
    ];
    for case in cases.iter() {
        try_case(&rt, rt.alloc(), case)?;
    }
    Ok(())
}

#[test]
fn an_absent_source_is_told(rt: HostRuntime) -> Result<(), Fail> {
    let absent = Status::LoadFailed { word: 2 };
    let cases = [
        with_others(&TWO, &[], absent, "tdl: cannot load Q.tdl\n"),
        with_others(
            &THREE,
            &[("R.tdl", "module")],
            absent,
            "tdl: cannot load Q.tdl\n",
        ),
    ];
    for case in cases.iter() {
        try_case(&rt, rt.alloc(), case)?;
    }
    Ok(())
}

// A call with a first source that is refused, and without the second.
fn with_first<'a>(first: &'a str, status: Status, err: &'a str) -> Case<'a> {
    Case {
        source: Some(first),
        ..with_others(&TWO, &[], status, err)
    }
}

#[test]
fn a_broken_rule_hides_nothing_of_the_next(rt: HostRuntime) -> Result<(), Fail> {
    let absent = Status::LoadFailed { word: 2 };
    let case = with_first("module M { }", absent, "tdl: cannot load Q.tdl\n");
    try_case(&rt, rt.alloc(), &case)
}

#[test]
fn a_bad_source_hides_that_the_next_is_absent(rt: HostRuntime) -> Result<(), Fail> {
    let case = with_first("module", syntax(1, 1, 7), "tdl: syntax at P.tdl:1:7\n");
    try_case(&rt, rt.alloc(), &case)
}

// Four sources that have all bytes there are, and a fifth that is refused.
fn try_fifth(
    rt: &impl Abort,
    alloc: Global,
    fifth: &str,
    status: Status,
    err: &str,
) -> Result<(), Fail> {
    let source = padded(alloc, 262_144)?;
    let more = [("Q.tdl", fifth)];
    let case = Case {
        source: Some(source.as_str()),
        ..with_others(&P_FOUR_TIMES, &more, status, err)
    };
    try_case(rt, alloc, &case)
}

#[test]
fn all_sources_are_at_most_so_long(rt: HostRuntime) -> Result<(), Fail> {
    let status = Status::TooLong { word: 5 };
    try_fifth(&rt, rt.alloc(), " ", status, "tdl: too long Q.tdl\n")
}

#[test]
fn an_empty_source_is_read_past_that(rt: HostRuntime) -> Result<(), Fail> {
    let status = syntax(5, 1, 1);
    try_fifth(&rt, rt.alloc(), "", status, "tdl: syntax at Q.tdl:1:1\n")
}
