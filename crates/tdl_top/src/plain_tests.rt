//! Sources that differ from the module P, and whether they are plain.

use crate::cases::{COMPILE, Case, compiled, files_of, refused, strings, try_case};
use crate::samples::SOURCE;
use crate::{Status, tdl};
use std::alloc::{AllocError, Global};
use std::process::Abort;
use std::test::Fail;
use tdl_io::MemSink;

/// Changes of the source that leave it plain: each has a text, and what stands for it.
const PLAIN: [(&str, &[(&str, &str)]); 14] = [
    (
        "one line",
        &[
            ("\n", ""),
            ("  ", ""),
            (" [", "["),
            (" {", "{"),
            (" := ", ":="),
            (" + ", "+"),
        ],
    ),
    (
        "blanks of each kind",
        &[
            ("  sensor", "\tsensor"),
            (" {\n", "\r\n{\r\n"),
            ("=200us", "= 200 us"),
        ],
    ),
    ("a unit after blanks", &[("5ms", "5  ms")]),
    (
        "equal names",
        &[
            ("int s", "int P"),
            ("(s)", "(P)"),
            ("int a", "int P"),
            ("int o", "int inc"),
            ("o := o + a", "inc := inc + P"),
        ],
    ),
    (
        "units as names",
        &[
            ("P {", "us {"),
            ("int s", "int ms"),
            ("(s)", "(ms)"),
            ("inc", "A_9"),
        ],
    ),
    (
        "a name of 64 bytes",
        &[(
            "P {",
            "abcdefghijabcdefghijabcdefghijabcdefghijabcdefghijabcdefghijklmn {",
        )],
    ),
    (
        "the least numbers",
        &[("200us", "1us"), (":= 10", ":= 0"), ("5ms", "1ms")],
    ),
    ("a worst case that is the period", &[("200us", "5000us")]),
    (
        "the greatest times",
        &[("200us", "10000000us"), ("5ms", "10000ms")],
    ),
    ("the greatest initial number", &[(":= 10", ":= 2147483647")]),
    ("frequency 01", &[("freq=1", "freq=01")]),
    ("parentheses", &[("o + a", "((o) + a)"), ("(s)", "((s))")]),
    ("a comment", &[("  }\n}\n", "  }\n} // end")]),
    (
        "leading zeros",
        &[
            ("200us", "000000000000000000000000000200us"),
            (":= 10", ":= 00"),
            ("5ms", "05ms"),
        ],
    ),
];

/// Changes that leave it lawful, and no plain one.
const OTHERS: [(&str, &[(&str, &str)]); 4] = [
    ("frequency 2", &[("freq=1", "freq=2")]),
    ("a difference", &[("o + a", "o - a")]),
    ("a task that is not public", &[("public task", "task")]),
    (
        "an initial number above the greatest",
        &[(":= 10", ":= 2147483648")],
    ),
];

/// Changes that break a rule, with the rule, its line and column, and what is said.
const BROKEN: [(&[(&str, &str)], u8, u32, u32, &str); 12] = [
    (&[("inc", "s")], 1, 3, 15, "tdl: program C1 at P.tdl:3:15\n"),
    (
        &[("int s", "int main"), ("(s)", "(main)")],
        1,
        8,
        14,
        "tdl: program C1 at P.tdl:8:14\n",
    ),
    (
        &[("inc", "main")],
        1,
        8,
        14,
        "tdl: program C1 at P.tdl:8:14\n",
    ),
    (
        &[("int o", "int a"), ("o := o + a", "a := a + a")],
        1,
        5,
        16,
        "tdl: program C1 at P.tdl:5:16\n",
    ),
    (
        &[("o + a", "o + s")],
        3,
        6,
        14,
        "tdl: program C3 at P.tdl:6:14\n",
    ),
    (
        &[("200us", "1us"), ("5ms", "0ms")],
        9,
        8,
        27,
        "tdl: program C9 at P.tdl:8:27\n",
    ),
    (
        &[("5ms", "10001ms")],
        9,
        8,
        27,
        "tdl: program C9 at P.tdl:8:27\n",
    ),
    (
        &[("inc(s);", "inc(s); task [freq=1] inc(s);")],
        13,
        9,
        41,
        "tdl: program C13 at P.tdl:9:41\n",
    ),
    (
        &[("200us", "0us")],
        17,
        3,
        25,
        "tdl: program C17 at P.tdl:3:25\n",
    ),
    (
        &[("200us", "5001us")],
        17,
        9,
        19,
        "tdl: program C17 at P.tdl:9:19\n",
    ),
    (
        &[("200us", "10000001us"), ("5ms", "10000ms")],
        17,
        3,
        25,
        "tdl: program C17 at P.tdl:3:25\n",
    ),
    (
        &[("200us", "18446744073709551816us")],
        17,
        3,
        25,
        "tdl: program C17 at P.tdl:3:25\n",
    ),
];

/// The source of P after these changes.
pub fn changed(alloc: Global, changes: &[(&str, &str)]) -> Result<String, AllocError> {
    let mut source = String::from_str(alloc, SOURCE)?;
    for (old, new) in changes {
        source = source.replace(alloc, *old, new)?;
    }
    Ok(source)
}

#[test]
fn plain_sources_are_compiled(rt: HostRuntime) -> Result<(), Fail> {
    for (name, changes) in PLAIN {
        let source = changed(rt.alloc(), changes)?;
        let words = strings(rt.alloc(), &COMPILE)?;
        let case = Case {
            source: Some(source.as_str()),
            ..compiled()
        };
        let mut files = files_of(rt.alloc(), &case)?;
        let mut out = MemSink::new(rt.alloc(), 0, Vec::new(rt.alloc()))?;
        let mut err = MemSink::new(rt.alloc(), 128, Vec::new(rt.alloc()))?;
        let status = tdl(rt.alloc(), &words, &mut files, &mut out, &mut err);
        assert_eq!(&rt; status, Status::Ok, "{name}");
    }
    Ok(())
}

#[test]
fn other_sources_are_not(rt: HostRuntime) -> Result<(), Fail> {
    for (_name, changes) in OTHERS {
        let source = changed(rt.alloc(), changes)?;
        let case = Case {
            words: &COMPILE,
            source: Some(source.as_str()),
            ..refused(Status::BadForm { word: 1 }, "tdl: form P.tdl\n")
        };
        try_case(&rt, rt.alloc(), &case)?;
    }
    Ok(())
}

// A changed source that is refused.
fn try_changed(
    rt: &impl Abort,
    alloc: Global,
    changes: &[(&str, &str)],
    status: Status,
    err: &str,
) -> Result<(), Fail> {
    let source = changed(alloc, changes)?;
    let case = Case {
        words: &COMPILE,
        source: Some(source.as_str()),
        ..refused(status, err)
    };
    try_case(rt, alloc, &case)
}

#[test]
fn sources_that_break_a_rule_are_not(rt: HostRuntime) -> Result<(), Fail> {
    for (changes, rule, line, col, err) in BROKEN {
        let status = Status::BadProgram {
            word: 1,
            rule,
            line,
            col,
        };
        try_changed(&rt, rt.alloc(), changes, status, err)?;
    }
    Ok(())
}
