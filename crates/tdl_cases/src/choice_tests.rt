//! Sources that break several rules, and which of them is told.

use crate::verdict::{Verdict, try_parts, try_sources, verdicts};
use std::test::Fail;
use tdl_rules::Fault;

const A: &str = "module A { start mode m [period=1ms] { } }";

const ORDERS: [(u8, &[&str]); 7] = [
    // A later rule stands earlier.
    (
        17,
        &["module M { task t [wcet=^0us] { } sensor int t; start mode m [period=1ms] { } }"],
    ),
    (
        9,
        &["module M { start mode m [period=^0us] { } sensor int m; }"],
    ),
    // The line comes before the column, and the source before the line.
    (
        1,
        &["module M { start mode m [period=1ms] { } const int ^m = 1;\nconst int m = 1; }"],
    ),
    (
        9,
        &[
            "module M {\n\n\n  start mode m [period=^0us] { } }",
            "module N { }",
        ],
    ),
    (12, &[A, "module ^N { }", "module A { }"]),
    // A fault of two sources is told in the later.
    (1, &[A, "module ^A { start mode m [period=0us] { } }"]),
    (9, &["module M { start mode m [period=^0us] { } }", A, A]),
];

// Rules could be told in their own order, and not in that of the text.
#[test]
fn the_earlier_place_is_told(rt: HostRuntime) -> Result<(), Fail> {
    for (rule, texts) in ORDERS {
        try_sources(&rt, rt.alloc(), rule, texts)?;
    }
    Ok(())
}

const MODULE: &str = "module M { actuator int v; const boolean f = true; task t [wcet=501us] { }
  mode n [period=1ms] { } start mode m [period=1ms] { # } }";

const PLACES: [(u8, &str); 6] = [
    (3, "task [freq=1] t(); switch [freq=2] to ^x;"),
    (7, "task [freq=1] t(); task [freq=1] ^t(1);"),
    (13, "task [freq=1] t(); task [freq=2, slots=2] ^t();"),
    (15, "task [freq=1] t(); switch [freq=2] to ^m;"),
    (1, "} mode ^m [period=1ms] { } start mode m [period=1ms] {"),
    (
        5,
        "} const boolean k = ^9223372036854775808; mode o [period=1ms] {",
    ),
];

// Of two rules that are broken at one place the later could be told.
#[test]
fn the_earlier_rule_is_told(rt: HostRuntime) -> Result<(), Fail> {
    try_parts(&rt, rt.alloc(), MODULE, &PLACES)
}

const HIDDEN: [(u8, &str); 8] = [
    // An unlawful activity has no occurrences, and an unknown task has.
    (10, "switch [freq=2] to n; task [freq=^3] t();"),
    (11, "switch [freq=2] to n; task [freq=1, slots=^2] t();"),
    (15, "switch [freq=2] to ^n; task [freq=1] x();"),
    // It hides no other fault.
    (16, "switch [freq=1] to ^m; task [freq=3] t();"),
    (5, "update [freq=1] v := ^f + x;"),
    (5, "switch [freq=1] to n if ^-x;"),
    // A name that is not found has no sort.
    (3, "update [freq=1] v := (^x);"),
    (3, "switch [freq=1] to n if (^x) == 1 && (x);"),
];

// An unknown name could have a sort, or end the check of what it stands in.
#[test]
fn a_fault_hides_no_other(rt: HostRuntime) -> Result<(), Fail> {
    try_parts(&rt, rt.alloc(), MODULE, &HIDDEN)
}

const HALFWAY: &str = "module H {
  task t [wcet=10us] {
  }
  start mode a [period=10ms] {
    task [freq=1] t();
    switch [freq=2] to b;
  }
  mode b [period=10ms] {
  }
}
";

// Sources, lines and columns could be counted from another number.
#[test]
fn a_place_is_told_by_its_numbers(rt: HostRuntime) -> Result<(), Fail> {
    let (said, _kept) = verdicts(rt.alloc(), 15, &[A, HALFWAY])?;
    let fault = Fault {
        rule: 15,
        file: 1,
        line: 6,
        col: 24,
    };
    assert_eq!(&rt; said, Verdict::Break(fault));
    Ok(())
}
