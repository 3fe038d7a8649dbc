//! A smallest program that breaks each rule.

use crate::verdict::{Long, try_long, try_sources};
use std::test::Fail;

const NAMES_AND_SORTS: [(u8, &[&str]); 8] = [
    (
        1,
        &["module M { sensor int m; start mode ^m [period=1ms] { } }"],
    ),
    (
        2,
        &["module M { import ^X; start mode m [period=1ms] { } }"],
    ),
    (
        3,
        &["module M { task t [wcet=1us] { ^o := 1; } start mode m [period=1ms] { } }"],
    ),
    (
        4,
        &[
            "module A { const int k = 1; start mode m [period=1ms] { } }",
            "module M { import A; actuator int v;
               start mode m [period=1ms] { update [freq=1] v := A.^k; } }",
        ],
    ),
    (
        5,
        &[
            "module M { mode n [period=1ms] { }
             start mode m [period=1ms] { switch [freq=1] to n if ^1; } }",
        ],
    ),
    (
        6,
        &["module M { task t [wcet=1us] { input int a; ^a := 1; } start mode m [period=1ms] { } }"],
    ),
    (
        7,
        &["module M { task t [wcet=1us] { } start mode m [period=1ms] { task [freq=1] ^t(1); } }"],
    ),
    (
        8,
        &["module M { const long k = -^9223372036854775808; start mode m [period=1ms] { } }"],
    ),
];

const MODES: [(u8, &[&str]); 9] = [
    (9, &["module M { start mode m [period=^11s] { } }"]),
    (
        10,
        &["module M { task t [wcet=1us] { } start mode m [period=1ms] { task [freq=^3] t(); } }"],
    ),
    (
        11,
        &[
            "module M { task t [wcet=1us] { }
             start mode m [period=1ms] { task [freq=4, slots=1-2, ^2-3] t(); } }",
        ],
    ),
    (12, &["module ^M { }"]),
    (
        13,
        &[
            "module M { task t [wcet=1us] { }
             start mode m [period=1ms] { task [freq=1] t(); task [freq=2, slots=2] ^t(); } }",
        ],
    ),
    (
        14,
        &[
            "module M { actuator int v;
             start mode m [period=1ms] { update [freq=2] v := 1; update [freq=1] ^v := 2; } }",
        ],
    ),
    (
        15,
        &[
            "module M { task t [wcet=1us] { } mode n [period=1ms] { }
             start mode m [period=1ms] { switch [freq=2] to ^n; task [freq=1] t(); } }",
        ],
    ),
    (
        16,
        &["module M { start mode m [period=1ms] { switch [freq=1] to ^m; } }"],
    ),
    (
        17,
        &[
            "module M { task t [wcet=1001us] { }
             start mode m [period=1ms] { task [freq=1] ^t(); } }",
        ],
    ),
];

const BOUNDS: [(u8, &[&str]); 3] = [
    (
        18,
        &["module M { task t [wcet=1us] { repeat ^1001 { } } start mode m [period=1ms] { } }"],
    ),
    (
        19,
        &[
            "module M { actuator int v;
             start mode m [period=1ms] { update [freq=1] v := ^--------------------------------1; } }",
        ],
    ),
    (
        20,
        &[
            "module M { task ^t [wcet=1us] { output int o;
             repeat 1000 { repeat 100 { o := 1; } } } start mode m [period=1ms] { } }",
        ],
    ),
];

const TASKS: Long = Long {
    head: "module M { ",
    part: "task t# [wcet=1us] { } ",
    times: 64,
    tail: "task ^t [wcet=1us] { } start mode m [period=1ms] { } }",
};

// A rule could be one that no source breaks, or have the number or the place of another.
#[test]
fn each_rule_can_be_broken(rt: HostRuntime) -> Result<(), Fail> {
    for (rule, texts) in NAMES_AND_SORTS {
        try_sources(&rt, rt.alloc(), rule, texts)?;
    }
    for (rule, texts) in MODES {
        try_sources(&rt, rt.alloc(), rule, texts)?;
    }
    for (rule, texts) in BOUNDS {
        try_sources(&rt, rt.alloc(), rule, texts)?;
    }
    try_long(&rt, rt.alloc(), 21, &TASKS)
}
