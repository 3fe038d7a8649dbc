//! Counts of parts and of occurrences: the last that are lawful and the first that are not.

use crate::verdict::{Long, long_text, try_long, try_sources};
use std::alloc::Global;
use std::process::Abort;
use std::test::Fail;

const START: &str = "module M { start mode m [period=1ms] { } ";

// Asks of a module with so many parts that it keeps the rules, and of one with this one more that
// it does not.
fn try_count(
    rt: &impl Abort,
    alloc: Global,
    part: &str,
    times: u32,
    more: &str,
) -> Result<(), Fail> {
    let lawful = Long {
        head: START,
        part,
        times,
        tail: "}",
    };
    try_long(rt, alloc, 21, &lawful)?;
    try_long(
        rt,
        alloc,
        21,
        &Long {
            tail: more,
            ..lawful
        },
    )
}

const COUNTS: [(&str, u32, &str); 5] = [
    (
        "task t# [wcet=1us] { } ",
        64,
        "task ^t [wcet=1us] { } task u [wcet=1us] { } }",
    ),
    (
        "mode n# [period=1ms] { } ",
        31,
        "sensor int s; mode ^n [period=1ms] { } }",
    ),
    ("public const int k# = 1; ", 256, "const int ^k = 1; }"),
    ("sensor int s#; ", 256, "actuator int a; sensor int ^s; }"),
    ("actuator int a#; ", 256, "sensor int s; actuator int ^a; }"),
];

// A limit could be off by one, or parts of two sorts be counted together.
#[test]
fn parts_of_a_module(rt: HostRuntime) -> Result<(), Fail> {
    for (part, times, more) in COUNTS {
        try_count(&rt, rt.alloc(), part, times, more)?;
    }
    Ok(())
}

const PORTS: Long = Long {
    head: "module M { start mode m [period=1ms] { } task t [wcet=1us] { ",
    part: "local int p#; ",
    times: 64,
    tail: "} task u [wcet=1us] { input int a; } }",
};

// Inputs, outputs and locals could be counted apart, or the ports of all tasks together.
#[test]
fn ports_of_a_task(rt: HostRuntime) -> Result<(), Fail> {
    try_long(&rt, rt.alloc(), 21, &PORTS)?;
    let tail = "output int ^o; input int a; } }";
    try_long(&rt, rt.alloc(), 21, &Long { tail, ..PORTS })
}

const TASKS: Long = Long {
    head: "module M { start mode m [period=1ms] { } ",
    part: "task t# [wcet=1us] { } ",
    times: 64,
    tail: "}",
};

// The tasks of all modules could be counted together.
#[test]
fn tasks_of_two_modules(rt: HostRuntime) -> Result<(), Fail> {
    let head = "module N { start mode m [period=1ms] { } ";
    let first = long_text(rt.alloc(), &TASKS)?;
    let second = long_text(rt.alloc(), &Long { head, ..TASKS })?;
    try_sources(&rt, rt.alloc(), 21, &[first.as_str(), second.as_str()])
}

// 16,384 occurrences.
const FULL: Long = Long {
    head: "module M { mode n [period=1ms] { } start mode m [period=512us] { ",
    part: "switch [freq=512] to n; ",
    times: 32,
    tail: "} }",
};

// How many activities of 512 occurrences, and what follows them.
const TAILS: [(u8, u32, &str); 6] = [
    (21, 32, "} }"),
    (21, 32, "^switch [freq=1] to n; switch [freq=1] to n; } }"),
    (21, 32, "^switch [freq=512, slots=1-512] to n; } }"),
    // An activity of an unlawful frequency has no occurrences.
    (10, 32, "switch [freq=^3] to n; } }"),
    // A range of slots is one occurrence of a task, and one for each slot of a switch.
    (
        21,
        31,
        "} mode o [period=512us] { task [freq=512, slots=1-2, 3-512] t(); }
         mode p [period=512us] { switch [freq=512, slots=1-256] to n; switch [freq=128] to n;
           switch [freq=64] to n; switch [freq=32] to n; switch [freq=16] to n;
           switch [freq=8] to n; switch [freq=4] to n; switch [freq=2] to n; }
         mode q [period=1ms] { ^switch [freq=1] to n; } task t [wcet=1us] { } }",
    ),
    (
        21,
        31,
        "switch [freq=512] to n; } mode o [period=1ms] { ^switch [freq=1] to n; } }",
    ),
];

// Slots could be counted in place of occurrences, or those of each mode by themselves.
#[test]
fn occurrences_of_a_module(rt: HostRuntime) -> Result<(), Fail> {
    for (rule, times, tail) in TAILS {
        try_long(
            &rt,
            rt.alloc(),
            rule,
            &Long {
                times,
                tail,
                ..FULL
            },
        )?;
    }
    Ok(())
}

const ONE: &str =
    "module A { mode n [period=1ms] { } start mode m [period=1ms] { switch [freq=1] to n; } }";

const ONE_MORE: &str =
    "module A { mode n [period=1ms] { } start mode m [period=1ms] { ^switch [freq=1] to n; } }";

// The occurrences of each module could be counted by themselves, or in another order.
#[test]
fn occurrences_of_two_modules(rt: HostRuntime) -> Result<(), Fail> {
    let full = long_text(rt.alloc(), &FULL)?;
    try_sources(&rt, rt.alloc(), 21, &[full.as_str(), ONE_MORE])?;
    let times = 31;
    let tail = "^switch [freq=512] to n; } }";
    let over = long_text(
        rt.alloc(),
        &Long {
            times,
            tail,
            ..FULL
        },
    )?;
    try_sources(&rt, rt.alloc(), 21, &[ONE, over.as_str()])
}
