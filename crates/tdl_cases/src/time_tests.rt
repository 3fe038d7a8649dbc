//! Periods, frequencies, slots, logical execution times and worst cases: the last that are lawful
//! and the first that are not.

use crate::verdict::try_parts;
use std::test::Fail;

const PERIOD: &str = "module M { start mode m [period=#] { } }";

const PERIODS: [(u8, &str); 9] = [
    (9, "1us"),
    (9, "^0us"),
    (9, "^0s"),
    (9, "10s"),
    (9, "10000ms"),
    (9, "^10000001us"),
    // So many microseconds are few where they wrap at 64 bits.
    (9, "^18446744073710s"),
    (9, "^18446744073709552us"),
    (9, "^18446744073709551617us"),
];

// A limit could be off by one, or be held against the number without its unit.
#[test]
fn periods(rt: HostRuntime) -> Result<(), Fail> {
    try_parts(&rt, rt.alloc(), PERIOD, &PERIODS)
}

const OFTEN: &str = "module M { mode n [period=1ms] { } start mode m [#] to n; } }";

const FREQUENCIES: [(u8, &str); 9] = [
    (10, "period=1ms] { switch [freq=1"),
    (10, "period=1ms] { switch [freq=^0"),
    (10, "period=1ms] { switch [freq=1000"),
    (10, "period=1001us] { switch [freq=^1001"),
    (10, "period=1ms] { switch [freq=^3"),
    (10, "period=3us] { switch [freq=3"),
    (10, "period=2us] { switch [freq=^3"),
    (10, "period=10s] { switch [freq=1000"),
    (10, "period=1ms] { switch [freq=^18446744073709551617"),
];

// A frequency could be held against the period's number, 1, and not against its microseconds.
#[test]
fn frequencies(rt: HostRuntime) -> Result<(), Fail> {
    try_parts(&rt, rt.alloc(), OFTEN, &FREQUENCIES)
}

const SLOTS: &str = "module M { mode n [period=1ms] { }
  start mode m [period=1ms] { switch [freq=4, slots=#] to n; } }";

const RANGES: [(u8, &str); 10] = [
    (11, "1"),
    (11, "1-4"),
    (11, "1, 2, 3, 4"),
    (11, "1-2, 3, 4-4"),
    (11, "^0"),
    (11, "^1-5"),
    (11, "^5"),
    (11, "^3-2"),
    (11, "1-2, ^2, 0"),
    (11, "4, ^1"),
];

// A range could be told at its last number, or the last of several faulty ranges.
#[test]
fn slots(rt: HostRuntime) -> Result<(), Fail> {
    try_parts(&rt, rt.alloc(), SLOTS, &RANGES)
}

const STARTS: &str = "module M { mode a [period=1ms] { } # mode z [period=1ms] { } }";

const START_MODES: [(u8, &str); 3] = [
    (12, "start mode m [period=1ms] { }"),
    (
        12,
        "start mode m [period=1ms] { } start mode ^n [period=1ms] { }",
    ),
    (
        12,
        "start mode m [period=1ms] { } start mode ^n [period=1ms] { } start mode o [period=1ms] { }",
    ),
];

// A start mode could have to be the first mode, or the last of too many could be told.
#[test]
fn start_modes(rt: HostRuntime) -> Result<(), Fail> {
    try_parts(&rt, rt.alloc(), STARTS, &START_MODES)
}

const ACTIVITIES: &str = "module M { actuator int v; actuator int w;
  task t [wcet=1us] { } task u [wcet=1us] { } mode n [period=1ms] { task [freq=1] t(); }
  start mode m [period=1ms] { # } }";

const INVOCATIONS: [(u8, &str); 8] = [
    (
        13,
        "task [freq=1000, slots=1-500] t(); task [freq=2, slots=2] t();",
    ),
    (
        13,
        "task [freq=1000, slots=1-501] t(); task [freq=2, slots=2] ^t();",
    ),
    (
        13,
        "task [freq=2, slots=2] t(); task [freq=1000, slots=1-500] t();",
    ),
    (
        13,
        "task [freq=2, slots=2] t(); task [freq=1000, slots=1-501] ^t();",
    ),
    (13, "task [freq=1] t(); task [freq=1] u();"),
    (13, "task [freq=4, slots=1-2, 3-4] t();"),
    (
        13,
        "task [freq=1] t(); task [freq=1] u(); task [freq=1] ^t(); task [freq=1] u();",
    ),
    (
        13,
        "task [freq=1] t() if true; task [freq=1] ^t() if false;",
    ),
];

// Times that only touch could count as an overlap, or those of two tasks or two modes.
#[test]
fn invocations(rt: HostRuntime) -> Result<(), Fail> {
    try_parts(&rt, rt.alloc(), ACTIVITIES, &INVOCATIONS)
}

const UPDATES: [(u8, &str); 7] = [
    (
        14,
        "update [freq=2, slots=1] v := 1; update [freq=1] v := 2;",
    ),
    (
        14,
        "update [freq=2, slots=2] v := 1; update [freq=1] ^v := 2;",
    ),
    (
        14,
        "update [freq=2, slots=1-2] v := 1; update [freq=1] ^v := 2;",
    ),
    (
        14,
        "update [freq=4, slots=1-2] v := 1; update [freq=4, slots=1] ^v := 2;",
    ),
    (14, "update [freq=1000] v := 1; update [freq=1000] w := 2;"),
    (
        14,
        "update [freq=1000, slots=1-998] v := 1; update [freq=1000, slots=999-1000] v := 2;",
    ),
    (
        14,
        "update [freq=1] v := 1 if true; update [freq=1] ^v := 2 if false;",
    ),
];

// An update could come at the start of its slots, or at the end of a range alone.
#[test]
fn updates(rt: HostRuntime) -> Result<(), Fail> {
    try_parts(&rt, rt.alloc(), ACTIVITIES, &UPDATES)
}

const SWITCHES: [(u8, &str); 8] = [
    (
        15,
        "task [freq=1000, slots=2-3] t(); switch [freq=1000, slots=1] to n;",
    ),
    (
        15,
        "task [freq=1000, slots=2-3] t(); switch [freq=1000, slots=2] to ^n;",
    ),
    (
        15,
        "task [freq=1000, slots=2-3] t(); switch [freq=1000, slots=3] to n;",
    ),
    (15, "task [freq=1] t(); switch [freq=1] to n;"),
    (15, "task [freq=2] t(); switch [freq=2] to n;"),
    (
        15,
        "task [freq=2, slots=1-2] t(); switch [freq=2] to ^n if false;",
    ),
    (15, "switch [freq=2, slots=1] to ^n; task [freq=1] t();"),
    (
        15,
        "switch [freq=4, slots=1-2] to ^n; task [freq=2, slots=1] t();",
    ),
];

// A switch could be refused where the last task ends or the next begins.
#[test]
fn switches(rt: HostRuntime) -> Result<(), Fail> {
    try_parts(&rt, rt.alloc(), ACTIVITIES, &SWITCHES)
}

const WORST: &str = "module M { task t [wcet=#(); } }";

const WORST_CASES: [(u8, &str); 10] = [
    (17, "1us] { } start mode m [period=1us] { task [freq=1] t"),
    (17, "^0us] { } start mode m [period=1us] { task [freq=1] t"),
    (17, "10s] { } start mode m [period=10s] { task [freq=1] t"),
    (
        17,
        "^10000001us] { } start mode m [period=10s] { task [freq=1] t",
    ),
    (
        17,
        "^18446744073710s] { } start mode m [period=10s] { task [freq=1] t",
    ),
    (17, "1ms] { } start mode m [period=1ms] { task [freq=1] t"),
    (
        17,
        "1001us] { } start mode m [period=1ms] { task [freq=1] ^t",
    ),
    (
        17,
        "500us] { } start mode m [period=1ms] { task [freq=4, slots=1-2, 3-4] t",
    ),
    (
        17,
        "501us] { } start mode m [period=1ms] { task [freq=4, slots=1-2, 3-4] ^t",
    ),
    (
        17,
        "500us] { } start mode m [period=1ms] { task [freq=4, slots=1-2, 3] ^t",
    ),
];

// A worst case could be held against the period, or against the first time alone.
#[test]
fn worst_cases(rt: HostRuntime) -> Result<(), Fail> {
    try_parts(&rt, rt.alloc(), WORST, &WORST_CASES)
}
