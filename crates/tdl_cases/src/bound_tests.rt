//! Turns, depths and steps: the last that are lawful and the first that are not.

use crate::verdict::{Long, long_text, try_long, try_part, try_parts};
use std::alloc::Global;
use std::process::Abort;
use std::test::Fail;

const BODY: &str = "module M { task t [wcet=1us] { input int a; output int o; # }
  start mode m [period=1ms] { } }";

const PARTS: [(u8, &str); 7] = [
    (18, "repeat 1000 { }"),
    (18, "repeat 0 { }"),
    (18, "repeat ^1001 { }"),
    (18, "repeat 1000 { repeat ^1001 { } }"),
    (18, "repeat ^18446744073709551617 { }"),
    (
        19,
        "o := ((((((((((((((((((((((((((((((((((((a))))))))))))))))))))))))))))))))))));",
    ),
    (20, "repeat 0 { repeat 1000 { repeat 1000 { o := 1; } } }"),
];

// Parentheses could have a depth; a block that is never done could have steps.
#[test]
fn repeats_and_parentheses(rt: HostRuntime) -> Result<(), Fail> {
    try_parts(&rt, rt.alloc(), BODY, &PARTS)
}

// A source of many parts.
fn deep<'a>(head: &'a str, part: &'a str, times: u32, tail: &'a str) -> Long<'a> {
    Long {
        head,
        part,
        times,
        tail,
    }
}

const IN_BODY: &str = "module M { task t [wcet=1us] { input int a; output int o; o := ";

const MARKED_IN_BODY: &str = "module M { task t [wcet=1us] { input int a; output int o; o := ^";

const BODY_END: &str = "a; } start mode m [period=1ms] { } }";

// A name could have no depth; operators of one line could all have that of one.
#[test]
fn depths_in_a_body(rt: HostRuntime) -> Result<(), Fail> {
    try_long(&rt, rt.alloc(), 19, &deep(IN_BODY, "-", 31, BODY_END))?;
    try_long(
        &rt,
        rt.alloc(),
        19,
        &deep(MARKED_IN_BODY, "-", 32, BODY_END),
    )?;
    try_long(&rt, rt.alloc(), 19, &deep(IN_BODY, "a + ", 31, BODY_END))?;
    try_long(
        &rt,
        rt.alloc(),
        19,
        &deep(MARKED_IN_BODY, "a + ", 32, BODY_END),
    )?;
    let closed = "a); } start mode m [period=1ms] { } }";
    let opened = "module M { task t [wcet=1us] { input int a; output int o; o := ^(";
    try_long(&rt, rt.alloc(), 19, &deep(opened, "-", 32, closed))
}

// An activity with an expression of depth 32, and one of depth 33.
const ACTIVITIES: [(&str, u32, &str); 6] = [
    ("task [freq=1] t(0, ", 31, "true);"),
    ("task [freq=1] t(0, ^", 32, "true);"),
    ("update [freq=1] v := ", 31, "true if true;"),
    ("update [freq=1] v := ^", 32, "true if true;"),
    ("switch [freq=1] to n if ", 31, "true;"),
    ("switch [freq=1] to n if ^", 32, "true;"),
];

// A guard, an argument or a value of an update could have no limit.
#[test]
fn depths_in_activities(rt: HostRuntime) -> Result<(), Fail> {
    let form = "module M { actuator boolean v; task t [wcet=1us] { input int a; input boolean b; }
      mode n [period=1ms] { } start mode m [period=1ms] { # } }";
    for (head, times, tail) in ACTIVITIES {
        let part = long_text(rt.alloc(), &deep(head, "!", times, tail))?;
        try_part(&rt, rt.alloc(), form, 19, part.as_str())?;
    }
    Ok(())
}

// A task's body, the task's name marked where it has too many steps, so many assignments more, and
// what follows the task.
const STEPS: [(&str, &str, u32, &str); 7] = [
    // 99,001 steps, and the assignments
    ("t", "repeat 1000 { repeat 98 { o := 1; } } ", 999, ""),
    ("^t", "repeat 1000 { repeat 98 { o := 1; } } ", 1000, ""),
    // the same with an if, of whose blocks both count
    (
        "t",
        "repeat 1000 { if true { o := 1; } else { repeat 96 { o := 1; } } } ",
        999,
        "",
    ),
    (
        "^t",
        "repeat 1000 { if true { o := 1; } else { repeat 96 { o := 1; } } } ",
        1000,
        "",
    ),
    ("^t", "repeat 1000 { repeat 99 { o := 1; } } ", 0, ""),
    // more steps than 64 bits hold
    (
        "^t",
        "repeat 1000 { repeat 1000 { repeat 1000 { repeat 1000 { repeat 1000 { repeat 1000 {
         repeat 1000 { repeat 1000 { o := 1; } } } } } } } } ",
        0,
        "",
    ),
    // those of two tasks
    (
        "t",
        "repeat 600 { repeat 98 { o := 1; } } ",
        0,
        "task u [wcet=1us] { output int o; repeat 600 { repeat 98 { o := 1; } } } ",
    ),
];

// Asks of a task with this name and body, and so many assignments more.
fn try_steps(
    rt: &impl Abort,
    alloc: Global,
    name: &str,
    body: &str,
    times: u32,
    after: &str,
) -> Result<(), Fail> {
    let head = format!(in alloc; "module M {{ task {name} [wcet=1us] {{ output int o; {body}")?;
    let tail = format!(in alloc; "}} {after} start mode m [period=1ms] {{ }} }}")?;
    let long = deep(head.as_str(), "o := 1; ", times, tail.as_str());
    try_long(rt, alloc, 20, &long)
}

// The turns of a repeat could have no step of their own; a product could wrap.
#[test]
fn steps(rt: HostRuntime) -> Result<(), Fail> {
    for (name, body, times, after) in STEPS {
        try_steps(&rt, rt.alloc(), name, body, times, after)?;
    }
    Ok(())
}
