//! Sorts of values, targets, arguments and numbers.

use crate::verdict::try_parts;
use std::test::Fail;

const BODY: &str = "module M { const int k = 1; const boolean f = true;
  task t [wcet=1us] { input int a; output int o; local boolean b; # }
  start mode m [period=1ms] { } }";

const VALUES: [(u8, &str); 11] = [
    (5, "o := a + k * 2 / a % a - -a;"),
    (5, "b := a < k && !b || a == k;"),
    (5, "b := b == f;"),
    (5, "b := b != (a >= 1);"),
    (5, "o := ^b;"),
    (5, "b := ^a;"),
    (5, "o := ^a < 1;"),
    (5, "b := ^(a + 1);"),
    (5, "if ^a { }"),
    (5, "if b { } else { o := ^f; }"),
    (5, "repeat 2 { if f { b := ^1; } }"),
];

// The place could be that of the operator, or of what stands in the parentheses.
#[test]
fn values(rt: HostRuntime) -> Result<(), Fail> {
    try_parts(&rt, rt.alloc(), BODY, &VALUES)
}

const OPERANDS: [(u8, &str); 11] = [
    (5, "o := a + ^b;"),
    (5, "o := 1 + 2 * ^b;"),
    (5, "o := -^b;"),
    (5, "b := !^a;"),
    (5, "b := ^a && b;"),
    (5, "b := b || ^k;"),
    (5, "b := ^b < a;"),
    (5, "b := a == ^b;"),
    (5, "b := b != ^(a);"),
    (5, "b := (a == 1) == ^1;"),
    (5, "b := !(a == ^true);"),
];

// The sides of a comparison could be told at the left, or an operand not be looked into.
#[test]
fn operands(rt: HostRuntime) -> Result<(), Fail> {
    try_parts(&rt, rt.alloc(), BODY, &OPERANDS)
}

const TARGETS: [(u8, &str); 5] = [
    (6, "o := 1; b := true;"),
    (6, "^a := 1;"),
    (6, "^k := 1;"),
    (6, "repeat 2 { if b { } else { ^a := 1; } }"),
    (6, "o := 1; ^f := 1;"),
];

// An input could be assigned to, since it is a cell as others are.
#[test]
fn targets(rt: HostRuntime) -> Result<(), Fail> {
    try_parts(&rt, rt.alloc(), BODY, &TARGETS)
}

const LITERALS: [(u8, &str); 10] = [
    (5, "const boolean k = ^1"),
    (5, "const boolean k = ^-1"),
    (5, "const int k = ^true"),
    (5, "actuator int v := ^false"),
    (5, "actuator boolean v := true"),
    (8, "const byte k = 300"),
    (8, "const long k = -9223372036854775807"),
    (8, "const byte k = 9223372036854775807"),
    (8, "const long k = ^9223372036854775808"),
    (8, "actuator byte v := -^99999999999999999999"),
];

// A literal could be held against its kind, or the least number of 64 bits be taken for lawful.
#[test]
fn literals(rt: HostRuntime) -> Result<(), Fail> {
    let form = "module M { #; start mode m [period=1ms] { } }";
    try_parts(&rt, rt.alloc(), form, &LITERALS)
}

const ARGUMENTS: [(u8, &str); 14] = [
    (7, "task [freq=1] t(1, f);"),
    (7, "task [freq=1] ^t();"),
    (7, "task [freq=1] ^t(1);"),
    (7, "task [freq=1] ^t(1, f, 1);"),
    (7, "task [freq=1] ^t(f);"),
    (5, "task [freq=1] t(^f, f);"),
    (5, "task [freq=1] t(1, ^s);"),
    (5, "task [freq=1] t(1, f) if ^s;"),
    (5, "update [freq=1] v := ^s;"),
    (5, "update [freq=1] v := f if ^(1);"),
    (5, "switch [freq=1] to n if ^s;"),
    (8, "task [freq=1] t(^9223372036854775808, f);"),
    (8, "task [freq=1] t(-9223372036854775807 - 1, f);"),
    (8, "task [freq=1] t(-^9223372036854775808, f);"),
];

// Arguments could be compared with all ports of the task, whose inputs stand between others.
#[test]
fn arguments(rt: HostRuntime) -> Result<(), Fail> {
    let form = "module M { sensor boolean f; sensor int s; actuator boolean v;
      task t [wcet=1us] { output boolean o; input int a; local int l; input boolean b; }
      mode n [period=1ms] { } start mode m [period=1ms] { # } }";
    try_parts(&rt, rt.alloc(), form, &ARGUMENTS)
}
