use crate::{SyntaxError, parse};
use std::alloc::Global;
use std::test::Fail;
use tdl_base::limits::SOURCE_BYTES;
use tdl_scan::scan;

/// Sources that are none, each with the place of its fault.
const FAULTS: [(&str, &str, u32, u32); 29] = [
    ("no bytes", "", 1, 1),
    ("no name", "module ;", 1, 8),
    ("an end in the source", "module P {", 1, 11),
    ("an end after a line feed", "module P {\n", 2, 1),
    ("an end after a comment", "module P { // x", 1, 16),
    ("a word after the source", "module P { } x", 1, 14),
    ("no semicolon", "module P { sensor int s }", 1, 25),
    ("no kind", "module P { sensor s; }", 1, 19),
    (
        "a public sensor",
        "module P { public sensor int s; }",
        1,
        19,
    ),
    (
        "a start task",
        "module P { start task t [wcet=1us] { } }",
        1,
        18,
    ),
    (
        "a late import",
        "module P { sensor int s; import Q; }",
        1,
        26,
    ),
    ("two minus", "module P { const int c = --1; }", 1, 27),
    (
        "a minus and a truth",
        "module P { const boolean c = -true; }",
        1,
        31,
    ),
    (
        "a unit that is none",
        "module P { task t [wcet=1m] { } }",
        1,
        26,
    ),
    (
        "a lone else",
        "module P { task t [wcet=1us] { else { } } }",
        1,
        32,
    ),
    (
        "a second else",
        "module P { task t [wcet=1us] { if a { } else { } else { } } }",
        1,
        50,
    ),
    (
        "an else without braces",
        "module P { task t [wcet=1us] { if a { } else if b { } } }",
        1,
        46,
    ),
    (
        "a counted name",
        "module P { task t [wcet=1us] { repeat n { } } }",
        1,
        39,
    ),
    (
        "a late port",
        "module P { task t [wcet=1us] { a := 1; input int b; } }",
        1,
        40,
    ),
    (
        "an input with a literal",
        "module P { task t [wcet=1us] { input int a := 1; } }",
        1,
        44,
    ),
    (
        "two comparisons",
        "module P { task t [wcet=1us] { a := 1 < 2 < 3; } }",
        1,
        43,
    ),
    (
        "an operator at the end",
        "module P { task t [wcet=1us] { a := 1 + ; } }",
        1,
        41,
    ),
    (
        "an open parenthesis",
        "module P { task t [wcet=1us] { a := (1; } }",
        1,
        39,
    ),
    (
        "a name of four parts",
        "module P { mode m [period=1ms] { update [freq=1] a := a.b.c.d; } }",
        1,
        60,
    ),
    (
        "freq misspelt",
        "module P { mode m [period=1ms] { update [frq=1] a := 1; } }",
        1,
        42,
    ),
    (
        "no slots",
        "module P { mode m [period=1ms] { update [freq=1, slots=] a := 1; } }",
        1,
        56,
    ),
    (
        "a comma before the end",
        "module P { mode m [period=1ms] { task [freq=1] t(1,); } }",
        1,
        52,
    ),
    (
        "a switch without to",
        "module P { mode m [period=1ms] { switch [freq=1] n; } }",
        1,
        50,
    ),
    (
        "a guard before the value",
        "module P { mode m [period=1ms] { update [freq=1] a if b := 1; } }",
        1,
        52,
    ),
];

/// Sources.
const SOURCES: [(&str, &str); 12] = [
    ("nothing in it", "module P { }"),
    ("units as names", "module us { import ms; import s; }"),
    (
        "what is used",
        "module P { sensor int s uses t; actuator int a := -1 uses b; }",
    ),
    (
        "literals",
        "module P { const byte c = 99999999999999999999; public const boolean d = false; }",
    ),
    (
        "signs before signs",
        "module P { task t [wcet=1us] { a := - - 1; b := !!c; d := -!-(1); } }",
    ),
    (
        "all operators",
        "module P { task t [wcet=1us] {
          a := (a + b) * c - d / e % f < (1 <= 2) || true && x != y || (z >= 1) == (w > 2); } }",
    ),
    (
        "slots and guards",
        "module P { mode m [period=1s] { task [freq=4, slots=1-2, 4] t(a, b.c.d) if a;
          update [freq=2] q := -r if !b; switch [freq=1] to m if (c); task [freq=1] t(); } }",
    ),
    (
        "ports and blocks",
        "module P { public task inc [wcet=200us] { input int a; output int o := 10; local long l;
          if a == o { o := o + a; } else { repeat 3 { l := l * 2; } } } }",
    ),
    (
        "a task without a body",
        "module H { task t [wcet=10us] { } start mode a [period=10ms] { task [freq=1] t();
          switch [freq=2] to b; } mode b [period=10ms] { } }",
    ),
    (
        "a gyro",
        "module Gyro { sensor int raw uses gyro_raw; public const int scale = 4;
          public task read [wcet=300us] { input int r; output int rate; rate := r * scale; }
          start mode run [period=5ms] { task [freq=1] read(raw); } }",
    ),
    (
        "an estimator",
        "module Est { import Gyro; public task filter [wcet=900us] {
          input int rate; output int est; output boolean slow;
          est := (est + rate) / 2; slow := est < 50 && est > -50; }
          start mode run [period=10ms] { task [freq=1] filter(Gyro.read.rate); } }",
    ),
    (
        "a controller",
        "module Ctl { import Est; actuator int torque; task law [wcet=1ms] {
          input int e; input int gain; output int u; u := -(e * gain) / 10; }
          start mode detumble [period=10ms] { task [freq=1] law(Est.filter.est, 8);
            update [freq=1] torque := law.u; switch [freq=1] to point if Est.filter.slow; }
          mode point [period=20ms] { task [freq=2] law(Est.filter.est, 2);
            update [freq=2] torque := law.u; switch [freq=1] to detumble if !Est.filter.slow; } }",
    ),
];

/// The words that are no names.
const RESERVED: [&str; 30] = [
    "module", "import", "public", "const", "sensor", "actuator", "task", "input", "output",
    "local", "if", "else", "repeat", "start", "mode", "period", "wcet", "freq", "slots", "update",
    "switch", "to", "true", "false", "uses", "boolean", "byte", "short", "int", "long",
];

/// The place of the fault, `None` where the source has a tree; 0:0 where memory or the length is
/// wanting, or a token.
fn fault(alloc: Global, source: &str) -> Option<(u32, u32)> {
    let source = source.as_bytes();
    if source.len() > SOURCE_BYTES {
        return Some((0, 0));
    }
    let Ok(tokens) = scan(alloc, source) else {
        return Some((0, 0));
    };
    match parse(alloc, source, tokens.as_slice()) {
        Ok(_tree) => None,
        Err(SyntaxError::BadSyntax { line, col }) => Some((line, col)),
        Err(SyntaxError::NoMemory) => Some((0, 0)),
    }
}

#[test]
fn places_of_faults(rt: HostRuntime) {
    for (what, source, line, col) in FAULTS {
        assert_eq!(rt; fault(rt.alloc(), source), Some((line, col)), "{what}");
    }
}

#[test]
fn trees(rt: HostRuntime) {
    for (what, source) in SOURCES {
        assert_eq!(rt; fault(rt.alloc(), source), None, "{what}");
    }
}

#[test]
fn reserved_words(rt: HostRuntime) -> Result<(), Fail> {
    for word in RESERVED {
        let source = format!(in rt.alloc(); "module {word} {{ }}")?;
        assert_eq!(rt; fault(rt.alloc(), source.as_str()), Some((1, 8)), "{word}");
    }
    Ok(())
}

#[test]
fn limits(rt: HostRuntime) -> Result<(), Fail> {
    let head = "module P { task t [wcet=1us] { ";
    let rows = [
        ("512 words", "a := -", "1 + ", 255, "1;", "", None),
        ("513 words", "a := ", "1 + ", 256, "1;", "", Some((1, 1061))),
        ("16 blocks", "", "repeat 1 { ", 16, "", "} ", None),
        ("17 blocks", "", "repeat 1 { ", 17, "", "} ", Some((1, 217))),
    ];
    for (what, begin, part, times, middle, close, want) in rows {
        let mut source = String::new(rt.alloc());
        source.push_str(head)?;
        source.push_str(begin)?;
        for _ in 0..times {
            source.push_str(part)?;
        }
        source.push_str(middle)?;
        for _ in 0..times {
            source.push_str(close)?;
        }
        source.push_str(" } }")?;
        assert_eq!(rt; fault(rt.alloc(), source.as_str()), want, "{what}");
    }
    Ok(())
}
