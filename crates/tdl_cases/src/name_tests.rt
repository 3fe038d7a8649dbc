//! Names: spaces, imports, and what the parts of a name are looked for in.

use crate::verdict::{try_part, try_parts, try_sources};
use std::alloc::Global;
use std::process::Abort;
use std::test::Fail;

const A: &str = "module A { public const int k = 1; const int h = 2; sensor int s;
  public task p [wcet=1us] { input int i; output int o; local int l; }
  task q [wcet=1us] { output int o; } start mode m [period=1ms] { } }";

const B: &str = "module B { start mode m [period=1ms] { } }";

const IMPORTS: [(u8, &[&str]); 8] = [
    (
        2,
        &[
            A,
            B,
            "module M { import A; import B; start mode m [period=1ms] { } }",
        ],
    ),
    (
        2,
        &[
            A,
            "module M { import ^B; start mode m [period=1ms] { } }",
            B,
        ],
    ),
    (
        2,
        &[
            A,
            "module M { import A; import ^M; start mode m [period=1ms] { } }",
        ],
    ),
    (
        1,
        &[
            A,
            "module M { import A; import ^A; start mode m [period=1ms] { } }",
        ],
    ),
    (
        1,
        &[
            A,
            "module M { import A; sensor int ^A; start mode m [period=1ms] { } }",
        ],
    ),
    (1, &[A, B, "module ^A { start mode m [period=1ms] { } }"]),
    (
        1,
        &[
            A,
            "module M { sensor int A; sensor int M; start mode m [period=1ms] { } }",
        ],
    ),
    (
        2,
        &[
            "module M { import ^A; actuator int v;
       start mode m [period=1ms] { update [freq=1] v := A.x; } }",
            A,
        ],
    ),
];

// A module could be imported from a later source, from itself, or from the source before alone.
#[test]
fn imports(rt: HostRuntime) -> Result<(), Fail> {
    for (rule, texts) in IMPORTS {
        try_sources(&rt, rt.alloc(), rule, texts)?;
    }
    Ok(())
}

const SPACES: [(u8, &str); 8] = [
    (1, "task t [wcet=1us] { input int t; output int s; }"),
    (
        1,
        "task t [wcet=1us] { input int a; output int b; local int ^a; }",
    ),
    (
        1,
        "task t [wcet=1us] { local int a; } task u [wcet=1us] { local int a; }",
    ),
    (
        1,
        "public const int k = 1; const int ^k = 1; const int k = 1;",
    ),
    // A port comes before a constant.
    (
        5,
        "const boolean a = true; task t [wcet=1us] { local int a; local int o; o := a; }",
    ),
    // The first declaration is meant.
    (
        5,
        "mode z [period=1ms] { switch [freq=1] to n if ^k; }
       const int k = 1; const boolean k = true;",
    ),
    (
        1,
        "mode z [period=1ms] { switch [freq=1] to n if k; }
       const boolean k = true; const int ^k = 1;",
    ),
    (
        3,
        "mode z [period=1ms] { task [freq=1] ^y(); } mode y [period=1ms] { } task y [wcet=1us] { }",
    ),
];

// The last declaration of a name could be meant, or the one of the right sort.
#[test]
fn spaces(rt: HostRuntime) -> Result<(), Fail> {
    let form = "module M { # mode n [period=1ms] { } start mode m [period=1ms] { } }";
    try_parts(&rt, rt.alloc(), form, &SPACES)
}

const X: &str = "module X { import A; start mode m [period=1ms] { } }";

// Asks of a source after A and X, a form with the part.
fn try_importing(
    rt: &impl Abort,
    alloc: Global,
    form: &str,
    rule: u8,
    part: &str,
) -> Result<(), Fail> {
    let source = form.replace(alloc, '#', part)?;
    try_sources(rt, alloc, rule, &[A, X, source.as_str()])
}

const IMPORTED: [(u8, &str); 16] = [
    (4, "A.k"),
    (4, "A.^h"),
    (4, "A.^s"),
    (4, "A.^p"),
    (4, "A.^m"),
    (3, "A.^x"),
    (4, "A.p.o"),
    (4, "A.^q.o"),
    (4, "A.^k.o"),
    (3, "A.^x.o"),
    (3, "A.p.^x"),
    (3, "A.p.^i"),
    (3, "A.p.^l"),
    (4, "X.^A"),
    (4, "X.^A.k"),
    (3, "^A"),
];

// What is public could be told from what is not by its name alone, or an import be handed on.
#[test]
fn imported_names(rt: HostRuntime) -> Result<(), Fail> {
    let form = "module M { import A; import X; actuator int v;
      start mode m [period=1ms] { update [freq=1] v := #; } }";
    for (rule, part) in IMPORTED {
        try_importing(&rt, rt.alloc(), form, rule, part)?;
    }
    Ok(())
}

const IN_BODY: [(u8, &str); 9] = [
    (4, "A.k"),
    (4, "A.^h"),
    (3, "A.^x"),
    (3, "^A.p.o"),
    (3, "^t.o"),
    (3, "^s"),
    (3, "c"),
    (3, "i"),
    (3, "o"),
];

// A body could read a sensor or another task.
#[test]
fn names_in_a_body(rt: HostRuntime) -> Result<(), Fail> {
    let form = "module M { import A; sensor int s; const int c = 1;
      task t [wcet=1us] { input int i; output int o; o := #; } start mode m [period=1ms] { } }";
    for (rule, part) in IN_BODY {
        try_importing(&rt, rt.alloc(), form, rule, part)?;
    }
    Ok(())
}

const OWN: [(u8, &str); 16] = [
    (3, "update [freq=1] v := s;"),
    (3, "update [freq=1] v := c;"),
    (3, "update [freq=1] v := t.o;"),
    (3, "update [freq=1] v := t.^i;"),
    (3, "update [freq=1] v := t.^x;"),
    (3, "update [freq=1] v := ^t;"),
    (3, "update [freq=1] v := ^v;"),
    (3, "update [freq=1] v := ^m;"),
    (3, "update [freq=1] v := ^x.o;"),
    (3, "update [freq=1] v := ^s.o;"),
    (3, "update [freq=1] v := ^t.o.o;"),
    (3, "update [freq=1] ^s := 1;"),
    (3, "task [freq=1] ^n();"),
    (3, "task [freq=1] ^x();"),
    (3, "switch [freq=1] to ^t;"),
    (3, "switch [freq=1] to n;"),
];

// An activity could name a part of another sort; an actuator, an input or a local could be read.
#[test]
fn own_names(rt: HostRuntime) -> Result<(), Fail> {
    let form = "module M { start mode m [period=1ms] { # } mode n [period=1ms] { }
      sensor int s; actuator int v; const int c = 1;
      task t [wcet=1us] { input int i; output int o; } }";
    for (rule, part) in OWN {
        try_part(&rt, rt.alloc(), form, rule, part)?;
    }
    Ok(())
}
