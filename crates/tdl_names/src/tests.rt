use crate::{Scope, found_in, sources_of};
use std::alloc::Global;
use std::test::Fail;
use tdl_base::{Kind, Listed, NoMemory, Text};
use tdl_rules::{Found, Target};
use tdl_tree::{Decl, Id, Lit, LitValue, Num, PortDecl, Sort, Time, Tree, Unit};

fn id(alloc: Global, text: &str) -> Result<Id, NoMemory> {
    Ok(Id {
        text: Text::from_str(alloc, text)?,
        line: 1,
        col: 8,
    })
}

const SEVEN: Num = Num {
    value: 7,
    line: 2,
    col: 24,
};

/// `module A { public const int x = 7; sensor int s; }`
fn exporter(alloc: Global) -> Result<Tree, NoMemory> {
    let mut decls = Listed::new(alloc);
    decls.push(Decl::Const {
        public: true,
        kind: Kind::Int,
        name: id(alloc, "x")?,
        value: Lit {
            line: 2,
            col: 24,
            value: LitValue::Number {
                minus: false,
                number: SEVEN,
            },
        },
    })?;
    decls.push(Decl::Sensor {
        kind: Kind::Int,
        name: id(alloc, "s")?,
    })?;
    Ok(Tree {
        name: id(alloc, "A")?,
        imports: Listed::new(alloc),
        decls,
    })
}

/// `module B { import A; task t wcet 7 us { output int o; } }`
fn importer(alloc: Global) -> Result<Tree, NoMemory> {
    let port = PortDecl {
        sort: Sort::Output,
        kind: Kind::Int,
        name: id(alloc, "o")?,
        initial: None,
    };
    let task = Decl::Task {
        public: false,
        name: id(alloc, "t")?,
        worst: Time {
            number: SEVEN,
            unit: Unit::Us,
        },
        ports: Listed::only(alloc, port)?,
        body: Listed::new(alloc),
    };
    Ok(Tree {
        name: id(alloc, "B")?,
        imports: Listed::only(alloc, id(alloc, "A")?)?,
        decls: Listed::only(alloc, task)?,
    })
}

/// What a name of one or two parts means.
fn found(
    alloc: Global,
    scope: &Scope,
    first: &str,
    second: Option<&str>,
) -> Result<Found, NoMemory> {
    let mut parts = Listed::only(alloc, id(alloc, first)?)?;
    if let Some(text) = second {
        parts.push(id(alloc, text)?)?;
    }
    Ok(found_in(scope, parts.as_slice()))
}

// Tables could always ask for memory in vain, and no name would ever be found.
#[test]
fn names_of_two_sources(rt: HostRuntime) -> Result<(), Fail> {
    let alloc = rt.alloc();
    let trees = [exporter(alloc)?, importer(alloc)?];
    let sources = sources_of(alloc, &trees)?;
    let Some(scope) = sources.scope(1) else {
        panic!(rt; "no second source");
    };
    let constant = found(alloc, &scope, "A", Some("x"))?;
    assert!(rt;
        matches!(
            constant,
            Found::Is {
                target: Target::Fixed(_),
                ..
            }
        ),
        "A.x"
    );
    let sensor = found(alloc, &scope, "A", Some("s"))?;
    assert!(rt; matches!(sensor, Found::Lost { rule: 4, .. }), "A.s");
    let output = found(alloc, &scope, "t", Some("o"))?;
    assert!(rt;
        matches!(
            output,
            Found::Is {
                target: Target::Output {
                    module: 1,
                    task: 0,
                    port: 0
                },
                ..
            }
        ),
        "t.o"
    );
    let nothing = found(alloc, &scope, "x", None)?;
    assert!(rt; matches!(nothing, Found::Lost { rule: 3, .. }), "x");
    Ok(())
}
