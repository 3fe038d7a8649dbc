//! Two small sources, for the tests: `far`, and `near`, which imports it.
ghost use Rattle.std.specs.Prelude.{◌≡◌, ◌≤◌, [], true, length, IfOk};
ghost use Rattle.tdl_base.specs.declared.limits.TheConstants.{SOURCES};
ghost use Rattle.tdl_tree.specs.declared.declarations.Decl.TheVariants.{Mode, Sensor};
ghost use Rattle.tdl_rules.specs.Faults.{faults};
ghost use Rattle.tdl_program.specs.Examples as words;
ghost use Rattle.tdl_resolve.specs.Examples as examples;

use std::alloc::Global;
use tdl_base::{Kind, Listed, NoMemory, Text};
use tdl_tree::{Decl, Id, Lit, LitValue, Num, PortDecl, Sort, Time, Tree, Unit};

pub(crate) fn id(alloc: Global, text: &str) -> Result<Id, NoMemory>
    ensures { IfOk result (λ x. x ≡ words.named text.now) }
{
    Ok(Id {
        text: Text::from_str(alloc, text)?,
        line: 1,
        col: 1,
    })
}

pub(crate) fn number(value: u64) -> Num
    ensures { result ≡ words.number value }
{
    Num {
        value,
        line: 1,
        col: 1,
    }
}

pub(crate) fn literal(value: u64) -> Lit
    ensures { result ≡ words.literal value }
{
    Lit {
        line: 1,
        col: 1,
        value: LitValue::Number {
            minus: false,
            number: number(value),
        },
    }
}

fn micros(value: u64) -> Time
    ensures { result ≡ words.micros value }
{
    Time {
        number: number(value),
        unit: Unit::Us,
    }
}

fn port(
    alloc: Global,
    sort: Sort,
    kind: Kind,
    text: &str,
    initial: Option<Lit>,
) -> Result<PortDecl, NoMemory>
    ensures { IfOk result (λ p. p
        ≡ record { sort = sort; kind = kind; name = words.named text.now; initial = initial }) }
{
    Ok(PortDecl {
        sort,
        kind,
        name: id(alloc, text)?,
        initial,
    })
}

fn start_mode(alloc: Global, text: &str, period: u64) -> Result<Decl, NoMemory>
    ensures { IfOk result (λ d. d ≡ Mode true (words.named text.now) (words.micros period) []) }
{
    Ok(Decl::Mode {
        start: true,
        name: id(alloc, text)?,
        period: micros(period),
        acts: Listed::new(alloc),
    })
}

fn far(alloc: Global) -> Result<Tree, NoMemory>
    ensures { IfOk result (λ tree. tree ≡ examples.far) }
{
    let output = port(alloc, Sort::Output, Kind::Int, "o", Some(literal(5)))?;
    let mut decls = Listed::only(
        alloc,
        Decl::Const {
            public: true,
            kind: Kind::Int,
            name: id(alloc, "top")?,
            value: literal(7),
        },
    )?;
    decls.push(Decl::Task {
        public: true,
        name: id(alloc, "feed")?,
        worst: micros(2),
        ports: Listed::only(alloc, output)?,
        body: Listed::new(alloc),
    })?;
    decls.push(start_mode(alloc, "only", 8)?)?;
    Ok(Tree {
        name: id(alloc, "far")?,
        imports: Listed::new(alloc),
        decls,
    })
}

fn mix_ports(alloc: Global) -> Result<Listed<PortDecl>, NoMemory>
    ensures { IfOk result (λ ports. ports ≡ words.mix_ports) }
{
    let local = port(alloc, Sort::Local, Kind::Int, "l", None)?;
    let mut ports = Listed::only(alloc, local)?;
    ports.push(port(alloc, Sort::Output, Kind::Long, "o", Some(literal(4)))?)?;
    ports.push(port(alloc, Sort::Input, Kind::Int, "a", None)?)?;
    ports.push(port(alloc, Sort::Output, Kind::Int, "p", None)?)?;
    ports.push(port(alloc, Sort::Input, Kind::Boolean, "b", None)?)?;
    Ok(ports)
}

fn sensor(alloc: Global, kind: Kind, text: &str) -> Result<Decl, NoMemory>
    ensures { IfOk result (λ d. d ≡ Sensor kind (words.named text.now)) }
{
    Ok(Decl::Sensor {
        kind,
        name: id(alloc, text)?,
    })
}

fn near(alloc: Global) -> Result<Tree, NoMemory>
    ensures { IfOk result (λ tree. tree ≡ examples.near) }
{
    let mut decls = Listed::only(alloc, sensor(alloc, Kind::Int, "level")?)?;
    decls.push(Decl::Task {
        public: false,
        name: id(alloc, "mix")?,
        worst: micros(3),
        ports: mix_ports(alloc)?,
        body: Listed::new(alloc),
    })?;
    decls.push(sensor(alloc, Kind::Boolean, "on")?)?;
    decls.push(start_mode(alloc, "work", 12)?)?;
    Ok(Tree {
        name: id(alloc, "near")?,
        imports: Listed::only(alloc, id(alloc, "far")?)?,
        decls,
    })
}

// Both sources.
pub(crate) fn both(alloc: Global) -> Result<Listed<Tree>, NoMemory>
    ensures kept { IfOk result (λ trees. faults trees ≡ []) }
    ensures few { IfOk result (λ trees. length trees ≤ SOURCES) }
{
    let mut trees = Listed::only(alloc, far(alloc)?)?;
    trees.push(near(alloc)?)?;
    Ok(trees)
}
