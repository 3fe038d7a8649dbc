ghost use Rattle.std.specs.Prelude.{◌≡◌, ◌++◌, [], ◌∷◌, map, if◌then◌else◌, IfOk, OnOk};
ghost use Rattle.tdl_rules.specs.Lists.{each};
ghost use Rattle.tdl_program.specs.Ordinals as ordinals;
ghost use Rattle.tdl_program.specs.Programs as programs;
ghost use Rattle.tdl_compose.specs.Bounds.{KeepsBounds};

use crate::home::Home;
use crate::names::copied;
use std::alloc::Global;
use tdl_base::{Listed, NoMemory, Us};
use tdl_mode::{PortDef, Task};
use tdl_names::Entry;
use tdl_resolve::initial_of;
use tdl_times::capped_us;
use tdl_tree::{Decl, PortDecl, Sort};

/// Whether a port is of a sort.
fn is_sort(wanted: Sort, port: &PortDecl) -> bool
    ensures { result ≡ ordinals.is_sort wanted port.now.sort }
{
    matches!(
        (wanted, port.sort),
        (Sort::Input, Sort::Input) | (Sort::Output, Sort::Output) | (Sort::Local, Sort::Local)
    )
}

/// A port of a task.
fn port_of(alloc: Global, port: &PortDecl) -> Result<PortDef, NoMemory>
    ensures { IfOk result (λ made. made ≡ programs.port_of port.now) }
{
    Ok(PortDef {
        kind: port.kind,
        name: copied(alloc, &port.name)?,
        initial: initial_of(port.kind, &port.initial),
    })
}

/// The ports of a sort, in order.
fn ports_of(alloc: Global, wanted: Sort, ports: &[PortDecl]) -> Result<Listed<PortDef>, NoMemory>
    ensures { IfOk result (λ list. list ≡
        map programs.port_of (ordinals.ports_of wanted ports.now)) }
{
    let mut list = Listed::new(alloc);
    for port in ports {
        if is_sort(wanted, port) {
            list.push(port_of(alloc, port)?)?;
        }
    }
    Ok(list)
}

/// Appends a task, where the declaration is one.
fn put_task(
    alloc: Global,
    home: &Home,
    entry: &Entry,
    into: &mut Listed<Task>,
) -> Result<(), NoMemory>
    requires { KeepsBounds entry.now }
    ensures { OnOk result (into.new ≡ into.old ++ programs.tasks_in home.now entry.now) }
{
    let Decl::Task {
        public,
        name,
        worst,
        ports,
        body,
    } = entry.decl()
    else {
        return Ok(());
    };
    into.push(Task {
        name: copied(alloc, name)?,
        public: *public,
        worst: Us(capped_us(worst)),
        inputs: ports_of(alloc, Sort::Input, ports.as_slice())?,
        outputs: ports_of(alloc, Sort::Output, ports.as_slice())?,
        locals: ports_of(alloc, Sort::Local, ports.as_slice())?,
        body: home.body(alloc, entry.ports(), body.as_slice())?,
    })
}

/// The tasks of a module.
pub(crate) fn tasks_of(alloc: Global, home: &Home) -> Result<Listed<Task>, NoMemory>
    ensures { IfOk result (λ list. list ≡
        each (programs.tasks_in home.now) home.now.tree.decls) }
{
    let mut list = Listed::new(alloc);
    for number in 0..home.tree().decls.len() {
        let Some(entry) = home.entry(number) else {
            return Ok(list);
        };
        put_task(alloc, home, &entry, &mut list)?;
    }
    Ok(list)
}
