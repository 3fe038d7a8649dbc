ghost use Rattle.std.specs.Prelude.{◌≡◌, ◌++◌, IfOk, OnOk};
ghost use Rattle.tdl_rules.specs.Lists.{each};
ghost use Rattle.tdl_program.specs.Programs as programs;

use crate::names::copied;
use std::alloc::Global;
use tdl_base::{Listed, NoMemory};
use tdl_mode::{Constant, PortDef};
use tdl_resolve::{initial_of, literal_of};
use tdl_tree::Decl;

/// Appends a constant, where the declaration is one.
fn put_constant(alloc: Global, decl: &Decl, into: &mut Listed<Constant>) -> Result<(), NoMemory>
    ensures { OnOk result (into.new ≡ into.old ++ programs.constants_in decl.now) }
{
    let Decl::Const {
        public,
        kind,
        name,
        value,
    } = decl
    else {
        return Ok(());
    };
    into.push(Constant {
        public: *public,
        kind: *kind,
        name: copied(alloc, name)?,
        value: literal_of(*kind, value),
    })
}

/// The constants of a module.
pub(crate) fn constants_of(alloc: Global, decls: &[Decl]) -> Result<Listed<Constant>, NoMemory>
    ensures { IfOk result (λ list. list ≡ each programs.constants_in decls.now) }
{
    let mut list = Listed::new(alloc);
    for decl in decls {
        put_constant(alloc, decl, &mut list)?;
    }
    Ok(list)
}

/// Appends a sensor, where the declaration is one.
fn put_sensor(alloc: Global, decl: &Decl, into: &mut Listed<PortDef>) -> Result<(), NoMemory>
    ensures { OnOk result (into.new ≡ into.old ++ programs.sensors_in decl.now) }
{
    let Decl::Sensor { kind, name } = decl else {
        return Ok(());
    };
    into.push(PortDef {
        kind: *kind,
        name: copied(alloc, name)?,
        initial: 0,
    })
}

/// The sensors of a module.
pub(crate) fn sensors_of(alloc: Global, decls: &[Decl]) -> Result<Listed<PortDef>, NoMemory>
    ensures { IfOk result (λ list. list ≡ each programs.sensors_in decls.now) }
{
    let mut list = Listed::new(alloc);
    for decl in decls {
        put_sensor(alloc, decl, &mut list)?;
    }
    Ok(list)
}

/// Appends an actuator, where the declaration is one.
fn put_actuator(alloc: Global, decl: &Decl, into: &mut Listed<PortDef>) -> Result<(), NoMemory>
    ensures { OnOk result (into.new ≡ into.old ++ programs.actuators_in decl.now) }
{
    let Decl::Actuator {
        kind,
        name,
        initial,
    } = decl
    else {
        return Ok(());
    };
    into.push(PortDef {
        kind: *kind,
        name: copied(alloc, name)?,
        initial: initial_of(*kind, initial),
    })
}

/// The actuators of a module.
pub(crate) fn actuators_of(alloc: Global, decls: &[Decl]) -> Result<Listed<PortDef>, NoMemory>
    ensures { IfOk result (λ list. list ≡ each programs.actuators_in decls.now) }
{
    let mut list = Listed::new(alloc);
    for decl in decls {
        put_actuator(alloc, decl, &mut list)?;
    }
    Ok(list)
}
