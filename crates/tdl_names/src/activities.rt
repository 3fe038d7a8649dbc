ghost use Rattle.std.specs.Prelude.{◌≡◌, option_map};
ghost use Rattle.tdl_rules.specs.Naming as naming;
ghost use Rattle.tdl_names.specs.Seen.{seen};

use crate::{Meant, Module, Scope, meaning_of};
use std::marker::Model;
use tdl_base::Kind;
use tdl_tree::{ActKind, Decl, Id, PortDecl, Sort, Time};

/// A declared task: its declaration's number from 0, its worst case and its ports.
#[derive(Drop)]
pub struct TaskMeant<'a> {
    pub number: usize,
    pub worst: Time,
    pub ports: &'a [PortDecl],
}

impl<'a> Model for TaskMeant<'a> {
    ghost use Rattle.tdl_rules.specs.Naming.{TaskMeant as Task};

    ghost Value = { Task };

    ghost view = { λ t. record { number = t.number; worst = t.worst; ports = t.ports.now } };
}

/// The task that a name of a module means.
pub fn task_of<'a>(home: &Module<'a>, id: &Id) -> Option<TaskMeant<'a>>
    ensures { result ≡ naming.as_task (naming.meant home.now id.now.text) }
{
    let Some(Meant::Says(number, entry)) = meaning_of(home, id.text.as_str()) else {
        return None;
    };
    match entry.decl() {
        Decl::Task { worst, ports, .. } => Some(TaskMeant {
            number,
            worst: *worst,
            ports: ports.as_slice(),
        }),
        _ => None,
    }
}

/// The actuator that a name of a module means: its declaration's number from 0, and its kind.
pub fn actuator_of(home: &Module, id: &Id) -> Option<(usize, Kind)>
    ensures { result ≡ naming.as_actuator (naming.meant home.now id.now.text) }
{
    let Some(Meant::Says(number, entry)) = meaning_of(home, id.text.as_str()) else {
        return None;
    };
    match entry.decl() {
        Decl::Actuator { kind, .. } => Some((number, *kind)),
        _ => None,
    }
}

/// The mode that a name of a module means: its declaration's number from 0.
pub fn mode_of(home: &Module, id: &Id) -> Option<usize>
    ensures { result ≡ naming.as_mode (naming.meant home.now id.now.text) }
{
    let Some(Meant::Says(number, entry)) = meaning_of(home, id.text.as_str()) else {
        return None;
    };
    match entry.decl() {
        Decl::Mode { .. } => Some(number),
        _ => None,
    }
}

/// Whether an activity names what it needs: a task, an actuator, a mode.
pub fn is_meant(scope: &Scope, what: &ActKind) -> bool
    ensures { result ≡ naming.is_activity_meant scope.now what.now }
{
    match what {
        ActKind::Task { task, .. } => task_of(scope.module(), task).is_some(),
        ActKind::Update { actuator, .. } => actuator_of(scope.module(), actuator).is_some(),
        ActKind::Switch { target } => mode_of(scope.module(), target).is_some(),
    }
}

/// Whether a port is an input.
pub fn is_input(port: &PortDecl) -> bool
    ensures { result ≡ naming.is_input port.now }
{
    matches!(port.sort, Sort::Input)
}
