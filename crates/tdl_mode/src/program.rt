use tdl_base::{Kind, Listed, ModeId, ModuleId, TaskId, Text, Us};
use tdl_body::{Body, Expr};

/// The modules of a program, each at its number.
#[derive(Debug, Drop)]
pub struct Program {
    pub modules: Listed<Module>,
}

/// A module, which is placed as a whole. A part's number is its place in the text, from 0.
#[derive(Debug, Drop)]
pub struct Module {
    pub name: Text,
    pub imports: Listed<ModuleId>,
    pub constants: Listed<Constant>,
    pub sensors: Listed<PortDef>,
    pub actuators: Listed<PortDef>,
    pub tasks: Listed<Task>,
    pub modes: Listed<Mode>,
    pub start: ModeId,
}

#[derive(Debug, Drop)]
pub struct Constant {
    pub public: bool,
    pub kind: Kind,
    pub name: Text,
    pub value: i64,
}

/// A sensor, an actuator, an input, an output or a local, with the number that it begins with.
#[derive(Debug, Drop)]
pub struct PortDef {
    pub kind: Kind,
    pub name: Text,
    pub initial: i64,
}

/// A task with its worst case and its body over the cells: inputs, then outputs, then locals.
#[derive(Debug, Drop)]
pub struct Task {
    pub name: Text,
    pub public: bool,
    pub worst: Us,
    pub inputs: Listed<PortDef>,
    pub outputs: Listed<PortDef>,
    pub locals: Listed<PortDef>,
    pub body: Body,
}

/// A mode: what is done, and when, in each period.
#[derive(Debug, Drop)]
pub struct Mode {
    pub name: Text,
    pub period: Us,
    pub invocations: Listed<Invocation>,
    pub updates: Listed<Update>,
    pub switches: Listed<Switch>,
}

/// An invocation of a task with the logical execution time from `s` to `e`, offsets in the mode's
/// period. `act` is the number of its activity in the mode.
#[derive(Debug, Drop)]
pub struct Invocation {
    pub act: u16,
    pub task: TaskId,
    pub s: Us,
    pub e: Us,
    pub guard: Option<Expr>,
    pub args: Listed<Expr>,
}

/// An update of an actuator at an offset.
#[derive(Debug, Drop)]
pub struct Update {
    pub act: u16,
    pub actuator: u16,
    pub at: Us,
    pub value: Expr,
    pub guard: Option<Expr>,
}

/// A mode switch at an offset.
#[derive(Debug, Drop)]
pub struct Switch {
    pub act: u16,
    pub at: Us,
    pub target: ModeId,
    pub guard: Option<Expr>,
}
