use crate::{Initial, KindName};
use tdl_base::{Kind, Listed, ModuleId, Text};
use tdl_ecode::Block;
use tdl_stack::Code;

/// A module that a node hosts, with all tables that its blocks refer to by number, from 0.
#[derive(Debug, Drop)]
pub struct Hosted {
    pub number: ModuleId,
    pub name: Text,
    pub sensors: Listed<KindName>,
    pub actuators: Listed<Initial>,
    pub tasks: Listed<TaskTable>,
    /// The names of the modes.
    pub modes: Listed<Text>,
    pub calls: Listed<CallEntry>,
    pub releases: Listed<ReleaseEntry>,
    /// The conditions of guarded activities, as expressions.
    pub guards: Listed<Code>,
    pub drivers: Listed<Driver>,
    /// When jobs run and frames are sent, in order of mode, invocation, resource and offset.
    pub windows: Listed<ImageWindow>,
    pub blocks: Listed<Block>,
    /// The number of the block that runs at instant 0.
    pub entry: u32,
}

/// A task of a hosted module.
#[derive(Debug, Drop)]
pub struct TaskTable {
    pub name: Text,
    /// The worst-case execution time, in microseconds.
    pub worst: u32,
    pub inputs: Listed<Kind>,
    pub outputs: Listed<Initial>,
    pub locals: Listed<Kind>,
    /// The code that a job runs on its cells: the inputs, then the outputs, then the locals.
    pub body: Code,
}

/// The call of a task, with an expression for each input.
#[derive(Debug, Drop)]
pub struct CallEntry {
    pub task: u16,
    pub args: Listed<Code>,
}

/// The invocation of a mode that a release begins, and the call that says its task and arguments.
#[derive(Clone, Copy, Debug, PartialEq, Eq)]
pub struct ReleaseEntry {
    pub mode: u16,
    pub invocation: u16,
    pub call: u16,
}

/// The update of an actuator with the number of an expression.
#[derive(Debug, Drop)]
pub struct Driver {
    pub actuator: u16,
    pub value: Code,
}

/// A window of an invocation, in microseconds from the start of the module's cycle.
#[derive(Clone, Copy, Debug, PartialEq, Eq)]
pub struct ImageWindow {
    /// Whether the window is one of the bus, in which the frame is sent, or one of the processor,
    /// in which the job runs.
    pub bus: bool,
    pub mode: u16,
    pub invocation: u16,
    pub offset: u32,
    pub length: u32,
}
