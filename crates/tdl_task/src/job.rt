use tdl_base::{Kind, Listed, ModeId};

/// A job: its mode, the number of its invocation there, and how many microseconds it takes.
#[derive(Clone, Copy, Debug, PartialEq, Eq)]
pub struct Job {
    pub mode: ModeId,
    pub invocation: u16,
    pub exec: u64,
}

/// The kinds of a task's inputs, outputs and locals.
#[derive(Debug, Drop)]
pub struct TaskShape {
    pub inputs: Listed<Kind>,
    pub outputs: Listed<Kind>,
    pub locals: Listed<Kind>,
}
