use crate::Initial;
use tdl_base::{Listed, ModuleId, Text};
use tdl_ecode::Block;

/// What a node keeps of a module that is hosted elsewhere.
#[derive(Debug, Drop)]
pub struct Stub {
    pub number: ModuleId,
    pub name: Text,
    /// The module's public tasks, in ascending order of their numbers.
    pub tasks: Listed<StubTask>,
    /// What to do with the frames of the module.
    pub entries: Listed<Receive>,
    pub blocks: Listed<Block>,
}

/// A task of a module that is hosted elsewhere.
#[derive(Debug, Drop)]
pub struct StubTask {
    /// The task's number in its module.
    pub number: u16,
    pub name: Text,
    pub outputs: Listed<Initial>,
}

/// The frame of an invocation of a mode: whose outputs it has, and when they are taken over.
#[derive(Clone, Copy, Debug, PartialEq, Eq)]
pub struct Receive {
    pub mode: u16,
    pub invocation: u16,
    /// The task's number in its module.
    pub task: u16,
    /// The microseconds from the frame's arrival to the run of the block.
    pub delta: u32,
    /// The number of the stub's block that takes the outputs over.
    pub block: u32,
}
