/// An instant or a duration, in whole microseconds.
#[derive(Clone, Copy, Debug, PartialEq, Eq, PartialOrd, Ord, Hash)]
pub struct Us(pub u64);

/// A node, numbered from 0 in order of declaration.
#[derive(Clone, Copy, Debug, PartialEq, Eq, PartialOrd, Ord, Hash)]
pub struct NodeId(pub u16);

/// The first node: the only one of a bundle of one image.
pub const FIRST_NODE: NodeId = NodeId(0);

/// A module, by its place among the sources, from 0.
#[derive(Clone, Copy, Debug, PartialEq, Eq, PartialOrd, Ord, Hash)]
pub struct ModuleId(pub u16);

/// A mode of a module, numbered from 0 in order of declaration.
#[derive(Clone, Copy, Debug, PartialEq, Eq, PartialOrd, Ord, Hash)]
pub struct ModeId(pub u16);

/// A task of a module, numbered from 0 in order of declaration.
#[derive(Clone, Copy, Debug, PartialEq, Eq, PartialOrd, Ord, Hash)]
pub struct TaskId(pub u16);

/// An output of a task.
#[derive(Clone, Copy, Debug, PartialEq, Eq, PartialOrd, Ord, Hash)]
pub struct PortKey {
    pub module: ModuleId,
    pub task: TaskId,
    pub output: u16,
}

/// What an expression reads: a sensor of its module, an output, or a cell of its job (the task's
/// inputs, then its outputs, then its locals).
#[derive(Clone, Copy, Debug, PartialEq, Eq)]
pub enum Place {
    Sensor(u16),
    Port(PortKey),
    Cell(u16),
}
