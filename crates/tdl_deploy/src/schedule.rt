use tdl_base::{Listed, ModeId, ModuleId};

/// What is reserved when, in order of the text.
#[derive(Debug, Drop)]
pub struct Schedule {
    pub windows: Listed<Window>,
}

/// A window of an invocation on the processor of its module's node, or on the bus, in microseconds
/// from the start of the module's cycle.
#[derive(Clone, Copy, Debug, PartialEq, Eq)]
pub struct Window {
    pub resource: Resource,
    pub module: ModuleId,
    pub mode: ModeId,
    /// The number of the invocation in its mode, from 1.
    pub invocation: u16,
    pub offset: u32,
    pub length: u32,
}

/// What a window reserves.
#[derive(Clone, Copy, Debug, PartialEq, Eq)]
pub enum Resource {
    Cpu,
    Bus,
}
