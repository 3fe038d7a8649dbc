use tdl_base::{Kind, Listed, ModeId, ModuleId};

/// The frames of an invocation of a mode: whose outputs they carry, and of which kinds.
#[derive(Debug, Drop)]
pub struct Layout {
    pub module: ModuleId,
    pub mode: ModeId,
    pub invocation: u16,
    pub kinds: Listed<Kind>,
}
