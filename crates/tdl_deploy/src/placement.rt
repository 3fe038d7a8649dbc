use tdl_base::{Listed, ModuleId, Text};

/// The nodes, numbered from 0 in order of declaration, with the bus that joins them or none.
#[derive(Debug, Drop)]
pub struct Placement {
    pub nodes: Listed<PlacedNode>,
    pub bus: Option<BusCost>,
}

/// A node and the modules that it hosts.
#[derive(Debug, Drop)]
pub struct PlacedNode {
    pub name: Text,
    pub modules: Listed<ModuleId>,
}

/// What a frame takes of the bus, in microseconds: for itself, and for each of its bytes.
#[derive(Clone, Copy, Debug, PartialEq, Eq)]
pub struct BusCost {
    pub overhead: u32,
    pub per_byte: u32,
}
