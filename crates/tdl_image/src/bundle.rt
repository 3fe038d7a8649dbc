use crate::{Hosted, Stub};
use tdl_base::{Kind, Listed, Text};

/// An image for each node, in order of the nodes.
#[derive(Debug, Drop)]
pub struct Bundle {
    pub images: Listed<Image>,
}

/// What one node runs.
#[derive(Debug, Drop)]
pub struct Image {
    /// The node's name.
    pub node: Text,
    /// The most E-machine instructions that the node runs at one instant.
    pub declared: u32,
    /// The modules that the node hosts, in ascending order of their numbers.
    pub hosted: Listed<Hosted>,
    /// Those hosted elsewhere that a hosted module imports, in ascending order of their numbers.
    pub stubs: Listed<Stub>,
}

/// The kind and the name of a sensor.
#[derive(Debug, Drop)]
pub struct KindName {
    pub kind: Kind,
    pub name: Text,
}

/// The kind and the name of an actuator or an output, and the number that it has at first.
#[derive(Debug, Drop)]
pub struct Initial {
    pub kind: Kind,
    pub name: Text,
    pub initial: i64,
}
