use tdl_deploy::{BusCost, PlacedNode};

/// What a line says, where the names of modules are looked up.
#[derive(Debug, Drop)]
pub(crate) enum Entry {
    /// The line is of no form, its number is too great, or its node's name is no identifier.
    Formless,
    /// `node NAME MODULE MODULE`, with the modules that are there, and whether a word names none.
    Node { node: PlacedNode, unknown: bool },
    /// `bus OVERHEAD PER_BYTE`
    Bus(BusCost),
}
