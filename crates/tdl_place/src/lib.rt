//! The reader of placements: what each line says, the rules P1 to P6, and the placement that lines
//! say which break none of them; and the placement of all modules on one node.
#![tactic(auto)]

mod alone;
mod build;
mod entry;
mod error;
mod faults;
mod found;
mod gather;
pub mod laws;
mod limits;
mod read;
mod remote;
mod rules;
mod said;

pub use alone::one_node;
pub use error::PlaceError;
pub use limits::{COST_US, MODULES};
pub use read::read_place;

#[cfg(test)]
mod tests;
