//! Where modules are placed, and what each node sees of the logical execution (specs/).
#![tactic(auto)]

mod placement;
mod schedule;

pub use placement::{BusCost, PlacedNode, Placement};
pub use schedule::{Resource, Schedule, Window};
