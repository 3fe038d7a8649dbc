//! The reader of scenarios: what each line says, the rules N1 to N8, and what a scenario says that
//! breaks none of them.
#![tactic(auto)]

mod build;
mod entry;
mod error;
mod faults;
mod found;
mod gather;
mod kinds;
pub mod laws;
mod orders;
mod plants;
mod read;
mod rules;
mod said;
mod seen;
mod table;

pub use error::ScenError;
pub use plants::{PLANTS, PlantPorts};
pub use read::read_scen;

#[cfg(test)]
mod tests;
