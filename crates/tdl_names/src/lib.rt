//! The names of sources, looked up by tables: what a name means where it stands, what an
//! expression reads, and what an activity names.
#![tactic(auto)]

mod activities;
mod inputs;
mod lookup;
mod meanings;
mod modules;
mod scopes;
mod sorts;
mod sources;
mod spots;
mod table;

pub use activities::{TaskMeant, actuator_of, is_input, is_meant, mode_of, task_of};
pub use inputs::input_count;
pub use lookup::found_in;
pub use meanings::{Meant, exporter_of, meaning_of, port_of};
pub use modules::{Entry, Module, Ports};
pub use scopes::Scope;
pub use sorts::{is_truth, sort_in};
pub use sources::{Sources, sources_of};
pub use spots::{spot_of, spot_of_activity, spot_of_expression, spot_of_literal, spot_of_number};
pub use table::Table;

#[cfg(test)]
mod tests;
