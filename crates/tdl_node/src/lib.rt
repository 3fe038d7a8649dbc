//! A node that runs one module, and the run of its bundle.
#![tactic(auto)]

mod fault;
mod machine;
mod names;
#[cfg(test)]
mod tests;
mod walk;

pub use fault::NodeFault;
pub use machine::{Machine, Stop};
pub use names::bundle_names;
pub use walk::run;
