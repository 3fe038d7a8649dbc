//! What the compiler's bundles mean.
#![tactic(auto)]

pub mod laws;
