//! The machine that runs bundles. What it does is in specs/.
#![tactic(auto)]

pub mod laws;
