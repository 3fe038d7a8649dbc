//! Between two events the logical execution neither changes nor shows anything (specs/).
#![tactic(auto)]

pub mod laws;
