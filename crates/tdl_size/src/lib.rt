//! How large the trees of sources are, and that those of a grammar's sentences keep its limits
//! (specs/).
#![tactic(auto)]

pub mod laws;
