//! Frames: what the bus carries.
#![tactic(auto)]

mod layout;

pub use layout::Layout;
