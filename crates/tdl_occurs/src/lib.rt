//! The rules on occurrences: invocations of a task that overlap, updates at one offset, switches that
//! cut an invocation.
#![tactic(auto)]

mod cuts;
mod overlaps;
mod updates;

pub use cuts::cutting_switches;
pub use overlaps::overlapping_invocations;
pub use updates::overlapping_updates;
