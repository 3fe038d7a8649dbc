//! When the activities of a mode occur: periods, frequencies, ranges of slots, and how many
//! occurrences there are.
#![tactic(auto)]

mod counts;
mod periods;
mod ranges;

pub use counts::{let_count, time_count};
pub use periods::{capped_us, divides, is_in_ten_seconds};
pub use ranges::{bad_range, last_of, occurs};
