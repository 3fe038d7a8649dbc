//! The rules of modes: periods, frequencies, ranges of slots, start modes, targets of switches, and
//! worst cases.
#![tactic(auto)]

mod frequencies;
mod periods;
mod ranges;
mod starts;
mod targets;
mod worst_cases;

pub use frequencies::wrong_frequencies;
pub use periods::wrong_periods;
pub use ranges::wrong_ranges;
pub use starts::wrong_starts;
pub use targets::own_targets;
pub use worst_cases::wrong_worst_cases;
