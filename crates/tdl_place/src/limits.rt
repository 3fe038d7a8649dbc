/// The most modules that have a number.
pub const MODULES: usize = 65_536;

/// The greatest cost of a frame, and of a byte of it, in microseconds.
pub const COST_US: u64 = 1_000_000;
