//! The limits of the language, of the files and of the commands.

/// The most sources of a system.
pub const SOURCES: usize = 64;

/// The greatest length of one source, in bytes.
pub const SOURCE_BYTES: usize = 262_144;

/// The greatest length of all sources together, in bytes.
pub const ALL_SOURCES_BYTES: usize = 1_048_576;

/// The greatest length of a placement, in bytes.
pub const PLACEMENT_BYTES: usize = 65_536;

/// The greatest length of a schedule, in bytes.
pub const SCHEDULE_BYTES: usize = 4_194_304;

/// The greatest length of a scenario, in bytes.
pub const SCENARIO_BYTES: usize = 4_194_304;

/// The greatest length of a bundle, in bytes.
pub const BUNDLE_BYTES: usize = 67_108_864;

/// The greatest length of an identifier, in bytes.
pub const IDENTIFIER_BYTES: usize = 64;

/// The most digits of a number in a line file.
pub const NUMBER_DIGITS: usize = 19;

/// The most tokens of an expression.
pub const EXPRESSION_TOKENS: usize = 512;

/// The most blocks of a body that stand in one another.
pub const NESTED_BLOCKS: usize = 16;

/// The most tasks of a module.
pub const TASKS: usize = 64;

/// The most modes of a module.
pub const MODES: usize = 32;

/// The most constants of a module.
pub const CONSTANTS: usize = 256;

/// The most sensors of a module.
pub const SENSORS: usize = 256;

/// The most actuators of a module.
pub const ACTUATORS: usize = 256;

/// The most ports of a task.
pub const PORTS: usize = 64;

/// The most occurrences over all modes of all modules.
pub const OCCURRENCES: usize = 16_384;

/// The least period of a mode and the least worst case of a task, in microseconds.
pub const LEAST_US: u64 = 1;

/// The greatest period of a mode, in microseconds.
pub const PERIOD_US: u64 = 10_000_000;

/// The greatest worst case of a task, in microseconds.
pub const WORST_CASE_US: u64 = 10_000_000;

/// The greatest frequency of an activity: how often it occurs in a period.
pub const FREQUENCY: u64 = 1_000;

/// The most turns of a `repeat`.
pub const REPEAT: u64 = 1_000;

/// The greatest depth of an expression.
pub const EXPRESSION_DEPTH: usize = 32;

/// The most steps of a body.
pub const STEPS: u64 = 100_000;

/// The most nodes of a system.
pub const NODES: usize = 16;

/// The most windows of a schedule.
pub const WINDOWS: usize = 65_535;

/// The greatest horizon, in microseconds.
pub const HORIZON_US: u64 = 1_000_000;
