/// The most numbers on the stack of a lawful code.
pub const STACK_NUMBERS: usize = 32;

/// The most `rep` bodies of a lawful code that stand in one another.
pub const NESTED_BODIES: usize = 16;

/// The greatest cost of a lawful code.
pub const CODE_COST: u64 = 60_000_000;
