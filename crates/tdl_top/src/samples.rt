//! The module P: its source, its scenario, its bundle and what it prints.

use std::alloc::{AllocError, Global};

/// The spelling of the bundle of P.
pub use tdl_image::COUNTING_BYTES as BUNDLE;
/// The source of P.
pub use tdl_plain::COUNTING_SOURCE as SOURCE;

/// A scenario in which the input is 1.
pub const STEP: &str = "horizon 10000\nsense P.s 0 1\n";

/// What the run of P under that scenario prints.
pub const THREE_LINES: &str =
    "0 n1 mode P main\n5000 n1 port P.inc.o 11\n10000 n1 port P.inc.o 12\n";

/// The source of P with other words in one place.
pub fn source_with(alloc: Global, old: &str, new: &str) -> Result<String, AllocError> {
    let mut source = String::new(alloc);
    if let Some((before, after)) = SOURCE.split_once(old) {
        source.push_str(before)?;
        source.push_str(new)?;
        source.push_str(after)?;
    }
    Ok(source)
}

/// The source of P, followed by blanks up to a length.
pub fn padded(alloc: Global, length: usize) -> Result<String, AllocError> {
    let mut source = String::from_str(alloc, SOURCE)?;
    for _ in SOURCE.len()..length {
        source.push(' ')?;
    }
    Ok(source)
}
