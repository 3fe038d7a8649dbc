use thiserror::Error;

/// Why bytes are not read as a bundle.
#[derive(Clone, Copy, Debug, PartialEq, Eq, Error)]
pub enum BundleError {
    /// The rule of the grammar that is broken first, 1 to 4, and the number of the byte where it
    /// is broken, from 0; where the bytes end too early, their length.
    #[error("rule B{rule} of bundles is broken at byte {at}")]
    BadBundle { rule: u8, at: u32 },
    /// Memory could not be had.
    #[error("no memory")]
    NoMemory,
}
