ghost use Rattle.std.specs.Prelude.{◌≡◌, ◌↔◌, IsTrue};
ghost use Rattle.tdl_plain.specs.Checking as checking;
ghost use Rattle.tdl_plain.specs.PlainSource.{IsPlainForm};

use crate::words::is_name;
use std::alloc::{AllocError, AllocFailed};
use tdl_base::Text;
use thiserror::Error;

/// A plain program: in each period its one task adds the sensor's value to its output. The names
/// are identifiers of at most 64 bytes and no reserved words.
#[derive(Debug, Drop)]
pub struct Form {
    pub module: Text,
    pub sensor: Text,
    pub task: Text,
    /// The task's worst case, in microseconds: 1 to 1,000 times `period`.
    pub worst: u64,
    pub input: Text,
    pub output: Text,
    /// What the output holds at first: 0 to 2,147,483,647.
    pub initial: u64,
    pub mode: Text,
    /// The mode's period, in milliseconds: 1 to 10,000.
    pub period: u64,
}

impl Form {
    fn has_names(&self) -> bool
        ensures { result ≡ checking.has_names self.now }
    {
        is_name(self.module.as_str().as_bytes())
            && is_name(self.sensor.as_str().as_bytes())
            && is_name(self.task.as_str().as_bytes())
            && is_name(self.input.as_str().as_bytes())
            && is_name(self.output.as_str().as_bytes())
            && is_name(self.mode.as_str().as_bytes())
    }

    fn is_apart(&self) -> bool
        ensures { result ≡ checking.is_apart self.now }
    {
        self.sensor.as_str() != self.task.as_str()
            && self.sensor.as_str() != self.mode.as_str()
            && self.task.as_str() != self.mode.as_str()
            && self.input.as_str() != self.output.as_str()
    }

    fn is_in_range(&self) -> bool
        ensures { result ≡ checking.is_in_range self.now }
    {
        1 <= self.period
            && self.period <= 10_000
            && 1 <= self.worst
            && self.worst <= 1_000 * self.period
            && self.initial <= 2_147_483_647
    }

    fn is_lawful(&self) -> bool
        ensures { result ≡ checking.is_lawful self.now }
    {
        self.has_names() && self.is_apart() && self.is_in_range()
    }

    /// Whether the names are names, those that must differ do, and the numbers are in range.
    pub fn is_plain(&self) -> bool
        ensures { IsTrue result ↔ IsPlainForm self.now }
    {
        self.is_lawful()
    }
}

/// Why a source gave no form.
#[derive(Clone, Copy, Debug, PartialEq, Eq, Error)]
pub enum SourceError {
    /// The bytes are no plain source.
    #[error("not a plain source")]
    NotPlain,
    /// Memory could not be had.
    #[error("no memory")]
    NoMemory,
}

impl From<AllocError> for SourceError {
    ghost use Rattle.tdl_plain.specs.declared.form.SourceError.TheVariants.{NoMemory};

    ghost from_gives = { λ _ e. e ≡ NoMemory };

    fn from(_refused: AllocError) -> SourceError {
        SourceError::NoMemory
    }
}

impl<T: Drop> From<AllocFailed<T>> for SourceError {
    ghost use Rattle.tdl_plain.specs.declared.form.SourceError.TheVariants.{NoMemory};

    ghost from_gives = { λ _ e. e ≡ NoMemory };

    fn from(_refused: AllocFailed<T>) -> SourceError {
        SourceError::NoMemory
    }
}

impl From<tdl_base::NoMemory> for SourceError {
    ghost use Rattle.tdl_plain.specs.declared.form.SourceError.TheVariants.{NoMemory};

    ghost from_gives = { λ _ e. e ≡ NoMemory };

    fn from(_refused: tdl_base::NoMemory) -> SourceError {
        SourceError::NoMemory
    }
}
