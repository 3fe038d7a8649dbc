ghost use Rattle.std.specs.Prelude.{◌≡◌};
ghost use Rattle.tdl_parse.specs.declared.fail.Fail.TheVariants.{Memory};

use std::alloc::{AllocError, AllocFailed};
use tdl_base::NoMemory;
use tdl_tree::Word;
use thiserror::Error;

/// Why tokens have no tree.
#[derive(Debug, Drop, PartialEq, Eq, Error)]
pub enum SyntaxError {
    /// The first token that is out of place stands at this line and column, from 1 in bytes; where
    /// there is none, the source ends there too early.
    #[error("syntax at {line}:{col}")]
    BadSyntax { line: u32, col: u32 },
    #[error("no memory")]
    NoMemory,
}

/// Why a text was not read: want of memory, or the words from the one out of place on.
#[derive(Drop)]
pub enum Fail<'a> {
    Memory,
    At(&'a [Word]),
}

impl<'a> From<NoMemory> for Fail<'a> {
    ghost from_gives = { λ _ e. e ≡ Memory };

    fn from(_e: NoMemory) -> Fail<'a> {
        Fail::Memory
    }
}

impl<'a> From<AllocError> for Fail<'a> {
    ghost from_gives = { λ _ e. e ≡ Memory };

    fn from(_e: AllocError) -> Fail<'a> {
        Fail::Memory
    }
}

impl<'a, T: Drop> From<AllocFailed<T>> for Fail<'a> {
    ghost from_gives = { λ _ e. e ≡ Memory };

    fn from(_e: AllocFailed<T>) -> Fail<'a> {
        Fail::Memory
    }
}

impl From<NoMemory> for SyntaxError {
    ghost use Rattle.tdl_parse.specs.declared.fail.SyntaxError.TheVariants.{NoMemory};

    ghost from_gives = { λ _ e. e ≡ NoMemory };

    fn from(_refused: NoMemory) -> SyntaxError {
        SyntaxError::NoMemory
    }
}
