ghost use Rattle.std.specs.Prelude.{◌≡◌, ℕ, ◌+◌, ◌≤◌, List, ◌++◌, length, IfOk, IsErrOf, IsOkUnless, MatchResult, ◌⊎◌};
ghost use Rattle.tdl_scan.specs.Lexemes as lexemes;
ghost use Rattle.tdl_scan.specs.Tokens.{IsTokensOf, IsTokenFault, token_list};
ghost use Rattle.tdl_scan.specs.declared.token.Token.{Token};

use crate::piece::piece_length;
use crate::token::kind_of;
use crate::{SourcePlace, Token};
use std::alloc::{AllocFailed, Global};
use tdl_base::limits::SOURCE_BYTES;
use thiserror::Error;

/// Why a source gave no tokens.
#[derive(Clone, Copy, Debug, PartialEq, Eq, Error)]
pub enum ScanError {
    /// No token begins at this place: line and column from 1, in bytes.
    #[error("no token at {line}:{col}")]
    BadToken { line: u32, col: u32 },
    /// Memory could not be had.
    #[error("no memory")]
    NoMemory,
}

impl<T: Drop> From<AllocFailed<T>> for ScanError {
    ghost use Rattle.tdl_scan.specs.declared.scanner.ScanError.TheVariants.{NoMemory};

    ghost from_gives = { λ _ e. e ≡ NoMemory };

    fn from(_refused: AllocFailed<T>) -> ScanError {
        ScanError::NoMemory
    }
}

/// Adds the token that stands at byte `from`, at this place, if the piece is one.
fn add_token(
    tokens: &mut Vec<Token>,
    piece: &[u8],
    place: SourcePlace,
    from: u32,
) -> Result<(), ScanError>
    requires { from + length piece.now ≤ u32.MAX }
    ensures ok { IfOk result (λ _. tokens.new.items ≡ tokens.old.items
        ++ token_list place from (length piece.now) (lexemes.kind_of piece.now)) }
    ensures memory { IsOkUnless result ScanError.NoMemory }
{
    let Some(kind) = kind_of(piece) else {
        return Ok(());
    };
    let SourcePlace { line, col } = place;
    let to = from + piece.len() as u32;
    tokens.push(Token {
        kind,
        line,
        col,
        from,
        to,
    })?;
    Ok(())
}

/// The tokens of the source, in order: there is one list of them at most. `BadToken` comes exactly
/// where the source has none, with the first place at which no piece begins.
pub fn scan(alloc: Global, source: &[u8]) -> Result<Vec<Token>, ScanError>
    requires { length source.now ≤ SOURCE_BYTES }
    ensures tokens { IfOk result (λ found. IsTokensOf found.items source.now) }
    ensures only { (tokens : List Token) → IsTokensOf tokens source.now →
        MatchResult result (λ found. found.items ≡ tokens) (λ error. error ≡ ScanError.NoMemory) }
    ensures fault { (line col : ℕ) → IsErrOf result (ScanError.BadToken line col) →
        IsTokenFault source.now line col }
    ensures fault_only { (line col : ℕ) → IsTokenFault source.now line col →
        IsErrOf result (ScanError.BadToken line col) ⊎ IsErrOf result ScanError.NoMemory }
{
    let mut tokens = Vec::new(alloc);
    let mut place = SourcePlace::start();
    let mut from: u32 = 0;
    let mut left = source;
    while !left.is_empty() {
        let Some(length) = piece_length(left) else {
            let SourcePlace { line, col } = place;
            return Err(ScanError::BadToken { line, col });
        };
        let (piece, rest) = left.split_at(length);
        add_token(&mut tokens, piece, place, from)?;
        place = place.after(piece);
        from += length as u32;
        left = rest;
    }
    Ok(tokens)
}
