ghost use Rattle.std.specs.Prelude.{◌≡◌, ◌≤◌, length};
ghost use Rattle.tdl_scan.specs.Lexemes as lexemes;
ghost use Rattle.tdl_scan.specs.Tokens.{text_of};

use crate::bytes::{is_identifier, is_number, is_sign};

/// What a token is by its text.
#[derive(Clone, Copy, Debug, PartialEq, Eq)]
pub enum TokenKind {
    /// An identifier of at most 64 bytes, or a reserved word.
    Id,
    /// One digit or more.
    Number,
    /// A sign of one byte or two.
    Sign,
}

/// A token, and where it stands: its text is `source[from..to]`.
#[derive(Clone, Copy, Debug, PartialEq, Eq)]
pub struct Token {
    pub kind: TokenKind,
    /// The line of its first byte, from 1.
    pub line: u32,
    /// The column of its first byte, in bytes from 1.
    pub col: u32,
    pub from: u32,
    pub to: u32,
}

impl Token {
    /// The text of the token, in the source that it is of.
    pub fn text<'a>(&self, source: &'a [u8]) -> &'a [u8]
        requires order { self.now.from ≤ self.now.to }
        requires within { self.now.to ≤ length source.now }
        ensures { result.now ≡ text_of source.now self.now }
    {
        &source[self.from as usize..self.to as usize]
    }
}

/// The kind of token that has this text, if one has.
pub fn kind_of(text: &[u8]) -> Option<TokenKind>
    ensures { result ≡ lexemes.kind_of text.now }
{
    if is_identifier(text) {
        Some(TokenKind::Id)
    } else if is_number(text) {
        Some(TokenKind::Number)
    } else if is_sign(text) {
        Some(TokenKind::Sign)
    } else {
        None
    }
}
