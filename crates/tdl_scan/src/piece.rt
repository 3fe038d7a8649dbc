//! The length of the piece at the front of the bytes.
ghost use Rattle.std.specs.Prelude.{◌≡◌, IsTrue, IsFalse, slice_index};
ghost use Rattle.std.specs.List.{prefix_len};
ghost use Rattle.tdl_base.specs.Letters as letters;
ghost use Rattle.tdl_scan.specs.Pieces as pieces;
ghost use Rattle.tdl_scan.specs.Lengths.{IsTokenLength, IsPieceLength, begins_sign};

use crate::bytes::{is_blank, is_digit, is_letter, is_name_byte, is_sign};
use tdl_base::limits::IDENTIFIER_BYTES;

/// How many of the first bytes are identifier bytes.
fn identifier_run(bytes: &[u8]) -> usize
    ensures { result ≡ prefix_len letters.is_name_byte bytes.now }
{
    bytes.iter().take_while(|c| is_name_byte(**c)).count()
}

/// How many of the first bytes are digits.
fn digit_run(bytes: &[u8]) -> usize
    ensures { result ≡ prefix_len letters.is_digit bytes.now }
{
    bytes.iter().take_while(|c| is_digit(**c)).count()
}

/// How many bytes stand before the end of the line.
fn line_run(bytes: &[u8]) -> usize
    ensures { result ≡ prefix_len pieces.is_no_end bytes.now }
{
    bytes.iter().take_while(|c| **c != b'\n').count()
}

/// The length of the word at the front, unless it is too long for a token.
fn word_length(bytes: &[u8]) -> Option<usize>
    requires { IsTrue (letters.is_letter (slice_index bytes.now 0)) }
    ensures { IsTokenLength result bytes.now }
{
    let length = identifier_run(bytes);
    if length > IDENTIFIER_BYTES {
        return None;
    }
    Some(length)
}

/// The length of the number at the front.
fn number_length(bytes: &[u8]) -> Option<usize>
    requires { IsTrue (letters.is_digit (slice_index bytes.now 0)) }
    ensures { IsTokenLength result bytes.now }
{
    Some(digit_run(bytes))
}

fn begins_sign(length: usize, bytes: &[u8]) -> bool
    ensures { result ≡ begins_sign length bytes.now }
{
    length <= bytes.len() && is_sign(&bytes[..length])
}

/// The length of the sign at the front: the longer one first.
fn sign_length(bytes: &[u8]) -> Option<usize>
    requires no_letter { IsFalse (letters.is_letter (slice_index bytes.now 0)) }
    requires no_digit { IsFalse (letters.is_digit (slice_index bytes.now 0)) }
    ensures { IsTokenLength result bytes.now }
{
    if begins_sign(2, bytes) {
        return Some(2);
    }
    if begins_sign(1, bytes) {
        return Some(1);
    }
    None
}

/// The length of the token at the front, where no comment opens there.
fn token_length(bytes: &[u8]) -> Option<usize>
    ensures { IsTokenLength result bytes.now }
{
    match bytes {
        [first, ..] if is_letter(*first) => word_length(bytes),
        [first, ..] if is_digit(*first) => number_length(bytes),
        _ => sign_length(bytes),
    }
}

fn opens_comment(bytes: &[u8]) -> bool
    ensures { result ≡ pieces.opens_comment bytes.now }
{
    matches!(bytes, [b'/', b'/', ..])
}

fn opens_blank(bytes: &[u8]) -> bool
    ensures { result ≡ pieces.opens_blank bytes.now }
{
    match bytes {
        [first, ..] => is_blank(*first),
        [] => false,
    }
}

/// The length of the piece at the front: of a blank, a comment or a token.
pub fn piece_length(bytes: &[u8]) -> Option<usize>
    ensures { IsPieceLength result bytes.now }
{
    if opens_blank(bytes) {
        return Some(1);
    }
    if opens_comment(bytes) {
        return Some(line_run(bytes));
    }
    token_length(bytes)
}
