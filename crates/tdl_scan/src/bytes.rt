//! The tests of bytes and of tokens' texts.
ghost use Rattle.std.specs.Prelude.{◌≡◌, bytes_eq, [], ◌∷◌};
ghost use Rattle.std.specs.List.{list_all, list_any};
ghost use Rattle.tdl_base.specs.Letters as letters;
ghost use Rattle.tdl_scan.specs.Lexemes as spec;

use tdl_base::limits::IDENTIFIER_BYTES;

/// Whether the byte is a space, a tab, a carriage return or a line feed.
pub fn is_blank(c: u8) -> bool
    ensures { result ≡ spec.is_blank c }
{
    matches!(c, b' ' | b'\t' | b'\r' | b'\n')
}

/// Whether the byte is a letter, of either case.
pub fn is_letter(c: u8) -> bool
    ensures { result ≡ letters.is_letter c }
{
    matches!(c, b'A'..=b'Z' | b'a'..=b'z')
}

/// Whether the byte is a digit.
pub fn is_digit(c: u8) -> bool
    ensures { result ≡ letters.is_digit c }
{
    matches!(c, b'0'..=b'9')
}

/// Whether the byte is a letter, a digit or `_`.
pub fn is_name_byte(c: u8) -> bool
    ensures { result ≡ letters.is_name_byte c }
{
    is_letter(c) || is_digit(c) || c == b'_'
}

fn are_name_bytes(bytes: &[u8]) -> bool
    ensures { result ≡ list_all letters.is_name_byte bytes.now }
{
    bytes.iter().all(|c| is_name_byte(*c))
}

fn are_digits(bytes: &[u8]) -> bool
    ensures { result ≡ list_all letters.is_digit bytes.now }
{
    bytes.iter().all(|c| is_digit(*c))
}

/// Whether the text is a letter with identifier bytes after it, however many.
pub fn is_word(text: &[u8]) -> bool
    ensures { result ≡ letters.is_word text.now }
{
    match text {
        [first, others @ ..] => is_letter(*first) && are_name_bytes(others),
        [] => false,
    }
}

/// Whether the text is a word of at most 64 bytes; a reserved word is one too.
pub fn is_identifier(text: &[u8]) -> bool
    ensures { result ≡ spec.is_identifier text.now }
{
    is_word(text) && text.len() <= IDENTIFIER_BYTES
}

/// Whether the text is one digit or more.
pub fn is_number(text: &[u8]) -> bool
    ensures { result ≡ spec.is_number text.now }
{
    match text {
        [first, others @ ..] => is_digit(*first) && are_digits(others),
        [] => false,
    }
}

/// The signs of one byte.
const ONE_BYTE: [u8; 18] = [
    b'{', b'}', b'(', b')', b'[', b']', b';', b',', b'.', b'-', b'+', b'*', b'/', b'%', b'!', b'<',
    b'>', b'=',
];

/// The bytes that make a sign with `=` after them.
const BEFORE_EQUALS: [u8; 5] = [b':', b'<', b'>', b'=', b'!'];

/// Whether the text is a sign, of one byte or two.
pub fn is_sign(text: &[u8]) -> bool
    ensures { result ≡ spec.is_sign text.now }
{
    match text {
        [c] => is_sign_of_one(*c),
        [c, d] => is_sign_of_two(*c, *d),
        _ => false,
    }
}

#[tactic(auto, unfolding(crate::specs::Lexemes::is_sign))]
fn is_sign_of_one(c: u8) -> bool
    ensures { result ≡ spec.is_sign (c ∷ []) }
{
    ONE_BYTE.contains(&c)
}

#[tactic(auto, unfolding(crate::specs::Lexemes::is_sign))]
fn is_sign_of_two(c: u8, d: u8) -> bool
    ensures { result ≡ spec.is_sign (c ∷ d ∷ []) }
{
    (d == b'=' && BEFORE_EQUALS.contains(&c))
        || (c == b'&' && d == b'&')
        || (c == b'|' && d == b'|')
}
