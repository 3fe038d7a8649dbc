ghost use Rattle.std.specs.Prelude.{◌≡◌, bytes_eq};
ghost use Rattle.std.specs.List.{list_all, list_any};
ghost use Rattle.tdl_base.specs.Letters as letters;
ghost use Rattle.tdl_plain.specs.PlainSource as spec;

use tdl_base::limits::IDENTIFIER_BYTES;

/// The words that are no names.
const RESERVED_WORDS: [&str; 30] = [
    "module", "import", "public", "const", "sensor", "actuator", "task", "input", "output",
    "local", "if", "else", "repeat", "start", "mode", "period", "wcet", "freq", "slots", "update",
    "switch", "to", "true", "false", "uses", "boolean", "byte", "short", "int", "long",
];

fn is_letter(c: u8) -> bool
    ensures { result ≡ letters.is_letter c }
{
    matches!(c, b'A'..=b'Z' | b'a'..=b'z')
}

fn is_name_byte(c: u8) -> bool
    ensures { result ≡ letters.is_name_byte c }
{
    is_letter(c) || matches!(c, b'0'..=b'9') || c == b'_'
}

// Whether the token is one of the words.
fn is_among(token: &[u8], words: &[&str]) -> bool
    ensures { result ≡ list_any (λ word. bytes_eq word.now token.now) words.now }
{
    words.iter().any(|word| word.as_bytes() == token)
}

fn are_name_bytes(bytes: &[u8]) -> bool
    ensures { result ≡ list_all letters.is_name_byte bytes.now }
{
    bytes.iter().all(|c| is_name_byte(*c))
}

fn is_word(token: &[u8]) -> bool
    ensures { result ≡ letters.is_word token.now }
{
    match token {
        [first, others @ ..] => is_letter(*first) && are_name_bytes(others),
        [] => false,
    }
}

#[tactic(auto, unfolding(crate::specs::PlainSource::is_reserved))]
fn is_reserved(token: &[u8]) -> bool
    ensures { result ≡ spec.is_reserved token.now }
{
    is_among(token, &RESERVED_WORDS)
}

/// Whether the bytes are an identifier of at most 64 bytes and no reserved word.
pub fn is_name(token: &[u8]) -> bool
    ensures { result ≡ spec.is_name token.now }
{
    is_word(token) && token.len() <= IDENTIFIER_BYTES && !is_reserved(token)
}
