//! Fields at the front of bytes, each with the bytes after it.
ghost use Rattle.std.specs.Prelude.{◌≡◌, ◌&&◌, nat_le, length};
ghost use Rattle.std.specs.List.{list_all};
ghost use Rattle.std.specs.Int.{w8, w16, w32};
ghost use Rattle.tdl_base.specs.Letters as letters;
ghost use Rattle.tdl_decode.specs.Reading as reading;
ghost use Rattle.tdl_decode.specs.Reading.{Gives};

use crate::flaw::{CUT, Flaw};
use std::alloc::Global;
use tdl_base::bytes::{long_at, short_at, word_at};
use tdl_base::limits::IDENTIFIER_BYTES;
use tdl_base::{Kind, Text, narrow};

/// A number of one byte, from the least to the most.
#[tactic(auto, unfolding(crate::specs::Reading::number_in))]
pub fn byte(bytes: &[u8], least: u8, most: u8) -> Result<(u8, &[u8]), Flaw>
    ensures { Gives (λ r. (r.0, r.1.now)) result (reading.byte_in least most bytes.now) }
{
    let [number, rest @ ..] = bytes else {
        return Err(CUT);
    };
    if *number < least || most < *number {
        return Err(Flaw::Broken {
            rule: 4,
            left: bytes.len(),
        });
    }
    Ok((*number, rest))
}

/// A number of two bytes, from the least to the most; the rule is broken where it is another.
#[tactic(auto, unfolding(crate::specs::Reading::number_in))]
pub fn short(bytes: &[u8], rule: u8, least: u32, most: u16) -> Result<(u16, &[u8]), Flaw>
    ensures { Gives (λ r. (r.0, r.1.now)) result (reading.number_in w16 rule least most bytes.now) }
{
    let Some(number) = short_at(bytes) else {
        return Err(CUT);
    };
    if u32::from(number) < least || most < number {
        return Err(Flaw::Broken {
            rule,
            left: bytes.len(),
        });
    }
    Ok((number, &bytes[2..]))
}

/// A number of four bytes, from the least to the most.
#[tactic(auto, unfolding(crate::specs::Reading::number_in))]
pub fn word(bytes: &[u8], least: u32, most: u32) -> Result<(u32, &[u8]), Flaw>
    ensures { Gives (λ r. (r.0, r.1.now)) result (reading.word_in least most bytes.now) }
{
    let Some(number) = word_at(bytes) else {
        return Err(CUT);
    };
    if number < least || most < number {
        return Err(Flaw::Broken {
            rule: 4,
            left: bytes.len(),
        });
    }
    Ok((number, &bytes[4..]))
}

/// Any number of two bytes.
pub fn any_short(bytes: &[u8]) -> Result<(u16, &[u8]), Flaw>
    ensures { Gives (λ r. (r.0, r.1.now)) result (reading.any_short_in bytes.now) }
{
    short(bytes, 4, 0, u16::MAX)
}

/// Any number of four bytes.
pub fn any_word(bytes: &[u8]) -> Result<(u32, &[u8]), Flaw>
    ensures { Gives (λ r. (r.0, r.1.now)) result (reading.any_word_in bytes.now) }
{
    word(bytes, 0, u32::MAX)
}

/// A signed number of eight bytes, of the kind.
#[tactic(auto, unfolding(crate::specs::Reading::long_in))]
pub fn long(bytes: &[u8], kind: Kind) -> Result<(i64, &[u8]), Flaw>
    ensures { Gives (λ r. (r.0, r.1.now)) result (reading.long_in kind bytes.now) }
{
    let Some(bits) = long_at(bytes) else {
        return Err(CUT);
    };
    let number = bits.cast_signed();
    if narrow(kind, number) != number {
        return Err(Flaw::Broken {
            rule: 4,
            left: bytes.len(),
        });
    }
    Ok((number, &bytes[8..]))
}

fn is_letter(c: u8) -> bool
    ensures { result ≡ letters.is_letter c }
{
    matches!(c, b'A'..=b'Z' | b'a'..=b'z')
}

fn is_name_byte(c: u8) -> bool
    ensures { result ≡ letters.is_name_byte c }
{
    is_letter(c) || matches!(c, b'0'..=b'9') || c == b'_'
}

fn are_name_bytes(bytes: &[u8]) -> bool
    ensures { result ≡ list_all letters.is_name_byte bytes.now }
{
    bytes.iter().all(|c| is_name_byte(*c))
}

fn is_word(bytes: &[u8]) -> bool
    ensures { result ≡ letters.is_word bytes.now }
{
    match bytes {
        [first, others @ ..] => is_letter(*first) && are_name_bytes(others),
        [] => false,
    }
}

fn is_identifier(bytes: &[u8]) -> bool
    ensures { result ≡ reading.is_identifier bytes.now }
{
    is_word(bytes) && bytes.len() <= IDENTIFIER_BYTES
}

/// A string that is an identifier.
#[tactic(auto, unfolding(crate::specs::Reading::string_in))]
pub fn string(alloc: Global, bytes: &[u8]) -> Result<(Text, &[u8]), Flaw>
    ensures { Gives (λ r. (r.0, r.1.now)) result (reading.string_in bytes.now) }
{
    let [count, others @ ..] = bytes else {
        return Err(CUT);
    };
    let count = usize::from(*count);
    if others.len() < count {
        return Err(CUT);
    }
    let name = &others[..count];
    if !is_identifier(name) {
        return Err(Flaw::Broken {
            rule: 4,
            left: bytes.len(),
        });
    }
    let name = str::from_utf8(name).unwrap();
    let text = Text::from_str(alloc, name)?;
    Ok((text, &others[count..]))
}
