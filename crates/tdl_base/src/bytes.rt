//! Numbers in bytes, the highest byte first: put after other bytes, and read at the front of some.
ghost use Rattle.std.specs.Int.{w16, w32, w64};
ghost use Rattle.std.specs.Prelude.{◌≡◌, [], ◌∷◌, ◌++◌, OnOk, OnErr};
ghost use Rattle.tdl_base.specs.Bytes.{long, number_at, pair_at, short, word};

use crate::NoMemory;

/// Appends bytes. Without memory `into` is as before.
pub fn put_bytes(into: &mut Vec<u8>, bytes: &[u8]) -> Result<(), NoMemory>
    ensures ok { OnOk result (into.new.items ≡ into.old.items ++ bytes.now) }
    ensures err { OnErr result (into.new.items ≡ into.old.items) }
{
    into.extend_from_slice(bytes)?;
    Ok(())
}

/// Appends a byte. Without memory `into` is as before.
pub fn put_byte(into: &mut Vec<u8>, number: u8) -> Result<(), NoMemory>
    ensures ok { OnOk result (into.new.items ≡ into.old.items ++ number ∷ []) }
    ensures err { OnErr result (into.new.items ≡ into.old.items) }
{
    into.push(number)?;
    Ok(())
}

/// Appends a number in two bytes. Without memory `into` is as before.
pub fn put_short(into: &mut Vec<u8>, number: u16) -> Result<(), NoMemory>
    ensures ok { OnOk result (into.new.items ≡ into.old.items ++ short number) }
    ensures err { OnErr result (into.new.items ≡ into.old.items) }
{
    put_bytes(into, &number.to_be_bytes())
}

/// Appends a number in four bytes. Without memory `into` is as before.
pub fn put_word(into: &mut Vec<u8>, number: u32) -> Result<(), NoMemory>
    ensures ok { OnOk result (into.new.items ≡ into.old.items ++ word number) }
    ensures err { OnErr result (into.new.items ≡ into.old.items) }
{
    put_bytes(into, &number.to_be_bytes())
}

/// Appends a signed number in eight bytes. Without memory `into` is as before.
pub fn put_long(into: &mut Vec<u8>, number: i64) -> Result<(), NoMemory>
    ensures ok { OnOk result (into.new.items ≡ into.old.items ++ long number) }
    ensures err { OnErr result (into.new.items ≡ into.old.items) }
{
    put_bytes(into, &number.to_be_bytes())
}

/// Appends a byte and a number in two bytes. Without memory `into` is as before.
pub fn put_byte_short(into: &mut Vec<u8>, byte: u8, number: u16) -> Result<(), NoMemory>
    ensures ok { OnOk result (into.new.items ≡ into.old.items ++ byte ∷ short number) }
    ensures err { OnErr result (into.new.items ≡ into.old.items) }
{
    let [a, b] = number.to_be_bytes();
    put_bytes(into, &[byte, a, b])
}

/// Appends a byte and a signed number in eight bytes. Without memory `into` is as before.
pub fn put_byte_long(into: &mut Vec<u8>, byte: u8, number: i64) -> Result<(), NoMemory>
    ensures ok { OnOk result (into.new.items ≡ into.old.items ++ byte ∷ long number) }
    ensures err { OnErr result (into.new.items ≡ into.old.items) }
{
    let [a, b, c, d, e, f, g, h] = number.to_be_bytes();
    put_bytes(into, &[byte, a, b, c, d, e, f, g, h])
}

/// Appends a byte and a number in four bytes. Without memory `into` is as before.
pub fn put_byte_word(into: &mut Vec<u8>, byte: u8, number: u32) -> Result<(), NoMemory>
    ensures ok { OnOk result (into.new.items ≡ into.old.items ++ byte ∷ word number) }
    ensures err { OnErr result (into.new.items ≡ into.old.items) }
{
    let [a, b, c, d] = number.to_be_bytes();
    put_bytes(into, &[byte, a, b, c, d])
}

/// Appends a byte and two numbers in four bytes each. Without memory `into` is as before.
pub fn put_byte_words(into: &mut Vec<u8>, byte: u8, first: u32, second: u32) -> Result<(), NoMemory>
    ensures ok { OnOk result
        (into.new.items ≡ into.old.items ++ byte ∷ (word first ++ word second)) }
    ensures err { OnErr result (into.new.items ≡ into.old.items) }
{
    let [a, b, c, d] = first.to_be_bytes();
    let [e, f, g, h] = second.to_be_bytes();
    put_bytes(into, &[byte, a, b, c, d, e, f, g, h])
}

/// Appends a byte, a number in two bytes and one in four. Without memory `into` is as before.
pub fn put_byte_short_word(
    into: &mut Vec<u8>,
    byte: u8,
    first: u16,
    second: u32,
) -> Result<(), NoMemory>
    ensures ok { OnOk result
        (into.new.items ≡ into.old.items ++ byte ∷ (short first ++ word second)) }
    ensures err { OnErr result (into.new.items ≡ into.old.items) }
{
    let [a, b] = first.to_be_bytes();
    let [c, d, e, f] = second.to_be_bytes();
    put_bytes(into, &[byte, a, b, c, d, e, f])
}

/// The number in the first two bytes, `None` where they are fewer.
pub fn short_at(bytes: &[u8]) -> Option<u16>
    ensures { result ≡ number_at w16 bytes.now }
{
    match bytes {
        [a, b, ..] => Some(u16::from_be_bytes([*a, *b])),
        _ => None,
    }
}

/// The number in the first four bytes, `None` where they are fewer.
pub fn word_at(bytes: &[u8]) -> Option<u32>
    ensures { result ≡ number_at w32 bytes.now }
{
    match bytes {
        [a, b, c, d, ..] => Some(u32::from_be_bytes([*a, *b, *c, *d])),
        _ => None,
    }
}

/// The numbers in the first two bytes and the four after them, `None` where they are fewer.
pub fn short_word_at(bytes: &[u8]) -> Option<(u16, u32)>
    ensures { result ≡ pair_at w16 w32 bytes.now }
{
    match bytes {
        [a, b, c, d, e, f, ..] => Some((
            u16::from_be_bytes([*a, *b]),
            u32::from_be_bytes([*c, *d, *e, *f]),
        )),
        _ => None,
    }
}

/// The numbers in the first four bytes and the four after them, `None` where they are fewer.
pub fn words_at(bytes: &[u8]) -> Option<(u32, u32)>
    ensures { result ≡ pair_at w32 w32 bytes.now }
{
    match bytes {
        [a, b, c, d, e, f, g, h, ..] => Some((
            u32::from_be_bytes([*a, *b, *c, *d]),
            u32::from_be_bytes([*e, *f, *g, *h]),
        )),
        _ => None,
    }
}

/// The number without a sign in the first eight bytes, `None` where they are fewer.
pub fn long_at(bytes: &[u8]) -> Option<u64>
    ensures { result ≡ number_at w64 bytes.now }
{
    match bytes {
        [a, b, c, d, e, f, g, h, ..] => Some(u64::from_be_bytes([*a, *b, *c, *d, *e, *f, *g, *h])),
        _ => None,
    }
}
