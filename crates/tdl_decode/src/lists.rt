//! Lists of parts at the front of bytes.
ghost use Rattle.tdl_decode.specs.Reading.{Gives, items_in, listed_in, long_listed_in, ascending_items_in, ascending_in};

use crate::fields::{any_short, any_word};
use crate::flaw::Flaw;
use std::alloc::Global;
use tdl_base::Listed;

/// A part of a bundle.
pub trait Part {
    ghost use Rattle.std.specs.Prelude.{List, ℕ};
    ghost use Rattle.tdl_decode.specs.Reading.{Read, Gives};

    ghost reading: { List ℕ → Read Self };

    /// The part at the front of the bytes, and the bytes after it.
    fn read(alloc: Global, bytes: &[u8]) -> Result<(Self, &[u8]), Flaw>
        ensures { Gives (λ r. (r.0, r.1.now)) result (reading bytes.now) };
}

/// A part of a bundle that has a number.
pub trait Numbered {
    ghost use Rattle.std.specs.Prelude.{◌≡◌, List, ℕ};
    ghost use Rattle.tdl_decode.specs.Reading.{Read, Gives};

    ghost reading: { ℕ → List ℕ → Read Self };

    ghost number_of: { Self → ℕ };

    /// The part at the front of the bytes, whose number is at least so much, and the bytes after it.
    fn read(alloc: Global, least: u32, bytes: &[u8]) -> Result<(Self, &[u8]), Flaw>
        ensures { Gives (λ r. (r.0, r.1.now)) result (reading least bytes.now) };

    /// The number.
    fn number(&self) -> u16
        ensures { result ≡ number_of self.now };
}

/// So many items, one after the other.
pub fn items<T: Part + Drop>(
    alloc: Global,
    count: u32,
    bytes: &[u8],
) -> Result<(Listed<T>, &[u8]), Flaw>
    ensures { Gives (λ r. (r.0, r.1.now)) result (items_in T.reading count bytes.now) }
{
    let mut list = Listed::new(alloc);
    let mut rest = bytes;
    for _ in 0..count {
        let (item, after) = T::read(alloc, rest)?;
        list.push(item)?;
        rest = after;
    }
    Ok((list, rest))
}

/// A list with a count of two bytes.
pub fn listed<T: Part + Drop>(alloc: Global, bytes: &[u8]) -> Result<(Listed<T>, &[u8]), Flaw>
    ensures { Gives (λ r. (r.0, r.1.now)) result (listed_in T.reading bytes.now) }
{
    let (count, bytes) = any_short(bytes)?;
    items(alloc, u32::from(count), bytes)
}

/// A list with a count of four bytes.
pub fn long_listed<T: Part + Drop>(alloc: Global, bytes: &[u8]) -> Result<(Listed<T>, &[u8]), Flaw>
    ensures { Gives (λ r. (r.0, r.1.now)) result (long_listed_in T.reading bytes.now) }
{
    let (count, bytes) = any_word(bytes)?;
    items(alloc, count, bytes)
}

fn ascending_items<T: Numbered + Drop>(
    alloc: Global,
    count: u32,
    bytes: &[u8],
) -> Result<(Listed<T>, &[u8]), Flaw>
    ensures { Gives (λ r. (r.0, r.1.now)) result
        (ascending_items_in T.reading T.number_of 0 count bytes.now) }
{
    let mut list = Listed::new(alloc);
    let mut rest = bytes;
    let mut least = 0;
    for _ in 0..count {
        let (item, after) = T::read(alloc, least, rest)?;
        least = u32::from(item.number()) + 1;
        list.push(item)?;
        rest = after;
    }
    Ok((list, rest))
}

/// A list with a count of two bytes, whose items have ascending numbers.
pub fn ascending<T: Numbered + Drop>(
    alloc: Global,
    bytes: &[u8],
) -> Result<(Listed<T>, &[u8]), Flaw>
    ensures { Gives (λ r. (r.0, r.1.now)) result
        (ascending_in T.reading T.number_of bytes.now) }
{
    let (count, bytes) = any_short(bytes)?;
    ascending_items(alloc, u32::from(count), bytes)
}
