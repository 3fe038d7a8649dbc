//! Names and numbers.

ghost use Rattle.std.specs.Prelude.{◌≡◌, ◌-◌, ◌<◌, length, min, IfOk};
ghost use Rattle.tdl_parse.specs.Giving.{Gives};
ghost use Rattle.tdl_parse.specs.Reading as reading;
ghost use Rattle.tdl_tree.specs.Names as tree;

use crate::basics::expect;
use crate::fail::Fail;
use std::alloc::Global;
use tdl_base::{NoMemory, Text};
use tdl_tree::{Id, Num, Word, WordKind};

fn digit_value(c: u8) -> u64
    ensures { result ≡ c - 48 }
{
    u64::from(c.saturating_sub(b'0'))
}

/// The value of the digits, or the greatest `u64` where it is above that.
fn capped_value(digits: &[u8]) -> u64
    ensures { result ≡ min (tree.value_of_digits digits.now) tree.greatest }
{
    let mut value: u64 = 0;
    for c in digits {
        value = value.saturating_mul(10).saturating_add(digit_value(*c));
    }
    value
}

/// The number that a word is.
pub fn num_of(word: &Word) -> Num
    ensures { result ≡ tree.num_of word.now }
{
    Num {
        value: capped_value(word.text.as_str().as_bytes()),
        line: word.line,
        col: word.col,
    }
}

/// The name that a word is.
pub fn id_of(alloc: Global, word: &Word) -> Result<Id, NoMemory>
    ensures { IfOk result (λ id. id ≡ tree.id_of word.now) }
{
    Ok(Id {
        text: Text::from_str(alloc, word.text.as_str())?,
        line: word.line,
        col: word.col,
    })
}

#[tactic(auto, unfolding(crate::specs::Reading::id))]
pub fn id<'a>(alloc: Global, words: &'a [Word]) -> Result<(Id, &'a [Word]), Fail<'a>>
    ensures value { Gives (λ x. (x.0, x.1.now)) result (reading.id words.now) }
    ensures shorter { IfOk result (λ x. length x.1.now < length words.now) }
{
    let (word, rest) = expect(WordKind::Name, words)?;
    Ok((id_of(alloc, word)?, rest))
}

#[tactic(auto, unfolding(crate::specs::Reading::number))]
pub fn number<'a>(words: &'a [Word]) -> Result<(Num, &'a [Word]), Fail<'a>>
    ensures value { Gives (λ x. (x.0, x.1.now)) result (reading.number words.now) }
    ensures shorter { IfOk result (λ x. length x.1.now < length words.now) }
{
    let (word, rest) = expect(WordKind::Number, words)?;
    Ok((num_of(word), rest))
}
