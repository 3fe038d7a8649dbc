//! Frequencies and slots.

ghost use Rattle.std.specs.Prelude.{◌≡◌, ◌<◌, length, IfOk};
ghost use Rattle.tdl_grammar.specs.Parsing.{separated};
ghost use Rattle.tdl_parse.specs.Giving.{Gives};
ghost use Rattle.tdl_parse.specs.Reading.{after};
ghost use Rattle.tdl_parse.specs.ReadingActivities as reading;
ghost use Rattle.tdl_tree.specs.Kinds.{is};
ghost use Rattle.tdl_tree.specs.declared.words.WordKind.TheVariants as k;

use crate::basics::{expect, opens};
use crate::fail::Fail;
use crate::names::number;
use std::alloc::Global;
use tdl_base::Listed;
use tdl_tree::{Num, Slots, Word, WordKind};

#[tactic(auto, unfolding(crate::specs::ReadingActivities::range))]
fn range<'a>(words: &'a [Word]) -> Result<(Slots, &'a [Word]), Fail<'a>>
    ensures value { Gives (λ x. (x.0, x.1.now)) result (reading.range words.now) }
    ensures shorter { IfOk result (λ x. length x.1.now < length words.now) }
{
    let (first, rest) = number(words)?;
    if !opens(WordKind::Minus, rest) {
        return Ok((Slots { first, last: None }, rest));
    }
    let (_minus, rest) = expect(WordKind::Minus, rest)?;
    let (last, rest) = number(rest)?;
    let last = Some(last);
    Ok((Slots { first, last }, rest))
}

/// A comma and a range.
fn next_range<'a>(words: &'a [Word]) -> Result<(Slots, &'a [Word]), Fail<'a>>
    ensures value { Gives (λ x. (x.0, x.1.now)) result (after k.Comma reading.range words.now) }
    ensures shorter { IfOk result (λ x. length x.1.now < length words.now) }
{
    let (_comma, rest) = expect(WordKind::Comma, words)?;
    range(rest)
}

/// Ranges with commas between them.
fn ranges<'a>(alloc: Global, words: &'a [Word]) -> Result<(Vec<Slots>, &'a [Word]), Fail<'a>>
    ensures value { Gives (λ x. (x.0.items, x.1.now)) result
        (separated (is k.Comma) reading.range words.now) }
    ensures shorter { IfOk result (λ x. length x.1.now < length words.now) }
{
    let (first, after_first) = range(words)?;
    let mut items = Listed::only(alloc, first)?.into_vec();
    let mut rest = after_first;
    let mut more = after_first.len();
    while more > 0 {
        if !opens(WordKind::Comma, rest) {
            return Ok((items, rest));
        }
        let (item, after) = next_range(rest)?;
        items.push(item)?;
        rest = after;
        more -= 1;
    }
    Ok((items, rest))
}

#[tactic(auto, unfolding(crate::specs::ReadingActivities::slots))]
fn slots<'a>(alloc: Global, words: &'a [Word]) -> Result<(Listed<Slots>, &'a [Word]), Fail<'a>>
    ensures value { Gives (λ x. (x.0, x.1.now)) result (reading.slots words.now) }
    ensures shorter { IfOk result (λ x. length x.1.now < length words.now) }
{
    let (_comma, rest) = expect(WordKind::Comma, words)?;
    let (_slots, rest) = expect(WordKind::Slots, rest)?;
    let (_equals, rest) = expect(WordKind::Equals, rest)?;
    let (items, rest) = ranges(alloc, rest)?;
    Ok((Listed::from_vec(items), rest))
}

#[tactic(auto, unfolding(crate::specs::ReadingActivities::freq))]
pub fn freq<'a>(
    alloc: Global,
    words: &'a [Word],
) -> Result<((Num, Listed<Slots>), &'a [Word]), Fail<'a>>
    ensures value { Gives (λ x. (x.0, x.1.now)) result (reading.freq words.now) }
    ensures shorter { IfOk result (λ x. length x.1.now < length words.now) }
{
    let (_open, rest) = expect(WordKind::LeftBracket, words)?;
    let (_freq, rest) = expect(WordKind::Freq, rest)?;
    let (_equals, rest) = expect(WordKind::Equals, rest)?;
    let (number, rest) = number(rest)?;
    if !opens(WordKind::Comma, rest) {
        let (_close, rest) = expect(WordKind::RightBracket, rest)?;
        return Ok(((number, Listed::new(alloc)), rest));
    }
    let (slots, rest) = slots(alloc, rest)?;
    let (_close, rest) = expect(WordKind::RightBracket, rest)?;
    Ok(((number, slots), rest))
}
