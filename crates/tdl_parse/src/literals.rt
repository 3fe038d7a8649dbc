//! Times, literals and kinds.

ghost use Rattle.std.specs.Prelude.{◌≡◌, ◌<◌, length, IfOk};
ghost use Rattle.tdl_parse.specs.Giving.{Gives};
ghost use Rattle.tdl_parse.specs.Reading.{after, before};
ghost use Rattle.tdl_parse.specs.Reading as reading;
ghost use Rattle.tdl_tree.specs.Names as tree;
ghost use Rattle.tdl_tree.specs.Words.{is_named};
ghost use Rattle.tdl_tree.specs.declared.words.WordKind.TheVariants as k;

use crate::basics::{expect, opens};
use crate::fail::Fail;
use crate::names::number;
use tdl_base::Kind;
use tdl_tree::{Lit, LitValue, Num, Time, Unit, Word, WordKind};

/// Whether the word is this name.
fn is_named(text: &str, word: &Word) -> bool
    ensures { result ≡ is_named text.now word.now }
{
    word.is(WordKind::Name) && word.text.as_str() == text
}

#[tactic(auto, unfolding(crate::specs::Reading::unit))]
fn unit<'a>(words: &'a [Word]) -> Result<(Unit, &'a [Word]), Fail<'a>>
    ensures value { Gives (λ x. (x.0, x.1.now)) result (reading.unit words.now) }
    ensures shorter { IfOk result (λ x. length x.1.now < length words.now) }
{
    match words {
        [word, rest @ ..] if is_named("us", word) => Ok((Unit::Us, rest)),
        [word, rest @ ..] if is_named("ms", word) => Ok((Unit::Ms, rest)),
        [word, rest @ ..] if is_named("s", word) => Ok((Unit::S, rest)),
        _ => Err(Fail::At(words)),
    }
}

#[tactic(auto, unfolding(crate::specs::Reading::time))]
fn time<'a>(words: &'a [Word]) -> Result<(Time, &'a [Word]), Fail<'a>>
    ensures value { Gives (λ x. (x.0, x.1.now)) result (reading.time words.now) }
    ensures shorter { IfOk result (λ x. length x.1.now < length words.now) }
{
    let (number, rest) = number(words)?;
    let (unit, rest) = unit(rest)?;
    Ok((Time { number, unit }, rest))
}

/// A time in brackets, after the word that says of what.
pub fn bracketed_time<'a>(kind: WordKind, words: &'a [Word]) -> Result<(Time, &'a [Word]), Fail<'a>>
    ensures value { Gives (λ x. (x.0, x.1.now)) result
        (after k.LeftBracket (after kind (after k.Equals (before k.RightBracket reading.time)))
        words.now) }
    ensures shorter { IfOk result (λ x. length x.1.now < length words.now) }
{
    let (_open, rest) = expect(WordKind::LeftBracket, words)?;
    let (_kind, rest) = expect(kind, rest)?;
    let (_equals, rest) = expect(WordKind::Equals, rest)?;
    let (time, rest) = time(rest)?;
    let (_close, rest) = expect(WordKind::RightBracket, rest)?;
    Ok((time, rest))
}

/// The literal of a truth.
fn truth_of(truth: bool, word: &Word) -> Lit
    ensures { result ≡ tree.truth_of truth word.now }
{
    Lit {
        line: word.line,
        col: word.col,
        value: LitValue::Truth(truth),
    }
}

/// The literal of a number.
fn plain_of(number: Num) -> Lit
    ensures { result ≡ tree.plain_of number }
{
    Lit {
        line: number.line,
        col: number.col,
        value: LitValue::Number {
            minus: false,
            number,
        },
    }
}

/// The literal of a minus and a number.
fn minus_of(sign: &Word, number: Num) -> Lit
    ensures { result ≡ tree.minus_of (sign.now, number) }
{
    Lit {
        line: sign.line,
        col: sign.col,
        value: LitValue::Number {
            minus: true,
            number,
        },
    }
}

#[tactic(auto, unfolding(crate::specs::Reading::literal))]
pub fn literal<'a>(words: &'a [Word]) -> Result<(Lit, &'a [Word]), Fail<'a>>
    ensures value { Gives (λ x. (x.0, x.1.now)) result (reading.literal words.now) }
    ensures shorter { IfOk result (λ x. length x.1.now < length words.now) }
{
    if opens(WordKind::Minus, words) {
        let (sign, rest) = expect(WordKind::Minus, words)?;
        let (number, rest) = number(rest)?;
        return Ok((minus_of(sign, number), rest));
    }
    if opens(WordKind::Number, words) {
        let (number, rest) = number(words)?;
        return Ok((plain_of(number), rest));
    }
    if opens(WordKind::True, words) {
        let (word, rest) = expect(WordKind::True, words)?;
        return Ok((truth_of(true, word), rest));
    }
    let (word, rest) = expect(WordKind::False, words)?;
    Ok((truth_of(false, word), rest))
}

#[tactic(auto, unfolding(crate::specs::Reading::kind))]
pub fn kind<'a>(words: &'a [Word]) -> Result<(Kind, &'a [Word]), Fail<'a>>
    ensures value { Gives (λ x. (x.0, x.1.now)) result (reading.kind words.now) }
    ensures shorter { IfOk result (λ x. length x.1.now < length words.now) }
{
    match words {
        [word, rest @ ..] if word.is(WordKind::Boolean) => Ok((Kind::Boolean, rest)),
        [word, rest @ ..] if word.is(WordKind::Byte) => Ok((Kind::Byte, rest)),
        [word, rest @ ..] if word.is(WordKind::Short) => Ok((Kind::Short, rest)),
        [word, rest @ ..] if word.is(WordKind::Int) => Ok((Kind::Int, rest)),
        [word, rest @ ..] if word.is(WordKind::Long) => Ok((Kind::Long, rest)),
        _ => Err(Fail::At(words)),
    }
}
