//! Modes and their activities.

ghost use Rattle.std.specs.Prelude.{◌≡◌, ◌<◌, ◌≤◌, length, IfOk};
ghost use Rattle.tdl_grammar.specs.Parsing as parsing;
ghost use Rattle.tdl_parse.specs.Giving.{Gives};
ghost use Rattle.tdl_parse.specs.Reading.{after};
ghost use Rattle.tdl_parse.specs.ReadingActivities as reading;
ghost use Rattle.tdl_parse.specs.ReadingExpressions.{outermost};
ghost use Rattle.tdl_tree.specs.Kinds.{is};
ghost use Rattle.tdl_tree.specs.declared.words.WordKind.TheVariants as k;

use crate::arguments::arguments;
use crate::basics::{expect, opens};
use crate::fail::Fail;
use crate::literals::bracketed_time;
use crate::names::id;
use crate::outermost::outermost;
use crate::slots::freq;
use std::alloc::Global;
use tdl_base::Listed;
use tdl_tree::{Act, ActKind, Decl, ExprTree, Num, Slots, Word, WordKind};

#[tactic(auto, unfolding(crate::specs::ReadingActivities::invocation))]
fn invocation<'a>(alloc: Global, words: &'a [Word]) -> Result<(ActKind, &'a [Word]), Fail<'a>>
    ensures value { Gives (λ x. (x.0, x.1.now)) result (reading.invocation outermost words.now) }
    ensures shorter { IfOk result (λ x. length x.1.now < length words.now) }
{
    let (task, rest) = id(alloc, words)?;
    let (_open, rest) = expect(WordKind::LeftParenthesis, rest)?;
    let (args, rest) = arguments(alloc, rest)?;
    Ok((ActKind::Task { task, args }, rest))
}

#[tactic(auto, unfolding(crate::specs::ReadingActivities::update))]
fn update<'a>(alloc: Global, words: &'a [Word]) -> Result<(ActKind, &'a [Word]), Fail<'a>>
    ensures value { Gives (λ x. (x.0, x.1.now)) result (reading.update outermost words.now) }
    ensures shorter { IfOk result (λ x. length x.1.now < length words.now) }
{
    let (actuator, rest) = id(alloc, words)?;
    let (_becomes, rest) = expect(WordKind::Becomes, rest)?;
    let (value, rest) = outermost(alloc, rest)?;
    Ok((ActKind::Update { actuator, value }, rest))
}

#[tactic(auto, unfolding(crate::specs::ReadingActivities::switch))]
fn switch<'a>(alloc: Global, words: &'a [Word]) -> Result<(ActKind, &'a [Word]), Fail<'a>>
    ensures value { Gives (λ x. (x.0, x.1.now)) result (reading.switch words.now) }
    ensures shorter { IfOk result (λ x. length x.1.now < length words.now) }
{
    let (_to, rest) = expect(WordKind::To, words)?;
    let (target, rest) = id(alloc, rest)?;
    Ok((ActKind::Switch { target }, rest))
}

/// What an activity does and how often, with its first word.
type Deed<'a> = (&'a Word, (Num, Listed<Slots>), ActKind, &'a [Word]);

#[tactic(auto, unfolding(crate::specs::ReadingActivities::deed))]
fn deed<'a>(alloc: Global, words: &'a [Word]) -> Result<Deed<'a>, Fail<'a>>
    ensures value { Gives (λ x. ((x.0.now, (x.1, x.2)), x.3.now)) result
        (reading.deed outermost words.now) }
    ensures shorter { IfOk result (λ x. length x.3.now < length words.now) }
{
    if opens(WordKind::Task, words) {
        let (word, rest) = expect(WordKind::Task, words)?;
        let (freq, rest) = freq(alloc, rest)?;
        let (what, rest) = invocation(alloc, rest)?;
        return Ok((word, freq, what, rest));
    }
    if opens(WordKind::Update, words) {
        let (word, rest) = expect(WordKind::Update, words)?;
        let (freq, rest) = freq(alloc, rest)?;
        let (what, rest) = update(alloc, rest)?;
        return Ok((word, freq, what, rest));
    }
    let (word, rest) = expect(WordKind::Switch, words)?;
    let (freq, rest) = freq(alloc, rest)?;
    let (what, rest) = switch(alloc, rest)?;
    Ok((word, freq, what, rest))
}

/// A guard, if one is written.
fn guard<'a>(alloc: Global, words: &'a [Word]) -> Result<(Option<ExprTree>, &'a [Word]), Fail<'a>>
    ensures value { Gives (λ x. (x.0, x.1.now)) result
        (parsing.maybe (is k.If) (after k.If outermost) words.now) }
    ensures shorter { IfOk result (λ x. length x.1.now ≤ length words.now) }
{
    if !opens(WordKind::If, words) {
        return Ok((None, words));
    }
    let (_if, rest) = expect(WordKind::If, words)?;
    let (guard, rest) = outermost(alloc, rest)?;
    Ok((Some(guard), rest))
}

#[tactic(auto, unfolding(crate::specs::ReadingActivities::act))]
fn activity<'a>(alloc: Global, words: &'a [Word]) -> Result<(Act, &'a [Word]), Fail<'a>>
    ensures value { Gives (λ x. (x.0, x.1.now)) result (reading.act outermost words.now) }
    ensures shorter { IfOk result (λ x. length x.1.now < length words.now) }
{
    let (word, (freq, slots), what, rest) = deed(alloc, words)?;
    let (guard, rest) = guard(alloc, rest)?;
    let (_end, rest) = expect(WordKind::Semicolon, rest)?;
    let act = Act {
        line: word.line,
        col: word.col,
        freq,
        slots,
        what,
        guard,
    };
    Ok((act, rest))
}

#[tactic(auto, unfolding(crate::specs::ReadingActivities::begins_act))]
fn begins_activity(words: &[Word]) -> bool
    ensures { result ≡ parsing.opens reading.begins_act words.now }
{
    match words {
        [word, ..] => {
            word.is(WordKind::Task) || word.is(WordKind::Update) || word.is(WordKind::Switch)
        }
        [] => false,
    }
}

/// As many activities as stand at the front.
fn activities<'a>(alloc: Global, words: &'a [Word]) -> Result<(Vec<Act>, &'a [Word]), Fail<'a>>
    ensures value { Gives (λ x. (x.0.items, x.1.now)) result
        (parsing.many reading.begins_act (reading.act outermost) words.now) }
    ensures shorter { IfOk result (λ x. length x.1.now ≤ length words.now) }
{
    let mut items = Vec::new(alloc);
    let mut rest = words;
    let mut more = words.len();
    while more > 0 {
        if !begins_activity(rest) {
            return Ok((items, rest));
        }
        let (item, after) = activity(alloc, rest)?;
        items.push(item)?;
        rest = after;
        more -= 1;
    }
    Ok((items, rest))
}

#[tactic(auto, unfolding(crate::specs::ReadingActivities::acts_of_mode))]
fn acts_of_mode<'a>(alloc: Global, words: &'a [Word]) -> Result<(Listed<Act>, &'a [Word]), Fail<'a>>
    ensures value { Gives (λ x. (x.0, x.1.now)) result
        (reading.acts_of_mode outermost words.now) }
    ensures shorter { IfOk result (λ x. length x.1.now < length words.now) }
{
    let (_open, rest) = expect(WordKind::LeftBrace, words)?;
    let (acts, rest) = activities(alloc, rest)?;
    let (_close, rest) = expect(WordKind::RightBrace, rest)?;
    Ok((Listed::from_vec(acts), rest))
}

#[tactic(auto, unfolding(crate::specs::ReadingActivities::mode, crate::specs::ReadingActivities::period))]
pub fn mode<'a>(
    alloc: Global,
    start: bool,
    words: &'a [Word],
) -> Result<(Decl, &'a [Word]), Fail<'a>>
    ensures value { Gives (λ x. (x.0, x.1.now)) result (reading.mode start outermost words.now) }
    ensures shorter { IfOk result (λ x. length x.1.now < length words.now) }
{
    let (_mode, rest) = expect(WordKind::Mode, words)?;
    let (name, rest) = id(alloc, rest)?;
    let (period, rest) = bracketed_time(WordKind::Period, rest)?;
    let (acts, rest) = acts_of_mode(alloc, rest)?;
    let mode = Decl::Mode {
        start,
        name,
        period,
        acts,
    };
    Ok((mode, rest))
}
