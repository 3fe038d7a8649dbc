//! Arguments.

ghost use Rattle.std.specs.Prelude.{◌≡◌, ◌<◌, length, IfOk};
ghost use Rattle.tdl_grammar.specs.Parsing.{separated};
ghost use Rattle.tdl_parse.specs.Giving.{Gives};
ghost use Rattle.tdl_parse.specs.Reading.{after};
ghost use Rattle.tdl_parse.specs.ReadingActivities as reading;
ghost use Rattle.tdl_parse.specs.ReadingExpressions.{outermost};
ghost use Rattle.tdl_tree.specs.Kinds.{is};
ghost use Rattle.tdl_tree.specs.declared.words.WordKind.TheVariants as k;

use crate::basics::{expect, opens};
use crate::fail::Fail;
use crate::outermost::outermost;
use std::alloc::Global;
use tdl_base::Listed;
use tdl_tree::{ExprTree, Word, WordKind};

/// A comma and an expression.
fn next_expression<'a>(alloc: Global, words: &'a [Word]) -> Result<(ExprTree, &'a [Word]), Fail<'a>>
    ensures value { Gives (λ x. (x.0, x.1.now)) result (after k.Comma outermost words.now) }
    ensures shorter { IfOk result (λ x. length x.1.now < length words.now) }
{
    let (_comma, rest) = expect(WordKind::Comma, words)?;
    outermost(alloc, rest)
}

/// Expressions with commas between them.
fn expressions<'a>(
    alloc: Global,
    words: &'a [Word],
) -> Result<(Vec<ExprTree>, &'a [Word]), Fail<'a>>
    ensures value { Gives (λ x. (x.0.items, x.1.now)) result
        (separated (is k.Comma) outermost words.now) }
    ensures shorter { IfOk result (λ x. length x.1.now < length words.now) }
{
    let (first, after_first) = outermost(alloc, words)?;
    let mut items = Listed::only(alloc, first)?.into_vec();
    let mut rest = after_first;
    let mut more = after_first.len();
    while more > 0 {
        if !opens(WordKind::Comma, rest) {
            return Ok((items, rest));
        }
        let (item, after) = next_expression(alloc, rest)?;
        items.push(item)?;
        rest = after;
        more -= 1;
    }
    Ok((items, rest))
}

#[tactic(auto, unfolding(crate::specs::ReadingActivities::arguments))]
pub fn arguments<'a>(
    alloc: Global,
    words: &'a [Word],
) -> Result<(Listed<ExprTree>, &'a [Word]), Fail<'a>>
    ensures value { Gives (λ x. (x.0, x.1.now)) result (reading.arguments outermost words.now) }
    ensures shorter { IfOk result (λ x. length x.1.now < length words.now) }
{
    if opens(WordKind::RightParenthesis, words) {
        let (_close, rest) = expect(WordKind::RightParenthesis, words)?;
        return Ok((Listed::new(alloc), rest));
    }
    let (items, rest) = expressions(alloc, words)?;
    let (_close, rest) = expect(WordKind::RightParenthesis, rest)?;
    Ok((Listed::from_vec(items), rest))
}
