//! Outermost expressions, which have a most of words.

ghost use Rattle.std.specs.Prelude.{◌≡◌, ◌-◌, ◌<◌, length, min, take, drop, IfOk};
ghost use Rattle.tdl_base.specs.declared.limits.TheConstants.{EXPRESSION_TOKENS};
ghost use Rattle.tdl_grammar.specs.Parsing as parsing;
ghost use Rattle.tdl_parse.specs.Giving.{Gives};
ghost use Rattle.tdl_parse.specs.ReadingExpressions as reading;

use crate::expressions::{is_comparison, is_product_sign, is_sum_sign};
use crate::fail::Fail;
use crate::levels::expression;
use std::alloc::Global;
use tdl_base::limits::EXPRESSION_TOKENS;
use tdl_tree::{ExprTree, Word, WordKind};

/// Whether an expression goes on with the word at the front.
#[tactic(auto, unfolding(crate::specs::ReadingExpressions::goes_on))]
fn goes_on(words: &[Word]) -> bool
    ensures { result ≡ parsing.opens reading.goes_on words.now }
{
    match words {
        [word, ..] => {
            word.is(WordKind::Dot)
                || is_product_sign(word)
                || is_sum_sign(word)
                || is_comparison(word)
                || word.is(WordKind::AndAnd)
                || word.is(WordKind::OrOr)
        }
        [] => false,
    }
}

/// The lesser of two numbers.
fn least(most: usize, count: usize) -> usize
    ensures { result ≡ min most count }
{
    if most <= count { most } else { count }
}

/// The first words, as many as an expression may have.
fn cut(words: &[Word]) -> &[Word]
    ensures { result.now ≡ take EXPRESSION_TOKENS words.now }
{
    &words[..least(EXPRESSION_TOKENS, words.len())]
}

/// The words from where `rest` begins in the words at their front.
fn beyond<'a>(words: &'a [Word], front: &[Word], rest: &[Word]) -> &'a [Word]
    ensures { result.now ≡ drop (length front.now - length rest.now) words.now }
{
    let place = front.len().saturating_sub(rest.len());
    if place >= words.len() {
        return &words[words.len()..];
    }
    &words[place..]
}

/// The tree, unless the expression goes on with the words after it.
fn ended<'a>(tree: ExprTree, words: &'a [Word]) -> Result<(ExprTree, &'a [Word]), Fail<'a>>
    ensures { Gives (λ x. (x.0, x.1.now)) result
        (parsing.ended reading.goes_on tree words.now) }
{
    if goes_on(words) {
        return Err(Fail::At(words));
    }
    Ok((tree, words))
}

/// An outermost expression. The word after the most that it may have is out of place where the
/// expression goes on with it.
pub fn outermost<'a>(alloc: Global, words: &'a [Word]) -> Result<(ExprTree, &'a [Word]), Fail<'a>>
    ensures value { Gives (λ x. (x.0, x.1.now)) result (reading.outermost words.now) }
    ensures shorter { IfOk result (λ x. length x.1.now < length words.now) }
{
    let front = cut(words);
    match expression(alloc, EXPRESSION_TOKENS, front) {
        Ok((tree, rest)) => {
            let after = beyond(words, front, rest);
            if rest.is_empty() {
                return ended(tree, after);
            }
            Ok((tree, after))
        }
        Err(Fail::At(rest)) => Err(Fail::At(beyond(words, front, rest))),
        Err(Fail::Memory) => Err(Fail::Memory),
    }
}
