//! The levels of expressions, each over the one below it. `depth` bounds how deep signs and
//! parentheses stand in one another.

ghost use Rattle.std.specs.Prelude.{◌≡◌, ◌<◌, ◌≤◌, length, IfOk};
ghost use Rattle.tdl_grammar.specs.Parsing.{tail};
ghost use Rattle.tdl_parse.specs.Giving.{Gives};
ghost use Rattle.tdl_parse.specs.ReadingExpressions as reading;
ghost use Rattle.tdl_tree.specs.Expressions as tree;
ghost use Rattle.tdl_tree.specs.Kinds.{is};
ghost use Rattle.tdl_tree.specs.declared.words.WordKind.TheVariants as k;

use crate::basics::expect;
use crate::expressions::{
    is_comparison, is_product_sign, is_sum_sign, is_unary_sign, join, signed,
};
use crate::fail::Fail;
use crate::operands::plain;
use std::alloc::Global;
use tdl_tree::{ExprTree, Word, WordKind};

type Read<'a> = Result<(ExprTree, &'a [Word]), Fail<'a>>;

#[cycle(levels)]
#[tactic(auto, unfolding(crate::specs::ReadingExpressions::unary))]
fn unary<'a>(alloc: Global, depth: usize, words: &'a [Word]) -> Read<'a>
    ensures value { Gives (λ x. (x.0, x.1.now)) result (reading.unary depth words.now) }
    ensures shorter { IfOk result (λ x. length x.1.now < length words.now) }
{
    if depth == 0 {
        return plain(alloc, words);
    }
    match words {
        [sign, rest @ ..] if is_unary_sign(sign) => {
            let (operand, rest) = unary(alloc, depth - 1, rest)?;
            Ok((signed(alloc, sign, operand)?, rest))
        }
        [open, rest @ ..] if open.is(WordKind::LeftParenthesis) => {
            let (inner, rest) = expression(alloc, depth - 1, rest)?;
            let (_close, rest) = expect(WordKind::RightParenthesis, rest)?;
            let tree = ExprTree {
                line: open.line,
                col: open.col,
                node: inner.node,
            };
            Ok((tree, rest))
        }
        _ => plain(alloc, words),
    }
}

#[cycle(levels)]
fn more_factors<'a>(
    alloc: Global,
    depth: usize,
    count: usize,
    left: ExprTree,
    words: &'a [Word],
) -> Read<'a>
    ensures value { Gives (λ x. (x.0, x.1.now)) result
        (tail tree.is_product_sign tree.joins (reading.unary depth) count left words.now) }
    ensures shorter { IfOk result (λ x. length x.1.now ≤ length words.now) }
{
    if count == 0 {
        return Ok((left, words));
    }
    match words {
        [sign, rest @ ..] if is_product_sign(sign) => {
            let (right, rest) = unary(alloc, depth, rest)?;
            let product = join(alloc, left, sign, right)?;
            more_factors(alloc, depth, count - 1, product, rest)
        }
        _ => Ok((left, words)),
    }
}

#[cycle(levels)]
#[tactic(auto, unfolding(crate::specs::ReadingExpressions::prod))]
fn product<'a>(alloc: Global, depth: usize, words: &'a [Word]) -> Read<'a>
    ensures value { Gives (λ x. (x.0, x.1.now)) result
        (reading.prod (reading.unary depth) words.now) }
    ensures shorter { IfOk result (λ x. length x.1.now < length words.now) }
{
    let (first, rest) = unary(alloc, depth, words)?;
    more_factors(alloc, depth, rest.len(), first, rest)
}

#[cycle(levels)]
fn more_terms<'a>(
    alloc: Global,
    depth: usize,
    count: usize,
    left: ExprTree,
    words: &'a [Word],
) -> Read<'a>
    ensures value { Gives (λ x. (x.0, x.1.now)) result
        (tail tree.is_sum_sign tree.joins (reading.prod (reading.unary depth)) count left words.now) }
    ensures shorter { IfOk result (λ x. length x.1.now ≤ length words.now) }
{
    if count == 0 {
        return Ok((left, words));
    }
    match words {
        [sign, rest @ ..] if is_sum_sign(sign) => {
            let (right, rest) = product(alloc, depth, rest)?;
            let sum = join(alloc, left, sign, right)?;
            more_terms(alloc, depth, count - 1, sum, rest)
        }
        _ => Ok((left, words)),
    }
}

#[cycle(levels)]
#[tactic(auto, unfolding(crate::specs::ReadingExpressions::sum))]
fn sum<'a>(alloc: Global, depth: usize, words: &'a [Word]) -> Read<'a>
    ensures value { Gives (λ x. (x.0, x.1.now)) result
        (reading.sum (reading.unary depth) words.now) }
    ensures shorter { IfOk result (λ x. length x.1.now < length words.now) }
{
    let (first, rest) = product(alloc, depth, words)?;
    more_terms(alloc, depth, rest.len(), first, rest)
}

#[cycle(levels)]
#[tactic(auto, unfolding(crate::specs::ReadingExpressions::rel))]
fn relation<'a>(alloc: Global, depth: usize, words: &'a [Word]) -> Read<'a>
    ensures value { Gives (λ x. (x.0, x.1.now)) result
        (reading.rel (reading.unary depth) words.now) }
    ensures shorter { IfOk result (λ x. length x.1.now < length words.now) }
{
    let (left, rest) = sum(alloc, depth, words)?;
    match rest {
        [sign, after @ ..] if is_comparison(sign) => {
            let (right, rest) = sum(alloc, depth, after)?;
            Ok((join(alloc, left, sign, right)?, rest))
        }
        _ => Ok((left, rest)),
    }
}

#[cycle(levels)]
fn more_relations<'a>(
    alloc: Global,
    depth: usize,
    count: usize,
    left: ExprTree,
    words: &'a [Word],
) -> Read<'a>
    ensures value { Gives (λ x. (x.0, x.1.now)) result
        (tail (is k.AndAnd) tree.joins (reading.rel (reading.unary depth)) count left words.now) }
    ensures shorter { IfOk result (λ x. length x.1.now ≤ length words.now) }
{
    if count == 0 {
        return Ok((left, words));
    }
    match words {
        [sign, rest @ ..] if sign.is(WordKind::AndAnd) => {
            let (right, rest) = relation(alloc, depth, rest)?;
            let both = join(alloc, left, sign, right)?;
            more_relations(alloc, depth, count - 1, both, rest)
        }
        _ => Ok((left, words)),
    }
}

#[cycle(levels)]
#[tactic(auto, unfolding(crate::specs::ReadingExpressions::conj))]
fn conjunction<'a>(alloc: Global, depth: usize, words: &'a [Word]) -> Read<'a>
    ensures value { Gives (λ x. (x.0, x.1.now)) result
        (reading.conj (reading.unary depth) words.now) }
    ensures shorter { IfOk result (λ x. length x.1.now < length words.now) }
{
    let (first, rest) = relation(alloc, depth, words)?;
    more_relations(alloc, depth, rest.len(), first, rest)
}

#[cycle(levels)]
fn more_conjunctions<'a>(
    alloc: Global,
    depth: usize,
    count: usize,
    left: ExprTree,
    words: &'a [Word],
) -> Read<'a>
    ensures value { Gives (λ x. (x.0, x.1.now)) result
        (tail (is k.OrOr) tree.joins (reading.conj (reading.unary depth)) count left words.now) }
    ensures shorter { IfOk result (λ x. length x.1.now ≤ length words.now) }
{
    if count == 0 {
        return Ok((left, words));
    }
    match words {
        [sign, rest @ ..] if sign.is(WordKind::OrOr) => {
            let (right, rest) = conjunction(alloc, depth, rest)?;
            let either = join(alloc, left, sign, right)?;
            more_conjunctions(alloc, depth, count - 1, either, rest)
        }
        _ => Ok((left, words)),
    }
}

#[cycle(levels)]
#[tactic(auto, unfolding(crate::specs::ReadingExpressions::expr_over))]
pub fn expression<'a>(alloc: Global, depth: usize, words: &'a [Word]) -> Read<'a>
    ensures value { Gives (λ x. (x.0, x.1.now)) result
        (reading.expr_over (reading.unary depth) words.now) }
    ensures shorter { IfOk result (λ x. length x.1.now < length words.now) }
{
    let (first, rest) = conjunction(alloc, depth, words)?;
    more_conjunctions(alloc, depth, rest.len(), first, rest)
}
