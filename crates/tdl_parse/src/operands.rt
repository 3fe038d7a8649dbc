//! Operands without signs and parentheses.

ghost use Rattle.std.specs.Prelude.{◌≡◌, ◌<◌, length, IfOk};
ghost use Rattle.tdl_parse.specs.Giving.{Gives};
ghost use Rattle.tdl_parse.specs.Reading.{after};
ghost use Rattle.tdl_parse.specs.Reading as basic;
ghost use Rattle.tdl_parse.specs.ReadingExpressions as reading;
ghost use Rattle.tdl_tree.specs.Expressions as tree;
ghost use Rattle.tdl_tree.specs.declared.words.WordKind.TheVariants as k;

use crate::basics::{expect, opens};
use crate::fail::Fail;
use crate::names::{id, number};
use std::alloc::Global;
use tdl_base::Listed;
use tdl_tree::{ExprNode, ExprTree, Id, Num, Word, WordKind};

fn number_of(number: Num) -> ExprTree
    ensures { result ≡ tree.number_of number }
{
    ExprTree {
        line: number.line,
        col: number.col,
        node: ExprNode::Number(number),
    }
}

fn truth_of(truth: bool, word: &Word) -> ExprTree
    ensures { result ≡ tree.truth_of truth word.now }
{
    ExprTree {
        line: word.line,
        col: word.col,
        node: ExprNode::Truth(truth),
    }
}

/// A dot and a part of a name.
fn dotted<'a>(alloc: Global, words: &'a [Word]) -> Result<(Id, &'a [Word]), Fail<'a>>
    ensures value { Gives (λ x. (x.0, x.1.now)) result (after k.Dot basic.id words.now) }
    ensures shorter { IfOk result (λ x. length x.1.now < length words.now) }
{
    let (_dot, rest) = expect(WordKind::Dot, words)?;
    id(alloc, rest)
}

#[tactic(auto, unfolding(crate::specs::ReadingExpressions::name))]
fn name<'a>(alloc: Global, words: &'a [Word]) -> Result<(ExprTree, &'a [Word]), Fail<'a>>
    ensures value { Gives (λ x. (x.0, x.1.now)) result (reading.name words.now) }
    ensures shorter { IfOk result (λ x. length x.1.now < length words.now) }
{
    let (first, rest) = id(alloc, words)?;
    let line = first.line;
    let col = first.col;
    let mut parts = Listed::only(alloc, first)?;
    if !opens(WordKind::Dot, rest) {
        let node = ExprNode::Name { parts };
        return Ok((ExprTree { line, col, node }, rest));
    }
    let (second, rest) = dotted(alloc, rest)?;
    parts.push(second)?;
    if !opens(WordKind::Dot, rest) {
        let node = ExprNode::Name { parts };
        return Ok((ExprTree { line, col, node }, rest));
    }
    let (third, rest) = dotted(alloc, rest)?;
    parts.push(third)?;
    let node = ExprNode::Name { parts };
    Ok((ExprTree { line, col, node }, rest))
}

#[tactic(auto, unfolding(crate::specs::ReadingExpressions::plain))]
pub fn plain<'a>(alloc: Global, words: &'a [Word]) -> Result<(ExprTree, &'a [Word]), Fail<'a>>
    ensures value { Gives (λ x. (x.0, x.1.now)) result (reading.plain words.now) }
    ensures shorter { IfOk result (λ x. length x.1.now < length words.now) }
{
    if opens(WordKind::Number, words) {
        let (number, rest) = number(words)?;
        return Ok((number_of(number), rest));
    }
    if opens(WordKind::True, words) {
        let (word, rest) = expect(WordKind::True, words)?;
        return Ok((truth_of(true, word), rest));
    }
    if opens(WordKind::False, words) {
        let (word, rest) = expect(WordKind::False, words)?;
        return Ok((truth_of(false, word), rest));
    }
    name(alloc, words)
}
