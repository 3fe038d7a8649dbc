//! Statements and blocks. `nested` is how many blocks may still be opened inside one another.

ghost use Rattle.std.specs.Prelude.{◌≡◌, ◌<◌, ◌≤◌, length, IfOk};
ghost use Rattle.tdl_grammar.specs.Parsing as parsing;
ghost use Rattle.tdl_parse.specs.Giving.{Gives};
ghost use Rattle.tdl_parse.specs.ReadingExpressions.{outermost};
ghost use Rattle.tdl_parse.specs.ReadingStatements as reading;

use crate::basics::{expect, opens};
use crate::fail::Fail;
use crate::names::{id, number};
use crate::outermost::outermost;
use sqlite_items::Items;
use std::alloc::Global;
use tdl_tree::{StmtTree, Word, WordKind};

#[tactic(auto, unfolding(crate::specs::ReadingStatements::begins_stmt))]
fn begins_statement(words: &[Word]) -> bool
    ensures { result ≡ parsing.opens reading.begins_stmt words.now }
{
    match words {
        [word, ..] => {
            word.is(WordKind::Name) || word.is(WordKind::If) || word.is(WordKind::Repeat)
        }
        [] => false,
    }
}

#[tactic(auto, unfolding(crate::specs::ReadingStatements::assign))]
fn assignment<'a>(alloc: Global, words: &'a [Word]) -> Result<(StmtTree, &'a [Word]), Fail<'a>>
    ensures value { Gives (λ x. (x.0, x.1.now)) result (reading.assign outermost words.now) }
    ensures shorter { IfOk result (λ x. length x.1.now < length words.now) }
{
    let (target, rest) = id(alloc, words)?;
    let (_becomes, rest) = expect(WordKind::Becomes, rest)?;
    let (value, rest) = outermost(alloc, rest)?;
    let (_end, rest) = expect(WordKind::Semicolon, rest)?;
    Ok((StmtTree::Assign { target, value }, rest))
}

#[cycle(statements)]
#[tactic(auto, unfolding(crate::specs::ReadingStatements::if_stmt))]
fn if_statement<'a>(
    alloc: Global,
    nested: usize,
    words: &'a [Word],
) -> Result<(StmtTree, &'a [Word]), Fail<'a>>
    ensures value { Gives (λ x. (x.0, x.1.now)) result
        (reading.if_stmt outermost (reading.block nested outermost) words.now) }
    ensures shorter { IfOk result (λ x. length x.1.now < length words.now) }
{
    let (_if, rest) = expect(WordKind::If, words)?;
    let (cond, rest) = outermost(alloc, rest)?;
    let (then, rest) = block(alloc, nested, rest)?;
    if !opens(WordKind::Else, rest) {
        let other = None;
        return Ok((StmtTree::If { cond, then, other }, rest));
    }
    let (_else, rest) = expect(WordKind::Else, rest)?;
    let (other, rest) = block(alloc, nested, rest)?;
    let other = Some(other);
    Ok((StmtTree::If { cond, then, other }, rest))
}

#[cycle(statements)]
#[tactic(auto, unfolding(crate::specs::ReadingStatements::repeat_stmt))]
fn repeat_statement<'a>(
    alloc: Global,
    nested: usize,
    words: &'a [Word],
) -> Result<(StmtTree, &'a [Word]), Fail<'a>>
    ensures value { Gives (λ x. (x.0, x.1.now)) result
        (reading.repeat_stmt (reading.block nested outermost) words.now) }
    ensures shorter { IfOk result (λ x. length x.1.now < length words.now) }
{
    let (_repeat, rest) = expect(WordKind::Repeat, words)?;
    let (count, rest) = number(rest)?;
    let (body, rest) = block(alloc, nested, rest)?;
    Ok((StmtTree::Repeat { count, body }, rest))
}

#[cycle(statements)]
#[tactic(auto, unfolding(crate::specs::ReadingStatements::stmt))]
fn statement<'a>(
    alloc: Global,
    nested: usize,
    words: &'a [Word],
) -> Result<(StmtTree, &'a [Word]), Fail<'a>>
    ensures value { Gives (λ x. (x.0, x.1.now)) result
        (reading.stmt outermost (reading.block nested outermost) words.now) }
    ensures shorter { IfOk result (λ x. length x.1.now < length words.now) }
{
    if opens(WordKind::Name, words) {
        return assignment(alloc, words);
    }
    if opens(WordKind::If, words) {
        return if_statement(alloc, nested, words);
    }
    repeat_statement(alloc, nested, words)
}

/// As many statements as stand at the front.
#[cycle(statements)]
pub fn statements<'a>(
    alloc: Global,
    nested: usize,
    words: &'a [Word],
) -> Result<(Vec<StmtTree>, &'a [Word]), Fail<'a>>
    ensures value { Gives (λ x. (x.0.items, x.1.now)) result (parsing.many reading.begins_stmt
        (reading.stmt outermost (reading.block nested outermost)) words.now) }
    ensures shorter { IfOk result (λ x. length x.1.now ≤ length words.now) }
{
    let mut items = Vec::new(alloc);
    let mut rest = words;
    let mut more = words.len();
    while more > 0 {
        if !begins_statement(rest) {
            return Ok((items, rest));
        }
        let (item, after) = statement(alloc, nested, rest)?;
        items.push(item)?;
        rest = after;
        more -= 1;
    }
    Ok((items, rest))
}

#[cycle(statements)]
#[tactic(auto, unfolding(crate::specs::ReadingStatements::block))]
fn block<'a>(
    alloc: Global,
    nested: usize,
    words: &'a [Word],
) -> Result<(Items<StmtTree>, &'a [Word]), Fail<'a>>
    ensures value { Gives (λ x. (x.0, x.1.now)) result
        (reading.block nested outermost words.now) }
    ensures shorter { IfOk result (λ x. length x.1.now < length words.now) }
{
    if nested == 0 {
        return Err(Fail::At(words));
    }
    let (_open, rest) = expect(WordKind::LeftBrace, words)?;
    let (items, rest) = statements(alloc, nested - 1, rest)?;
    let (_close, rest) = expect(WordKind::RightBrace, rest)?;
    Ok((Items::from_vec(items), rest))
}
