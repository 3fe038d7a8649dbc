//! Tasks, and declarations.

ghost use Rattle.std.specs.Prelude.{◌≡◌, ◌<◌, ◌≤◌, length, IfOk};
ghost use Rattle.tdl_grammar.specs.Parsing as parsing;
ghost use Rattle.tdl_parse.specs.Giving.{Gives};
ghost use Rattle.tdl_parse.specs.ReadingDeclarations as reading;
ghost use Rattle.tdl_parse.specs.ReadingExpressions.{outermost};
ghost use Rattle.tdl_parse.specs.ReadingStatements.{block};
ghost use Rattle.tdl_base.specs.declared.limits.TheConstants.{NESTED_BLOCKS};

use crate::activities::mode;
use crate::basics::{expect, opens};
use crate::fail::Fail;
use crate::literals::bracketed_time;
use crate::names::id;
use crate::ports::{actuator, constant, ports, sensor};
use crate::statements::statements;
use std::alloc::Global;
use tdl_base::Listed;
use tdl_base::limits::NESTED_BLOCKS;
use tdl_tree::{Decl, PortDecl, StmtTree, Word, WordKind};

/// The ports and statements of a task.
type TaskBody = (Listed<PortDecl>, Listed<StmtTree>);

#[tactic(auto, unfolding(crate::specs::ReadingDeclarations::task_body))]
fn task_body<'a>(alloc: Global, words: &'a [Word]) -> Result<(TaskBody, &'a [Word]), Fail<'a>>
    ensures value { Gives (λ x. (x.0, x.1.now)) result
        (reading.task_body outermost (block NESTED_BLOCKS outermost) words.now) }
    ensures shorter { IfOk result (λ x. length x.1.now < length words.now) }
{
    let (_open, rest) = expect(WordKind::LeftBrace, words)?;
    let (ports, rest) = ports(alloc, rest)?;
    let (body, rest) = statements(alloc, NESTED_BLOCKS, rest)?;
    let (_close, rest) = expect(WordKind::RightBrace, rest)?;
    Ok(((Listed::from_vec(ports), Listed::from_vec(body)), rest))
}

#[tactic(auto, unfolding(crate::specs::ReadingDeclarations::task, crate::specs::ReadingDeclarations::worst))]
fn task<'a>(alloc: Global, public: bool, words: &'a [Word]) -> Result<(Decl, &'a [Word]), Fail<'a>>
    ensures value { Gives (λ x. (x.0, x.1.now)) result
        (reading.task public outermost (block NESTED_BLOCKS outermost) words.now) }
    ensures shorter { IfOk result (λ x. length x.1.now < length words.now) }
{
    let (_task, rest) = expect(WordKind::Task, words)?;
    let (name, rest) = id(alloc, rest)?;
    let (worst, rest) = bracketed_time(WordKind::Wcet, rest)?;
    let ((ports, body), rest) = task_body(alloc, rest)?;
    let task = Decl::Task {
        public,
        name,
        worst,
        ports,
        body,
    };
    Ok((task, rest))
}

#[tactic(auto, unfolding(crate::specs::ReadingDeclarations::public_decl))]
fn public_declaration<'a>(alloc: Global, words: &'a [Word]) -> Result<(Decl, &'a [Word]), Fail<'a>>
    ensures value { Gives (λ x. (x.0, x.1.now)) result
        (reading.public_decl outermost (block NESTED_BLOCKS outermost) words.now) }
    ensures shorter { IfOk result (λ x. length x.1.now < length words.now) }
{
    let (_public, rest) = expect(WordKind::Public, words)?;
    if opens(WordKind::Const, rest) {
        let (decl, rest) = constant(alloc, true, rest)?;
        return Ok((decl, rest));
    }
    let (decl, rest) = task(alloc, true, rest)?;
    Ok((decl, rest))
}

#[tactic(auto, unfolding(crate::specs::ReadingDeclarations::decl))]
fn declaration<'a>(alloc: Global, words: &'a [Word]) -> Result<(Decl, &'a [Word]), Fail<'a>>
    ensures value { Gives (λ x. (x.0, x.1.now)) result
        (reading.decl outermost (block NESTED_BLOCKS outermost) words.now) }
    ensures shorter { IfOk result (λ x. length x.1.now < length words.now) }
{
    if opens(WordKind::Public, words) {
        return public_declaration(alloc, words);
    }
    if opens(WordKind::Const, words) {
        return constant(alloc, false, words);
    }
    if opens(WordKind::Task, words) {
        return task(alloc, false, words);
    }
    if opens(WordKind::Sensor, words) {
        return sensor(alloc, words);
    }
    if opens(WordKind::Actuator, words) {
        return actuator(alloc, words);
    }
    if opens(WordKind::Start, words) {
        let (_start, rest) = expect(WordKind::Start, words)?;
        let (decl, rest) = mode(alloc, true, rest)?;
        return Ok((decl, rest));
    }
    mode(alloc, false, words)
}

#[tactic(auto, unfolding(crate::specs::ReadingDeclarations::begins_decl))]
fn begins_declaration(words: &[Word]) -> bool
    ensures { result ≡ parsing.opens reading.begins_decl words.now }
{
    match words {
        [word, ..] => {
            word.is(WordKind::Public)
                || word.is(WordKind::Const)
                || word.is(WordKind::Task)
                || word.is(WordKind::Sensor)
                || word.is(WordKind::Actuator)
                || word.is(WordKind::Start)
                || word.is(WordKind::Mode)
        }
        [] => false,
    }
}

/// As many declarations as stand at the front.
pub fn declarations<'a>(
    alloc: Global,
    words: &'a [Word],
) -> Result<(Vec<Decl>, &'a [Word]), Fail<'a>>
    ensures value { Gives (λ x. (x.0.items, x.1.now)) result (parsing.many reading.begins_decl
        (reading.decl outermost (block NESTED_BLOCKS outermost)) words.now) }
    ensures shorter { IfOk result (λ x. length x.1.now ≤ length words.now) }
{
    let mut items = Vec::new(alloc);
    let mut rest = words;
    let mut more = words.len();
    while more > 0 {
        if !begins_declaration(rest) {
            return Ok((items, rest));
        }
        let (item, after) = declaration(alloc, rest)?;
        items.push(item)?;
        rest = after;
        more -= 1;
    }
    Ok((items, rest))
}
