//! Sensors, actuators, constants and ports.

ghost use Rattle.std.specs.Prelude.{◌≡◌, ◌<◌, ◌≤◌, length, IfOk};
ghost use Rattle.tdl_grammar.specs.Parsing as parsing;
ghost use Rattle.tdl_parse.specs.Giving.{Gives};
ghost use Rattle.tdl_parse.specs.Reading.{after};
ghost use Rattle.tdl_parse.specs.Reading as basic;
ghost use Rattle.tdl_parse.specs.ReadingDeclarations as reading;
ghost use Rattle.tdl_tree.specs.Kinds.{is};
ghost use Rattle.tdl_tree.specs.declared.words.WordKind.TheVariants as k;

use crate::basics::{expect, opens};
use crate::fail::Fail;
use crate::literals::{kind, literal};
use crate::names::id;
use std::alloc::Global;
use tdl_tree::{Decl, Id, Lit, PortDecl, Sort, Word, WordKind};

#[tactic(auto, unfolding(crate::specs::ReadingDeclarations::constant))]
pub fn constant<'a>(
    alloc: Global,
    public: bool,
    words: &'a [Word],
) -> Result<(Decl, &'a [Word]), Fail<'a>>
    ensures value { Gives (λ x. (x.0, x.1.now)) result (reading.constant public words.now) }
    ensures shorter { IfOk result (λ x. length x.1.now < length words.now) }
{
    let (_const, rest) = expect(WordKind::Const, words)?;
    let (kind, rest) = kind(rest)?;
    let (name, rest) = id(alloc, rest)?;
    let (_equals, rest) = expect(WordKind::Equals, rest)?;
    let (value, rest) = literal(rest)?;
    let (_end, rest) = expect(WordKind::Semicolon, rest)?;
    let constant = Decl::Const {
        public,
        kind,
        name,
        value,
    };
    Ok((constant, rest))
}

/// An initial literal, if one is written.
fn initial<'a>(words: &'a [Word]) -> Result<(Option<Lit>, &'a [Word]), Fail<'a>>
    ensures value { Gives (λ x. (x.0, x.1.now)) result
        (parsing.maybe (is k.Becomes) (after k.Becomes basic.literal) words.now) }
    ensures shorter { IfOk result (λ x. length x.1.now ≤ length words.now) }
{
    if !opens(WordKind::Becomes, words) {
        return Ok((None, words));
    }
    let (_becomes, rest) = expect(WordKind::Becomes, words)?;
    let (literal, rest) = literal(rest)?;
    Ok((Some(literal), rest))
}

/// What a sensor or an actuator uses, if it is written.
fn uses<'a>(alloc: Global, words: &'a [Word]) -> Result<(Option<Id>, &'a [Word]), Fail<'a>>
    ensures value { Gives (λ x. (x.0, x.1.now)) result
        (parsing.maybe (is k.Uses) (after k.Uses basic.id) words.now) }
    ensures shorter { IfOk result (λ x. length x.1.now ≤ length words.now) }
{
    if !opens(WordKind::Uses, words) {
        return Ok((None, words));
    }
    let (_uses, rest) = expect(WordKind::Uses, words)?;
    let (used, rest) = id(alloc, rest)?;
    Ok((Some(used), rest))
}

#[tactic(auto, unfolding(crate::specs::ReadingDeclarations::sensor))]
pub fn sensor<'a>(alloc: Global, words: &'a [Word]) -> Result<(Decl, &'a [Word]), Fail<'a>>
    ensures value { Gives (λ x. (x.0, x.1.now)) result (reading.sensor words.now) }
    ensures shorter { IfOk result (λ x. length x.1.now < length words.now) }
{
    let (_sensor, rest) = expect(WordKind::Sensor, words)?;
    let (kind, rest) = kind(rest)?;
    let (name, rest) = id(alloc, rest)?;
    let (_used, rest) = uses(alloc, rest)?;
    let (_end, rest) = expect(WordKind::Semicolon, rest)?;
    Ok((Decl::Sensor { kind, name }, rest))
}

#[tactic(auto, unfolding(crate::specs::ReadingDeclarations::actuator))]
pub fn actuator<'a>(alloc: Global, words: &'a [Word]) -> Result<(Decl, &'a [Word]), Fail<'a>>
    ensures value { Gives (λ x. (x.0, x.1.now)) result (reading.actuator words.now) }
    ensures shorter { IfOk result (λ x. length x.1.now < length words.now) }
{
    let (_actuator, rest) = expect(WordKind::Actuator, words)?;
    let (kind, rest) = kind(rest)?;
    let (name, rest) = id(alloc, rest)?;
    let (initial, rest) = initial(rest)?;
    let (_used, rest) = uses(alloc, rest)?;
    let (_end, rest) = expect(WordKind::Semicolon, rest)?;
    let actuator = Decl::Actuator {
        kind,
        name,
        initial,
    };
    Ok((actuator, rest))
}

#[tactic(auto, unfolding(crate::specs::ReadingDeclarations::input))]
fn input<'a>(alloc: Global, words: &'a [Word]) -> Result<(PortDecl, &'a [Word]), Fail<'a>>
    ensures value { Gives (λ x. (x.0, x.1.now)) result (reading.input words.now) }
    ensures shorter { IfOk result (λ x. length x.1.now < length words.now) }
{
    let (_input, rest) = expect(WordKind::Input, words)?;
    let (kind, rest) = kind(rest)?;
    let (name, rest) = id(alloc, rest)?;
    let (_end, rest) = expect(WordKind::Semicolon, rest)?;
    let port = PortDecl {
        sort: Sort::Input,
        kind,
        name,
        initial: None,
    };
    Ok((port, rest))
}

#[tactic(auto, unfolding(crate::specs::ReadingDeclarations::output))]
fn output<'a>(alloc: Global, words: &'a [Word]) -> Result<(PortDecl, &'a [Word]), Fail<'a>>
    ensures value { Gives (λ x. (x.0, x.1.now)) result (reading.output words.now) }
    ensures shorter { IfOk result (λ x. length x.1.now < length words.now) }
{
    let (_output, rest) = expect(WordKind::Output, words)?;
    let (kind, rest) = kind(rest)?;
    let (name, rest) = id(alloc, rest)?;
    let (initial, rest) = initial(rest)?;
    let (_end, rest) = expect(WordKind::Semicolon, rest)?;
    let port = PortDecl {
        sort: Sort::Output,
        kind,
        name,
        initial,
    };
    Ok((port, rest))
}

#[tactic(auto, unfolding(crate::specs::ReadingDeclarations::local))]
fn local<'a>(alloc: Global, words: &'a [Word]) -> Result<(PortDecl, &'a [Word]), Fail<'a>>
    ensures value { Gives (λ x. (x.0, x.1.now)) result (reading.local words.now) }
    ensures shorter { IfOk result (λ x. length x.1.now < length words.now) }
{
    let (_local, rest) = expect(WordKind::Local, words)?;
    let (kind, rest) = kind(rest)?;
    let (name, rest) = id(alloc, rest)?;
    let (_end, rest) = expect(WordKind::Semicolon, rest)?;
    let port = PortDecl {
        sort: Sort::Local,
        kind,
        name,
        initial: None,
    };
    Ok((port, rest))
}

#[tactic(auto, unfolding(crate::specs::ReadingDeclarations::port))]
fn port<'a>(alloc: Global, words: &'a [Word]) -> Result<(PortDecl, &'a [Word]), Fail<'a>>
    ensures value { Gives (λ x. (x.0, x.1.now)) result (reading.port words.now) }
    ensures shorter { IfOk result (λ x. length x.1.now < length words.now) }
{
    if opens(WordKind::Input, words) {
        return input(alloc, words);
    }
    if opens(WordKind::Output, words) {
        return output(alloc, words);
    }
    local(alloc, words)
}

#[tactic(auto, unfolding(crate::specs::ReadingDeclarations::begins_port))]
fn begins_port(words: &[Word]) -> bool
    ensures { result ≡ parsing.opens reading.begins_port words.now }
{
    match words {
        [word, ..] => {
            word.is(WordKind::Input) || word.is(WordKind::Output) || word.is(WordKind::Local)
        }
        [] => false,
    }
}

/// As many ports as stand at the front.
pub fn ports<'a>(alloc: Global, words: &'a [Word]) -> Result<(Vec<PortDecl>, &'a [Word]), Fail<'a>>
    ensures value { Gives (λ x. (x.0.items, x.1.now)) result
        (parsing.many reading.begins_port reading.port words.now) }
    ensures shorter { IfOk result (λ x. length x.1.now ≤ length words.now) }
{
    let mut items = Vec::new(alloc);
    let mut rest = words;
    let mut more = words.len();
    while more > 0 {
        if !begins_port(rest) {
            return Ok((items, rest));
        }
        let (item, after) = port(alloc, rest)?;
        items.push(item)?;
        rest = after;
        more -= 1;
    }
    Ok((items, rest))
}
