ghost use Rattle.std.specs.Prelude.{◌≡◌, ◌≤◌, length, map, true, IfOk, option_map};
ghost use Rattle.tdl_place.specs.Entries.{cost_of, node_said, bus_said, said_after, entry_of};
ghost use Rattle.tdl_place.specs.declared.limits.TheConstants.{MODULES};
ghost use Rattle.tdl_scan.specs.Lexemes.{is_identifier};

use crate::entry::Entry;
use crate::found::{modules_named, names_none};
use crate::limits::COST_US;
use std::alloc::Global;
use tdl_base::{NoMemory, Text};
use tdl_deploy::{BusCost, PlacedNode};
use tdl_mode::Program;
use tdl_scan::is_identifier;
use tdl_scen::number;

/// An identifier as a text.
fn text_of(alloc: Global, name: &[u8]) -> Result<Text, NoMemory>
    requires { is_identifier name.now ≡ true }
    ensures { IfOk result (λ text. text ≡ name.now) }
{
    let text = str::from_utf8(name).unwrap();
    Text::from_str(alloc, text)
}

/// The cost that a word is; `None` where it is no number or too great.
fn cost_of(word: &[u8]) -> Option<u32>
    ensures { result ≡ cost_of word.now }
{
    let cost = number(word)?;
    if cost > COST_US {
        return None;
    }
    Some(cost as u32)
}

/// The words after `node`.
fn node_said(alloc: Global, program: &Program, words: &[&[u8]]) -> Result<Option<Entry>, NoMemory>
    requires { length program.now.modules ≤ MODULES }
    ensures { IfOk result (λ said.
        said ≡ node_said program.now (map (λ word. word.now) words.now)) }
{
    let [name, modules @ ..] = words else {
        return Ok(None);
    };
    if !is_identifier(name) {
        return Ok(None);
    }
    let node = PlacedNode {
        name: text_of(alloc, name)?,
        modules: modules_named(alloc, program, modules)?,
    };
    let unknown = names_none(program, modules);
    Ok(Some(Entry::Node { node, unknown }))
}

/// The words after `bus`.
fn bus_said(words: &[&[u8]]) -> Option<Entry>
    ensures { result ≡ bus_said (map (λ word. word.now) words.now) }
{
    let [overhead, per_byte] = words else {
        return None;
    };
    let overhead = cost_of(overhead)?;
    let per_byte = cost_of(per_byte)?;
    Some(Entry::Bus(BusCost { overhead, per_byte }))
}

/// What words say after their first.
fn said_after(
    alloc: Global,
    program: &Program,
    key: &[u8],
    words: &[&[u8]],
) -> Result<Option<Entry>, NoMemory>
    requires { length program.now.modules ≤ MODULES }
    ensures { IfOk result (λ said.
        said ≡ said_after program.now key.now (map (λ word. word.now) words.now)) }
{
    if key == b"node".as_slice() {
        return node_said(alloc, program, words);
    }
    if key == b"bus".as_slice() {
        return Ok(bus_said(words));
    }
    Ok(None)
}

/// What the words of a line say.
pub(crate) fn entry_of(alloc: Global, program: &Program, words: &[&[u8]]) -> Result<Entry, NoMemory>
    requires { length program.now.modules ≤ MODULES }
    ensures { IfOk result (λ said.
        said ≡ entry_of program.now (map (λ word. word.now) words.now)) }
{
    let [key, rest @ ..] = words else {
        return Ok(Entry::Formless);
    };
    match said_after(alloc, program, key, rest)? {
        None => Ok(Entry::Formless),
        Some(said) => Ok(said),
    }
}
