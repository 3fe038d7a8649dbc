//! A source.

ghost use Rattle.std.specs.Prelude.{◌≡◌, ◌<◌, ◌≤◌, length, IfOk};
ghost use Rattle.tdl_grammar.specs.Parsing as parsing;
ghost use Rattle.tdl_parse.specs.Giving.{Gives};
ghost use Rattle.tdl_parse.specs.ReadingDeclarations as reading;
ghost use Rattle.tdl_tree.specs.Kinds.{is};
ghost use Rattle.tdl_tree.specs.declared.words.WordKind.TheVariants as k;

use crate::basics::{expect, opens};
use crate::declarations::declarations;
use crate::fail::Fail;
use crate::names::id;
use std::alloc::Global;
use tdl_base::Listed;
use tdl_tree::{Id, Tree, Word, WordKind};

#[tactic(auto, unfolding(crate::specs::ReadingDeclarations::import_name))]
fn import<'a>(alloc: Global, words: &'a [Word]) -> Result<(Id, &'a [Word]), Fail<'a>>
    ensures value { Gives (λ x. (x.0, x.1.now)) result (reading.import_name words.now) }
    ensures shorter { IfOk result (λ x. length x.1.now < length words.now) }
{
    let (_import, rest) = expect(WordKind::Import, words)?;
    let (name, rest) = id(alloc, rest)?;
    let (_end, rest) = expect(WordKind::Semicolon, rest)?;
    Ok((name, rest))
}

/// As many imports as stand at the front.
fn imports<'a>(alloc: Global, words: &'a [Word]) -> Result<(Vec<Id>, &'a [Word]), Fail<'a>>
    ensures value { Gives (λ x. (x.0.items, x.1.now)) result
        (parsing.many (is k.Import) reading.import_name words.now) }
    ensures shorter { IfOk result (λ x. length x.1.now ≤ length words.now) }
{
    let mut items = Vec::new(alloc);
    let mut rest = words;
    let mut more = words.len();
    while more > 0 {
        if !opens(WordKind::Import, rest) {
            return Ok((items, rest));
        }
        let (item, after) = import(alloc, rest)?;
        items.push(item)?;
        rest = after;
        more -= 1;
    }
    Ok((items, rest))
}

/// A source, with nothing after it told.
#[tactic(auto, unfolding(crate::specs::ReadingDeclarations::limited, crate::specs::ReadingDeclarations::source, crate::specs::ReadingDeclarations::declarations))]
pub fn source<'a>(alloc: Global, words: &'a [Word]) -> Result<(Tree, &'a [Word]), Fail<'a>>
    ensures { Gives (λ x. (x.0, x.1.now)) result (reading.limited words.now) }
{
    let (_module, rest) = expect(WordKind::Module, words)?;
    let (name, rest) = id(alloc, rest)?;
    let (_open, rest) = expect(WordKind::LeftBrace, rest)?;
    let (imports, rest) = imports(alloc, rest)?;
    let (decls, rest) = declarations(alloc, rest)?;
    let (_close, rest) = expect(WordKind::RightBrace, rest)?;
    let tree = Tree {
        name,
        imports: Listed::from_vec(imports),
        decls: Listed::from_vec(decls),
    };
    Ok((tree, rest))
}
