ghost use Rattle.std.specs.Prelude.{◌≡◌, ◌≤◌, ◌⊎◌, ℕ, length, Ok, IfOk, IsErrOf, MatchResult};
ghost use Rattle.tdl_base.specs.declared.limits.TheConstants.{SOURCE_BYTES};
ghost use Rattle.tdl_grammar.specs.Parsing.{all};
ghost use Rattle.tdl_parse.specs.Faults.{IsFaultAt, place_of, syntax_at};
ghost use Rattle.tdl_parse.specs.Giving.{Ends};
ghost use Rattle.tdl_parse.specs.ReadingDeclarations.{limited};
ghost use Rattle.tdl_parse.specs.Words as words;
ghost use Rattle.tdl_scan.specs.Tokens.{IsTokensOf};
ghost use Rattle.tdl_tree.specs.Sentences.{Sentence};
ghost use Rattle.tdl_tree.specs.declared.declarations.Tree.{Tree};

use crate::fail::{Fail, SyntaxError};
use crate::source::source as source_tree;
use crate::words::words_of;
use std::alloc::Global;
use tdl_base::limits::SOURCE_BYTES;
use tdl_scan::{SourcePlace, Token, end_place};
use tdl_tree::{Tree, Word};

/// The tree of all the words, or the words from the fault on.
fn whole<'a>(alloc: Global, words: &'a [Word]) -> Result<Tree, Fail<'a>>
    ensures { Ends result (all (limited words.now)) }
{
    let (tree, rest) = source_tree(alloc, words)?;
    if rest.is_empty() {
        return Ok(tree);
    }
    Err(Fail::At(rest))
}

/// The fault at the word at the front, or at the end of the source.
fn fault_at(source: &[u8], rest: &[Word]) -> SyntaxError
    requires { length source.now ≤ SOURCE_BYTES }
    ensures { result ≡ syntax_at (place_of source.now rest.now) }
{
    if let [word, ..] = rest {
        return SyntaxError::BadSyntax {
            line: word.line,
            col: word.col,
        };
    }
    let SourcePlace { line, col } = end_place(source);
    SyntaxError::BadSyntax { line, col }
}

/// The tree that the tokens of the source spell. `BadSyntax` tells the first token out of place:
/// one with which no source goes on, the one after the most that an expression has, or the brace of
/// a block inside the most that stand in one another. Where the tokens end too early, it tells the
/// end of the source.
pub fn parse(alloc: Global, source: &[u8], tokens: &[Token]) -> Result<Tree, SyntaxError>
    requires tokens { IsTokensOf tokens.now source.now }
    requires length { length source.now ≤ SOURCE_BYTES }
    ensures tree { IfOk result (λ tree. Sentence tree (words.words_of source.now tokens.now)) }
    ensures only { (tree : Tree) → Sentence tree (words.words_of source.now tokens.now) →
        MatchResult result (λ found. found ≡ tree) (λ error. error ≡ SyntaxError.NoMemory) }
    ensures fault { (line col : ℕ) → IsErrOf result (SyntaxError.BadSyntax line col) →
        IsFaultAt source.now tokens.now line col }
    ensures fault_only { (line col : ℕ) → IsFaultAt source.now tokens.now line col →
        IsErrOf result (SyntaxError.BadSyntax line col) ⊎ IsErrOf result SyntaxError.NoMemory }
{
    let words = words_of(alloc, source, tokens)?;
    match whole(alloc, words.as_slice()) {
        Ok(tree) => Ok(tree),
        Err(Fail::At(rest)) => Err(fault_at(source, rest)),
        Err(Fail::Memory) => Err(SyntaxError::NoMemory),
    }
}
