//! The words that tokens are.

ghost use Rattle.std.specs.Prelude.{◌≡◌, ◌≤◌, ◌++◌, List, map, length, take, IfOk};
ghost use Rattle.std.specs.List.{All};
ghost use Rattle.tdl_parse.specs.Words.{word_of, words_of};
ghost use Rattle.tdl_scan.specs.Tokens.{IsInSource};

use std::alloc::Global;
use tdl_base::{NoMemory, Text};
use tdl_scan::Token;
use tdl_tree::{Word, kind_of};

/// The word that a token is.
fn word_of(alloc: Global, source: &[u8], token: &Token) -> Result<Word, NoMemory>
    requires { IsInSource source.now token.now }
    ensures { IfOk result (λ word. word ≡ word_of source.now token.now) }
{
    let text = token.text(source);
    let kind = kind_of(text);
    let text = str::from_utf8(text).unwrap();
    Ok(Word {
        kind,
        text: Text::from_str(alloc, text)?,
        line: token.line,
        col: token.col,
    })
}

/// The words that the tokens are, in order.
pub fn words_of(alloc: Global, source: &[u8], tokens: &[Token]) -> Result<Vec<Word>, NoMemory>
    requires { All (IsInSource source.now) tokens.now }
    ensures { IfOk result (λ words. words.items ≡ words_of source.now tokens.now) }
{
    let mut words = Vec::new(alloc);
    for token in tokens {
        words.push(word_of(alloc, source, token)?)?;
    }
    Ok(words)
}
