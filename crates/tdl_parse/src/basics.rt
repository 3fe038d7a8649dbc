//! One word at a time.

ghost use Rattle.std.specs.Prelude.{◌≡◌, ◌<◌, length, IfOk};
ghost use Rattle.tdl_grammar.specs.Parsing as parsing;
ghost use Rattle.tdl_parse.specs.Giving.{Gives};
ghost use Rattle.tdl_tree.specs.Kinds.{is};

use crate::fail::Fail;
use tdl_tree::{Word, WordKind};

/// The word at the front, which is to be of the kind.
pub fn expect<'a>(kind: WordKind, words: &'a [Word]) -> Result<(&'a Word, &'a [Word]), Fail<'a>>
    ensures value { Gives (λ x. (x.0.now, x.1.now)) result (parsing.one (is kind) words.now) }
    ensures shorter { IfOk result (λ x. length x.1.now < length words.now) }
{
    match words {
        [word, rest @ ..] if word.is(kind) => Ok((word, rest)),
        _ => Err(Fail::At(words)),
    }
}

/// Whether the word at the front is of the kind.
pub fn opens(kind: WordKind, words: &[Word]) -> bool
    ensures { result ≡ parsing.opens (is kind) words.now }
{
    match words {
        [word, ..] => word.is(kind),
        [] => false,
    }
}
