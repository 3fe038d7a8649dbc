//! A law of the trees that sources spell. Its function does nothing: its contract is the law.
ghost use Rattle.std.specs.Prelude.{ℕ, List};
ghost use Rattle.tdl_scan.specs.declared.token.Token.{Token};
ghost use Rattle.tdl_scan.specs.Tokens.{IsTokensOf};
ghost use Rattle.tdl_tree.specs.declared.declarations.Tree.{Tree};
ghost use Rattle.tdl_tree.specs.Sentences.{Sentence};
ghost use Rattle.tdl_parse.specs.Words.{words_of};
ghost use Rattle.tdl_size.specs.Sized.{IsSized};

/// The tree that a source's tokens spell keeps the limits of the grammar, and the names that it
/// declares are identifiers.
pub fn sized()
    ensures { (source : List ℕ) (tokens : List Token) (tree : Tree) →
        IsTokensOf tokens source → Sentence tree (words_of source tokens) → IsSized tree }
{}
