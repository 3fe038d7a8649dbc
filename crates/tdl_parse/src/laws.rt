//! Laws of the grammar of sources, which the parser shows. Each function does nothing: its contract
//! is the law.
ghost use Rattle.std.specs.Prelude.{◌≡◌, List};
ghost use Rattle.tdl_tree.specs.Faults.{IsSyntaxFault};
ghost use Rattle.tdl_tree.specs.Sentences.{Sentence};
ghost use Rattle.tdl_tree.specs.declared.declarations.Tree.{Tree};
ghost use Rattle.tdl_tree.specs.declared.words.Word.{Word};

/// Words spell one tree at most.
pub fn one_tree()
    ensures { (a b : Tree) (words : List Word) → Sentence a words → Sentence b words → a ≡ b }
{}

/// Words have one fault at most, and none where they spell a tree.
pub fn one_fault()
    ensures once { (words rest other : List Word) → IsSyntaxFault words rest →
        IsSyntaxFault words other → rest ≡ other }
    ensures never_both { (words rest : List Word) (tree : Tree) → Sentence tree words →
        ¬ IsSyntaxFault words rest }
{}
