//! Laws of the worked example, which has every word of languages and parsers. Each function does
//! nothing: its contract is the law.
ghost use Rattle.std.specs.Prelude.{◌≡◌, ℕ, List, [], ◌∷◌, ◌++◌, Ok, Err};
ghost use Rattle.tdl_grammar.specs.declared.signs.Sign.{Sign};
ghost use Rattle.tdl_grammar.specs.declared.signs.Sign.TheVariants as sign;
ghost use Rattle.tdl_grammar.specs.Grammar.{IsFault};
ghost use Rattle.tdl_grammar.specs.Parsing.{all};
ghost use Rattle.tdl_grammar.specs.Example.{Text, Limited, read_free, read_limited, nested};
ghost use Rattle.tdl_grammar.specs.Example.{three_ones, two_blocks};

/// Without limits exactly the texts are read, each as its tree, and where none is read it is at the
/// first token out of place, or at the end.
pub fn without_limits()
    ensures tree { (ts : List Sign) (tree : List ℕ) → all (read_free ts) ≡ Ok tree → Text tree ts }
    ensures only { (ts : List Sign) (tree : List ℕ) → Text tree ts → all (read_free ts) ≡ Ok tree }
    ensures fault { (ts rest : List Sign) → all (read_free ts) ≡ Err rest → IsFault Text ts rest }
{}

/// With limits exactly the texts within them are read, each as its tree.
pub fn with_limits()
    ensures tree { (ts : List Sign) (tree : List ℕ) →
        all (read_limited ts) ≡ Ok tree → Limited tree ts }
    ensures only { (ts : List Sign) (tree : List ℕ) →
        Limited tree ts → all (read_limited ts) ≡ Ok tree }
{}

/// Small texts: one with every word, one that ends in a sum, and those just within the limits and
/// past them.
pub fn examples()
    ensures read { all (read_free nested) ≡ Ok (31 ∷ 2 ∷ 1 ∷ []) }
    ensures early { all (read_free (sign.Begin ∷ sign.One ∷ [])) ≡ Err [] }
    ensures no_operand { all (read_free (three_ones (sign.Plus ∷ sign.End ∷ []))) ≡
        Err (sign.End ∷ []) }
    ensures five_tokens { all (read_limited (three_ones (sign.Semicolon ∷ sign.End ∷ []))) ≡
        Ok (111 ∷ []) }
    ensures six_tokens { all (read_limited (three_ones (sign.Plus ∷ sign.Two ∷ []))) ≡
        Err (sign.Plus ∷ sign.Two ∷ []) }
    ensures two_deep { all (read_limited (two_blocks [])) ≡ Ok [] }
    ensures three_deep { all (read_limited (two_blocks (sign.Begin ∷ []))) ≡
        Err (sign.Begin ∷ sign.End ∷ sign.End ∷ []) }
    ensures free_deep { all (read_free (two_blocks (sign.Begin ∷ sign.End ∷ []))) ≡ Ok [] }
{}
