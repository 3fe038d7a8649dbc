//! Laws of the definitions that this crate's contracts cite. Each function does nothing: its
//! contract is the law.
ghost use Rattle.std.specs.Prelude.{◌≡◌, ℕ, ◌⊎◌, List};
ghost use Rattle.std.specs.List.{All};
ghost use Rattle.tdl_scan.specs.Tokens.{IsTokensOf, IsTokenFault, IsInSource, IsInOrder};
ghost use Rattle.tdl_scan.specs.declared.token.Token.{Token};

/// Each source has tokens or a fault, and never both; one list of tokens at most, and one place of
/// a fault at most.
pub fn scanning()
    ensures one { (source : List ℕ) → ((tokens : List Token) × IsTokensOf tokens source)
        ⊎ ((line : ℕ) × (col : ℕ) × IsTokenFault source line col) }
    ensures never_both { (source : List ℕ) (tokens : List Token) (line col : ℕ) →
        IsTokensOf tokens source → ¬ IsTokenFault source line col }
    ensures one_list { (source : List ℕ) (a b : List Token) →
        IsTokensOf a source → IsTokensOf b source → a ≡ b }
    ensures one_place { (source : List ℕ) (line col other_line other_col : ℕ) →
        IsTokenFault source line col → IsTokenFault source other_line other_col →
        (line ≡ other_line) × (col ≡ other_col) }
{}

/// Each token's text is in the source, is not empty and is of the token's kind. The tokens stand
/// one after the other.
pub fn spans()
    ensures texts { (source : List ℕ) (tokens : List Token) → IsTokensOf tokens source →
        All (IsInSource source) tokens }
    ensures order { (source : List ℕ) (tokens : List Token) → IsTokensOf tokens source →
        IsInOrder 0 tokens }
{}
