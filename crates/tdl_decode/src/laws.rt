//! Laws of the bundle's grammar. Each function does nothing: its contract is the law.
ghost use Rattle.std.specs.Prelude.{◌≡◌, ◌⊎◌, ◌<◌, ℕ, List, All};
ghost use Rattle.tdl_image.specs.Spelling.{bundle_bytes};
ghost use Rattle.tdl_image.specs.Spellable.{IsSpellable};
ghost use Rattle.tdl_image.specs.declared.bundle.Bundle.{Bundle};
ghost use Rattle.tdl_decode.specs.BundleGrammar.{IsBundleFault};

/// Bytes are the spelling of exactly one bundle that can be spelled, or have exactly one fault, and
/// never both.
pub fn bundle_or_fault()
    ensures either { (bytes : List ℕ) → All (λ b. b < 256) bytes →
        ((bundle : Bundle) × IsSpellable bundle × (bytes ≡ bundle_bytes bundle))
        ⊎ ((rule : ℕ) × (at : ℕ) × IsBundleFault bytes rule at) }
    ensures never_both { (bytes : List ℕ) → All (λ b. b < 256) bytes →
        (bundle : Bundle) → IsSpellable bundle → bytes ≡ bundle_bytes bundle →
        (rule at : ℕ) → IsBundleFault bytes rule at → ⊥ }
    ensures one_bundle { (a b : Bundle) → IsSpellable a → IsSpellable b →
        bundle_bytes a ≡ bundle_bytes b → a ≡ b }
    ensures one_fault { (bytes : List ℕ) → All (λ b. b < 256) bytes → (r a s b : ℕ) →
        IsBundleFault bytes r a → IsBundleFault bytes s b → (r ≡ s) × (a ≡ b) }
{}
