//! Laws of the definitions that this crate's contracts cite. Each function does nothing: its
//! contract is the law.
ghost use Rattle.std.specs.Prelude.{◌≡◌, ◌≢◌, ℕ, ◌*◌, ◌^◌, ◌⊎◌, List, length, slice_index, ℤ, pos, neg_ℤ};
ghost use Rattle.tdl_base.specs.Numbers.{wrapped, narrowed, width_of, quotient, remainder, binary, least, IsOfBits, IsOfKind, DifferByMultiple, DividesTowardZero};
ghost use Rattle.tdl_base.specs.Sensed.{all_zero, numbers_of, HasSensor, sensed_at, with_sensed};
ghost use Rattle.tdl_base.specs.declared.arithmetic.BinOp.{BinOp};
ghost use Rattle.tdl_base.specs.declared.kinds.Kind.{Kind};

/// A wrapped number lies in 64 bits, and differs from the number by a multiple of 2^64.
pub fn wrapping()
    ensures range { (v : ℤ) → IsOfBits 64 (wrapped v) }
    ensures multiple { (v : ℤ) → DifferByMultiple (2 ^ 64) v (wrapped v) }
{}

/// A narrowed number is of its kind, keeps the kind's low bits, and is the number itself where that
/// is of the kind.
pub fn narrowing()
    ensures of_kind { (kind : Kind) (v : ℤ) → IsOfKind kind (narrowed kind v) }
    ensures low_bits { (kind : Kind) (v : ℤ) → kind ≢ Kind.Boolean →
        DifferByMultiple (2 ^ (8 * width_of kind)) v (narrowed kind v) }
    ensures kept { (kind : Kind) (v : ℤ) → IsOfKind kind v → narrowed kind v ≡ v }
{}

/// Division rounds toward 0. By 0 it gives 0 and leaves 0, and the least number divided by -1 is
/// itself.
pub fn division()
    ensures toward_zero { (a b : ℤ) → b ≢ pos 0 →
        DividesTowardZero a b (quotient a b) (remainder a b) }
    ensures by_zero { (a : ℤ) → quotient a (pos 0) ≡ pos 0 }
    ensures rest_by_zero { (a : ℤ) → remainder a (pos 0) ≡ pos 0 }
    ensures least { binary BinOp.Div least (neg_ℤ (pos 1)) ≡ least }
    ensures rest_of_least { binary BinOp.Rem least (neg_ℤ (pos 1)) ≡ pos 0 }
{}

/// All sensors read 0 at first. A sensor that is set reads its number, and every other one what it
/// read before; the number of sensors stays.
pub fn sensing()
    ensures at_first { (counts : List ℕ) (m i : ℕ) → sensed_at (all_zero counts) m i ≡ pos 0 }
    ensures counts { (counts : List ℕ) (m : ℕ) →
        length (numbers_of (all_zero counts) m) ≡ slice_index counts m }
    ensures set { (sensed : List (List ℤ)) (m i : ℕ) (v : ℤ) → HasSensor sensed m i →
        sensed_at (with_sensed sensed m i v) m i ≡ v }
    ensures others { (sensed : List (List ℤ)) (m i n j : ℕ) (v : ℤ) → (n ≢ m) ⊎ (j ≢ i) →
        sensed_at (with_sensed sensed m i v) n j ≡ sensed_at sensed n j }
    ensures same_counts { (sensed : List (List ℤ)) (m i n : ℕ) (v : ℤ) →
        length (numbers_of (with_sensed sensed m i v) n) ≡ length (numbers_of sensed n) }
{}
