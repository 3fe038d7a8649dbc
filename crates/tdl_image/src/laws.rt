//! Laws of the definitions that this crate's contracts cite. Each function does nothing: its
//! contract is the law.
ghost use Rattle.std.specs.Prelude.{◌≡◌, [], ◌∷◌, length, negsuc};
ghost use Rattle.tdl_base.specs.Bytes.{long, short, word};
ghost use Rattle.tdl_image.specs.Example.{counting, counting_bytes, with_declared, with_worst, bus_window, showing, showing_bytes};
ghost use Rattle.tdl_image.specs.Spellable.{IsSpellable, IsSpellableImage};
ghost use Rattle.tdl_image.specs.declared.bundle.Bundle.{Bundle};
ghost use Rattle.tdl_image.specs.Spelling.{bundle_bytes, image_bytes, window_bytes};

use crate::COUNTING_BYTES;

/// Two bundles that can be spelled have one spelling only where they are one.
pub fn one_spelling()
    ensures { (a b : Bundle) → IsSpellable a → IsSpellable b →
        bundle_bytes a ≡ bundle_bytes b → a ≡ b }
{}

/// The high byte of a number stands first, and a signed number is in two's complement.
pub fn numbers()
    ensures two_bytes { short 0x0102 ≡ 0x01 ∷ 0x02 ∷ [] }
    ensures four_bytes { word 0x0102_0304 ≡ 0x01 ∷ 0x02 ∷ 0x03 ∷ 0x04 ∷ [] }
    ensures minus_two { long (negsuc 1) ≡
        0xff ∷ 0xff ∷ 0xff ∷ 0xff ∷ 0xff ∷ 0xff ∷ 0xff ∷ 0xfe ∷ [] }
{}

/// The example of a bundle can be spelled, and its spelling is the 217 bytes that stand beside it,
/// which tests have as a value.
pub fn bundle()
    ensures spellable { IsSpellable counting }
    ensures spelled { bundle_bytes counting ≡ counting_bytes }
    ensures length { length (bundle_bytes counting) ≡ 217 }
    ensures value { COUNTING_BYTES ≡ counting_bytes }
{}

/// A number that its bytes do not hold makes a bundle that cannot be spelled: the bytes would be
/// those of another one. So it is with a declared count of 2^32 and 11, and a worst case of 2^32.
pub fn out_of_range()
    ensures declared { ¬ IsSpellable (with_declared 4294967307) }
    ensures other_bytes { bundle_bytes (with_declared 4294967307) ≡ counting_bytes }
    ensures worst { ¬ IsSpellable (with_worst 4294967296) }
{}

/// The example of an image with a stub can be spelled, and its spelling is the bytes that stand
/// beside it. So is a bus window's.
pub fn image()
    ensures spellable { IsSpellableImage showing }
    ensures spelled { image_bytes showing ≡ showing_bytes }
    ensures bus_window { window_bytes bus_window ≡
        0x01 ∷ 0x00 ∷ 0x00 ∷ 0x00 ∷ 0x01 ∷ 0x00 ∷ 0x00 ∷ 0x13 ∷ 0x5e ∷ 0x00 ∷ 0x00 ∷ 0x00 ∷ 0x2a
        ∷ [] }
{}
