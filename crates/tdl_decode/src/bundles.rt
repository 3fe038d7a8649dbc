ghost use Rattle.std.specs.Prelude.{◌≡◌, ◌≤◌, ℕ, length, IfOk, Ok, Err};
ghost use Rattle.tdl_image.specs.Spelling.{bundle_bytes};
ghost use Rattle.tdl_image.specs.Spellable.{IsSpellable};
ghost use Rattle.tdl_image.specs.declared.bundle.Bundle.{Bundle};
ghost use Rattle.tdl_decode.specs.BundleGrammar.{IsBundleFault};
ghost use Rattle.tdl_decode.specs.Answers.{IfBad, OrNoMemory};

use crate::BundleError;
use crate::flaw::Flaw;
use crate::images::whole;
use std::alloc::Global;
use tdl_image::Bundle;

/// The bundle that the bytes are: there is one at most. `BadBundle` exactly where there is none,
/// with the first place from the left at which the grammar of bundles is broken. Linear in the
/// length; no memory is asked for what the bytes do not have.
pub fn read_bundle(alloc: Global, bytes: &[u8]) -> Result<Bundle, BundleError>
    requires { length bytes.now ≤ u32.MAX }
    ensures spellable { IfOk result (λ bundle. IsSpellable bundle) }
    ensures spelled { IfOk result (λ bundle. bytes.now ≡ bundle_bytes bundle) }
    ensures only { (bundle : Bundle) → IsSpellable bundle → bytes.now ≡ bundle_bytes bundle →
        OrNoMemory (Ok bundle) result }
    ensures fault { IfBad result (λ rule at. IsBundleFault bytes.now rule at) }
    ensures fault_only { (rule at : ℕ) → IsBundleFault bytes.now rule at →
        OrNoMemory (Err (BundleError.BadBundle rule at)) result }
{
    match whole(alloc, bytes) {
        Ok(bundle) => Ok(bundle),
        Err(Flaw::NoMemory) => Err(BundleError::NoMemory),
        Err(Flaw::Broken { rule, left }) => Err(BundleError::BadBundle {
            rule,
            at: (bytes.len() - left) as u32,
        }),
    }
}
