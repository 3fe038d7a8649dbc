ghost use Rattle.std.specs.Prelude.{◌≡◌, IfOk};
ghost use Rattle.tdl_image.specs.Spelling.{bundle_bytes};
ghost use Rattle.tdl_image.specs.Spellable.{IsSpellable};

use crate::Bundle;
use crate::spelled::put_short_list;
use std::alloc::Global;
use tdl_base::NoMemory;
use tdl_base::bytes::{put_bytes, put_short};

/// The version of bundles.
const VERSION: u16 = 1;

/// The bytes that spell the bundle. A bundle can be spelled where it has 1 to 16 images, its names
/// are identifiers of at most 64 bytes, each of its numbers and of the counts of its lists fits its
/// bytes, phases are 1 to 4, initial numbers are of their kinds, worst cases are above 0, and the
/// numbers of hosted modules, of stubs and of a stub's tasks ascend.
pub fn write_bundle(alloc: Global, b: &Bundle) -> Result<Vec<u8>, NoMemory>
    requires { IsSpellable b.now }
    ensures { IfOk result (λ bytes. bytes.items ≡ bundle_bytes b.now) }
{
    let mut into = Vec::new(alloc);
    put_bytes(&mut into, b"TDLB")?;
    put_short(&mut into, VERSION)?;
    put_short_list(&mut into, &b.images)?;
    Ok(into)
}
