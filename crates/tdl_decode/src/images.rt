//! Images, and a bundle whole.
ghost use Rattle.std.specs.Prelude.{◌≡◌, length};
ghost use Rattle.tdl_decode.specs.Reading.{Gives};
ghost use Rattle.tdl_decode.specs.BundleReading.{image_in, magic_in, images_in, bundle_in};

use crate::fields::{any_word, short, string};
use crate::flaw::{CUT, Flaw};
use crate::lists::{Part, ascending, items};
use std::alloc::Global;
use tdl_base::Listed;
use tdl_base::limits::NODES;
use tdl_image::{Bundle, Image};

impl Part for Image {
    ghost reading = { image_in };

    #[tactic(auto, unfolding(crate::specs::BundleReading::image_in))]
    fn read(alloc: Global, bytes: &[u8]) -> Result<(Image, &[u8]), Flaw> {
        let (node, bytes) = string(alloc, bytes)?;
        let (declared, bytes) = any_word(bytes)?;
        let (hosted, bytes) = ascending(alloc, bytes)?;
        let (stubs, bytes) = ascending(alloc, bytes)?;
        let image = Image {
            node,
            declared,
            hosted,
            stubs,
        };
        Ok((image, bytes))
    }
}

// What is after the four letters.
#[tactic(auto, unfolding(crate::specs::BundleReading::magic_in))]
fn after_magic(bytes: &[u8]) -> Result<&[u8], Flaw>
    ensures { Gives (λ rest. (tt, rest.now)) result (magic_in bytes.now) }
{
    if bytes.len() < 4 {
        return Err(CUT);
    }
    let (letters, rest) = bytes.split_at(4);
    if letters != b"TDLB".as_slice() {
        return Err(Flaw::Broken {
            rule: 1,
            left: bytes.len(),
        });
    }
    Ok(rest)
}

#[tactic(auto, unfolding(crate::specs::BundleReading::images_in))]
fn images(alloc: Global, bytes: &[u8]) -> Result<(Listed<Image>, &[u8]), Flaw>
    ensures { Gives (λ r. (r.0, r.1.now)) result (images_in bytes.now) }
{
    let (count, bytes) = short(bytes, 4, 1, NODES as u16)?;
    items(alloc, u32::from(count), bytes)
}

/// The bundle that the bytes are.
#[tactic(auto, unfolding(crate::specs::BundleReading::bundle_in))]
pub fn whole(alloc: Global, bytes: &[u8]) -> Result<Bundle, Flaw>
    ensures { Gives (λ bundle. bundle) result (bundle_in bytes.now) }
{
    let bytes = after_magic(bytes)?;
    let (_version, bytes) = short(bytes, 1, 1, 1)?;
    let (images, bytes) = images(alloc, bytes)?;
    if !bytes.is_empty() {
        return Err(Flaw::Broken {
            rule: 3,
            left: bytes.len(),
        });
    }
    Ok(Bundle { images })
}
