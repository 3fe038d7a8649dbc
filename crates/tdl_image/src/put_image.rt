//! The spelling of an image.
ghost use Rattle.tdl_image.specs.Spelling.{image_bytes};
ghost use Rattle.tdl_image.specs.Spellable.{IsSpellableImage};

use crate::Image;
use crate::spelled::{Spelled, put_short_list};
use tdl_base::NoMemory;
use tdl_base::bytes::put_word;

impl Spelled for Image {
    ghost spelling = { image_bytes };

    ghost spellable = { IsSpellableImage };

    fn put(&self, into: &mut Vec<u8>) -> Result<(), NoMemory> {
        self.node.put(into)?;
        put_word(into, self.declared)?;
        put_short_list(into, &self.hosted)?;
        put_short_list(into, &self.stubs)
    }
}
