ghost use Rattle.std.specs.List.{flat_map};
ghost use Rattle.std.specs.Prelude.{◌≡◌, ◌++◌, OnOk, All};
ghost use Rattle.tdl_image.specs.Spelling.{string, short_list, long_list};
ghost use Rattle.tdl_image.specs.Spellable.{IsShortList, IsLongList};
ghost use Rattle.tdl_image.specs.Identifiers.{IsIdentifier};

use tdl_base::bytes::{put_byte, put_bytes, put_short, put_word};
use tdl_base::{Listed, NoMemory, Text};

/// A part of a bundle. It has one spelling, where it can be spelled.
pub(crate) trait Spelled {
    ghost use Rattle.std.specs.Prelude.{List, ℕ};

    ghost spelling: { Self → List ℕ };

    ghost spellable: { Self → Type 0 };

    /// Appends the spelling.
    fn put(&self, into: &mut Vec<u8>) -> Result<(), NoMemory>
        requires { spellable self.now }
        ensures { OnOk result (into.new.items ≡ into.old.items ++ spelling self.now) };
}

/// Appends the items, one after the other.
fn put_items<T: Spelled>(into: &mut Vec<u8>, items: &[T]) -> Result<(), NoMemory>
    requires { All T.spellable items.now }
    ensures { OnOk result (into.new.items ≡ into.old.items ++ flat_map T.spelling items.now) }
{
    for item in items {
        item.put(into)?;
    }
    Ok(())
}

/// Appends the count of the items in two bytes, and the items.
pub(crate) fn put_short_list<T: Spelled>(
    into: &mut Vec<u8>,
    items: &Listed<T>,
) -> Result<(), NoMemory>
    requires count { IsShortList items.now }
    requires each { All T.spellable items.now }
    ensures { OnOk result (into.new.items ≡ into.old.items ++ short_list T.spelling items.now) }
{
    put_short(into, items.len() as u16)?;
    put_items(into, items.as_slice())?;
    Ok(())
}

/// Appends the count of the items in four bytes, and the items.
pub(crate) fn put_long_list<T: Spelled>(
    into: &mut Vec<u8>,
    items: &Listed<T>,
) -> Result<(), NoMemory>
    requires count { IsLongList items.now }
    requires each { All T.spellable items.now }
    ensures { OnOk result (into.new.items ≡ into.old.items ++ long_list T.spelling items.now) }
{
    put_word(into, items.len() as u32)?;
    put_items(into, items.as_slice())?;
    Ok(())
}

impl Spelled for Text {
    ghost spelling = { string };

    ghost spellable = { IsIdentifier };

    fn put(&self, into: &mut Vec<u8>) -> Result<(), NoMemory> {
        let bytes = self.as_str().as_bytes();
        put_byte(into, bytes.len() as u8)?;
        put_bytes(into, bytes)
    }
}
