ghost use Rattle.std.specs.Prelude.{◌≡◌, IfOk};

use std::alloc::Global;
use tdl_base::{NoMemory, Text};
use tdl_tree::Id;

/// The text of a name.
pub(crate) fn copied(alloc: Global, name: &Id) -> Result<Text, NoMemory>
    ensures { IfOk result (λ text. text ≡ name.now.text) }
{
    Text::from_str(alloc, name.text.as_str())
}
