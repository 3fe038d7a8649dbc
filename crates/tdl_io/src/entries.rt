ghost use Rattle.std.specs.Prelude.{◌≡◌, ◌+◌, ◌<◌, ◌≤◌, ◌↔◌, [], ◌∷◌, length, take, OnOk, OnErr, IsErrOf};
ghost use Rattle.std.specs.Option.{option_copied};
ghost use Rattle.tdl_io.specs.Outside.{IsPart};
ghost use Rattle.tdl_io.specs.MemFiles.{entries_of, held_in};

use crate::FileAnswer;
use std::alloc::Global;
use tdl_base::NoMemory;

/// What the first entry of the name holds.
pub fn find_entry<'a>(entries: &'a [(String, Vec<u8>)], name: &str) -> Option<&'a [u8]>
    ensures { option_copied result ≡ held_in (entries_of entries.now) name.now }
{
    for entry in entries {
        if entry.0.as_str() == name {
            return Some(entry.1.as_slice());
        }
    }
    None
}

/// Puts an entry before the others, so that it is the first of its name.
pub fn add_entry(
    alloc: Global,
    entries: &mut Vec<(String, Vec<u8>)>,
    name: &str,
    bytes: &[u8],
) -> Result<(), NoMemory>
    ensures ok { OnOk result (entries_of entries.new.items
        ≡ (name.now, bytes.now) ∷ entries_of entries.old.items) }
    ensures err { OnErr result (entries.new.items ≡ entries.old.items) }
{
    let entry = (String::from_str(alloc, name)?, bytes.to_vec(alloc)?);
    entries.insert(0, entry)?;
    Ok(())
}

/// Reads the bytes of a file, or one more than the limit.
pub fn read_up_to(bytes: &[u8], limit: usize, into: &mut Vec<u8>) -> Result<(), FileAnswer>
    requires { into.old.items ≡ [] }
    ensures whole { OnOk result (into.new.items ≡ bytes.now) }
    ensures within { OnOk result (length bytes.now ≤ limit) }
    ensures part { OnErr result (IsPart into.new.items bytes.now) }
    ensures bounded { length into.new.items ≤ limit + 1 }
    ensures too_long { IsErrOf result FileAnswer.TooLong → limit < length into.new.items }
    ensures longer { IsErrOf result FileAnswer.TooLong → limit < length bytes.now }
    ensures never_failed { ¬ (IsErrOf result FileAnswer.Failed) }
{
    if bytes.len() <= limit {
        into.extend_from_slice(bytes)?;
        return Ok(());
    }
    into.extend_from_slice(&bytes[..limit + 1])?;
    Err(FileAnswer::TooLong)
}
