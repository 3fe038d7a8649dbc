//! Code that is generic over files and sinks: what their contracts give a caller.
ghost use Rattle.std.specs.Prelude.{◌≡◌, ◌<◌, ◌≤◌, ◌↔◌, ◌++◌, [], List, ℕ, Some, OnOk, OnErr, IsErrOf, length};
ghost use Rattle.tdl_io.specs.Outside.{Held, file_in, Rose, NoCountFalls, HasNamedCause, Appends, AppendsPart};

use crate::{FileAnswer, Files, SaveAnswer, Sink, SinkFailed};

/// Where files tell what they hold and none failed, a load answers TooLong exactly where the file
/// is longer than the limit.
pub fn load_one<F: Files>(
    files: &mut F,
    name: &str,
    limit: usize,
    into: &mut Vec<u8>,
) -> Result<(), FileAnswer>
    requires { into.old.items ≡ [] }
    ensures exact { (held : Held) → (F.told files.old).holds ≡ Some held
        → ¬ (Rose (F.told files.old).faults (F.told files.new).faults)
        → ¬ (IsErrOf result FileAnswer.NoMemory)
        → IsErrOf result FileAnswer.TooLong ↔ (limit < length (file_in held name.now)) }
{
    files.load(name, limit, into)
}

/// Which of two loads failed.
#[derive(Clone, Copy, Debug, PartialEq, Eq)]
pub enum Failed {
    First,
    Second,
}

/// The name that failed has its count risen over both loads.
pub fn load_two<F: Files>(
    files: &mut F,
    first: &str,
    second: &str,
    limit: usize,
    into_first: &mut Vec<u8>,
    into_second: &mut Vec<u8>,
) -> Result<(), Failed>
    requires first { into_first.old.items ≡ [] }
    requires second { into_second.old.items ≡ [] }
    ensures later { (F.told files.old).faults ≤ (F.told files.new).faults }
    ensures later_by_name { NoCountFalls (F.told files.old).failed_loads
        (F.told files.new).failed_loads }
    ensures first { IsErrOf result Failed.First
        → HasNamedCause (F.told files.old).failed_loads (F.told files.new).failed_loads first.now }
    ensures second { IsErrOf result Failed.Second
        → HasNamedCause (F.told files.old).failed_loads (F.told files.new).failed_loads second.now }
    ensures cause { OnErr result (Rose (F.told files.old).faults (F.told files.new).faults) }
{
    let early = files.load(first, limit, into_first);
    let late = files.load(second, limit, into_second);
    if let Err(FileAnswer::Failed) = early {
        return Err(Failed::First);
    }
    if let Err(FileAnswer::Failed) = late {
        return Err(Failed::Second);
    }
    Ok(())
}

/// Which call was refused of a save and of a load after it.
#[derive(Clone, Copy, Debug, PartialEq, Eq)]
pub enum Refused {
    Save(SaveAnswer),
    Load(FileAnswer),
}

/// Where files tell what they hold after a save, the saved bytes are loaded.
pub fn save_and_load<F: Files>(
    files: &mut F,
    name: &str,
    bytes: &[u8],
    limit: usize,
    into: &mut Vec<u8>,
) -> Result<(), Refused>
    requires { into.old.items ≡ [] }
    ensures back { OnOk result ((held : Held) → (F.told files.new).holds ≡ Some held
        → into.new.items ≡ bytes.now) }
    ensures save_cause { IsErrOf result (Refused.Save SaveAnswer.Failed)
        → HasNamedCause (F.told files.old).failed_saves (F.told files.new).failed_saves name.now }
    ensures saves_later { NoCountFalls (F.told files.old).failed_saves
        (F.told files.new).failed_saves }
    ensures loads_later { NoCountFalls (F.told files.old).failed_loads
        (F.told files.new).failed_loads }
{
    if let Err(answer) = files.save(name, bytes) {
        return Err(Refused::Save(answer));
    }
    if let Err(answer) = files.load(name, limit, into) {
        return Err(Refused::Load(answer));
    }
    Ok(())
}

/// A sink holds both pieces, or the first piece and a part of the second one.
pub fn put_two<S: Sink>(sink: &mut S, first: &[u8], second: &[u8]) -> Result<(), SinkFailed>
    ensures ok { OnOk result
        (Appends (S.told sink.old).contents (S.told sink.new).contents (first.now ++ second.now)) }
    ensures err { OnErr result
        (AppendsPart (S.told sink.old).contents (S.told sink.new).contents
        (first.now ++ second.now)) }
    ensures cause { OnErr result (Rose (S.told sink.old).faults (S.told sink.new).faults) }
{
    sink.put(first)?;
    if let Err(failed) = sink.put(second) {
        return Err(failed);
    }
    Ok(())
}
