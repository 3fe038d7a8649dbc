ghost use Rattle.std.specs.Prelude.{◌≡◌, ◌+◌, ◌<◌, ◌≤◌, [], None, length, IfSome, IfOk, OnOk, OnErr, IsErrOf};
ghost use Rattle.std.specs.Io.KnownBytes.{IsAtEnd};
ghost use Rattle.tdl_io.specs.Outside.{IsPart};
ghost use Rattle.tdl_io.specs.Reading.{Moves};

use crate::{FileAnswer, Files, SaveAnswer};
use std::io::Read;
use std::{fs, rt};

/// How many bytes are read at once.
const CHUNK: usize = 4096;

/// The files of the host, and a count of the loads and saves that failed, which stands still at the
/// greatest u64. They tell neither what they hold nor counts by name.
#[derive(Drop)]
pub struct HostFiles<'a, R> {
    rt: &'a R,
    faults: u64,
}

impl<'a, R: rt::Files> HostFiles<'a, R> {
    /// No call has failed yet.
    pub fn new(rt: &'a R) -> HostFiles<'a, R>
        ensures { (⟦<HostFiles<'a, R> as Files>⟧.told result).faults ≡ 0 }
    {
        HostFiles { rt, faults: 0 }
    }
}

impl<R: rt::Files> Files for HostFiles<'_, R> {
    ghost told = { λ f. record {
      holds = None;
      faults = f.faults;
      failed_loads = None;
      failed_saves = None;
    } };

    /// A file that is absent or cannot be read, and a directory, have failed.
    fn load(&mut self, name: &str, limit: usize, into: &mut Vec<u8>) -> Result<(), FileAnswer> {
        let answer = read_named(self.rt, name, limit, into);
        if let Err(FileAnswer::Failed) = answer {
            self.faults = self.faults.saturating_add(1);
        }
        answer
    }

    /// Creates the file, or empties it, and writes the bytes. After a failure it may hold a part of
    /// them.
    fn save(&mut self, name: &str, bytes: &[u8]) -> Result<(), SaveAnswer> {
        match fs::write(self.rt, name, bytes) {
            Ok(()) => Ok(()),
            Err(_) => {
                self.faults = self.faults.saturating_add(1);
                Err(SaveAnswer::Failed)
            }
        }
    }
}

fn read_named<R: rt::Files>(
    rt: &R,
    name: &str,
    limit: usize,
    into: &mut Vec<u8>,
) -> Result<(), FileAnswer>
    requires { into.old.items ≡ [] }
    ensures within { OnOk result (length into.new.items ≤ limit) }
    ensures bounded { length into.new.items ≤ limit + 1 }
    ensures too_long { IsErrOf result FileAnswer.TooLong → limit < length into.new.items }
{
    match fs::open(rt, name) {
        Ok(mut file) => read_open(&mut file, limit, into),
        Err(_) => Err(FileAnswer::Failed),
    }
}

/// Reads to the end, or one byte past the limit. Each turn takes at least a byte, or ends the load.
fn read_open<R: Read>(file: &mut R, limit: usize, into: &mut Vec<u8>) -> Result<(), FileAnswer>
    requires { into.old.items ≡ [] }
    // A reader that tells which bytes it has left is read to its end, or in part.
    ensures whole { OnOk result (IfSome (R.remaining file.old) (λ left. into.new.items ≡ left)) }
    ensures part { OnErr result (IfSome (R.remaining file.old) (IsPart into.new.items)) }
    ensures within { OnOk result (length into.new.items ≤ limit) }
    ensures bounded { length into.new.items ≤ limit + 1 }
    ensures too_long { IsErrOf result FileAnswer.TooLong → limit < length into.new.items }
{
    'turns: while into.len() <= limit {
        let room = (limit - into.len()).min(CHUNK - 1) + 1;
        if read_some(file, room, into)? == 0 {
            return Ok(());
        }
    }
    Err(FileAnswer::TooLong)
}

/// Reads at least one byte and at most `room`, or none at the end.
fn read_some<R: Read>(file: &mut R, room: usize, into: &mut Vec<u8>) -> Result<usize, FileAnswer>
    requires some { 0 < room }
    requires chunk { room ≤ CHUNK }
    ensures within { IfOk result (λ count. count ≤ room) }
    ensures grows { IfOk result (λ count. length into.new.items ≡ length into.old.items + count) }
    ensures moved { OnOk result
        (Moves (R.remaining file.old) (R.remaining file.new) into.old.items into.new.items) }
    ensures end { IfOk result (λ count. count ≡ 0 → IsAtEnd (R.remaining file.new)) }
    ensures err { OnErr result (into.new.items ≡ into.old.items) }
    ensures never_too_long { ¬ (IsErrOf result FileAnswer.TooLong) }
{
    let mut chunk = [0u8; CHUNK];
    match file.read(&mut chunk[..room]) {
        Ok(count) => {
            into.extend_from_slice(&chunk[..count])?;
            Ok(count)
        }
        Err(_) => Err(FileAnswer::Failed),
    }
}
