ghost use Rattle.std.specs.Prelude.{◌≡◌, ◌++◌, ◌∷◌, ◌+◌, ◌<◌, ◌≤◌, ◌↔◌, ◌⊎◌, [], List, ℕ, ◌≢◌, Some, false, length, IsTrue, OnOk, OnErr, IsErrOf};
ghost use Rattle.std.specs.Option.{option_copied};
ghost use Rattle.tdl_io.specs.Outside.{IsPart, file_in, Rose};
ghost use Rattle.tdl_io.specs.MemFiles.{entries_of, held_in, failures, failures_of, is_told_to_fail, load_fails, after_call, after_load, after_save};
ghost use Rattle.tdl_io.specs.declared.mem_files.CallKind.{CallKind};
ghost use Rattle.tdl_io.specs.declared.mem_files.CallKind.TheVariants.{Load, Save};

use crate::entries::{add_entry, find_entry, read_up_to};
use crate::{FileAnswer, Files, SaveAnswer};
use std::alloc::Global;
use std::marker::Model;
use tdl_base::{NoMemory, Text};

/// What a call does.
#[derive(Clone, Copy)]
pub enum CallKind {
    Load,
    Save,
}

/// A call that was made.
#[derive(Drop)]
pub struct Call {
    pub kind: CallKind,
    pub name: Text,
    pub failed: bool,
}

/// Files in memory, some of whose calls fail. Loads and saves are counted together.
#[derive(Drop)]
pub struct MemFiles {
    alloc: Global,
    files: Vec<(String, Vec<u8>)>,
    fail: Vec<u64>,
    calls: Vec<Call>,
}

impl Model for MemFiles {
    ghost use Rattle.tdl_io.specs.MemFiles.{FilesState, entries_of};

    ghost Value = { FilesState };

    ghost view = { λ f. record {
      entries = entries_of f.files.items;
      fail = f.fail.items;
      calls = f.calls.items;
    } };
}

impl MemFiles {
    /// Where entries share a name, the earliest counts. Calls are counted from 1, and those whose
    /// numbers are in `fail` are told to fail.
    pub fn new(alloc: Global, files: Vec<(String, Vec<u8>)>, fail: Vec<u64>) -> MemFiles
        ensures { result
            ≡ record { entries = entries_of files.items; fail = fail.items; calls = [] } }
    {
        MemFiles {
            alloc,
            files,
            fail,
            calls: Vec::new(alloc),
        }
    }

    /// What a name holds, or None where no such name is held.
    pub fn bytes(&self, name: &str) -> Option<&[u8]>
        ensures { option_copied result ≡ held_in self.now.entries name.now }
    {
        find_entry(&self.files, name)
    }

    /// Whether the next call is told to fail.
    fn is_told_to_fail(&self) -> bool
        ensures { result ≡ is_told_to_fail self.now }
    {
        let number = (self.calls.len() as u64).saturating_add(1);
        self.fail.contains(&number)
    }

    /// Whether the next call fails as a load of this name.
    fn load_fails(&self, name: &str) -> bool
        ensures { result ≡ load_fails self.now name.now }
    {
        self.is_told_to_fail() || find_entry(&self.files, name).is_none()
    }
}

impl Files for MemFiles {
    ghost told = { λ f. record {
      holds = Some (held_in f.entries);
      faults = failures f.calls;
      failed_loads = Some (failures_of Load f.calls);
      failed_saves = Some (failures_of Save f.calls);
    } };

    /// The record of the call is made before all else; one that finds no memory for its record is
    /// not counted. It fails exactly where it is told to, or where no such name is held.
    fn load(&mut self, name: &str, limit: usize, into: &mut Vec<u8>) -> Result<(), FileAnswer>
        requires { into.old.items ≡ [] }
        ensures failed { IsErrOf result FileAnswer.Failed → IsTrue (load_fails self.old name.now) }
        ensures fails { IsTrue (load_fails self.old name.now)
            → IsErrOf result FileAnswer.Failed ⊎ IsErrOf result FileAnswer.NoMemory }
        ensures recorded { self.new ≡ after_load self.old name.now
            ⊎ IsErrOf result FileAnswer.NoMemory × (self.new ≡ self.old) }
        // What every load ensures.
        ensures held { self.new.entries ≡ self.old.entries }
        ensures whole { OnOk result (held_in self.old.entries name.now ≡ Some into.new.items) }
        ensures within { OnOk result (length into.new.items ≤ limit) }
        ensures part { OnErr result
            (IsPart into.new.items (file_in (held_in self.old.entries) name.now)) }
        ensures bounded { length into.new.items ≤ limit + 1 }
        ensures too_long { IsErrOf result FileAnswer.TooLong → limit < length into.new.items }
        ensures longer { IsErrOf result FileAnswer.TooLong
            → limit < length (file_in (held_in self.old.entries) name.now) }
        ensures later { failures self.old.calls ≤ failures self.new.calls }
        ensures cause { IsErrOf result FileAnswer.Failed
            → Rose (failures self.old.calls) (failures self.new.calls) }
        ensures later_by_name { (each : List ℕ)
            → failures_of Load self.old.calls each ≤ failures_of Load self.new.calls each }
        ensures others { (other : List ℕ) → other ≢ name.now
            → failures_of Load self.new.calls other ≡ failures_of Load self.old.calls other }
        ensures named_cause { IsErrOf result FileAnswer.Failed
            → Rose (failures_of Load self.old.calls name.now)
            (failures_of Load self.new.calls name.now) }
        ensures saves_stay { (each : List ℕ)
            → failures_of Save self.new.calls each ≡ failures_of Save self.old.calls each }
    {
        let fails = self.load_fails(name);
        add_call(self.alloc, &mut self.calls, CallKind::Load, name, fails)?;
        if fails {
            return Err(FileAnswer::Failed);
        }
        let Some(bytes) = find_entry(&self.files, name) else {
            unreachable!()
        };
        read_up_to(bytes, limit, into)
    }

    /// The record of the call is made before all else, as for a load. It fails exactly where it is
    /// told to; a name may be absent. The file is held from then on in place of an older one of its
    /// name.
    fn save(&mut self, name: &str, bytes: &[u8]) -> Result<(), SaveAnswer>
        ensures failed { IsErrOf result SaveAnswer.Failed → IsTrue (is_told_to_fail self.old) }
        ensures fails { IsTrue (is_told_to_fail self.old)
            → IsErrOf result SaveAnswer.Failed ⊎ IsErrOf result SaveAnswer.NoMemory }
        ensures after { OnOk result (self.new ≡ after_save self.old name.now bytes.now) }
        ensures after_failure { IsErrOf result SaveAnswer.Failed
            → self.new ≡ after_save self.old name.now bytes.now }
        ensures after_no_memory { IsErrOf result SaveAnswer.NoMemory
            → (self.new ≡ self.old) ⊎ (self.new ≡ after_call self.old Save name.now false) }

        // What every save ensures.
        ensures saved { OnOk result (held_in self.new.entries name.now ≡ Some bytes.now) }
        ensures others_kept { (other : List ℕ) → other ≢ name.now
            → held_in self.new.entries other ≡ held_in self.old.entries other }
        ensures unchanged { OnErr result (self.new.entries ≡ self.old.entries) }
        ensures later { failures self.old.calls ≤ failures self.new.calls }
        ensures cause { IsErrOf result SaveAnswer.Failed
            → Rose (failures self.old.calls) (failures self.new.calls) }
        ensures later_by_name { (each : List ℕ)
            → failures_of Save self.old.calls each ≤ failures_of Save self.new.calls each }
        ensures others { (other : List ℕ) → other ≢ name.now
            → failures_of Save self.new.calls other ≡ failures_of Save self.old.calls other }
        ensures named_cause { IsErrOf result SaveAnswer.Failed
            → Rose (failures_of Save self.old.calls name.now)
            (failures_of Save self.new.calls name.now) }
        ensures loads_stay { (each : List ℕ)
            → failures_of Load self.new.calls each ≡ failures_of Load self.old.calls each }
    {
        let fails = self.is_told_to_fail();
        add_call(self.alloc, &mut self.calls, CallKind::Save, name, fails)?;
        if fails {
            return Err(SaveAnswer::Failed);
        }
        add_entry(self.alloc, &mut self.files, name, bytes)?;
        Ok(())
    }
}

/// Records a call after those before it.
fn add_call(
    alloc: Global,
    calls: &mut Vec<Call>,
    kind: CallKind,
    name: &str,
    failed: bool,
) -> Result<(), NoMemory>
    ensures ok { OnOk result (calls.new.items
        ≡ calls.old.items ++ record { kind = kind; name = name.now; failed = failed } ∷ []) }
    ensures err { OnErr result (calls.new.items ≡ calls.old.items) }

    ensures later { failures calls.old.items ≤ failures calls.new.items }
    ensures cause { OnOk result (IsTrue failed
        → Rose (failures calls.old.items) (failures calls.new.items)) }

    ensures later_by_name { (each : List ℕ)
        → failures_of kind calls.old.items each ≤ failures_of kind calls.new.items each }
    ensures others { (other : List ℕ) → other ≢ name.now
        → failures_of kind calls.new.items other ≡ failures_of kind calls.old.items other }
    ensures named_cause { OnOk result (IsTrue failed
        → Rose (failures_of kind calls.old.items name.now)
        (failures_of kind calls.new.items name.now)) }
    ensures other_kinds { (other : CallKind) → other ≢ kind → (each : List ℕ)
        → failures_of other calls.new.items each ≡ failures_of other calls.old.items each }
{
    calls.push(Call {
        kind,
        name: Text::from_str(alloc, name)?,
        failed,
    })?;
    Ok(())
}
