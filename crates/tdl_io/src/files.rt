ghost use Rattle.std.specs.Prelude.{◌≡◌, [], ℕ, ◌+◌, ◌<◌, ◌≤◌, length, OnOk, OnErr, IsErrOf};
ghost use Rattle.tdl_io.specs.declared.files.FileAnswer.TheVariants.{NoMemory};
ghost use Rattle.tdl_io.specs.declared.files.SaveAnswer.TheVariants as save_answer;
ghost use Rattle.tdl_io.specs.Outside.{Rose, Reads, ReadsPart, IsLonger, Saves, KeepsOthers, NoCountFalls, NoCountChanges, ChangesOnly, HasNamedCause};
ghost use Rattle.tdl_io.specs.Told.{FilesTold};

use std::alloc::AllocError;
use thiserror::Error;

/// Why a file was not loaded.
#[derive(Clone, Copy, Debug, PartialEq, Eq, Error)]
pub enum FileAnswer {
    /// The files failed: their count of faults rose.
    #[error("the file could not be read")]
    Failed,
    /// The file is longer than the limit.
    #[error("the file is too long")]
    TooLong,
    /// Memory could not be had.
    #[error("no memory")]
    NoMemory,
}

impl From<AllocError> for FileAnswer {
    ghost from_gives = { λ _ e. e ≡ NoMemory };

    fn from(_refused: AllocError) -> FileAnswer {
        FileAnswer::NoMemory
    }
}

impl From<tdl_base::NoMemory> for FileAnswer {
    ghost from_gives = { λ _ e. e ≡ NoMemory };

    fn from(_refused: tdl_base::NoMemory) -> FileAnswer {
        FileAnswer::NoMemory
    }
}

/// Why a file was not saved.
#[derive(Clone, Copy, Debug, PartialEq, Eq, Error)]
pub enum SaveAnswer {
    /// The files failed: their count of faults rose.
    #[error("the file could not be written")]
    Failed,
    /// Memory could not be had.
    #[error("no memory")]
    NoMemory,
}

impl From<AllocError> for SaveAnswer {
    ghost from_gives = { λ _ e. e ≡ save_answer.NoMemory };

    fn from(_refused: AllocError) -> SaveAnswer {
        SaveAnswer::NoMemory
    }
}

impl From<tdl_base::NoMemory> for SaveAnswer {
    ghost from_gives = { λ _ e. e ≡ save_answer.NoMemory };

    fn from(_refused: tdl_base::NoMemory) -> SaveAnswer {
        SaveAnswer::NoMemory
    }
}

/// Files, by their names.
pub trait Files {
    /// What they hold, a count of their faults, and the counts by name. No count falls; each may
    /// stand still at the greatest u64.
    ghost told: { Self → FilesTold };

    /// Reads a whole file into `into`, which is empty at first; of an absent name nothing, where
    /// that is no fault. `limit` is the greatest length of the file, in bytes. Of a longer one at
    /// most one byte past the limit is read.
    fn load(&mut self, name: &str, limit: usize, into: &mut Vec<u8>) -> Result<(), FileAnswer>
        requires { into.old.items ≡ [] }

        ensures held { (told self.new).holds ≡ (told self.old).holds }
        ensures whole { OnOk result (Reads (told self.old).holds name.now into.new.items) }
        ensures within { OnOk result (length into.new.items ≤ limit) }
        ensures bounded { length into.new.items ≤ limit + 1 }

        // After a refusal the file begins with what was read.
        ensures part { OnErr result (ReadsPart (told self.old).holds name.now into.new.items) }
        ensures too_long { IsErrOf result FileAnswer.TooLong → limit < length into.new.items }
        ensures longer { IsErrOf result FileAnswer.TooLong
            → IsLonger (told self.old).holds name.now limit }

        ensures later { (told self.old).faults ≤ (told self.new).faults }
        ensures cause { IsErrOf result FileAnswer.Failed
            → Rose (told self.old).faults (told self.new).faults }

        ensures later_by_name { NoCountFalls (told self.old).failed_loads
            (told self.new).failed_loads }
        ensures others { ChangesOnly (told self.old).failed_loads (told self.new).failed_loads
            name.now }
        ensures named_cause { IsErrOf result FileAnswer.Failed
            → HasNamedCause (told self.old).failed_loads (told self.new).failed_loads name.now }
        ensures saves_stay { NoCountChanges (told self.old).failed_saves
            (told self.new).failed_saves };

    /// Makes the bytes the whole file of a name, also of one that was absent, and changes no other
    /// name. After a failure nothing is told of this name's file; without memory it is as it was.
    /// Files that tell what they hold may stop telling it.
    fn save(&mut self, name: &str, bytes: &[u8]) -> Result<(), SaveAnswer>
        ensures saved { OnOk result (Saves (told self.new).holds name.now bytes.now) }
        ensures others_kept { KeepsOthers (told self.old).holds (told self.new).holds name.now }
        ensures unchanged { IsErrOf result SaveAnswer.NoMemory →
            (told self.new).holds ≡ (told self.old).holds }

        ensures later { (told self.old).faults ≤ (told self.new).faults }
        ensures cause { IsErrOf result SaveAnswer.Failed
            → Rose (told self.old).faults (told self.new).faults }

        ensures later_by_name { NoCountFalls (told self.old).failed_saves
            (told self.new).failed_saves }
        ensures others { ChangesOnly (told self.old).failed_saves (told self.new).failed_saves
            name.now }
        ensures named_cause { IsErrOf result SaveAnswer.Failed
            → HasNamedCause (told self.old).failed_saves (told self.new).failed_saves name.now }
        ensures loads_stay { NoCountChanges (told self.old).failed_loads
            (told self.new).failed_loads };
}
