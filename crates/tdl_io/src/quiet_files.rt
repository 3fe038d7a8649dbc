ghost use Rattle.std.specs.Prelude.{◌≡◌, [], None, Some, true, false, if◌then◌else◌, IsOk};
ghost use Rattle.tdl_io.specs.MemFiles.{entries_of, held_in};

use crate::entries::{find_entry, read_up_to};
use crate::{FileAnswer, Files, SaveAnswer};
use std::marker::Model;

/// Files in memory that never fail and keep no saved bytes. A name that is absent reads as an empty
/// file. They tell what they hold until the first save.
#[derive(Drop)]
pub struct QuietFiles {
    files: Vec<(String, Vec<u8>)>,
    saved: bool,
}

impl Model for QuietFiles {
    ghost use Rattle.tdl_io.specs.MemFiles.{entries_of};
    ghost use Rattle.tdl_io.specs.QuietFiles.{QuietState};

    ghost Value = { QuietState };

    ghost view = { λ f. record { entries = entries_of f.files.items; saved = f.saved } };
}

impl QuietFiles {
    /// Where entries share a name, the earliest counts.
    pub fn new(files: Vec<(String, Vec<u8>)>) -> QuietFiles
        ensures { result ≡ record { entries = entries_of files.items; saved = false } }
    {
        QuietFiles {
            files,
            saved: false,
        }
    }
}

impl Files for QuietFiles {
    ghost told = { λ f. record {
      holds = if f.saved then None else Some (held_in f.entries);
      faults = 0;
      failed_loads = Some (λ _. 0);
      failed_saves = Some (λ _. 0);
    } };

    fn load(&mut self, name: &str, limit: usize, into: &mut Vec<u8>) -> Result<(), FileAnswer> {
        match find_entry(&self.files, name) {
            Some(bytes) => read_up_to(bytes, limit, into),
            None => Ok(()),
        }
    }

    fn save(&mut self, _name: &str, _bytes: &[u8]) -> Result<(), SaveAnswer>
        ensures never_fails { IsOk result }
        ensures after { self.new ≡ record self.old { saved = true } }
    {
        self.saved = true;
        Ok(())
    }
}
