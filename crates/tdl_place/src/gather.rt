ghost use Rattle.std.specs.Prelude.{◌≡◌, ◌≤◌, ◌∷◌, [], None, List, length, OnOk, IfOk};
ghost use Rattle.tdl_lines.specs.declared.lines.TheConstants.{FILE_BYTES};
ghost use Rattle.tdl_lines.specs.declared.said.Said.{Said as Line};
ghost use Rattle.tdl_place.specs.Gathering.{all_gathered, with_more};
ghost use Rattle.tdl_place.specs.PlacementRules.{lines_said};
ghost use Rattle.tdl_place.specs.SaidPlaces.{on_line};
ghost use Rattle.tdl_place.specs.declared.entry.Entry.{Entry as Statement};
ghost use Rattle.tdl_place.specs.declared.limits.TheConstants.{MODULES};

use crate::entry::Entry;
use crate::said::entry_of;
use std::alloc::Global;
use tdl_base::NoMemory;
use tdl_deploy::{BusCost, PlacedNode};
use tdl_lines::{Fault, Lines, Said, note_if};
use tdl_mode::Program;

/// The nodes and the costs that lines say, and the first fault of a line by itself.
#[derive(Drop)]
pub(crate) struct Gathered {
    pub nodes: Vec<Said<PlacedNode>>,
    pub buses: Vec<Said<BusCost>>,
    pub first: Option<Fault>,
}

impl Gathered {
    /// One more line is read.
    fn put(&mut self, line: u32, entry: Entry) -> Result<(), NoMemory>
        ensures { OnOk result ((more : List (Line Statement)) →
            with_more self.new more ≡ with_more self.old (on_line line entry ∷ more)) }
    {
        match entry {
            Entry::Formless => note_if(&mut self.first, true, line, 1),
            Entry::Node { node, unknown } => {
                note_if(&mut self.first, unknown, line, 2);
                self.nodes.push(Said { line, what: node })?;
            }
            Entry::Bus(cost) => self.buses.push(Said { line, what: cost })?,
        }
        Ok(())
    }
}

/// What the lines of a file say.
pub(crate) fn gather(alloc: Global, bytes: &[u8], program: &Program) -> Result<Gathered, NoMemory>
    requires file { length bytes.now ≤ FILE_BYTES }
    requires modules { length program.now.modules ≤ MODULES }
    ensures { IfOk result (λ g. with_more g [] ≡ all_gathered (lines_said program.now bytes.now)) }
{
    let mut gathered = Gathered {
        nodes: Vec::new(alloc),
        buses: Vec::new(alloc),
        first: None,
    };
    let mut lines = Lines::new(bytes);
    while let Some(line) = lines.next() {
        let words = line.words(alloc)?;
        let entry = entry_of(alloc, program, &words)?;
        gathered.put(line.number(), entry)?;
    }
    Ok(gathered)
}
