ghost use Rattle.std.specs.Prelude.{◌≡◌, ◌≤◌, length, IfOk};
ghost use Rattle.tdl_lines.specs.declared.lines.TheConstants.{FILE_BYTES};
ghost use Rattle.tdl_sched.specs.ScheduleRules.{lines_said};

use crate::entry::Entry;
use crate::said::entry_of;
use std::alloc::Global;
use tdl_base::NoMemory;
use tdl_lines::{Lines, Said};
use tdl_mode::Program;

/// What the lines of a file say.
pub(crate) fn gather(
    alloc: Global,
    bytes: &[u8],
    program: &Program,
) -> Result<Vec<Said<Entry>>, NoMemory>
    requires { length bytes.now ≤ FILE_BYTES }
    ensures { IfOk result (λ said. said.items ≡ lines_said program.now bytes.now) }
{
    let mut said = Vec::new(alloc);
    let mut lines = Lines::new(bytes);
    while let Some(line) = lines.next() {
        let words = line.words(alloc)?;
        said.push(Said {
            line: line.number(),
            what: entry_of(program, &words),
        })?;
    }
    Ok(said)
}
