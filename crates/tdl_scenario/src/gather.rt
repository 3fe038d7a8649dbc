ghost use Rattle.std.specs.Prelude.{◌≡◌, ◌≤◌, length, IfOk};
ghost use Rattle.tdl_base.specs.declared.limits.TheConstants.{SCENARIO_BYTES};
ghost use Rattle.tdl_scenario.specs.Rules.{lines_said};
ghost use Rattle.tdl_scenario.specs.declared.plants.TheConstants.{PLANTS};

use crate::PlantPorts;
use crate::entry::Entry;
use crate::said::entry_of;
use std::alloc::Global;
use tdl_base::NoMemory;
use tdl_lines::{Lines, Said};
use tdl_trace::Names;

/// What the lines of a file say.
pub(crate) fn gather(
    alloc: Global,
    bytes: &[u8],
    names: &Names,
    plants: &[PlantPorts],
) -> Result<Vec<Said<Entry>>, NoMemory>
    requires file { length bytes.now ≤ SCENARIO_BYTES }
    requires plants { length plants.now ≤ PLANTS }
    ensures { IfOk result (λ said. said.items ≡ lines_said names.now plants.now bytes.now) }
{
    let mut said = Vec::new(alloc);
    let mut lines = Lines::new(bytes);
    while let Some(line) = lines.next() {
        let words = line.words(alloc)?;
        said.push(Said {
            line: line.number(),
            what: entry_of(alloc, names, plants, &words)?,
        })?;
    }
    Ok(said)
}
