ghost use Rattle.std.specs.Prelude.{◌≡◌, ◌≤◌, [], length, IfOk};
ghost use Rattle.tdl_base.specs.declared.limits.TheConstants.{SOURCES};
ghost use Rattle.tdl_rules.specs.Faults.{faults};
ghost use Rattle.tdl_program.specs.Programs as programs;

use crate::home::Home;
use crate::modules::module_of;
use std::alloc::Global;
use tdl_base::{Listed, NoMemory};
use tdl_mode::Program;
use tdl_names::Sources;
use tdl_resolve::numbers_of;

/// The program that sources say which break no rule, at most 64.
pub fn program_of(alloc: Global, sources: &Sources) -> Result<Program, NoMemory>
    requires kept { faults sources.now ≡ [] }
    requires few { length sources.now ≤ SOURCES }
    ensures { IfOk result (λ program. program ≡ programs.program_of sources.now) }
{
    let numbers = numbers_of(alloc, sources)?;
    let mut modules = Listed::new(alloc);
    for file in 0..sources.len() {
        let Some(home) = Home::of(&numbers, file) else {
            return Ok(Program { modules });
        };
        modules.push(module_of(alloc, &home)?)?;
    }
    Ok(Program { modules })
}
