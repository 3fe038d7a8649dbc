ghost use Rattle.std.specs.Prelude.{◌≡◌, ◌≤◌, [], length, All, IfOk, IfErr};
ghost use Rattle.tdl_base.specs.declared.limits.TheConstants.{SOURCES};
ghost use Rattle.tdl_check.specs.Tells.{TellsFirst};
ghost use Rattle.tdl_program.specs.Programs as programs;
ghost use Rattle.tdl_rules.specs.Faults.{faults};
ghost use Rattle.tdl_size.specs.Sized.{IsSized};

use crate::rules::first_fault;
use crate::{CheckError, Checked};
use std::alloc::Global;
use tdl_compose::program_of;
use tdl_names::sources_of;
use tdl_tree::Tree;

/// The program that sources say, at most 64, within the limits of the grammar. Where they break a
/// rule, the first fault by source, line, column and rule is told.
pub fn check(alloc: Global, trees: &[Tree]) -> Result<Checked, CheckError>
    requires few { length trees.now ≤ SOURCES }
    requires sized { All IsSized trees.now }
    ensures kept { IfOk result (λ _. faults trees.now ≡ []) }
    ensures made { IfOk result (λ checked. checked ≡ programs.program_of trees.now) }
    ensures err { IfErr result (λ e. TellsFirst e (faults trees.now)) }
{
    let sources = sources_of(alloc, trees)?;
    match first_fault(&sources) {
        None => Ok(Checked {
            program: program_of(alloc, &sources)?,
        }),
        Some(fault) => Err(CheckError::BadProgram(fault)),
    }
}
