ghost use Rattle.std.specs.Prelude.{◌≡◌, ◌≤◌, [], length, OnOk, IfOk, IfErr};
ghost use Rattle.tdl_lines.specs.declared.lines.TheConstants.{FILE_BYTES};
ghost use Rattle.tdl_sched.specs.ReadSchedule.{TellsFirst, schedule_said};
ghost use Rattle.tdl_sched.specs.ScheduleRules.{schedule_faults};

use crate::SchedError;
use crate::build::schedule_said;
use crate::gather::gather;
use crate::rules::first_fault;
use std::alloc::Global;
use tdl_deploy::Schedule;
use tdl_mode::Program;

/// Reads a schedule of a program. Where a rule is broken, the first fault by line and rule is told.
pub fn read_sched(alloc: Global, bytes: &[u8], program: &Program) -> Result<Schedule, SchedError>
    requires { length bytes.now ≤ FILE_BYTES }
    ensures lawful { OnOk result (schedule_faults program.now bytes.now ≡ []) }
    ensures said { IfOk result (λ s. s ≡ schedule_said program.now bytes.now) }
    ensures err { IfErr result (λ e. TellsFirst e (schedule_faults program.now bytes.now)) }
{
    let lines = gather(alloc, bytes, program)?;
    match first_fault(&lines) {
        None => Ok(schedule_said(alloc, &lines)?),
        Some(fault) => Err(SchedError::BadSchedule(fault)),
    }
}
