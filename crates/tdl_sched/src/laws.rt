//! Laws of the definitions that this crate's contracts cite. Each function does nothing: its
//! contract is the law.
ghost use Rattle.std.specs.Prelude.{◌≡◌, ℕ, List, [], length, Some, slice_get};
ghost use Rattle.tdl_deploy.specs.Passes.{Invoked};
ghost use Rattle.tdl_deploy.specs.declared.schedule.Schedule.{Schedule as Reserved};
ghost use Rattle.tdl_deploy.specs.declared.schedule.Window.{Window as Reservation};
ghost use Rattle.tdl_lines.specs.SaidLines.{said_lines};
ghost use Rattle.tdl_mode.specs.WellFormed.{WellFormed};
ghost use Rattle.tdl_mode.specs.declared.program.Program.{Program as Modules};
ghost use Rattle.tdl_sched.specs.GoodSchedules.{IsOf, IsThere, IsInRange, WellNamed, IsReadBack};
ghost use Rattle.tdl_sched.specs.ReadSchedule.{schedule_said};
ghost use Rattle.tdl_sched.specs.ScheduleRules.{schedule_faults};

/// What a text without a fault says is a schedule of the program: the module, the mode and the
/// invocation of each window are there, and there are at most 65,535 windows.
pub fn invoked()
    ensures { (program : Modules) (bytes : List ℕ) →
        schedule_faults program bytes ≡ [] → IsOf program (schedule_said program bytes) }
{}

/// In a well-formed program an invocation that is there has its task.
pub fn with_task()
    ensures { (program : Modules) (m k n : ℕ) → WellFormed program →
        IsThere program m k n → Invoked program m k n }
{}

/// A text without a fault has a window for each line that is not skipped.
pub fn each_line()
    ensures { (program : Modules) (bytes : List ℕ) → schedule_faults program bytes ≡ [] →
        length (schedule_said program bytes).windows ≡ length (said_lines bytes) }
{}

/// Where names tell the parts of a program apart, the text of its schedule is short enough to be
/// read, and is read as the schedule.
pub fn reads_back()
    ensures { (program : Modules) (schedule : Reserved) → WellNamed program →
        IsOf program schedule → ((q : ℕ) (w : Reservation) →
        slice_get schedule.windows q ≡ Some w → IsInRange w) → IsReadBack program schedule }
{}
