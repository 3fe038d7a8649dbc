//! Laws of the definitions that this crate's contracts cite. Each function does nothing: its
//! contract is the law.
ghost use Rattle.std.specs.Prelude.{◌≡◌, ◌↔◌, ℕ, [], true};
ghost use Rattle.std.specs.Int.{IsGcd};
ghost use Rattle.tdl_deploy.specs.Passes.{Meets, Passes};
ghost use Rattle.tdl_deploy.specs.declared.placement.Placement.{Placement as Placed};
ghost use Rattle.tdl_deploy.specs.declared.schedule.Schedule.{Schedule as Reserved};
ghost use Rattle.tdl_deploy.specs.declared.schedule.Window.{Window as Reservation};
ghost use Rattle.tdl_mode.specs.Grains.{IsGrain};
ghost use Rattle.tdl_mode.specs.declared.program.Module.{Module as Definition};
ghost use Rattle.tdl_mode.specs.declared.program.Program.{Program as Modules};
ghost use Rattle.tdl_window.specs.Faults.{sched_faults};
ghost use Rattle.tdl_window.specs.GrainOf.{gcd, grain_of};
ghost use Rattle.tdl_window.specs.Granted.{AreInvoked};
ghost use Rattle.tdl_window.specs.Meeting.{meet};

/// A schedule without a fault passes, where the invocations of its windows are there.
pub fn passes()
    ensures { (program : Modules) (placement : Placed) (schedule : Reserved) →
        AreInvoked program schedule → sched_faults program placement schedule ≡ [] →
        Passes program placement schedule }
{}

/// Windows meet modulo a number exactly where a microsecond of the one and a microsecond of the
/// other are congruent.
pub fn meeting()
    ensures { (d : ℕ) (v w : Reservation) → (meet d v w ≡ true) ↔ Meets v w d }
{}

/// The numbers that the rules take are greatest common divisors and grains.
pub fn divisors()
    ensures common { (a b : ℕ) → IsGcd a b (gcd a b) }
    ensures grains { (m : Definition) → IsGrain m (grain_of m) }
{}
