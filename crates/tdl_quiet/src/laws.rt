//! Laws of the logical execution from event to event. Each function does nothing, or names
//! a law that it rests on: its contract is the law.
ghost use Rattle.std.specs.Prelude.{◌≡◌, ℕ, ◌+◌, ◌<◌, ◌≤◌, List, [], ◌++◌, Some, length, map, slice_get};
ghost use Rattle.tdl_base.specs.Sensed.{Sensed, Course};
ghost use Rattle.tdl_mode.specs.declared.program.Program.{Program};
ghost use Rattle.tdl_mode.specs.States.{ModuleState, State};
ghost use Rattle.tdl_mode.specs.Instants.{logical, state_at};
ghost use Rattle.tdl_mode.specs.WellFormed.{WellFormed};
ghost use Rattle.tdl_deploy.specs.declared.placement.Placement.{Placement};
ghost use Rattle.tdl_deploy.specs.Rows.{node_rows, for_nodes, rows_at, logical_rows};
ghost use Rattle.tdl_quiet.specs.Standing.{Stands, AllStand, JobsOpen};
ghost use Rattle.tdl_quiet.specs.Events.{next_of, next_event, IsNextCall, IsNextEvent};
ghost use Rattle.tdl_quiet.specs.Room.{rows_bound};

use tdl_mode::laws::activities;

/// At each instant of a run of a well-formed program each module stands in a cycle of its mode
/// that has begun and is not over, and its active jobs are open in that mode, whatever is sensed.
pub fn kept()
    ensures stands { (program : Program) (course : Course) (x : ℕ) → WellFormed program →
        AllStand x (state_at program course x) }
    ensures jobs { (program : Program) (course : Course) (x k : ℕ) (m : ModuleState) →
        WellFormed program → slice_get (state_at program course x) k ≡ Some m → JobsOpen x m }
    ensures definitions { (program : Program) (course : Course) (x : ℕ) →
        map (λ m. m.definition) (state_at program course x) ≡ program.modules }
{
    activities();
}

/// The next event comes after x, so a walk from event to event goes on; it is the first instant
/// at which some module is called.
pub fn event_above()
    ensures calls { (m : ModuleState) (x : ℕ) → Stands x m → IsNextCall m x (next_of m x) }
    ensures above { (state : State) (x : ℕ) → AllStand x state → x < next_event state x }
    ensures event { (state : State) (x : ℕ) → AllStand x state → 0 < length state →
        IsNextEvent state x (next_event state x) }
{}

/// After x and before the next event an instant changes nothing and shows nothing on any node,
/// whatever is sensed.
pub fn at_rest()
    ensures same { (state : State) (x y : ℕ) (sensed : Sensed) → AllStand x state → x < y →
        y < next_event state x → logical y sensed state ≡ state }
    ensures no_rows { (program : Program) (placement : Placement) (state : State) (x y node : ℕ)
        (sensed : Sensed) → AllStand x state → x < y → y < next_event state x →
        node_rows program placement y sensed state node ≡ [] }
{}

/// So a run stays in its state from x up to the next event, without it, and has no rows there.
pub fn idle()
    ensures same { (program : Program) (course : Course) (x y : ℕ) → WellFormed program →
        x < y → y < next_event (state_at program course x) x →
        state_at program course y ≡ state_at program course x }
    ensures no_rows { (program : Program) (placement : Placement) (course : Course) (x y : ℕ) →
        WellFormed program → x < y → y < next_event (state_at program course x) x →
        rows_at program placement course y ≡ [] }
{}

/// Up to the next event, without it, the rows of a run stay those up to x.
pub fn quiet_rows()
    ensures { (program : Program) (placement : Placement) (course : Course) (x k : ℕ) →
        WellFormed program → x + k < next_event (state_at program course x) x →
        logical_rows program placement course (x + k) ≡ logical_rows program placement course x }
{}

/// From x to a later instant that is not past the next event one step is enough: it leads to the
/// state there, and its rows are all that are added.
pub fn jump()
    ensures state { (program : Program) (course : Course) (x y : ℕ) → WellFormed program →
        x < y → y ≤ next_event (state_at program course x) x →
        state_at program course y ≡ logical y (course y) (state_at program course x) }
    ensures rows { (program : Program) (placement : Placement) (course : Course) (x y : ℕ) →
        WellFormed program → x < y → y ≤ next_event (state_at program course x) x →
        logical_rows program placement course y ≡ logical_rows program placement course x
        ++ for_nodes (node_rows program placement y (course y) (state_at program course x))
        placement }
{}

/// No instant has more rows than the program's outputs, actuators and modules on all nodes.
pub fn room()
    ensures { (program : Program) (placement : Placement) (course : Course) (x : ℕ) →
        length (rows_at program placement course x) ≤ rows_bound program placement }
{}
