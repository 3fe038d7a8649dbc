//! Laws of the compiler's bundles. Each function does nothing: its contract is the law.
ghost use Rattle.std.specs.Prelude.{◌≡◌, ◌++◌, ℕ, ℤ, suc, List, Some, slice_get};
ghost use Rattle.tdl_base.specs.declared.numbers.PortKey.{PortKey};
ghost use Rattle.tdl_base.specs.Lists.{Zip};
ghost use Rattle.tdl_base.specs.Sensed.{Sensed, Course};
ghost use Rattle.tdl_mode.specs.States.{ModuleState};
ghost use Rattle.tdl_mode.specs.WellFormed.{WellFormed};
ghost use Rattle.tdl_deploy.specs.Passes.{WellPlaced, Passes};
ghost use Rattle.tdl_deploy.specs.Rows.{logical_rows};
ghost use Rattle.tdl_image.specs.declared.bundle.Bundle.{Bundle};
ghost use Rattle.tdl_image.specs.declared.stub.Stub.{Stub};
ghost use Rattle.tdl_verify.specs.States.{NodeNow, Part, StubNow, Times, all_parts};
ghost use Rattle.tdl_verify.specs.Runs.{IsAlive, Lost, System, landed, machine_run, no_loss, run_to};
ghost use Rattle.tdl_gen.specs.Realises.{bundle_of, rows_of, HasTables, HasCounts, HasMeaning, IsWithinWorst};
ghost use Rattle.tdl_meaning.specs.Accepted.{Accepted};
ghost use Rattle.tdl_meaning.specs.AllItems.{Every};
ghost use Rattle.tdl_meaning.specs.BusTurn.{SendsDone, Took};
ghost use Rattle.tdl_meaning.specs.Conditions.{Conditions, Gone, Losses, NoneGone, Takes};
ghost use Rattle.tdl_meaning.specs.NodeShape.{NodeShape, StubShape};
ghost use Rattle.tdl_meaning.specs.OneNode.{FirstDone, MicroDone, Stepped, TurnDone, logic_after};
ghost use Rattle.tdl_meaning.specs.PartFacts.{PartAfterTurn, PartLanded, Parts, StubFacts};
ghost use Rattle.tdl_meaning.specs.SystemStands.{Along, Begun, Stands, StandsBefore, Step, TakesAlong};
ghost use Rattle.tdl_meaning.specs.SystemStands.{first_nodes};
ghost use Rattle.tdl_meaning.specs.WithoutLosses.{InState};
ghost use Rattle.tdl_meaning.specs.ExampleThree.{three_modules, on_nodes, turns_taken, always_one};
ghost use Rattle.tdl_meaning.specs.ExampleThree.{first_shown, second_shown};

/// The meaning of a bundle: where a program is well formed, its placement lawful, and its
/// schedule passes the test, each bundle with the compiler's tables and counts shows what the
/// program says. Under every course of sensor values, with all execution times from 1 us to the
/// worst case, up to every horizon in us, and while no frame is lost, the machine has no trap
/// of any kind; and its rows, without the log, are exactly the logical rows, in their order and
/// at their instants.
pub fn meaning()
    ensures means { (given : Accepted) (bundle : Bundle) →
        HasTables bundle given.program given.placement given.schedule →
        HasCounts bundle given.program given.placement given.schedule →
        HasMeaning bundle given.program given.placement }
{}

/// The same bundle has no trap whatever frames are lost, any of them and any number: no job is
/// late, no slot is busy at a release, no two windows share a processor, no two frames the bus,
/// no declared count runs out, and no number is without a place. Its rows may then differ from
/// the logical ones.
pub fn never_traps()
    ensures alive { (given : Accepted) (bundle : Bundle) →
        HasTables bundle given.program given.placement given.schedule →
        HasCounts bundle given.program given.placement given.schedule →
        (horizon : ℕ) (course : Course) (times : Times) → IsWithinWorst given.program times →
        (lost : Lost) → IsAlive (machine_run bundle horizon course times lost).now }
{}

/// One node by itself. Its instant 0, its turn at each later instant and its microsecond end: no
/// job is late, no slot is busy, no two windows are live, the declared count is enough. In a turn
/// each hosted module comes to its next logical state, by what the node sees after phase 1, and
/// the rows are those of the modules; so it is whatever copies the entries of its stubs hold, as
/// long as each that waits does so until the end of its job.
pub fn one_node()
    ensures begins { (given : Accepted) (run : Conditions given) (j : ℕ) (n : NodeNow) →
        slice_get (first_nodes given) j ≡ Some n → FirstDone given j (run.course 0) run.times n }
    ensures turn { (given : Accepted) (run : Conditions given) (losses : Losses) (x j : ℕ)
        (logic : ℕ → ModuleState) (n : NodeNow) → NodeShape given j n →
        Every (PartLanded given (Gone losses) x logic) n.parts →
        TurnDone given x j (run.course x) run.times logic n }
    ensures microsecond { (given : Accepted) (losses : Losses) (x j : ℕ)
        (logic : ℕ → ModuleState) (n : NodeNow) → NodeShape given j n →
        Every (PartAfterTurn given (Gone losses) x logic) n.parts →
        MicroDone given x j logic n }
{}

/// The bus at one instant, for every list of lost frames. What arrives waits for the end of its
/// job with the job's result; after phase 1 each task of a stub has the outputs of the last
/// commit that is not gone; the turns carry on what is known of all parts; and the sends never
/// trap: a window that starts finds its job done or absent, at most one frame starts, none while
/// one flies, and the frame in flight has its job's result.
pub fn bus()
    ensures arrives { (given : Accepted) (losses : Losses) (x : ℕ)
        (logic : ℕ → ModuleState) (s : System) →
        StandsBefore given (Gone losses) x logic s → Takes given losses x logic s.flight →
        (n : ℕ) (q : Part) →
        slice_get (all_parts (landed x losses.lost s.nodes s.flight)) n ≡ Some q →
        PartLanded given (Gone losses) x logic q }
    ensures takes { (given : Accepted) (losses : Losses) (x : ℕ)
        (logic : ℕ → ModuleState) (s : System) →
        StandsBefore given (Gone losses) x logic s → (q : Stub) (t : StubNow) →
        StubShape q t → StubFacts given (Gone losses) (suc x) x logic q t →
        Took (Gone losses q.number.0) x (logic q.number.0) q t }
    ensures turned { (given : Accepted) (losses : Losses) (x : ℕ)
        (logic : ℕ → ModuleState) (s : System) →
        StandsBefore given (Gone losses) x logic s → Takes given losses x logic s.flight →
        (sensed : Sensed) (seen : ℕ → PortKey → ℤ) (after : List Part) →
        Zip (Stepped given x sensed seen logic)
        (all_parts (landed x losses.lost s.nodes s.flight)) after →
        Parts given (PartAfterTurn given (Gone losses) x (logic_after x sensed seen logic)) after }
    ensures sends { (given : Accepted) (losses : Losses) (x : ℕ)
        (logic : ℕ → ModuleState) (s : System) →
        StandsBefore given (Gone losses) x logic s →
        (sensed : Sensed) (seen : ℕ → PortKey → ℤ) (nodes : List NodeNow) →
        Parts given (PartAfterTurn given (Gone losses) x (logic_after x sensed seen logic))
        (all_parts nodes) →
        SendsDone given x (logic_after x sensed seen logic) s.flight nodes s.sent }
{}

/// One step of the whole system. After instant 0 the run of the compiler's bundle is alive and
/// stands in the first states of its modules; and a system that stands after x is alive and
/// stands after x + 1, whatever is lost, each module in its next logical state, by what its node
/// sees.
pub fn step()
    ensures begins { (given : Accepted) (run : Conditions given) (losses : Losses) →
        Begun given run losses }
    ensures goes_on { (given : Accepted) (run : Conditions given) (losses : Losses) (x : ℕ)
        (logic : ℕ → ModuleState) (s : System) →
        Stands given (Gone losses) x logic s → Takes given losses (suc x) logic s.flight →
        Step given run losses x logic s }
{}

/// The run of a bundle with the compiler's tables and counts is alive after every instant and
/// stands there, whatever is lost; and where no commit is gone, the machine's state of each module
/// is the program's, each stub holds what its module's tasks put out, and the rows without the log
/// are the logical ones.
pub fn stands()
    ensures whatever_is_lost { (given : Accepted) (run : Conditions given) (losses : Losses)
        (bundle : Bundle) → HasTables bundle given.program given.placement given.schedule →
        HasCounts bundle given.program given.placement given.schedule →
        TakesAlong given run losses bundle → (x : ℕ) →
        Along given (Gone losses) (λ x logic s. Unit {0}) x
        (run_to bundle run.horizon run.course run.times losses.lost x) }
    ensures in_state { (given : Accepted) (run : Conditions given) (losses : Losses) →
        NoneGone losses → (bundle : Bundle) →
        HasTables bundle given.program given.placement given.schedule →
        HasCounts bundle given.program given.placement given.schedule →
        TakesAlong given run losses bundle → (x : ℕ) →
        Along given (Gone losses) (InState given run) x
        (run_to bundle run.horizon run.course run.times losses.lost x) }
    ensures shows { (given : Accepted) (run : Conditions given) (losses : Losses) →
        NoneGone losses → (bundle : Bundle) →
        HasTables bundle given.program given.placement given.schedule →
        HasCounts bundle given.program given.placement given.schedule →
        TakesAlong given run losses bundle → (x : ℕ) →
        rows_of (run_to bundle run.horizon run.course run.times losses.lost x)
        ≡ logical_rows given.program given.placement run.course x }
{}

/// The laws are not empty: three modules on two nodes, with guards, guarded switches, remote
/// outputs and a job that another module preempts, are well formed, lawfully placed, and have a
/// schedule that passes. So whatever time each job takes within its worst case, the rows of the
/// compiler's bundle up to 10 us, where each sensor shows 1, are those that the program's
/// logical execution has.
pub fn three_modules_on_two_nodes()
    ensures formed { WellFormed three_modules }
    ensures placed { WellPlaced three_modules on_nodes }
    ensures passes { Passes three_modules on_nodes turns_taken }
    ensures runs { (times : Times) → IsWithinWorst three_modules times →
        rows_of (machine_run (bundle_of three_modules on_nodes turns_taken) 10 always_one times
        no_loss)
        ≡ first_shown ++ second_shown }
{}
