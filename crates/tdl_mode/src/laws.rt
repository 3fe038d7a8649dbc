//! Laws of the logical instant. Each function does nothing: its contract is the law.
ghost use Rattle.std.specs.Prelude.{◌≡◌, ℕ, ◌+◌, ℤ, false, true, ◌==◌, Some, None, slice_get};
ghost use Prim.Native.Nat.{◌∣◌};
ghost use Rattle.tdl_body.specs.Values.{Look};
ghost use Rattle.tdl_mode.specs.declared.program.Program.{Program};
ghost use Rattle.tdl_mode.specs.declared.program.Module.{Module};
ghost use Rattle.tdl_mode.specs.declared.program.Mode.{Mode};
ghost use Rattle.tdl_mode.specs.Grains.{DividesCycles};
ghost use Rattle.tdl_mode.specs.Instants.{alone};
ghost use Rattle.tdl_mode.specs.Laws.{Outputs, IsModuleByModule, AtNoOffset, AgreeOnRead, StaysOrTurns};
ghost use Rattle.tdl_mode.specs.Laws.{EndsAt, UpdatesTo, SwitchesTo, KeptOrReleased};
ghost use Rattle.tdl_mode.specs.Phases.{has_ended, job_ends, update_value, switch_target, phase_four};
ghost use Rattle.tdl_base.specs.Sensed.{Sensed};
ghost use Rattle.tdl_mode.specs.States.{Job, TaskState, ModuleState, State, present};
ghost use Rattle.tdl_mode.specs.WellFormed.{WellModule};

/// An instant of all modules is, module by module, that of the module alone.
pub fn module_by_module()
    ensures each { (x : ℕ) (sensed : Sensed) (state : State) → IsModuleByModule x sensed state }
{}

/// Where a module has no offset, it stays as it is: no task ends, and no actuator is updated.
pub fn between_offsets()
    ensures stays { (k x : ℕ) (sensed : Sensed) (seen : Outputs) (m : ModuleState) →
        AtNoOffset x m → alone k x sensed seen m ≡ m }
    ensures no_end { (x : ℕ) (m : ModuleState) (u : TaskState) →
        AtNoOffset x m → has_ended m x u ≡ false }
    ensures no_update { (x a : ℕ) (m : ModuleState) (look : Look) →
        AtNoOffset x m → update_value m x look a ≡ None }
{}

/// Of the outputs of other modules only those count that the module may read.
pub fn only_what_is_read()
    ensures same { (program : Program) (k x : ℕ) (m : Module) (sensed : Sensed)
        (seen seen' : Outputs) (state : ModuleState) → WellModule program k m →
        state.definition ≡ m →
        AgreeOnRead program k m seen seen' →
        alone k x sensed seen state ≡ alone k x sensed seen' state }
{}

/// Where the cycles of a module begin: at the ends of periods and at switches. So every beginning
/// is a multiple of what divides all periods and all offsets of switches.
pub fn cycles()
    ensures begins { (k x : ℕ) (sensed : Sensed) (seen : Outputs) (m : ModuleState) →
        StaysOrTurns x m (alone k x sensed seen m) }
    ensures over { (k x : ℕ) (sensed : Sensed) (seen : Outputs) (m : ModuleState)
        (mode : Mode) → present m ≡ Some mode → m.base + mode.period.0 ≡ x →
        (alone k x sensed seen m).base ≡ x }
    ensures divided { (k x d : ℕ) (sensed : Sensed) (seen : Outputs) (m : ModuleState) →
        DividesCycles d m.definition → d ∣ m.base → d ∣ (alone k x sensed seen m).base }
{}

/// What ends, is updated, switches or is released at an instant stands at it in the text of the
/// mode, and where it has a guard the guard holds.
pub fn activities()
    ensures ends { (x : ℕ) (m : ModuleState) (job : Job) →
        job_ends m x job ≡ true → EndsAt x m job }
    ensures updates { (x a : ℕ) (m : ModuleState) (look : Look) (v : ℤ) →
        update_value m x look a ≡ Some v → UpdatesTo x m look a v }
    ensures switches { (x k : ℕ) (m : ModuleState) (look : Look) →
        switch_target m x look ≡ Some k → SwitchesTo x m look k }
    ensures releases { (x t : ℕ) (m : ModuleState) (look : Look) (before after : TaskState) →
        slice_get m.tasks t ≡ Some before → slice_get (phase_four x look m).tasks t ≡ Some after →
        KeptOrReleased x m look t before after }
{}
