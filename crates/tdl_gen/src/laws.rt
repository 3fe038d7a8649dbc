//! Laws of the compiler's bundles. Each function does nothing: its contract is the law.
ghost use Rattle.std.specs.Prelude.{◌≡◌, ◌<◌, ◌≤◌, ◌+◌, ◌-◌, ◌*◌, ◌==◌, ℕ, suc, ℤ, true};
ghost use Rattle.std.specs.Prelude.{List, [], length, map, sum, find, Some, slice_get};
ghost use Rattle.std.specs.List.{list_any};
ghost use Rattle.tdl_base.specs.Lists.{numbered};
ghost use Rattle.tdl_base.specs.declared.numbers.PortKey.{PortKey};
ghost use Rattle.tdl_body.specs.declared.tree.Expr.{Expr};
ghost use Rattle.tdl_body.specs.Values.{holds};
ghost use Rattle.tdl_mode.specs.declared.program.Program.{Program};
ghost use Rattle.tdl_mode.specs.declared.program.Module.{Module};
ghost use Rattle.tdl_mode.specs.declared.program.Mode.{Mode};
ghost use Rattle.tdl_mode.specs.declared.program.Invocation.{Invocation};
ghost use Rattle.tdl_mode.specs.declared.program.Update.{Update};
ghost use Rattle.tdl_mode.specs.declared.program.Switch.{Switch};
ghost use Rattle.tdl_mode.specs.Offsets.{is_offset, next_offset};
ghost use Rattle.tdl_mode.specs.States.{TaskState, look_of};
ghost use Rattle.tdl_deploy.specs.declared.placement.Placement.{Placement};
ghost use Rattle.tdl_deploy.specs.declared.schedule.Schedule.{Schedule};
ghost use Rattle.tdl_deploy.specs.Named.{names_of};
ghost use Rattle.tdl_deploy.specs.Passes.{WellPlaced};
ghost use Rattle.tdl_image.specs.declared.bundle.Bundle.{Bundle};
ghost use Rattle.tdl_image.specs.declared.hosted.Hosted.{Hosted};
ghost use Rattle.tdl_image.specs.declared.hosted.TaskTable.{TaskTable};
ghost use Rattle.tdl_image.specs.declared.stub.Stub.{Stub};
ghost use Rattle.tdl_image.specs.declared.stub.Receive.{Receive};
ghost use Rattle.tdl_base.specs.Sensed.{Sensed};
ghost use Rattle.tdl_verify.specs.States.{HostNow, EntryNow, StubNow, Part, Times};
ghost use Rattle.tdl_verify.specs.Turns.{due_of};
ghost use Rattle.tdl_verify.specs.Ends.{NoneReady, ended_tasks, ended_rows};
ghost use Rattle.tdl_verify.specs.Sweeps.{Any, Sees, Apart};
ghost use Rattle.tdl_verify.specs.Texts.{bundle_names};
ghost use Rattle.tdl_gen.specs.BlockNames.{BlockName, block_number, number_in};
ghost use Rattle.tdl_gen.specs.BlockNames.{call_names, driver_names, guard_acts, guard_names};
ghost use Rattle.tdl_gen.specs.BlockNames.{release_names};
ghost use Rattle.tdl_gen.specs.Blocks.{blocks_of, mode_block, switches_at};
ghost use Rattle.tdl_gen.specs.Counts.{length_of, module_count, stub_count};
ghost use Rattle.tdl_gen.specs.Counts.{part_count, declared_of};
ghost use Rattle.tdl_gen.specs.Tables.{coded, call_of, driver_of, guard_in, guard_of};
ghost use Rattle.tdl_gen.specs.Tables.{release_of, stub_of};
ghost use Rattle.tdl_gen.specs.HostSteps.{MovesTo, AtOffset, armed, ends_at, updates_of, AllOnce};
ghost use Rattle.tdl_gen.specs.HostSteps.{updated, updated_rows, AllGuards, CanEnter, entering};
ghost use Rattle.tdl_gen.specs.HostSteps.{entered_rows, after_phase_three, switched_rows, HasOutputs};
ghost use Rattle.tdl_gen.specs.HostSteps.{AllFree, all_started};
ghost use Rattle.tdl_gen.specs.Takes.{OwnBlocks, OfMode, due_count, taken, taken_rows, IsDueAtEnd};
ghost use Rattle.tdl_gen.specs.Realises.{bundle_of, HasTables, HasCounts};

/// A bundle with the tables and the counts of the compiler's bundle is the compiler's bundle, for
/// all programs, placements and schedules.
pub fn one_bundle()
    ensures { (bundle : Bundle) (program : Program) (placement : Placement) (schedule : Schedule) →
        HasTables bundle program placement schedule →
        HasCounts bundle program placement schedule →
        bundle ≡ bundle_of program placement schedule }
{}

/// The names of the compiler's bundle are those of the program and its placement, where each module
/// stands on exactly one node.
pub fn names()
    ensures { (program : Program) (placement : Placement) (schedule : Schedule) →
        WellPlaced program placement →
        bundle_names (bundle_of program placement schedule) ≡ names_of program placement }
{}

/// The block of an offset of a mode stands at its name's number.
pub fn blocks()
    ensures ends { (m : Module) (k o : ℕ) (mode : Mode) →
        slice_get m.modes k ≡ Some mode → is_offset mode o ≡ true → 0 < o →
        slice_get (blocks_of m) (block_number m (BlockName.Ends k o)) ≡
        Some (mode_block m (Some mode) (BlockName.Ends k o)) }
    ensures updates { (m : Module) (k o : ℕ) (mode : Mode) →
        slice_get m.modes k ≡ Some mode → is_offset mode o ≡ true → 0 < o →
        slice_get (blocks_of m) (block_number m (BlockName.Updates k o)) ≡
        Some (mode_block m (Some mode) (BlockName.Updates k o)) }
    ensures switches { (m : Module) (k o : ℕ) (mode : Mode) →
        slice_get m.modes k ≡ Some mode → is_offset mode o ≡ true → 0 < o →
        slice_get (blocks_of m) (block_number m (BlockName.Switches k o)) ≡
        Some (mode_block m (Some mode) (BlockName.Switches k o)) }
    ensures starts { (m : Module) (k o : ℕ) (mode : Mode) →
        slice_get m.modes k ≡ Some mode → is_offset mode o ≡ true → o < mode.period.0 →
        slice_get (blocks_of m) (block_number m (BlockName.Starts k o)) ≡
        Some (mode_block m (Some mode) (BlockName.Starts k o)) }
{}

/// The calls, drivers, guards and releases of a mode's activities stand at their names' numbers,
/// where the entries of one activity agree.
pub fn tables()
    ensures calls { (m : Module) (k n : ℕ) (mode : Mode) (i : Invocation) →
        slice_get m.modes k ≡ Some mode → slice_get mode.invocations n ≡ Some i →
        ((p : ℕ) (j : Invocation) → slice_get mode.invocations p ≡ Some j → j.act ≡ i.act →
        (j.task.0 ≡ i.task.0) × (j.args ≡ i.args)) →
        slice_get (map (call_of m) (call_names m)) (number_in (call_names m) k i.act)
        ≡ Some (record { task = i.task.0; args = map coded i.args }) }
    ensures drivers { (m : Module) (k n : ℕ) (mode : Mode) (u : Update) →
        slice_get m.modes k ≡ Some mode → slice_get mode.updates n ≡ Some u →
        ((p : ℕ) (v : Update) → slice_get mode.updates p ≡ Some v → v.act ≡ u.act →
        (v.actuator ≡ u.actuator) × (v.value ≡ u.value)) →
        slice_get (map (driver_of m) (driver_names m)) (number_in (driver_names m) k u.act)
        ≡ Some (record { actuator = u.actuator; value = coded u.value }) }
    ensures guards { (m : Module) (k a : ℕ) (mode : Mode) (guard : Expr) →
        slice_get m.modes k ≡ Some mode → list_any (λ b. b == a) (guard_acts mode) ≡ true →
        guard_in mode a ≡ Some guard →
        slice_get (map (guard_of m) (guard_names m)) (number_in (guard_names m) k a)
        ≡ Some (coded guard) }
    ensures releases { (m : Module) (k n : ℕ) (mode : Mode) (i : Invocation) →
        slice_get m.modes k ≡ Some mode → slice_get mode.invocations n ≡ Some i →
        slice_get (map (release_of m) (release_names m)) (number_in (release_names m) k (1 + n))
        ≡ Some (record { mode = k; invocation = 1 + n; call = number_in (call_names m) k i.act }) }
{}

/// The blocks of phases 1 to 3 of a hosted module, each from where its trigger is due to its next
/// trigger, in at most as many instructions as it has, wherever the module stands among the parts
/// of its node. What is seen of the parts after phase 1 stays in the others. The tasks with an
/// invocation that ends commit the outputs of their done jobs. Each actuator takes its first update
/// whose guard holds. The first switch whose guard holds is taken; else the mode is entered again
/// at the end of its period, or goes on.
pub fn host_blocks()
    ensures ends { (x node k o : ℕ) (sensed : Sensed) (times : Times) (h : Hosted) (m : Module)
        (mode : Mode) (s : HostNow) → AtOffset h m k o mode → 0 < o →
        length m.tasks ≡ length s.tasks → NoneReady (ends_at mode o) 0 s.tasks →
        MovesTo x node sensed times 1 Any
        (Part.Host h (armed s x (block_number m (BlockName.Ends k o))))
        (Part.Host h (armed (record s { tasks = ended_tasks (ends_at mode o) 0 s.tasks }) x
        (block_number m (BlockName.Updates k o))))
        (ended_rows x node h.number.0 (ends_at mode o) 0 s.tasks)
        (length_of m (BlockName.Ends k o)) }
    ensures updates { (x node k o : ℕ) (sensed : Sensed) (times : Times) (h : Hosted) (m : Module)
        (mode : Mode) (seen : PortKey → ℤ) (ns : List ℕ) (us : List TaskState) (s : HostNow) →
        AtOffset h m k o mode → Apart ns → HasOutputs s us →
        0 < o → length m.actuators ≡ length s.actuators →
        AllOnce h m k (updates_of mode o) 0 s.actuators →
        let look = look_of h.number.0 us sensed seen in
        let taken = updated h look (updates_of mode o) 0 s.actuators in
        MovesTo x node sensed times 2 (Sees seen ns)
        (Part.Host h (armed s x (block_number m (BlockName.Updates k o))))
        (Part.Host h (armed (record s { actuators = taken }) x
        (block_number m (BlockName.Switches k o))))
        (updated_rows x node h look (updates_of mode o) 0 s.actuators)
        (length_of m (BlockName.Updates k o)) }
    ensures switches { (x node k o : ℕ) (sensed : Sensed) (times : Times) (h : Hosted) (m : Module)
        (mode : Mode) (seen : PortKey → ℤ) (ns : List ℕ) (us : List TaskState) (s : HostNow) →
        AtOffset h m k o mode → Apart ns → HasOutputs s us →
        0 < o → o ≤ mode.period.0 → CanEnter m k → AllGuards h m k (switches_at mode o) →
        let look = look_of h.number.0 us sensed seen in
        let taken = find (λ w. holds w.guard look) (switches_at mode o) in
        ((w : Switch) → taken ≡ Some w → CanEnter m w.target.0) →
        MovesTo x node sensed times 3 (Sees seen ns)
        (Part.Host h (armed s x (block_number m (BlockName.Switches k o))))
        (Part.Host h (after_phase_three x m k o s taken (o == mode.period.0)))
        (switched_rows x node h k s taken (o == mode.period.0))
        (length_of m (BlockName.Switches k o)) }
{}

/// The other blocks of a hosted module, in the same way. The jobs of the starts whose guards hold
/// are ready. The entry block enters the start mode. Where nothing is due, the part stays.
pub fn host_starts()
    ensures starts { (x node k o : ℕ) (sensed : Sensed) (times : Times) (h : Hosted) (m : Module)
        (mode : Mode) (seen : PortKey → ℤ) (ns : List ℕ) (us : List TaskState) (s : HostNow)
        (tables : ℕ → TaskTable) →
        AtOffset h m k o mode → Apart ns → HasOutputs s us →
        o < mode.period.0 →
        let look = look_of h.number.0 us sensed seen in
        let started = all_started times h k o look tables 1 mode.invocations s.tasks in
        AllFree times h m k o look tables 1 mode.invocations s.tasks →
        MovesTo x node sensed times 4 (Sees seen ns)
        (Part.Host h (armed s x (block_number m (BlockName.Starts k o))))
        (Part.Host h (armed (record s { tasks = started }) (x + (next_offset mode o - o))
        (block_number m (BlockName.Ends k (next_offset mode o)))))
        [] (length_of m (BlockName.Starts k o)) }
    ensures entry { (x node : ℕ) (sensed : Sensed) (times : Times) (h : Hosted) (m : Module)
        (seen : PortKey → ℤ) (ns : List ℕ) (s : HostNow) → h.blocks ≡ blocks_of m →
        CanEnter m m.start.0 →
        MovesTo x node sensed times 3 (Sees seen ns)
        (Part.Host h (armed s x (block_number m BlockName.Boot)))
        (Part.Host h (entering x m s m.start.0)) (entered_rows x node h m.start.0 s)
        (length_of m BlockName.Boot) }
    ensures rests { (x node phase : ℕ) (sensed : Sensed) (times : Times) (seen : PortKey → ℤ)
        (ns : List ℕ) (p : Part) →
        ((q : ℕ) → q < suc phase → (n : ℕ) → due_of x q n p ≡ []) →
        MovesTo x node sensed times phase Any p p [] 0
        × MovesTo x node sensed times phase (Sees seen ns) p p [] 0 }
{}

/// The due entries of a stub are taken in phase 1, each with two instructions: their copies become
/// the outputs of their tasks, in the order of the entries, and are shown.
pub fn stub_blocks()
    ensures { (x node : ℕ) (sensed : Sensed) (times : Times) (p : Stub) (s : StubNow) →
        OwnBlocks p → length p.entries ≡ length s.entries →
        MovesTo x node sensed times 1 Any (Part.Outside p s) (Part.Outside p (taken x p s))
        (taken_rows x node p p.entries s.entries) (2 * due_count x s.entries) }
{}

/// Each receive entry of the compiler's stub is of an invocation of its mode and task, and has a
/// block of its own that takes it. Where its frame arrives at the end of its bus window, it is due
/// at the end of the invocation.
pub fn entries()
    ensures { (program : Program) (placement : Placement) (schedule : Schedule) (k r : ℕ)
        (m : Module) (e : Receive) →
        slice_get (stub_of program placement schedule k m).entries r ≡ Some e →
        IsDueAtEnd schedule k m (stub_of program placement schedule k m) r e }
{}

/// A module's declared count is enough for the blocks of phases 1 to 3 at any offset above 0 and
/// the block of phase 4 at any offset below the period, of the same mode or of another. A stub's is
/// enough for its entries that are due at one instant, which are of one mode, with two instructions
/// for each. A node's is the sum over its parts: the modules that it hosts, and the stubs of those
/// that they import.
pub fn counts()
    ensures blocks { (m : Module) (k o j r : ℕ) (mode entered : Mode) →
        slice_get m.modes k ≡ Some mode → is_offset mode o ≡ true → 0 < o →
        slice_get m.modes j ≡ Some entered → is_offset entered r ≡ true → r < entered.period.0 →
        length_of m (BlockName.Ends k o) + length_of m (BlockName.Updates k o)
        + length_of m (BlockName.Switches k o) + length_of m (BlockName.Starts j r)
        ≤ module_count m }
    ensures takes { (x k : ℕ) (stub : Stub) (nows : List EntryNow) →
        length stub.entries ≡ length nows → OfMode x k stub.entries nows →
        2 * due_count x nows ≤ stub_count stub }
    ensures sums { (program : Program) (placement : Placement) (schedule : Schedule) (node : ℕ) →
        declared_of program placement schedule node
        ≡ sum (numbered 0 (part_count program placement schedule node) program.modules) }
{}
