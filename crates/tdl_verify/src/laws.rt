//! Laws of the machine. Each function does nothing: its contract is the law.
ghost use Rattle.std.specs.Prelude.{ℕ, suc, ℤ, true, List, [], ◌∷◌, ◌++◌};
ghost use Rattle.std.specs.Prelude.{length, map, filter, flat_map};
ghost use Rattle.std.specs.Prelude.{Some, None, MatchOption, ◌≡◌, ◌⊎◌, ◌+◌, ◌<◌, ◌≤◌, slice_get};
ghost use Rattle.tdl_base.specs.Lists.{changed_at};
ghost use Rattle.tdl_base.specs.declared.numbers.PortKey.{PortKey};
ghost use Rattle.tdl_trace.specs.Shown.{Shown};
ghost use Rattle.tdl_trace.specs.declared.why.Why.{Why};
ghost use Rattle.tdl_stack.specs.declared.instr.Code.{Code};
ghost use Rattle.tdl_ecode.specs.declared.instr.EInstr.{EInstr};
ghost use Rattle.tdl_frame.specs.Frames.{Member, Frame};
ghost use Rattle.tdl_image.specs.declared.hosted.Hosted.{Hosted};
ghost use Rattle.tdl_image.specs.declared.hosted.TaskTable.{TaskTable};
ghost use Rattle.tdl_image.specs.declared.hosted.CallEntry.{CallEntry};
ghost use Rattle.tdl_image.specs.declared.hosted.ReleaseEntry.{ReleaseEntry};
ghost use Rattle.tdl_image.specs.declared.hosted.ImageWindow.{ImageWindow};
ghost use Rattle.tdl_image.specs.declared.stub.Stub.{Stub};
ghost use Rattle.tdl_image.specs.declared.stub.Receive.{Receive};
ghost use Rattle.tdl_verify.specs.States.{Slot, TaskNow, HostNow, EntryNow, StubNow, Part, NodeNow};
ghost use Rattle.tdl_base.specs.Sensed.{Sensed};
ghost use Rattle.tdl_verify.specs.States.{Times, part_outputs};
ghost use Rattle.tdl_verify.specs.Turns.{Due, Acted, Spot, Turned, turn, part_instr, code_at};
ghost use Rattle.tdl_verify.specs.Turns.{part_acts};
ghost use Rattle.tdl_verify.specs.Turns.{due_of, least_due, taken_out, is_at, release_acts};
ghost use Rattle.tdl_verify.specs.Micros.{is_live, live, run_part, micro};
ghost use Rattle.tdl_verify.specs.Bus.{Start, starts, received, part_received};
ghost use Rattle.tdl_verify.specs.Runs.{System, Now, Lost, next_instant, is_plain};
ghost use Rattle.tdl_verify.specs.Covered.{covered_by, AtMostOneLive, job_outputs, slot_along};
ghost use Rattle.tdl_verify.specs.Leads.{Leads, Finishes, block_spot};
ghost use Rattle.tdl_verify.specs.Sweeps.{NoneBelow, NoneDue, Move, befores, Sees, Ran, FourSweeps};
ghost use Rattle.tdl_verify.specs.Sweeps.{swept_from, swept_to, swept_rows, swept_cost};
ghost use Rattle.tdl_verify.specs.Laws.{IsOpen, AllWalk, KeepsJob, CanStart, StartsJob, Commits};
ghost use Rattle.tdl_verify.specs.Laws.{IsFrameOf, NoneExecuted, IsForEntry, is_numbered};
ghost use Rattle.tdl_verify.specs.Laws.{TakesEntry};

/// The steps of a turn. Between blocks the least due trigger, of the first part that has one of the
/// lowest phase, is taken out and its block begun, with no instruction. Each instruction is one
/// step. Where nothing is due the turn is over. Where no instruction is left in the declared count
/// but one is to run, it traps.
pub fn steps()
    ensures picks { (x phase : ℕ) (front back : List Part) (p : Part) (d : Due) (more : List Due) →
        0 < phase → phase < 5 → NoneBelow x phase (front ++ p ∷ back) → NoneDue x phase front →
        due_of x phase (length front) p ≡ d ∷ more → least_due x (front ++ p ∷ back) ≡ Some d }
    ensures begins { (x node : ℕ) (sensed : Sensed) (times : Times) (parts : List Part) (d : Due) →
        least_due x parts ≡ Some d →
        Leads x node sensed times 0 Spot.Between parts (block_spot d parts)
        (changed_at d.part (taken_out d) parts) [] }
    ensures goes_on { (x node : ℕ) (sensed : Sensed) (times : Times) (front back : List Part)
        (p q : Part) (b pc then' : ℕ) (i : EInstr) (rows : List Shown) →
        slice_get (code_at b p) pc ≡ Some i →
        part_acts x node sensed times (front ++ p ∷ back) pc p i ≡ Acted.On q rows then' →
        Leads x node sensed times 1 (Spot.In (length front) b pc) (front ++ p ∷ back)
        (Spot.In (length front) b then') (front ++ q ∷ back) (filter is_plain rows) }
    ensures returns { (x node : ℕ) (sensed : Sensed) (times : Times) (front back : List Part)
        (p q : Part) (b pc : ℕ) (i : EInstr) (rows : List Shown) →
        slice_get (code_at b p) pc ≡ Some i →
        part_acts x node sensed times (front ++ p ∷ back) pc p i ≡ Acted.Over q rows →
        Leads x node sensed times 1 (Spot.In (length front) b pc) (front ++ p ∷ back)
        Spot.Between (front ++ q ∷ back) (filter is_plain rows) }
    ensures traps { (x node k : ℕ) (sensed : Sensed) (times : Times) (front back : List Part)
        (p : Part) (b pc : ℕ) (i : EInstr) (rows : List Shown) (reason : Why) →
        slice_get (code_at b p) pc ≡ Some i →
        part_acts x node sensed times (front ++ p ∷ back) pc p i ≡ Acted.Stop reason →
        turn (k + 1) x node sensed times (Spot.In (length front) b pc) (front ++ p ∷ back) rows
        ≡ Turned.Trapped reason }
    ensures over { (x node k : ℕ) (sensed : Sensed) (times : Times) (parts : List Part)
        (rows : List Shown) → least_due x parts ≡ None →
        turn k x node sensed times Spot.Between parts rows ≡ Turned.Finished parts rows }
    ensures spent { (x node : ℕ) (sensed : Sensed) (times : Times) (parts : List Part)
        (part b pc : ℕ) (i : EInstr) (rows : List Shown) → part_instr parts part b pc ≡ Some i →
        turn 0 x node sensed times (Spot.In part b pc) parts rows ≡ Turned.Trapped Why.Budget }
{}

/// What leads in at most n instructions and then in at most m leads in at most n + m, and shows the
/// rows of both, one after the other.
pub fn adding()
    ensures { (x node n m : ℕ) (sensed : Sensed) (times : Times) (start middle end : Spot)
        (first second third : List Part) (rows more : List Shown) →
        Leads x node sensed times n start first middle second rows →
        Leads x node sensed times m middle second end third more →
        Leads x node sensed times (n + m) start first end third (rows ++ more) }
{}

/// A sweep: where each part of a node has its move in a phase and nothing of a lower phase is due,
/// the moves are made part by part, with the rows one after the other, in at most the sum of their
/// costs; nothing of the phase or of a lower one is due then.
pub fn sweeps()
    ensures { (x node phase : ℕ) (sensed : Sensed) (times : Times) (seen : PortKey → ℤ)
        (ns : List ℕ) (moves : List (Move x node sensed times phase (Sees seen ns))) →
        Sees seen ns (befores x node sensed times phase (Sees seen ns) moves) →
        NoneBelow x phase (befores x node sensed times phase (Sees seen ns) moves) →
        Ran x node sensed times phase (Sees seen ns) [] moves }
{}

/// A node all of whose parts have their moves in the four phases makes its turn without a trap, if
/// it has at least the sum of their costs declared, and shows their rows phase by phase.
pub fn whole_turn()
    ensures { (x node declared : ℕ) (sensed : Sensed) (times : Times) (seen : PortKey → ℤ)
        (ns : List ℕ) (s : FourSweeps x node sensed times seen ns) →
        swept_cost x node sensed times seen ns s ≤ declared →
        Finishes x node sensed times declared (swept_from x node sensed times seen ns s)
        (swept_to x node sensed times seen ns s) (swept_rows x node sensed times seen ns s) }
{}

/// A job that is ready at offset d of its cycle is done k microseconds later, with the outputs of
/// its body, where its windows cover at least its remaining time between the two offsets, and at
/// most one window of its module is live in each microsecond between.
pub fn covering()
    ensures { (h : Hosted) (t : TaskTable) (s : HostNow) (mode invocation left d k : ℕ)
        (cells : List ℤ) →
        s.mode ≡ Some mode → 0 < left → AtMostOneLive (s.base + d) k s h.windows →
        covered_by mode invocation d h.windows + left
        ≤ covered_by mode invocation (d + k) h.windows →
        slot_along k (s.base + d) s h.windows t (Slot.Ready mode invocation left cells)
        ≡ Slot.Done mode invocation (job_outputs t cells) }
{}

/// A job's windows of the processor are live where its module is in their mode and their time in
/// the cycle is on. Two live windows on a node are a clash, which ends the run at the next instant;
/// with one at most, each part runs by itself, and a part without a live window stays as it is.
pub fn microseconds()
    ensures open { (x : ℕ) (s : HostNow) (w : ImageWindow) → is_live x s w ≡ true → IsOpen x s w }
    ensures live { (x : ℕ) (s : HostNow) (w : ImageWindow) → IsOpen x s w → is_live x s w ≡ true }
    ensures clashes { (x : ℕ) (n : NodeNow) (v w : ImageWindow) (more : List ImageWindow) →
        flat_map (live x) n.parts ≡ v ∷ w ∷ more → micro x n ≡ None }
    ensures stops { (x horizon : ℕ) (sensed : Sensed) (times : Times) (lost : Lost) (s : System)
        (front back : List NodeNow) (n : NodeNow) → s.nodes ≡ front ++ n ∷ back → AllWalk x front →
        micro x n ≡ None → (next_instant horizon x sensed times lost s).now
        ≡ Now.Dead (length front) (suc x) Why.Clash }
    ensures alone { (x : ℕ) (n : NodeNow) → length (flat_map (live x) n.parts) ≤ 1 →
        MatchOption (micro x n) ⊥ (λ (after : NodeNow). after.parts ≡ map (run_part x) n.parts) }
    ensures rests { (x : ℕ) (p : Part) → live x p ≡ [] → run_part x p ≡ p }
{}

/// A release puts what its arguments are at that instant into the cells of its job, narrowed to the
/// kinds of the inputs, and the job runs on these cells: no microsecond reads an argument again.
/// It traps where the slot of its task has a job.
pub fn releases()
    ensures copies { (value : Code → ℤ) (times : Times) (h : Hosted) (s : HostNow) (pc i : ℕ)
        (r : ReleaseEntry) (c : CallEntry) (table : TaskTable) (u : TaskNow) →
        CanStart h s i r c table u → StartsJob value times h s pc i r c table u }
    ensures keeps { (k x : ℕ) (s : HostNow) (windows : List ImageWindow) (t : TaskTable)
        (mode invocation left : ℕ) (cells : List ℤ) →
        KeepsJob t mode invocation cells
        (slot_along k x s windows t (Slot.Ready mode invocation left cells)) }
    ensures busy { (value : Code → ℤ) (times : Times) (h : Hosted) (s : HostNow) (pc i : ℕ)
        (r : ReleaseEntry) (c : CallEntry) (table : TaskTable) (u : TaskNow) →
        slice_get h.releases i ≡ Some r → slice_get h.calls r.call ≡ Some c →
        slice_get h.tasks c.task ≡ Some table → slice_get s.tasks c.task ≡ Some u →
        (u.slot ≡ Slot.Idle → ⊥) → release_acts value times h s pc i ≡ Acted.Stop Why.Busy }
{}

/// Where its task ends, a done job's outputs are committed and shown, and the slot is idle then. A
/// job that is not done there is late: the turn traps.
pub fn ends()
    ensures commits { (x node : ℕ) (h : Hosted) (s : HostNow) (pc t mode invocation : ℕ)
        (outputs : List ℤ) (u : TaskNow) → slice_get s.tasks t ≡ Some u →
        u.slot ≡ Slot.Done mode invocation outputs → Commits x node h s pc t u outputs }
    ensures late { (x node k : ℕ) (sensed : Sensed) (times : Times) (front back : List Part)
        (h : Hosted) (s : HostNow) (b pc t mode invocation left : ℕ) (cells : List ℤ)
        (u : TaskNow) (rows : List Shown) →
        slice_get (code_at b (Part.Host h s)) pc ≡ Some (EInstr.End t) →
        slice_get s.tasks t ≡ Some u → u.slot ≡ Slot.Ready mode invocation left cells →
        turn (k + 1) x node sensed times (Spot.In (length front) b pc)
        (front ++ Part.Host h s ∷ back) rows ≡ Turned.Trapped Why.Late }
{}

/// A frame that leaves is of the mode that its module is in, so none is of a mode that was left.
pub fn frames()
    ensures { (x until i : ℕ) (h : Hosted) (s : HostNow) (frame : Frame) →
        slice_get (starts x (Part.Host h s)) i ≡ Some (Start.Sends frame until) →
        IsFrameOf h s frame }
{}

/// A frame that arrives leaves the outputs of each part. Of an executed job it goes into the entry
/// of the job's mode and invocation, which is due when its delta has passed and not before; of no
/// executed job it leaves the entries. Where an entry is taken, its copy becomes the outputs of its
/// task, and the other outputs stay.
pub fn arrivals()
    ensures stay { (x t : ℕ) (f : Frame) (p : Part) →
        part_outputs (part_received x f p) t ≡ part_outputs p t }
    ensures copied { (x : ℕ) (f : Frame) (e : Receive) (m : Member) (now : EntryNow) →
        IsForEntry f e m → (received x f e now).copy ≡ m.values }
    ensures due { (x : ℕ) (f : Frame) (e : Receive) (m : Member) (now : EntryNow) →
        IsForEntry f e m → is_at (x + e.delta) (received x f e now).due ≡ true }
    ensures not_before { (x y : ℕ) (f : Frame) (e : Receive) (now : EntryNow) →
        is_at y (received x f e now).due ≡ true → (is_at y now.due ≡ true) ⊎ (x + e.delta ≡ y) }
    ensures none { (x : ℕ) (f : Frame) (e : Receive) (now : EntryNow) →
        NoneExecuted f → received x f e now ≡ now }
    ensures taken { (x node pc r : ℕ) (p : Stub) (s : StubNow) (e : Receive) (now : EntryNow) →
        slice_get p.entries r ≡ Some e → slice_get s.entries r ≡ Some now →
        length p.tasks ≡ length s.outputs → is_numbered e.task p.tasks ≡ true →
        TakesEntry x node p s pc r e now }
{}
