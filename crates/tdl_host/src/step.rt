ghost use Rattle.std.specs.Prelude.{◌≡◌, ◌+◌, ◌-◌, ◌<◌, ◌^◌, ℕ, zero, suc, length, List, [], ◌∷◌, filter, IfOk, OnOk, IfErr, OnSome};
ghost use Rattle.tdl_trace.specs.Shown.{Shown};
ghost use Rattle.tdl_trace.specs.declared.why.Why.TheVariants as why;
ghost use Rattle.tdl_scen.specs.declared.entries.Sense.{Sense};
ghost use Rattle.tdl_scen.specs.declared.entries.TaskTimes.{TaskTimes};
ghost use Rattle.tdl_verify.specs.States.{Part};
ghost use Rattle.tdl_verify.specs.Turns.{Turned, picked, part_instr};
ghost use Rattle.tdl_verify.specs.Runs.{is_plain};
ghost use Rattle.tdl_node.specs.Machines.{IsTrap};
ghost use Rattle.tdl_host.specs.CheckedCodes.{HasRoom};
ghost use Rattle.tdl_host.specs.Lasting.{AreLasting};
ghost use Rattle.tdl_host.specs.Hosts.{HasReleased, host_turn, spot_now, picked_by, after_step};

use crate::act::{Next, act};
use crate::seen::Scene;
use crate::state::HostState;
use tdl_ecode::EInstr;
use tdl_node::Stop;
use tdl_trace::{Rows, Why};

/// An index of a block.
#[derive(Clone, Copy, Debug, PartialEq, Eq)]
pub struct Place {
    pub block: u32,
    pub pc: usize,
}

/// Where a turn stands.
#[derive(Clone, Copy, Debug, PartialEq, Eq)]
pub enum Standing {
    /// Between two blocks.
    Between,
    /// In a block.
    At(Place),
}

/// What a turn does after a step.
#[derive(Clone, Copy, Debug, PartialEq, Eq)]
pub enum Stepped {
    /// It goes on.
    On(Standing),
    /// No trigger is due.
    Finished,
}

/// The place of the next instruction: that at which the turn stands, or the start of the due block.
fn pick(at: u32, state: &mut HostState, standing: Standing) -> Option<Place>
    ensures host { state.new.host ≡ state.old.host }
    ensures place { (go : ℕ → ℕ → ℕ → List Part → Turned) (rows : List Shown) →
        picked go at (Part.Host state.old.host state.old.now ∷ []) rows (spot_now standing)
        ≡ picked_by go state.old.host state.new.now rows result }
    ensures tasks { state.new.now.tasks ≡ state.old.now.tasks }
{
    match standing {
        Standing::At(place) => Some(place),
        Standing::Between => match state.take_due(at) {
            None => None,
            Some(block) => Some(Place { block, pc: 0 }),
        },
    }
}

fn fetch(state: &HostState, place: Place) -> Option<EInstr>
    ensures is { result
        ≡ part_instr (Part.Host state.now.host state.now.now ∷ []) 0 place.block place.pc }
    ensures within { OnSome result (place.pc + 1 < 2 ^ 64) }
{
    let Some(block) = state.hosted().blocks.get(place.block as usize) else {
        return None;
    };
    if place.pc >= block.code.len() {
        return None;
    }
    block.code.get(place.pc).copied()
}

/// One more instruction of a turn, or its end. The numbers are room for arguments.
pub fn step(
    scene: Scene,
    state: &mut HostState,
    standing: Standing,
    numbers: &mut [i64],
    rows: &mut Rows,
) -> Result<Stepped, Stop>
    requires lasting { AreLasting scene.times.now }
    requires room { HasRoom state.old.host (length numbers.old) }
    requires released { HasReleased (2 ^ 64 - 2) state.old.now }
    ensures host { state.new.host ≡ state.old.host }
    ensures room { length numbers.new ≡ length numbers.old }
    ensures ok { IfOk result
        (λ next. (n : ℕ) →
        host_turn (suc n) state.old.host scene.entry.times.now scene.entry.senses.now scene.entry.at
        (spot_now standing) state.old.now rows.old
        ≡ after_step n state.old.host scene.entry.times.now scene.entry.senses.now scene.entry.at
        state.new.now rows.new next) }
    ensures plain { OnOk result
        (filter is_plain rows.old ≡ rows.old → filter is_plain rows.new ≡ rows.new) }
    ensures released { OnOk result
        ((bound : ℕ) → HasReleased bound state.old.now → HasReleased (suc bound) state.new.now) }
    ensures trapped { IfErr result
        (IsTrap (λ reason. (n : ℕ) →
        host_turn (suc n) state.old.host scene.entry.times.now scene.entry.senses.now scene.entry.at
        (spot_now standing) state.old.now rows.old ≡ Turned.Trapped reason)) }
{
    let Some(place) = pick(scene.at, state, standing) else {
        return Ok(Stepped::Finished);
    };
    let Some(instr) = fetch(state, place) else {
        return Err(Stop::Trapped(Why::Lost));
    };
    let block = place.block;
    match act(scene, state, place.pc, instr, numbers, rows)? {
        Next::On(pc) => Ok(Stepped::On(Standing::At(Place { block, pc }))),
        Next::Over => Ok(Stepped::On(Standing::Between)),
    }
}

/// The end of a turn whose count is spent.
pub fn last(at: u32, state: &mut HostState, standing: Standing) -> Result<(), Stop>
    ensures host { state.new.host ≡ state.old.host }
    ensures ok { OnOk result
        ((rows : List Shown) (times : List TaskTimes) (senses : List Sense) →
        host_turn zero state.old.host times senses at (spot_now standing) state.old.now rows
        ≡ Turned.Finished (Part.Host state.old.host state.new.now ∷ []) (filter is_plain rows)) }
    ensures tasks { OnOk result (state.new.now.tasks ≡ state.old.now.tasks) }
    ensures trapped { IfErr result
        (IsTrap (λ reason. (rows : List Shown) (times : List TaskTimes) (senses : List Sense) →
        host_turn zero state.old.host times senses at (spot_now standing) state.old.now rows
        ≡ Turned.Trapped reason)) }
{
    let Some(place) = pick(at, state, standing) else {
        return Ok(());
    };
    match fetch(state, place) {
        None => Err(Stop::Trapped(Why::Lost)),
        Some(_) => Err(Stop::Trapped(Why::Budget)),
    }
}
