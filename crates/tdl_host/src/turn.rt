ghost use Rattle.std.specs.Prelude.{◌≡◌, ◌≤◌, ◌*◌, ◌^◌, suc, length, [], ◌∷◌, OnOk, IfErr};
ghost use Rattle.tdl_base.specs.declared.limits.TheConstants.{HORIZON_US};
ghost use Rattle.tdl_verify.specs.States.{Part};
ghost use Rattle.tdl_verify.specs.Turns.{Turned, Spot};
ghost use Rattle.tdl_node.specs.Machines.{IsTrap};
ghost use Rattle.tdl_host.specs.CheckedCodes.{HasRoom};
ghost use Rattle.tdl_host.specs.Lasting.{AreLasting};
ghost use Rattle.tdl_host.specs.Hosts.{HasReleased, host_turn};

use crate::seen::Scene;
use crate::state::HostState;
use crate::step::{Standing, Stepped, last, step};
use tdl_node::Stop;
use tdl_trace::Rows;

/// A turn of the module: runs the due blocks, and puts the rows that they make. The numbers are
/// room for arguments.
pub fn run_turn(
    scene: Scene,
    declared: u32,
    state: &mut HostState,
    numbers: &mut [i64],
    rows: &mut Rows,
) -> Result<(), Stop>
    requires empty { rows.old ≡ [] }
    requires instant { scene.at ≤ HORIZON_US }
    requires lasting { AreLasting scene.times.now }
    requires room { HasRoom state.old.host (length numbers.old) }
    requires released { HasReleased (scene.at * 2 ^ 32) state.old.now }
    ensures host { state.new.host ≡ state.old.host }
    ensures room { length numbers.new ≡ length numbers.old }
    ensures ok { OnOk result
        (host_turn declared state.old.host scene.entry.times.now scene.entry.senses.now
        scene.entry.at Spot.Between state.old.now []
        ≡ Turned.Finished (Part.Host state.old.host state.new.now ∷ []) rows.new) }
    ensures released { OnOk result (HasReleased (suc scene.entry.at * 2 ^ 32) state.new.now) }
    ensures trapped { IfErr result
        (IsTrap (λ reason. host_turn declared state.old.host scene.entry.times.now
        scene.entry.senses.now scene.entry.at Spot.Between state.old.now []
        ≡ Turned.Trapped reason)) }
{
    let mut standing = Standing::Between;
    for _done in 0..declared {
        match step(scene, state, standing, numbers, rows)? {
            Stepped::Finished => return Ok(()),
            Stepped::On(next) => standing = next,
        }
    }
    last(scene.at, state, standing)
}
