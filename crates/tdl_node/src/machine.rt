ghost use Rattle.std.specs.Prelude.{◌≡◌, ◌≤◌, ◌<◌, ℕ, suc, List, [], Bool, true, false, length, flat_map, map, nat_lt, OnOk, IfErr};
ghost use Rattle.tdl_base.specs.declared.numbers.TheConstants.{FIRST_NODE};
ghost use Rattle.tdl_base.specs.declared.limits.TheConstants.{HORIZON_US};
ghost use Rattle.tdl_scen.specs.Scenario.{course_of};
ghost use Rattle.tdl_verify.specs.States.{Part, Times};
ghost use Rattle.tdl_verify.specs.Turns.{Spot, Turned, turn};
ghost use Rattle.tdl_verify.specs.Micros.{live, run_part};
ghost use Rattle.tdl_trace.specs.declared.why.Why.TheVariants as why;
ghost use Rattle.tdl_node.specs.declared.machine.Stop.TheVariants.{NoMemory as NoMemoryStop};
ghost use Rattle.tdl_node.specs.Machines.{plain_turned, IsOffBus, IsTrap, IsTrapOf};

use std::alloc::Global;
use tdl_base::NoMemory;
use tdl_scen::Sense;
use tdl_trace::{Rows, Why};
use thiserror::Error;

/// Why a machine went no further.
#[derive(Clone, Copy, Debug, PartialEq, Eq, Error)]
pub enum Stop {
    #[error("a trap")]
    Trapped(Why),
    #[error("no memory")]
    NoMemory,
}

impl From<NoMemory> for Stop {
    ghost from_gives = { λ _ e. e ≡ NoMemoryStop };

    fn from(_refused: NoMemory) -> Stop {
        Stop::NoMemory
    }
}

/// A node: its E-machine and its processor, at one instant after the other.
pub trait Machine {
    /// The most instructions of one instant.
    ghost declared: { Self → ℕ };

    /// Its modules, each with its tables beside its state.
    ghost parts: { Self → List Part };

    /// How long its jobs take.
    ghost times: { Self → Times };

    /// Its numbers have room for all that it does from this instant on, up to the greatest horizon.
    ghost ready: { Self → ℕ → Type 0 };

    /// The E-machine's turn at an instant in microseconds: runs the due blocks and puts the rows
    /// that they make.
    fn turn(
        &mut self,
        alloc: Global,
        senses: &[Sense],
        at: u64,
        rows: &mut Rows,
    ) -> Result<(), Stop>
        requires empty { rows.old ≡ [] }
        requires instant { at ≤ HORIZON_US }
        requires ready { ready self.old at }
        ensures ok { OnOk result
            (plain_turned
            (turn (declared self.old) at FIRST_NODE.0 (course_of senses.now at) (times self.old)
            Spot.Between (parts self.old) []) ≡ Turned.Finished (parts self.new) rows.new) }
        ensures trapped { IfErr result
            (IsTrap (λ reason. turn (declared self.old) at FIRST_NODE.0 (course_of senses.now at)
            (times self.old) Spot.Between (parts self.old) [] ≡ Turned.Trapped reason)) }
        ensures later { OnOk result (ready self.new (suc at)) }
        ensures same_count { declared self.new ≡ declared self.old }
        ensures same_times { times self.new ≡ times self.old }
        ensures off_bus { OnOk result (IsOffBus (parts self.old) → IsOffBus (parts self.new)) };

    /// The microsecond of the processor that begins at an instant: the job of the live window
    /// works.
    fn micro(&mut self, alloc: Global, at: u64) -> Result<(), Stop>
        requires instant { at ≤ HORIZON_US }
        requires ready { ready self.old (suc at) }
        ensures apart { OnOk result
            (nat_lt 1 (length (flat_map (live at) (parts self.old))) ≡ false) }
        ensures ok { OnOk result (parts self.new ≡ map (run_part at) (parts self.old)) }
        ensures trapped { IfErr result
            (IsTrapOf why.Clash (nat_lt 1 (length (flat_map (live at) (parts self.old))) ≡ true)) }
        ensures later { OnOk result (ready self.new (suc at)) }
        ensures same_count { declared self.new ≡ declared self.old }
        ensures same_times { times self.new ≡ times self.old }
        ensures off_bus { OnOk result (IsOffBus (parts self.old) → IsOffBus (parts self.new)) };
}
