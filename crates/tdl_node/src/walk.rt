ghost use Rattle.std.specs.Prelude.{◌≡◌, ◌≤◌, ◌<◌, suc, OnOk, OnErr, IfOk, IfErr, IsErrOf};
ghost use Rattle.tdl_base.specs.declared.limits.TheConstants.{HORIZON_US};
ghost use Rattle.tdl_io.specs.Outside.{Appends, AppendsPart, Rose};
ghost use Rattle.tdl_scen.specs.Scenario.{course_of};
ghost use Rattle.tdl_scen.specs.Senses.{AreInOrder, IsUpTo};
ghost use Rattle.tdl_verify.specs.Turns.{Turned};
ghost use Rattle.tdl_verify.specs.Runs.{IsAlive};
ghost use Rattle.tdl_node.specs.Machines.{IsOffBus, IsBegun, IsTrap};
ghost use Rattle.tdl_node.specs.Steps.{turned_at, micro_and_turn, run_of, run_text, IsTrapFault, IsDeadFor};

use crate::{Machine, NodeFault, Stop};
use std::alloc::Global;
use tdl_image::Bundle;
use tdl_io::Sink;
use tdl_scen::{Sense, Senses};
use tdl_trace::{Names, Rows, print_rows};

// The E-machine's turn at an instant, and the rows that it makes.
fn turn<M: Machine>(
    alloc: Global,
    machine: &mut M,
    senses: &[Sense],
    sensed: &mut Senses,
    at: u64,
) -> Result<Rows, Stop>
    requires order { AreInOrder senses.now }
    requires up_to { IsUpTo senses.now at sensed.old }
    requires instant { at ≤ HORIZON_US }
    requires ready { M.ready machine.old at }
    ensures ok { IfOk result
        (λ rows. turned_at (M.declared machine.old) (course_of senses.now at) (M.times machine.old)
        at (M.parts machine.old) ≡ Turned.Finished (M.parts machine.new) rows) }
    ensures trapped { IfErr result
        (IsTrap (λ reason. turned_at (M.declared machine.old) (course_of senses.now at)
        (M.times machine.old) at (M.parts machine.old) ≡ Turned.Trapped reason)) }
    ensures up_to { OnOk result (IsUpTo senses.now at sensed.new) }
    ensures later { OnOk result (M.ready machine.new (suc at)) }
    ensures same_count { M.declared machine.new ≡ M.declared machine.old }
    ensures same_times { M.times machine.new ≡ M.times machine.old }
    ensures off_bus { OnOk result
        (IsOffBus (M.parts machine.old) → IsOffBus (M.parts machine.new)) }
{
    let mut rows = Rows::new(alloc);
    sensed.go_to(senses, at)?;
    machine.turn(alloc, sensed.latest(), at, &mut rows)?;
    Ok(rows)
}

// The microsecond that begins at `from` and the turn after it, and the rows that it makes.
fn step<M: Machine>(
    alloc: Global,
    machine: &mut M,
    senses: &[Sense],
    sensed: &mut Senses,
    from: u64,
) -> Result<Rows, Stop>
    requires order { AreInOrder senses.now }
    requires up_to { IsUpTo senses.now from sensed.old }
    requires instant { from < HORIZON_US }
    requires ready { M.ready machine.old (suc from) }
    ensures ok { IfOk result
        (λ rows. micro_and_turn (M.declared machine.old) (course_of senses.now (suc from))
        (M.times machine.old) from (M.parts machine.old)
        ≡ Turned.Finished (M.parts machine.new) rows) }
    ensures trapped { IfErr result
        (IsTrap (λ reason. micro_and_turn (M.declared machine.old)
        (course_of senses.now (suc from)) (M.times machine.old) from (M.parts machine.old)
        ≡ Turned.Trapped reason)) }
    ensures up_to { OnOk result (IsUpTo senses.now (suc from) sensed.new) }
    ensures later { OnOk result (M.ready machine.new (suc (suc from))) }
    ensures same_count { M.declared machine.new ≡ M.declared machine.old }
    ensures same_times { M.times machine.new ≡ M.times machine.old }
    ensures off_bus { OnOk result
        (IsOffBus (M.parts machine.old) → IsOffBus (M.parts machine.new)) }
{
    machine.micro(alloc, from)?;
    turn(alloc, machine, senses, sensed, from + 1)
}

/// Runs the machine of a bundle up to the horizon in microseconds and with it, and puts the line
/// of each row. After a fault the sink holds a first part of the lines.
pub fn run<M: Machine, O: Sink>(
    alloc: Global,
    bundle: &Bundle,
    names: &Names,
    machine: &mut M,
    senses: &[Sense],
    horizon: u64,
    out: &mut O,
) -> Result<(), NodeFault>
    requires order { AreInOrder senses.now }
    requires begun { IsBegun bundle.now (M.declared machine.old) (M.parts machine.old) }
    requires ready { M.ready machine.old 0 }
    requires off_bus { IsOffBus (M.parts machine.old) }
    requires end { horizon ≤ HORIZON_US }
    ensures ok { OnOk result
        (Appends (O.told out.old).contents (O.told out.new).contents
        (run_text names.now (run_of bundle.now horizon senses.now (M.times machine.old)))) }
    ensures err { OnErr result
        (AppendsPart (O.told out.old).contents (O.told out.new).contents
        (run_text names.now (run_of bundle.now horizon senses.now (M.times machine.old)))) }
    ensures alive { OnOk result
        (IsAlive (run_of bundle.now horizon senses.now (M.times machine.old)).now) }
    ensures trapped { IfErr result
        (IsTrapFault (λ reason. IsAlive
        (run_of bundle.now horizon senses.now (M.times machine.old)).now → ⊥)) }
    ensures reason { IfErr result
        (IsTrapFault (IsDeadFor (run_of bundle.now horizon senses.now (M.times machine.old)).now)) }
    ensures later { (O.told out.old).faults ≤ (O.told out.new).faults }
    ensures cause { IsErrOf result NodeFault.WriteFailed →
        Rose (O.told out.old).faults (O.told out.new).faults }
{
    let mut sensed = Senses::new(alloc);
    let first = turn(alloc, machine, senses, &mut sensed, 0)?;
    print_rows(alloc, &first, names, out)?;
    for from in 0..horizon {
        let rows = step(alloc, machine, senses, &mut sensed, from)?;
        print_rows(alloc, &rows, names, out)?;
    }
    Ok(())
}
