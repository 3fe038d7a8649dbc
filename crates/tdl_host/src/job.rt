ghost use Rattle.std.specs.Prelude.{◌≡◌, ◌<◌, ◌∷◌, [], Some, None, IsSome};
ghost use Rattle.tdl_verify.specs.Micros.{worked, slot_run};
ghost use Rattle.tdl_host.specs.CheckedCodes.{IsCheckedTask, cells_of_table};
ghost use Rattle.tdl_host.specs.Hosts.{IsSlotOf, slot_now};

use std::mem;
use tdl_image::{ImageWindow, TaskTable};
use tdl_task::{Ran, Ready, Slot};

/// Takes a slot in hand, to put the next one in its place.
pub fn take(slot: &mut Option<Slot>) -> Slot
    requires { IsSome slot.old }
    ensures was { slot.old ≡ Some result }
    ensures left { slot.new ≡ None }
{
    let Some(slot) = slot.take() else {
        unreachable!();
    };
    slot
}

/// Puts a slot in its place.
pub fn put(place: &mut Option<Slot>, slot: Slot)
    requires { place.old ≡ None }
    ensures { place.new ≡ Some slot }
{
    match mem::replace(place, Some(slot)) {
        None => {}
        Some(_) => unreachable!(),
    }
}

// A job after a microsecond in which it works: at its last one its body is run, and it is done.
fn worked(ready: Ready, table: &TaskTable) -> Slot
    requires checked { IsCheckedTask table.now }
    requires cells { ready.held.task ≡ cells_of_table table.now }
    requires left { 0 < ready.remaining }
    ensures slot { IsSlotOf (cells_of_table table.now) result }
    ensures now { slot_now (Some result)
        ≡ worked table.now ready.job.mode.0 ready.job.invocation ready.remaining
        ready.held.values }
{
    match ready.run(1, &table.body) {
        Ran::Still(ready) => Slot::Ready(ready),
        Ran::Done(done) => Slot::Done(done),
    }
}

/// A slot after a microsecond in which one window is live: the window's job works.
pub fn slot_after(slot: Slot, table: &TaskTable, window: &ImageWindow) -> Slot
    requires checked { IsCheckedTask table.now }
    requires slot { IsSlotOf (cells_of_table table.now) slot }
    ensures slot { IsSlotOf (cells_of_table table.now) result }
    ensures now { slot_now (Some result)
        ≡ slot_run (window.now ∷ []) table.now (slot_now (Some slot)) }
{
    match slot {
        Slot::Ready(ready) => {
            let job = ready.job();
            if window.mode != job.mode.0 || window.invocation != job.invocation {
                return Slot::Ready(ready);
            }
            worked(ready, table)
        }
        other => other,
    }
}
