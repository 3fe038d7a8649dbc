ghost use Rattle.std.specs.Prelude.{◌≡◌, ◌≤◌, All, slice_index_or, pos, length, map, take};
ghost use Rattle.tdl_host.specs.CheckedCodes.{IsCheckedCode};
ghost use Rattle.tdl_host.specs.Hosts.{outer_at, value_at};

use crate::state::HostState;
use tdl_base::{PortKey, Us};
use tdl_exec::{View, run_expr};
use tdl_scen::{Sense, TaskTimes, sensed_value};
use tdl_stack::Code;

/// An instant, how long jobs take, and what is sensed.
#[derive(Clone, Copy)]
pub struct Scene<'a> {
    pub times: &'a [TaskTimes],
    pub senses: &'a [Sense],
    pub at: u32,
}

/// What the codes of a module read: its sensors at an instant, and its tasks' outputs.
#[derive(Clone, Copy)]
struct Seen<'a> {
    scene: Scene<'a>,
    state: &'a HostState<'a>,
}

impl View for Seen<'_> {
    ghost outer = { λ v. outer_at v.state.now.host v.state.now.now v.scene.senses.now v.scene.at };

    fn sensor(&self, number: u16) -> i64 {
        sensed_value(
            self.scene.senses,
            self.state.hosted().number,
            number,
            Us(u64::from(self.scene.at)),
        )
    }

    fn port(&self, key: &PortKey) -> i64 {
        if key.module != self.state.hosted().number {
            return 0;
        }
        number_at(self.state.outputs(key.task.0), usize::from(key.output))
    }
}

/// The number of a code of the module.
pub fn value(scene: Scene, state: &HostState, code: &Code) -> i64
    requires { IsCheckedCode code.now }
    ensures { result
        ≡ value_at state.now.host state.now.now scene.entry.senses.now scene.entry.at code.now }
{
    let seen = Seen { scene, state };
    run_expr(code, &seen)
}

fn number_at(numbers: &[i64], at: usize) -> i64
    ensures { result ≡ slice_index_or numbers.now at (pos 0) }
{
    numbers.get(at).copied().unwrap_or(0)
}

/// Puts the numbers of codes of the module, one after the other.
pub fn put_values(scene: Scene, state: &HostState, codes: &[Code], into: &mut [i64])
    requires codes { All IsCheckedCode codes.now }
    requires room { length codes.now ≤ length into.old }
    ensures count { length into.new ≡ length into.old }
    ensures values { take (length codes.now) into.new
        ≡ map (value_at state.now.host state.now.now scene.entry.senses.now scene.entry.at)
        codes.now }
{
    for (i, code) in codes.iter().enumerate() {
        into[i] = value(scene, state, code);
    }
}
