//! The phases of an instant, each over all modules.
ghost use Rattle.std.specs.Prelude.{◌≡◌, ◌<◌, ◌^◌, length, map};
ghost use Rattle.tdl_base.specs.Sensed.{sensed_at};
ghost use Rattle.tdl_mode.specs.Phases.{phase_one, phase_two, phase_three, phase_four};
ghost use Rattle.tdl_mode.specs.Instants.{for_all};
ghost use Rattle.tdl_logic.specs.Releases.{definitions_of};
ghost use Rattle.tdl_logic.specs.Wholes.{all_standing, IsWhole, AllHaveArguments};

use crate::module_now::ModuleNow;
use crate::moment::Moment;
use crate::release::release_each;
use crate::seen::Seen;
use crate::tasks::Tasks;
use tdl_base::{ModuleId, Sensed, Us};
use tdl_mode::Module;

// The module of a place.
fn module_at(place: usize) -> ModuleId
    requires { place < 2 ^ 16 }
    ensures { result.0 ≡ place }
{
    ModuleId(place as u16)
}

/// 1. Termination.
pub(crate) fn end_all(modules: &[Module], nows: &[ModuleNow], tasks: &mut [Tasks], at: Us)
    requires { IsWhole modules.now nows.now tasks.old }
    ensures states { all_standing modules.now nows.now tasks.new
        ≡ map (phase_one at.0) (all_standing modules.now nows.now tasks.old) }
    ensures definitions { definitions_of tasks.new ≡ definitions_of tasks.old }
{
    for place in 0..modules.len() {
        let now = &nows[place];
        let moment = Moment {
            module: &modules[place],
            mode: now.cycle.mode,
            base: now.cycle.base,
            at,
        };
        let own = &mut tasks[place];
        own.end(&moment);
    }
}

/// 2. Update.
pub(crate) fn update_all(
    modules: &[Module],
    nows: &mut [ModuleNow],
    tasks: &[Tasks],
    sensed: &Sensed,
    at: Us,
)
    requires { IsWhole modules.now nows.old tasks.now }
    ensures { all_standing modules.now nows.new tasks.now ≡ for_all (phase_two at.0)
        (sensed_at sensed.now) (all_standing modules.now nows.old tasks.now) }
{
    for place in 0..modules.len() {
        let seen = Seen {
            module: module_at(place),
            sensed,
            tasks,
        };
        let now = &mut nows[place];
        now.update(&modules[place], &seen, at);
    }
}

/// 3. Mode switch.
pub(crate) fn turn_all(
    modules: &[Module],
    nows: &mut [ModuleNow],
    tasks: &[Tasks],
    sensed: &Sensed,
    at: Us,
)
    requires { IsWhole modules.now nows.old tasks.now }
    ensures { all_standing modules.now nows.new tasks.now ≡ for_all (phase_three at.0)
        (sensed_at sensed.now) (all_standing modules.now nows.old tasks.now) }
{
    for place in 0..modules.len() {
        let seen = Seen {
            module: module_at(place),
            sensed,
            tasks,
        };
        let now = &mut nows[place];
        now.turn(&modules[place], &seen, at);
    }
}

/// 4. Release. The numbers are room for the arguments of an invocation.
pub(crate) fn release_all(
    modules: &[Module],
    nows: &[ModuleNow],
    tasks: &mut [Tasks],
    sensed: &Sensed,
    at: Us,
    numbers: &mut [i64],
)
    requires whole { IsWhole modules.now nows.now tasks.old }
    requires arguments { AllHaveArguments modules.now nows.now tasks.old (length numbers.old) }
    ensures states { all_standing modules.now nows.now tasks.new ≡ for_all (phase_four at.0)
        (sensed_at sensed.now) (all_standing modules.now nows.now tasks.old) }
    ensures definitions { definitions_of tasks.new ≡ definitions_of tasks.old }
{
    for place in 0..modules.len() {
        let now = &nows[place];
        let moment = Moment {
            module: &modules[place],
            mode: now.cycle.mode,
            base: now.cycle.base,
            at,
        };
        release_each(&moment, module_at(place), sensed, tasks, numbers);
    }
}
