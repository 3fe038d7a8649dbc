ghost use Rattle.std.specs.Prelude.{◌≡◌, ◌==◌, ◌+◌, ◌&&◌, option_map};
ghost use Rattle.std.specs.Option.{option_copied};
ghost use Rattle.tdl_body.specs.Values.{holds};
ghost use Rattle.tdl_mode.specs.Phases.{phase_three, switch_target, is_over};
ghost use Rattle.tdl_logic.specs.Looks.{shown};
ghost use Rattle.tdl_logic.specs.Standing.{bare, in_cycle};

use crate::moment::Moment;
use crate::seen::Seen;
use tdl_base::{ModeId, Us};
use tdl_mode::Switch;

/// A mode, and when its present cycle began.
#[derive(Clone, Copy, Debug, PartialEq, Eq)]
pub(crate) struct Cycle {
    pub mode: ModeId,
    pub base: Us,
}

fn is_taken(moment: &Moment, seen: &Seen, switch: &Switch) -> bool
    ensures { result ≡ (moment.now.base.0 + switch.now.at.0 == moment.now.at.0
        && holds switch.now.guard (shown seen.now)) }
{
    moment.is_at(switch.at) && seen.holds(&switch.guard)
}

// The mode that is switched to now.
fn target(moment: &Moment, seen: &Seen) -> Option<ModeId>
    ensures { option_map (λ mode. mode.0) result
        ≡ switch_target (bare moment.now) moment.now.at.0 (shown seen.now) }
{
    let taken = moment
        .switches()
        .iter()
        .find(|switch| is_taken(moment, seen, switch));
    match taken {
        None => None,
        Some(switch) => Some(switch.target),
    }
}

// Whether the period of the present cycle ends now.
fn is_over(moment: &Moment) -> bool
    ensures { result ≡ is_over (bare moment.now) moment.now.at.0 }
{
    match moment.present() {
        None => false,
        Some(mode) => moment.is_at(mode.period),
    }
}

/// The cycle after a switch or the end of the period, where one of them is now.
pub(crate) fn turned(moment: &Moment, seen: &Seen) -> Cycle
    ensures { in_cycle result (bare moment.now)
        ≡ phase_three moment.now.at.0 (shown seen.now) (bare moment.now) }
{
    if let Some(mode) = target(moment, seen) {
        return Cycle {
            mode,
            base: moment.at,
        };
    }
    let base = if is_over(moment) {
        moment.at
    } else {
        moment.base
    };
    Cycle {
        mode: moment.mode,
        base,
    }
}
