ghost use Rattle.std.specs.Prelude.{◌≡◌, ◌==◌, ◌+◌, ◌&&◌, ◌<◌, length, option_map, slice_get, unwrap_or};
ghost use Rattle.std.specs.Option.{option_copied};
ghost use Rattle.tdl_base.specs.Lists.{changed_at, numbered};
ghost use Rattle.tdl_base.specs.declared.kinds.Kind.TheVariants.{Long};
ghost use Rattle.tdl_body.specs.Values.{holds};
ghost use Rattle.tdl_mode.specs.Phases.{taken_update, update_value};
ghost use Rattle.tdl_logic.specs.Looks.{shown};
ghost use Rattle.tdl_logic.specs.Standing.{bare};

use crate::moment::Moment;
use crate::seen::Seen;
use tdl_base::{Kind, Listed, narrow};
use tdl_mode::{Module, Update};

// Whether an update of an actuator is taken now.
fn is_taken(moment: &Moment, seen: &Seen, actuator: usize, update: &Update) -> bool
    ensures { result ≡ (update.now.actuator == actuator
        && (moment.now.base.0 + update.now.at.0 == moment.now.at.0
        && holds update.now.guard (shown seen.now))) }
{
    usize::from(update.actuator) == actuator && moment.is_at(update.at) && seen.holds(&update.guard)
}

fn taken_update<'a>(moment: &Moment<'a>, seen: &Seen, actuator: usize) -> Option<&'a Update>
    ensures { option_copied result
        ≡ taken_update (bare moment.now) moment.now.at.0 (shown seen.now) actuator }
{
    moment
        .updates()
        .iter()
        .find(|update| is_taken(moment, seen, actuator, update))
}

fn actuator_kind(owner: &Module, actuator: usize) -> Kind
    ensures { result
        ≡ unwrap_or (option_map (λ p. p.kind) (slice_get owner.now.actuators actuator)) Long }
{
    match owner.actuators.get(actuator) {
        None => Kind::Long,
        Some(port) => port.kind,
    }
}

/// The number that an actuator takes now, or none.
pub(crate) fn update_value(moment: &Moment, seen: &Seen, actuator: usize) -> Option<i64>
    ensures { result ≡ update_value (bare moment.now) moment.now.at.0 (shown seen.now) actuator }
{
    match taken_update(moment, seen, actuator) {
        None => None,
        Some(update) => Some(narrow(
            actuator_kind(moment.module, actuator),
            seen.value(&update.value),
        )),
    }
}

// One actuator takes the number of its update, where one is taken now.
fn update_at(moment: &Moment, seen: &Seen, actuators: &mut Listed<i64>, actuator: usize)
    requires { actuator < length actuators.old }
    ensures { actuators.new ≡ changed_at actuator (λ v. unwrap_or
        (update_value (bare moment.now) moment.now.at.0 (shown seen.now) actuator) v)
        actuators.old }
{
    if let Some(v) = update_value(moment, seen, actuator) {
        actuators.set(actuator, v);
    }
}

/// Each actuator takes the number of its update, where one is taken now.
pub(crate) fn update(moment: &Moment, seen: &Seen, actuators: &mut Listed<i64>)
    ensures { actuators.new ≡ numbered 0 (λ a v.
        unwrap_or (update_value (bare moment.now) moment.now.at.0 (shown seen.now) a) v)
        actuators.old }
{
    for actuator in 0..actuators.len() {
        update_at(moment, seen, actuators, actuator);
    }
}
