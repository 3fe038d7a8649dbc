ghost use Rattle.std.specs.Prelude.{◌≡◌};
ghost use Rattle.tdl_scen.specs.Scenario.{course_of};

use crate::Sense;
use tdl_base::{ModuleId, Us};

/// What a sensor reads at an instant: the value of its last entry at or before it, and 0 where
/// there is none.
pub fn sensed_value(senses: &[Sense], owner: ModuleId, sensor: u16, at: Us) -> i64
    ensures { result ≡ course_of senses.now at.0 owner.0 sensor }
{
    let mut value = 0;
    for entry in senses {
        if entry.module == owner && entry.sensor == sensor && entry.at.0 <= at.0 {
            value = entry.value;
        }
    }
    value
}
