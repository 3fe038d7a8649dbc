ghost use Rattle.std.specs.Prelude.{◌≡◌, ◌≤◌, ◌⊎◌, ◌+◌};
ghost use Rattle.tdl_base.specs.declared.limits.TheConstants.{PERIOD_US};
ghost use Rattle.tdl_rules.specs.Times as times;

use tdl_base::limits::{FREQUENCY, LEAST_US, PERIOD_US};
use tdl_tree::{Time, Unit};

/// What a time above the greatest period is taken for, in microseconds.
const ABOVE: u64 = PERIOD_US + 1;

/// The microseconds of a unit.
fn scale(unit: Unit) -> u64
    ensures { result ≡ times.scale unit }
{
    match unit {
        Unit::Us => 1,
        Unit::Ms => 1_000,
        Unit::S => 1_000_000,
    }
}

/// A time in microseconds, or 10,000,001 where it is above ten seconds.
pub fn capped_us(time: &Time) -> u64
    ensures same { times.time_us time.now ≤ PERIOD_US → result ≡ times.time_us time.now }
    ensures capped { (times.time_us time.now ≤ PERIOD_US) ⊎ (result ≡ PERIOD_US + 1) }
{
    if time.number.value > PERIOD_US {
        return ABOVE;
    }
    let us = time.number.value * scale(time.unit);
    if us > PERIOD_US { ABOVE } else { us }
}

/// Whether a time is 1 us to 10 s.
pub fn is_in_ten_seconds(time: &Time) -> bool
    ensures { result ≡ times.in_ten_seconds (times.time_us time.now) }
{
    let us = capped_us(time);
    LEAST_US <= us && us <= PERIOD_US
}

/// Whether a frequency is lawful in a period, which may be of any length.
pub fn divides(frequency: u64, period: &Time) -> bool
    ensures { result ≡ times.divides frequency (times.time_us period.now) }
{
    1 <= frequency
        && frequency <= FREQUENCY
        && (u128::from(period.number.value) * u128::from(scale(period.unit)))
            % u128::from(frequency)
            == 0
}
