ghost use Rattle.std.specs.Prelude.{◌≡◌, option_map};
ghost use Rattle.tdl_rules.specs.Times as times;

use crate::{divides, is_in_ten_seconds};
use tdl_tree::{Act, Slots, Time};

/// The last slot of a range.
pub fn last_of(range: &Slots) -> u64
    ensures { result ≡ times.last_of range.now }
{
    match range.last {
        None => range.first.value,
        Some(last) => last.value,
    }
}

/// The first range that is not in order: each has its first slot from 1 on, its last not before
/// its first and not after the frequency, and stands above the range before it.
pub fn bad_range(frequency: u64, ranges: &[Slots]) -> Option<&Slots>
    ensures { option_map (λ range. range.now) result ≡ times.bad_range frequency 0 ranges.now }
{
    let mut before = 0;
    for range in ranges {
        let last = last_of(range);
        if !(before < range.first.value && range.first.value <= last && last <= frequency) {
            return Some(range);
        }
        before = last;
    }
    None
}

/// Whether an activity has occurrences in a mode of this period: its numbers and the period are
/// lawful.
pub fn occurs(period: &Time, act: &Act) -> bool
    ensures { result ≡ times.occurs (times.time_us period.now) act.now }
{
    is_in_ten_seconds(period)
        && divides(act.freq.value, period)
        && bad_range(act.freq.value, act.slots.as_slice()).is_none()
}
