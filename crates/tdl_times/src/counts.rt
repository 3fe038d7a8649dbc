ghost use Rattle.std.specs.Prelude.{◌≡◌, ◌+◌, ◌-◌, suc, length, min};
ghost use Rattle.tdl_base.specs.declared.limits.TheConstants.{OCCURRENCES};
ghost use Rattle.tdl_rules.specs.Times as times;
ghost use Rattle.tdl_times.specs.Counts as counts;

use crate::{last_of, occurs};
use tdl_base::limits::OCCURRENCES;
use tdl_tree::{Act, Slots, Time};

/// What more occurrences than a program may have are taken for.
const ABOVE: u64 = OCCURRENCES as u64 + 1;

/// The lesser of a number and one above the most occurrences.
fn capped(count: u64) -> u64
    ensures { result ≡ min count (OCCURRENCES + 1) }
{
    if count < ABOVE { count } else { ABOVE }
}

/// How many slots a range has, or 16,385 where they are above the most.
fn slots_of(range: &Slots) -> u64
    ensures { result
        ≡ min (suc (times.last_of range.now) - range.now.first.value) (OCCURRENCES + 1) }
{
    let last = last_of(range);
    if last < range.first.value {
        return 0;
    }
    capped(capped(last - range.first.value) + 1)
}

/// How many slots the ranges choose, or 16,385 where they are above the most.
fn chosen(ranges: &[Slots]) -> u64
    ensures { result ≡ min (counts.chosen ranges.now) (OCCURRENCES + 1) }
{
    let mut count = 0;
    for range in ranges {
        count = capped(count + slots_of(range));
    }
    count
}

/// How many logical execution times a task activity has in a mode of this period, or 16,385 where
/// they are more than that.
pub fn let_count(period: &Time, act: &Act) -> u64
    ensures { result
        ≡ min (length (times.lets (times.time_us period.now) act.now)) (OCCURRENCES + 1) }
{
    if !occurs(period, act) {
        return 0;
    }
    if act.slots.len() == 0 {
        return capped(act.freq.value);
    }
    capped(act.slots.len() as u64)
}

/// How often an update or a switch occurs in a mode of this period, or 16,385 where it is more
/// often than that.
pub fn time_count(period: &Time, act: &Act) -> u64
    ensures { result
        ≡ min (length (times.times (times.time_us period.now) act.now)) (OCCURRENCES + 1) }
{
    if !occurs(period, act) {
        return 0;
    }
    if act.slots.len() == 0 {
        return capped(act.freq.value);
    }
    chosen(act.slots.as_slice())
}
