ghost use Rattle.std.specs.Prelude.{◌≡◌, ◌≤◌, IfSome, length, slice_get};
ghost use Rattle.std.specs.List.{list_any};
ghost use Rattle.tdl_rules.specs.ModeRules.{cuts};
ghost use Rattle.tdl_rules.specs.Times as times;
ghost use Rattle.tdl_slots.specs.Choices.{ranges_in, spans_in, offsets_in, ends_of};

use crate::{Chosen, OnOffset, OnSpan};
use tdl_times::{capped_us, last_of, occurs};
use tdl_tree::{Act, Time};

/// The slots that an activity chooses in a mode of this period.
pub fn chosen_by<'a>(period: &Time, act: &'a Act) -> Chosen<'a>
    ensures spans { spans_in result ≡ times.lets (times.time_us period.now) act.now }
    ensures offsets { offsets_in result ≡ times.times (times.time_us period.now) act.now }
{
    if !occurs(period, act) {
        return Chosen {
            width: 0,
            frequency: 0,
            slots: &[],
        };
    }
    Chosen {
        width: capped_us(period) / act.freq.value,
        frequency: act.freq.value,
        slots: act.slots.as_slice(),
    }
}

/// Whether an offset stands inside a logical execution time.
#[derive(Drop)]
struct Inside {
    offset: u64,
}

impl OnSpan for Inside {
    ghost use Rattle.std.specs.Prelude.{◌&&◌, nat_lt};

    ghost passes = { λ it span. nat_lt span.s it.offset && nat_lt it.offset span.e };

    fn test(&self, start: u64, end: u64) -> bool {
        start < self.offset && self.offset < end
    }
}

impl<'a> Chosen<'a> {
    /// How many ranges there are.
    pub(crate) fn count(&self) -> u64
        ensures { result ≡ length (ranges_in self.now) }
    {
        if self.slots.len() == 0 {
            self.frequency
        } else {
            self.slots.len() as u64
        }
    }

    /// A range by its number from 0: its first slot and its last, which count from 1.
    pub(crate) fn range(&self, number: u64) -> Option<(u64, u64)>
        ensures value { result ≡ slice_get (ranges_in self.now) number }
        ensures within { IfSome result (λ range. (1 ≤ range.0) × (range.0 ≤ range.1) ×
            (range.1 ≤ self.now.frequency)) }
    {
        if self.slots.len() == 0 {
            return if number < self.frequency {
                Some((number + 1, number + 1))
            } else {
                None
            };
        }
        match self.slots.get(number as usize) {
            None => None,
            Some(range) => Some((range.first.value, last_of(range))),
        }
    }

    /// Whether a logical execution time passes.
    pub fn any_span<R: OnSpan>(&self, rule: &R) -> bool
        ensures { result ≡ list_any (R.passes rule.now) (spans_in self.now) }
    {
        for number in 0..self.count() {
            let Some((first, last)) = self.range(number) else {
                return false;
            };
            if rule.test((first - 1) * self.width, last * self.width) {
                return true;
            }
        }
        false
    }

    /// Whether the end of one of the slots from `first` to `last` passes.
    fn any_end<R: OnOffset>(&self, rule: &R, first: u64, last: u64) -> bool
        requires { last ≤ self.now.frequency }
        ensures { result ≡ list_any (R.passes rule.now) (ends_of self.now.width (first, last)) }
    {
        for slot in first..last + 1 {
            if rule.test(slot * self.width) {
                return true;
            }
        }
        false
    }

    /// Whether an offset passes.
    pub fn any_offset<R: OnOffset>(&self, rule: &R) -> bool
        ensures { result ≡ list_any (R.passes rule.now) (offsets_in self.now) }
    {
        for number in 0..self.count() {
            let Some((first, last)) = self.range(number) else {
                return false;
            };
            if self.any_end(rule, first, last) {
                return true;
            }
        }
        false
    }

    /// Whether an offset stands inside a logical execution time, and not at its start or end.
    pub fn is_inside(&self, offset: u64) -> bool
        ensures { result ≡ cuts (spans_in self.now) offset }
    {
        if self.slots.len() != 0 {
            return self.any_span(&Inside { offset });
        }
        if self.width == 0 {
            return false;
        }
        if offset >= self.frequency * self.width {
            return false;
        }
        offset % self.width != 0
    }
}
