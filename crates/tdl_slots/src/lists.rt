ghost use Rattle.std.specs.Prelude.{◌≡◌, ◌≤◌, ◌++◌, map, IfOk, OnOk};
ghost use Rattle.tdl_slots.specs.Choices.{let_of, spans_in, offsets_in, ends_of};

use crate::Chosen;
use std::alloc::Global;
use tdl_base::{Listed, NoMemory};

/// A logical execution time, in microseconds of the mode's cycle: from `start` to before `end`.
#[derive(Clone, Copy, Debug, PartialEq, Eq)]
pub struct Span {
    pub start: u64,
    pub end: u64,
}

impl<'a> Chosen<'a> {
    /// The logical execution times in order.
    pub fn spans(&self, alloc: Global) -> Result<Listed<Span>, NoMemory>
        ensures { IfOk result (λ spans. map let_of spans ≡ spans_in self.now) }
    {
        let mut spans = Listed::new(alloc);
        for number in 0..self.count() {
            let Some((first, last)) = self.range(number) else {
                return Ok(spans);
            };
            spans.push(Span {
                start: (first - 1) * self.width,
                end: last * self.width,
            })?;
        }
        Ok(spans)
    }

    /// Appends the ends of the slots from `first` to `last`.
    fn put_ends(&self, first: u64, last: u64, into: &mut Listed<u64>) -> Result<(), NoMemory>
        requires { last ≤ self.now.frequency }
        ensures { OnOk result (into.new ≡ into.old ++ ends_of self.now.width (first, last)) }
    {
        for slot in first..last + 1 {
            into.push(slot * self.width)?;
        }
        Ok(())
    }

    /// The offsets in order.
    pub fn offsets(&self, alloc: Global) -> Result<Listed<u64>, NoMemory>
        ensures { IfOk result (λ offsets. offsets ≡ offsets_in self.now) }
    {
        let mut offsets = Listed::new(alloc);
        for number in 0..self.count() {
            let Some((first, last)) = self.range(number) else {
                return Ok(offsets);
            };
            self.put_ends(first, last, &mut offsets)?;
        }
        Ok(offsets)
    }
}
