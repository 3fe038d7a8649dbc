ghost use Rattle.std.specs.Prelude.{◌≡◌, slice_get};
ghost use Rattle.tdl_base.specs.Cells.{Cells};
ghost use Rattle.tdl_stack.specs.Running.{Outer, newest};
ghost use Rattle.tdl_exec.specs.Going.{IsChecked, begun, end_of, IsAtEnd, IsGoing, IsStep, going};

use crate::View;
use crate::cells::CellStore;
use crate::numbers::Numbers;
use crate::repetitions::{Repetition, Repetitions};
use crate::step::{Next, step};
use tdl_stack::Instr;

/// A code that is run: the next `left` instructions from a place on, then the repetitions under
/// way; and the stack.
#[derive(Drop)]
pub(crate) struct Run<'a> {
    code: &'a [Instr],
    place: usize,
    left: usize,
    under_way: Repetitions,
    stack: Numbers,
}

impl<'a> Run<'a> {
    /// A whole code that begins.
    pub(crate) fn new(code: &'a [Instr]) -> Run<'a>
        ensures { (cells : Cells) → going result cells ≡ begun code.entry.now cells }
    {
        Run {
            code,
            place: 0,
            left: code.len(),
            under_way: Repetitions::new(),
            stack: Numbers::new(),
        }
    }

    /// Runs to the end.
    pub(crate) fn finish<V: View, C: CellStore>(&mut self, view: &V, cells: &mut C)
        requires { IsGoing (going self.old (C.cells cells.old)) }
        ensures { (going self.new (C.cells cells.new)).state
            ≡ end_of (V.outer view.now) (going self.old (C.cells cells.old)) }
    {
        while self.go_on(view, cells) {}
    }

    /// The newest number; 0 where there is none.
    pub(crate) fn into_number(self) -> i64
        ensures { result ≡ newest self.entry.stack }
    {
        let Run {
            code: _,
            place: _,
            left: _,
            under_way: _,
            mut stack,
        } = self;
        stack.pop()
    }

    /// Does the next instruction, or goes on with the innermost repetition. False where all is
    /// done.
    fn go_on<V: View, C: CellStore>(&mut self, view: &V, cells: &mut C) -> bool
        requires { IsGoing (going self.old (C.cells cells.old)) }
        ensures step { IsStep (V.outer view.now) (going self.old (C.cells cells.old))
            (going self.new (C.cells cells.new)) result }
        ensures going { IsGoing (going self.new (C.cells cells.new)) }
    {
        if self.left == 0 {
            return self.repeat();
        }
        let Some(instr) = instr_at(self.code, self.place) else {
            return false;
        };
        match step(instr, view, &mut self.stack, cells) {
            Next::Skip(count) => {
                self.place += 1 + count;
                self.left -= 1 + count;
            }
            Next::Repeat(times, count) => {
                self.under_way.push(Repetition {
                    begin: self.place + 1,
                    left: self.left - 1,
                    count,
                    times,
                });
                self.place += 1 + count;
                self.left = 0;
            }
        }
        true
    }

    /// Begins the next turn of the innermost repetition, or goes on after it after its last one.
    /// False where no repetition is under way.
    fn repeat(&mut self) -> bool
        requires end { self.old.left ≡ 0 }
        requires going { (cells : Cells) × IsGoing (going self.old cells) }
        ensures step { (outer : Outer) (cells : Cells) →
            IsStep outer (going self.old cells) (going self.new cells) result }
        ensures going { (cells : Cells) → IsGoing (going self.new cells) }
    {
        let Some(repetition) = self.under_way.pop() else {
            return false;
        };
        let Repetition {
            begin,
            left,
            count,
            times,
        } = repetition;
        if times == 0 {
            self.place = begin + count;
            self.left = left - count;
            return true;
        }
        self.under_way.push(Repetition {
            times: times - 1,
            ..repetition
        });
        self.place = begin;
        self.left = count;
        true
    }
}

fn instr_at(code: &[Instr], place: usize) -> Option<Instr>
    ensures { result ≡ slice_get code.now place }
{
    code.get(place).copied()
}
