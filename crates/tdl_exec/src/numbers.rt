ghost use Rattle.std.specs.Prelude.{◌≡◌, [], ◌∷◌, ◌<◌, ◌-◌, length, drop};
ghost use Rattle.tdl_stack.specs.Running.{newest};
ghost use Rattle.tdl_stack.specs.declared.limits.TheConstants.{STACK_NUMBERS};

use arrayvec::ArrayVec;
use std::marker::Model;
use tdl_stack::limits::STACK_NUMBERS;

/// The numbers on the stack of a code. Contracts see them as a list, the newest first.
#[derive(Drop)]
pub(crate) struct Numbers {
    numbers: ArrayVec<i64, STACK_NUMBERS>,
}

impl Model for Numbers {
    ghost use Rattle.std.specs.Prelude.{List, ℤ, reverse};

    ghost Value = { List ℤ };

    ghost view = { λ it. reverse it.numbers.items };
}

impl Numbers {
    pub(crate) fn new() -> Numbers
        ensures { result ≡ [] }
    {
        Numbers {
            numbers: ArrayVec::new(),
        }
    }

    pub(crate) fn push(&mut self, v: i64)
        requires { length self.old < STACK_NUMBERS }
        ensures { self.new ≡ v ∷ self.old }
    {
        self.numbers.push(v);
    }

    // Takes the newest number off; 0 where there is none.
    pub(crate) fn pop(&mut self) -> i64
        ensures number { result ≡ newest self.old }
        ensures rest { self.new ≡ drop 1 self.old }
        ensures fewer { length self.new ≡ length self.old - 1 }
    {
        self.numbers.pop().unwrap_or(0)
    }
}
