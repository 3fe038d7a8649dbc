ghost use Rattle.std.specs.Prelude.{◌≡◌, ◌↔◌, ◌+◌, ◌<◌, ◌^◌, IsTrue, IsFalse};
ghost use Rattle.std.specs.Bool.{OnTrue, OnFalse};
ghost use Rattle.tdl_stack.specs.Counting.{no_count, after_bodies, counted, CountsAt, Counts};

use crate::Instr;
use crate::bodies::{OpenBodies, OpenBody};
use crate::limits::{CODE_COST, NESTED_BODIES};
use std::marker::Model;

/// Where counting stands: at a place, which is come to so often, and what the places before it
/// cost.
#[derive(Drop)]
pub(crate) struct Counter {
    place: usize,
    turns: u64,
    cost: u64,
    bodies: OpenBodies,
}

impl Model for Counter {
    ghost use Rattle.tdl_stack.specs.Counting.{Count};

    ghost Value = { Count };

    ghost view = { λ c. record {
      place = c.place;
      turns = c.turns;
      cost = c.cost;
      open_bodies = c.bodies;
    } };
}

impl Counter {
    fn new() -> Counter
        ensures { result ≡ no_count }
    {
        Counter {
            place: 0,
            turns: 1,
            cost: 0,
            bodies: OpenBodies::new(),
        }
    }

    // Closes the bodies that end at the place.
    fn close(&mut self)
        ensures bodies { self.new ≡ after_bodies self.old }
        ensures place { self.new.place ≡ self.old.place }
    {
        while let Some(body) = self.bodies.pop() {
            if self.place < body.end {
                self.bodies.push(body);
                return;
            }
            self.turns = body.turns_outside;
        }
    }

    // Counts an instruction after the bodies are closed; false where it cannot be counted.
    fn count(&mut self, i: &Instr) -> bool
        requires { self.old.place < 2 ^ 63 }
        ensures counts { IsTrue result ↔ CountsAt i.now self.old }
        ensures next { OnTrue result (self.new ≡ counted i.now self.old) }
        ensures place { OnTrue result (self.new.place ≡ self.old.place + 1) }
    {
        let Some(cost) = self.cost.checked_add(self.turns) else {
            return false;
        };
        if cost > CODE_COST {
            return false;
        }
        if let Instr::Rep(times, n) = *i {
            if self.bodies.len() >= NESTED_BODIES {
                return false;
            }
            self.bodies.push(OpenBody {
                end: self.place + n as usize + 1,
                turns_outside: self.turns,
            });
            self.turns *= u64::from(times);
        }
        self.cost = cost;
        self.place += 1;
        true
    }
}

// Whether the bodies that stand in one another are few enough, and the cost is small enough.
pub(crate) fn is_countable(code: &[Instr]) -> bool
    ensures { IsTrue result ↔ Counts no_count code.now }
{
    let mut counter = Counter::new();
    let mut left = code;
    while let [first, rest @ ..] = left {
        counter.close();
        if !counter.count(first) {
            return false;
        }
        left = rest;
    }
    true
}
