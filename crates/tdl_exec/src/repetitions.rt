ghost use Rattle.std.specs.Prelude.{◌≡◌, [], ◌∷◌, ◌<◌, length, MatchOption};
ghost use Rattle.tdl_stack.specs.declared.limits.TheConstants.{NESTED_BODIES};

use arrayvec::ArrayVec;
use std::marker::Model;
use tdl_stack::limits::NESTED_BODIES;

/// A repetition under way: the first place of its body, how many instructions are left from there,
/// how many of them are repeated, and how many times more.
#[derive(Clone, Copy, Debug, Default)]
pub(crate) struct Repetition {
    pub(crate) begin: usize,
    pub(crate) left: usize,
    pub(crate) count: usize,
    pub(crate) times: u16,
}

/// The repetitions under way. Contracts see them as a list, the innermost first.
#[derive(Drop)]
pub(crate) struct Repetitions {
    under_way: ArrayVec<Repetition, NESTED_BODIES>,
}

impl Model for Repetitions {
    ghost use Rattle.std.specs.Prelude.{List, ◌≤◌, length, reverse};
    ghost use Rattle.tdl_stack.specs.declared.limits.TheConstants.{NESTED_BODIES};
    ghost use Rattle.tdl_exec.specs.declared.repetitions.Repetition.{Repetition};

    ghost Value = { List Repetition };

    ghost view = { λ it. reverse it.under_way.items };

    ghost invariant = { λ it. length it.under_way.items ≤ NESTED_BODIES };
}

impl Repetitions {
    pub(crate) fn new() -> Repetitions
        ensures { result ≡ [] }
    {
        Repetitions {
            under_way: ArrayVec::new(),
        }
    }

    pub(crate) fn push(&mut self, repetition: Repetition)
        requires { length self.old < NESTED_BODIES }
        ensures { self.new ≡ repetition ∷ self.old }
    {
        self.under_way.push(repetition);
    }

    // Takes the innermost one off; there is room for it again.
    pub(crate) fn pop(&mut self) -> Option<Repetition>
        ensures items { MatchOption result ((self.old ≡ []) × (self.new ≡ []))
            (λ repetition. self.old ≡ repetition ∷ self.new) }
        ensures room { length self.new < NESTED_BODIES }
    {
        self.under_way.pop()
    }
}
