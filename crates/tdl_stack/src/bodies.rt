ghost use Rattle.std.specs.Prelude.{◌≡◌, [], ◌∷◌, ◌<◌, length, MatchOption};
ghost use Rattle.tdl_stack.specs.declared.limits.TheConstants.{NESTED_BODIES};

use crate::limits::NESTED_BODIES;
use arrayvec::ArrayVec;
use std::marker::Model;

/// The body of a `rep` that a place stands in: the place after it, and how often the `rep` is come
/// to.
#[derive(Clone, Copy, Debug, Default)]
pub(crate) struct OpenBody {
    pub(crate) end: usize,
    pub(crate) turns_outside: u64,
}

/// The bodies that a place stands in. Contracts see them as a list, the innermost first.
#[derive(Drop)]
pub(crate) struct OpenBodies {
    bodies: ArrayVec<OpenBody, NESTED_BODIES>,
}

impl Model for OpenBodies {
    ghost use Rattle.std.specs.Prelude.{List, ◌≤◌, length, reverse};
    ghost use Rattle.tdl_stack.specs.declared.limits.TheConstants.{NESTED_BODIES};
    ghost use Rattle.tdl_stack.specs.declared.bodies.OpenBody.{OpenBody};

    ghost Value = { List OpenBody };

    ghost view = { λ it. reverse it.bodies.items };

    ghost invariant = { λ it. length it.bodies.items ≤ NESTED_BODIES };
}

impl OpenBodies {
    pub(crate) fn new() -> OpenBodies
        ensures { result ≡ [] }
    {
        OpenBodies {
            bodies: ArrayVec::new(),
        }
    }

    pub(crate) fn len(&self) -> usize
        ensures { result ≡ length self.now }
    {
        self.bodies.len()
    }

    pub(crate) fn push(&mut self, body: OpenBody)
        requires { length self.old < NESTED_BODIES }
        ensures { self.new ≡ body ∷ self.old }
    {
        self.bodies.push(body);
    }

    pub(crate) fn pop(&mut self) -> Option<OpenBody>
        ensures items { MatchOption result ((self.old ≡ []) × (self.new ≡ []))
            (λ body. self.old ≡ body ∷ self.new) }
        ensures room { length self.new < NESTED_BODIES }
    {
        self.bodies.pop()
    }
}
