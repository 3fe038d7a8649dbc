ghost use Rattle.std.specs.Prelude.{◌≡◌};
ghost use Rattle.tdl_stack.specs.Running.{Outer, no_outer};

use tdl_base::PortKey;

/// What a code reads beside its cells.
pub trait View {
    /// What it shows.
    ghost outer: { Self → Outer };

    /// The number of a sensor of the module.
    fn sensor(&self, number: u16) -> i64
        ensures { result ≡ (outer self.now).sensor number };

    /// The number of an output.
    fn port(&self, key: &PortKey) -> i64
        ensures { result ≡ (outer self.now).port key.now };
}

/// The view of a body: every sensor and every output is 0.
pub(crate) struct NoView;

impl View for NoView {
    ghost outer = { λ _. no_outer };

    fn sensor(&self, _number: u16) -> i64 {
        0
    }

    fn port(&self, _key: &PortKey) -> i64 {
        0
    }
}
