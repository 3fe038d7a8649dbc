ghost use Rattle.std.specs.Prelude.{◌≡◌, ◌≤◌};
ghost use Rattle.tdl_base.specs.declared.limits.TheConstants.{PERIOD_US};

/// A test of a logical execution time.
pub trait OnSpan {
    ghost use Rattle.std.specs.Prelude.{Bool};
    ghost use Rattle.tdl_rules.specs.Times.{Let};

    /// Whether a logical execution time passes.
    ghost passes: { Self → Let → Bool };

    /// Whether the one from `start` to before `end` passes, in microseconds of the mode's cycle.
    fn test(&self, start: u64, end: u64) -> bool
        requires { end ≤ PERIOD_US }
        ensures { result ≡ passes self.now (record { s = start; e = end }) };
}

/// A test of an offset.
pub trait OnOffset {
    ghost use Rattle.std.specs.Prelude.{ℕ, Bool};

    /// Whether an offset passes.
    ghost passes: { Self → ℕ → Bool };

    /// Whether the offset passes, in microseconds of the mode's cycle.
    fn test(&self, offset: u64) -> bool
        ensures { result ≡ passes self.now offset };
}
