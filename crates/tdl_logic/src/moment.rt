ghost use Rattle.std.specs.Prelude.{◌≡◌, ◌==◌, ◌+◌, ℤ, List};
ghost use Rattle.std.specs.Option.{option_copied};
ghost use Rattle.tdl_mode.specs.States.{present, invocation_of, invocations_now};
ghost use Rattle.tdl_mode.specs.Phases.{job_ends, updates_now, switches_now};
ghost use Rattle.tdl_logic.specs.Standing.{bare, job_of};

use crate::task_now::Origin;
use tdl_base::{ModeId, Us};
use tdl_mode::{Invocation, Mode, Module, Switch, Update};

/// An instant of a module in a mode, with the instant at which its present cycle began.
#[derive(Clone, Copy, Debug)]
pub(crate) struct Moment<'a> {
    pub module: &'a Module,
    pub mode: ModeId,
    pub base: Us,
    pub at: Us,
}

impl<'a> Moment<'a> {
    /// The mode, where the module has it.
    pub(crate) fn present(&self) -> Option<&'a Mode>
        ensures { option_copied result ≡ present (bare self.now) }
    {
        self.module.modes.get(usize::from(self.mode.0))
    }

    /// The invocations of the mode.
    pub(crate) fn invocations(&self) -> &'a [Invocation]
        ensures { result.now ≡ invocations_now (bare self.now) }
    {
        match self.present() {
            None => &[],
            Some(mode) => mode.invocations.as_slice(),
        }
    }

    /// The updates of the mode.
    pub(crate) fn updates(&self) -> &'a [Update]
        ensures { result.now ≡ updates_now (bare self.now) }
    {
        match self.present() {
            None => &[],
            Some(mode) => mode.updates.as_slice(),
        }
    }

    /// The switches of the mode.
    pub(crate) fn switches(&self) -> &'a [Switch]
        ensures { result.now ≡ switches_now (bare self.now) }
    {
        match self.present() {
            None => &[],
            Some(mode) => mode.switches.as_slice(),
        }
    }

    /// Whether an offset of the present cycle is now.
    pub(crate) fn is_at(&self, offset: Us) -> bool
        ensures { result ≡ (self.now.base.0 + offset.0 == self.now.at.0) }
    {
        offset.0 <= self.at.0 && self.at.0 - offset.0 == self.base.0
    }

    /// An invocation by its number from 1.
    pub(crate) fn invocation(&self, number: usize) -> Option<&'a Invocation>
        ensures { option_copied result ≡ invocation_of (invocations_now (bare self.now)) number }
    {
        if number == 0 {
            return None;
        }
        self.invocations().get(number - 1)
    }

    /// Whether a job ends now.
    pub(crate) fn ends(&self, origin: Origin) -> bool
        ensures { (inputs : List ℤ) →
            result ≡ job_ends (bare self.now) self.now.at.0 (job_of inputs origin) }
    {
        if origin.mode.0 != self.mode.0 {
            return false;
        }
        match self.invocation(origin.invocation) {
            None => false,
            Some(invocation) => self.is_at(invocation.e),
        }
    }
}
