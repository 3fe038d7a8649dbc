//! A rule at each window, at each pair of windows or at each invocation, and the first place where
//! it is broken.
ghost use Rattle.std.specs.Prelude.{◌≡◌, ◌+◌, ◌≤◌, suc, length};
ghost use Rattle.tdl_base.specs.Lists.{first_of};
ghost use Rattle.tdl_base.specs.declared.limits.TheConstants.{OCCURRENCES, WINDOWS};
ghost use Rattle.tdl_window.specs.Faults.{windows_breaking, partners_of, pairs_breaking};
ghost use Rattle.tdl_window.specs.Faults.{mode_breaking, module_breaking, calls_breaking};
ghost use Rattle.tdl_window.specs.Granted.{IsSmall, AreSmall};

use crate::SchedAt;
use crate::found::Call;
use tdl_base::{ModeId, ModuleId};
use tdl_deploy::Window;
use tdl_mode::{Invocation, Mode, Module, Program};

/// A rule on a window.
pub(crate) trait OnWindow {
    ghost use Rattle.std.specs.Prelude.{Bool};
    ghost use Rattle.tdl_deploy.specs.declared.schedule.Window.{Window as Reservation};

    /// Whether a window breaks it.
    ghost breaks: { Self → Reservation → Bool };

    /// Whether the window breaks it.
    fn is_broken(&self, window: &Window) -> bool
        ensures { result ≡ breaks self.now window.now };
}

/// The first window that breaks a rule.
pub(crate) fn first_window<R: OnWindow>(rule: &R, windows: &[Window]) -> Option<SchedAt>
    requires { length windows.now ≤ WINDOWS }
    ensures { result ≡ first_of (windows_breaking (R.breaks rule.now) windows.now) }
{
    for (place, window) in windows.iter().enumerate() {
        if rule.is_broken(window) {
            return Some(SchedAt::Window(place as u32 + 1));
        }
    }
    None
}

/// A rule on two windows.
pub(crate) trait OnPair {
    ghost use Rattle.std.specs.Prelude.{Bool};
    ghost use Rattle.tdl_deploy.specs.declared.schedule.Window.{Window as Reservation};

    /// Whether two windows break it.
    ghost breaks: { Self → Reservation → Reservation → Bool };

    /// Whether the windows break it.
    fn is_broken(&self, first: &Window, second: &Window) -> bool
        ensures { result ≡ breaks self.now first.now second.now };
}

/// The first of the windows after one that breaks a rule with it. The window's number is given.
fn first_partner<R: OnPair>(
    rule: &R,
    number: u32,
    window: &Window,
    later: &[Window],
) -> Option<SchedAt>
    requires { number + length later.now ≤ WINDOWS }
    ensures { result ≡ first_of
        (partners_of (R.breaks rule.now) number window.now (suc number) later.now) }
{
    for (place, other) in later.iter().enumerate() {
        if rule.is_broken(window, other) {
            return Some(SchedAt::Pair(number, number + 1 + place as u32));
        }
    }
    None
}

/// The first pair of windows that breaks a rule, by the first window and then the second.
pub(crate) fn first_pair<R: OnPair>(rule: &R, windows: &[Window]) -> Option<SchedAt>
    requires { length windows.now ≤ WINDOWS }
    ensures { result ≡ first_of (pairs_breaking (R.breaks rule.now) 1 windows.now) }
{
    let mut left = windows;
    let mut number = 1;
    while let [window, later @ ..] = left {
        if let Some(at) = first_partner(rule, number, window, later) {
            return Some(at);
        }
        left = later;
        number += 1;
    }
    None
}

/// A rule on an invocation.
pub(crate) trait OnInvocation {
    ghost use Rattle.tdl_window.specs.Faults.{OnCall};

    /// Whether an invocation breaks it, by its module with its number, its mode and its own number.
    ghost breaks: { Self → OnCall };

    /// Whether the invocation breaks it.
    fn is_broken(&self, call: Call, owner: &Module, invocation: &Invocation) -> bool
        ensures { result ≡ breaks self.now
            call.module.0 owner.now call.mode.0 call.number invocation.now };
}

/// The first invocation of a mode that breaks a rule.
fn first_of_mode<R: OnInvocation>(
    rule: &R,
    module: ModuleId,
    owner: &Module,
    mode: ModeId,
    text: &Mode,
) -> Option<SchedAt>
    requires { length text.now.invocations ≤ OCCURRENCES }
    ensures { result ≡ first_of
        (mode_breaking (R.breaks rule.now) «module».0 owner.now mode.0 text.now) }
{
    for (place, invocation) in text.invocations.as_slice().iter().enumerate() {
        let call = Call {
            module,
            mode,
            number: place as u16 + 1,
        };
        if rule.is_broken(call, owner, invocation) {
            return Some(SchedAt::Invocation(module, mode, call.number));
        }
    }
    None
}

/// The first invocation of a module that breaks a rule.
fn first_of_module<R: OnInvocation>(rule: &R, module: ModuleId, owner: &Module) -> Option<SchedAt>
    requires { IsSmall owner.now }
    ensures { result ≡ first_of (module_breaking (R.breaks rule.now) «module».0 owner.now) }
{
    for (place, mode) in owner.modes.as_slice().iter().enumerate() {
        let number = ModeId(place as u16);
        if let Some(at) = first_of_mode(rule, module, owner, number, mode) {
            return Some(at);
        }
    }
    None
}

/// The first invocation that breaks a rule, by module, mode and number.
pub(crate) fn first_call<R: OnInvocation>(rule: &R, program: &Program) -> Option<SchedAt>
    requires { AreSmall program.now }
    ensures { result ≡ first_of (calls_breaking (R.breaks rule.now) program.now) }
{
    for (place, owner) in program.modules.as_slice().iter().enumerate() {
        if let Some(at) = first_of_module(rule, ModuleId(place as u16), owner) {
            return Some(at);
        }
    }
    None
}
