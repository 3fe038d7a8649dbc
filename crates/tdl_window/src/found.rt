ghost use Rattle.std.specs.Prelude.{◌≡◌, option_map};
ghost use Rattle.tdl_deploy.specs.Passes.{is_of, is_bus, is_cpu_of, is_bus_of, deadline};
ghost use Rattle.tdl_window.specs.Broken.{called};

use tdl_base::{ModeId, ModuleId};
use tdl_deploy::{Resource, Window};
use tdl_mode::{Invocation, Module, Program};

/// An invocation by its module, its mode and its number in that, from 1.
#[derive(Clone, Copy, Debug, PartialEq, Eq)]
pub(crate) struct Call {
    pub(crate) module: ModuleId,
    pub(crate) mode: ModeId,
    pub(crate) number: u16,
}

/// Whether a window is of the bus.
pub(crate) fn is_bus(window: &Window) -> bool
    ensures { result ≡ is_bus window.now.resource }
{
    match window.resource {
        Resource::Cpu => false,
        Resource::Bus => true,
    }
}

/// The invocation that a window is of.
pub(crate) fn call_of(window: &Window) -> Call
    ensures { result ≡ record {
      «module» = window.now.«module»;
      mode = window.now.mode;
      number = window.now.invocation;
    } }
{
    Call {
        module: window.module,
        mode: window.mode,
        number: window.invocation,
    }
}

/// The invocation of a window with its module, where it is there.
pub(crate) fn called<'a>(
    program: &'a Program,
    window: &Window,
) -> Option<(&'a Module, &'a Invocation)>
    ensures { option_map (λ found. (found.0.now, found.1.now)) result
        ≡ called program.now window.now }
{
    let owner = program.modules.get(usize::from(window.module.0))?;
    let mode = owner.modes.get(usize::from(window.mode.0))?;
    let place = usize::from(window.invocation).checked_sub(1)?;
    let invocation = mode.invocations.get(place)?;
    Some((owner, invocation))
}

impl Call {
    /// Whether a window is of the invocation.
    fn has(&self, window: &Window) -> bool
        ensures { result ≡ is_of self.now.«module».0 self.now.mode.0 self.now.number window.now }
    {
        window.module == self.module && window.mode == self.mode && window.invocation == self.number
    }

    /// Whether it is a processor window of it.
    pub(crate) fn has_cpu(&self, window: &Window) -> bool
        ensures { result ≡
            is_cpu_of self.now.«module».0 self.now.mode.0 self.now.number window.now }
    {
        !is_bus(window) && self.has(window)
    }

    /// Whether it is a bus window of it.
    pub(crate) fn has_bus(&self, window: &Window) -> bool
        ensures { result ≡
            is_bus_of self.now.«module».0 self.now.mode.0 self.now.number window.now }
    {
        is_bus(window) && self.has(window)
    }

    /// When the invocation has to be done, where it ends at `end`: all in microseconds from the
    /// start of the cycle.
    pub(crate) fn deadline(&self, windows: &[Window], end: u64) -> u64
        ensures { result ≡ deadline (record { windows = windows.now })
            self.now.«module».0 self.now.mode.0 self.now.number end }
    {
        for window in windows {
            if self.has_bus(window) {
                return u64::from(window.offset);
            }
        }
        end
    }
}
