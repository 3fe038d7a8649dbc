use tdl_base::{ModeId, ModuleId};
use thiserror::Error;

/// Where a schedule breaks a rule. Windows are numbered from 1, in order of the list.
#[derive(Clone, Copy, Debug, PartialEq, Eq)]
pub enum SchedAt {
    Window(u32),
    /// Two windows, the one with the lesser number first.
    Pair(u32, u32),
    /// An invocation by its number in its mode, from 1.
    Invocation(ModuleId, ModeId, u16),
}

/// A rule that is broken, and where.
#[derive(Clone, Copy, Debug, PartialEq, Eq)]
pub(crate) struct Fault {
    pub(crate) rule: u8,
    pub(crate) at: SchedAt,
}

/// Why a schedule did not pass.
#[derive(Clone, Copy, Debug, PartialEq, Eq, Error)]
pub enum TestError {
    /// A rule is broken, first this one: 2 to 9.
    #[error("the schedule breaks a rule")]
    BadSchedule { rule: u8, at: SchedAt },
    #[error("no memory")]
    NoMemory,
}

impl From<tdl_base::NoMemory> for TestError {
    ghost use Rattle.std.specs.Prelude.{◌≡◌};
    ghost use Rattle.tdl_window.specs.declared.error.TestError.TheVariants.{NoMemory};

    ghost from_gives = { λ _ e. e ≡ NoMemory };

    fn from(_refused: tdl_base::NoMemory) -> TestError {
        TestError::NoMemory
    }
}
