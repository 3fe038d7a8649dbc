ghost use Rattle.std.specs.Prelude.{◌≡◌, List, IfOk};
ghost use Rattle.tdl_mode.specs.States.{TaskState};
ghost use Rattle.tdl_mode.specs.Phases.{phase_two, phase_three};
ghost use Rattle.tdl_logic.specs.Looks.{shown};
ghost use Rattle.tdl_logic.specs.Wholes.{standing, entered_now};

use crate::moment::Moment;
use crate::seen::Seen;
use crate::task_now::initials;
use crate::turn::{Cycle, turned};
use crate::update::update;
use std::alloc::Global;
use tdl_base::{Listed, NoMemory, Us};
use tdl_mode::Module;

/// The cycle and the actuators of a module.
#[derive(Debug, Drop)]
pub(crate) struct ModuleNow {
    pub cycle: Cycle,
    pub actuators: Listed<i64>,
}

impl ModuleNow {
    /// A module in its start mode, with its initial actuators.
    pub(crate) fn new(alloc: Global, module: &Module) -> Result<ModuleNow, NoMemory>
        ensures { IfOk result (λ now. now ≡ entered_now «module».now) }
    {
        Ok(ModuleNow {
            cycle: Cycle {
                mode: module.start,
                base: Us(0),
            },
            actuators: Listed::from_vec(initials(alloc, module.actuators.as_slice())?),
        })
    }

    /// Its updates.
    pub(crate) fn update(&mut self, module: &Module, seen: &Seen, at: Us)
        ensures { (tasks : List TaskState) → standing «module».now self.new tasks
            ≡ phase_two at.0 (shown seen.now) (standing «module».now self.old tasks) }
    {
        let moment = Moment {
            module,
            mode: self.cycle.mode,
            base: self.cycle.base,
            at,
        };
        update(&moment, seen, &mut self.actuators);
    }

    /// Its mode switch, or its next cycle.
    pub(crate) fn turn(&mut self, module: &Module, seen: &Seen, at: Us)
        ensures { (tasks : List TaskState) → standing «module».now self.new tasks
            ≡ phase_three at.0 (shown seen.now) (standing «module».now self.old tasks) }
    {
        let moment = Moment {
            module,
            mode: self.cycle.mode,
            base: self.cycle.base,
            at,
        };
        self.cycle = turned(&moment, seen);
    }
}
