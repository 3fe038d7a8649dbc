ghost use Rattle.std.specs.Prelude.{◌≡◌, option_map, slice_get};
ghost use Rattle.std.specs.Option.{option_copied};
ghost use Rattle.tdl_body.specs.Values.{value_of, holds};
ghost use Rattle.tdl_logic.specs.Looks.{shown};
ghost use Rattle.tdl_logic.specs.Releases.{own_tasks};

use crate::tasks::Tasks;
use tdl_base::{ModuleId, Place, Sensed, TaskId};
use tdl_body::Expr;
use tdl_eval::{Reader, value};
use tdl_mode::Task;

/// What the expressions of a module read outside bodies: its sensors, and the committed outputs of
/// all tasks of all modules.
#[derive(Clone, Copy)]
pub(crate) struct Seen<'b, 'a> {
    pub module: ModuleId,
    pub sensed: &'b Sensed,
    pub tasks: &'b [Tasks<'a>],
}

impl Reader for Seen<'_, '_> {
    ghost look = { shown };

    fn read(&self, place: &Place) -> i64 {
        match place {
            Place::Sensor(sensor) => self.sensed.get(self.module, *sensor),
            Place::Port(key) => match self.tasks.get(usize::from(key.module.0)) {
                None => 0,
                Some(tasks) => tasks.output(key.task, key.output),
            },
            Place::Cell(_) => 0,
        }
    }
}

impl<'a> Seen<'_, 'a> {
    /// A task of the module that reads.
    pub(crate) fn task(&self, task: TaskId) -> Option<&'a Task>
        ensures { option_copied result
            ≡ option_map (λ u. u.definition) (slice_get (own_tasks self.now) task.0) }
    {
        match self.tasks.get(usize::from(self.module.0)) {
            None => None,
            Some(tasks) => tasks.task(task),
        }
    }

    /// The number of an expression.
    pub(crate) fn value(&self, e: &Expr) -> i64
        ensures { result ≡ value_of e.now (shown self.now) }
    {
        value(e, self)
    }

    /// Whether a guard holds. An absent one does.
    pub(crate) fn holds(&self, guard: &Option<Expr>) -> bool
        ensures { result ≡ holds guard.now (shown self.now) }
    {
        match guard {
            None => true,
            Some(guard) => self.value(guard) != 0,
        }
    }
}
