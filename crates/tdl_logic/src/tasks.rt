ghost use Rattle.std.specs.Prelude.{◌≡◌, length, map, slice_get, IfOk, Some, option_map};
ghost use Rattle.std.specs.Option.{option_copied};
ghost use Rattle.tdl_base.specs.Lists.{changed_at};
ghost use Rattle.tdl_mode.specs.States.{TaskState, output_at};
ghost use Rattle.tdl_mode.specs.Phases.{task_after};
ghost use Rattle.tdl_mode.specs.Instants.{begun_task};
ghost use Rattle.tdl_logic.specs.Standing.{bare, with_job};

use crate::moment::Moment;
use crate::task_now::{Origin, TaskNow};
use std::alloc::Global;
use std::marker::Model;
use tdl_base::{NoMemory, TaskId};
use tdl_mode::Task;

/// The tasks of a module, in order.
#[derive(Drop)]
pub(crate) struct Tasks<'a> {
    items: Vec<TaskNow<'a>>,
}

impl<'a> Model for Tasks<'a> {
    ghost use Rattle.std.specs.Prelude.{List};
    ghost use Rattle.tdl_mode.specs.States.{TaskState};
    ghost use Rattle.tdl_mode.specs.contracts.program.Task.{the_row};
    ghost use Rattle.std.specs.Coded.{codes};

    ghost Value = { List TaskState };

    ghost coded = { Prim.hlevel (codes, the_row.coded) };

    ghost view = { λ t. t.items.items };
}

impl<'a> Tasks<'a> {
    /// Tasks before their first jobs.
    pub(crate) fn new(alloc: Global, tasks: &'a [Task]) -> Result<Tasks<'a>, NoMemory>
        ensures { IfOk result (λ now. now ≡ map begun_task tasks.now) }
    {
        let mut items = Vec::new(alloc);
        for task in tasks {
            items.push(TaskNow::new(alloc, task)?)?;
        }
        Ok(Tasks { items })
    }

    /// An output of a task, 0 where there is none.
    pub(crate) fn output(&self, task: TaskId, output: u16) -> i64
        ensures { result ≡ output_at self.now task.0 output }
    {
        match self.items.get(usize::from(task.0)) {
            None => 0,
            Some(task) => task.output(output),
        }
    }

    /// A task by its number.
    pub(crate) fn task(&self, task: TaskId) -> Option<&'a Task>
        ensures { option_copied result
            ≡ option_map (λ u. u.definition) (slice_get self.now task.0) }
    {
        match self.items.get(usize::from(task.0)) {
            None => None,
            Some(now) => Some(now.task()),
        }
    }

    /// Each active job whose invocation ends now ends.
    pub(crate) fn end(&mut self, moment: &Moment)
        ensures { self.new ≡ map (task_after (bare moment.now) moment.now.at.0) self.old }
    {
        end_each(&mut self.items, moment);
    }

    /// A job of a task starts with these inputs. Nothing changes where there is no such task.
    pub(crate) fn start(&mut self, task: TaskId, origin: Origin, inputs: &[i64])
        requires { (u : TaskState) → slice_get self.old task.0 ≡ Some u →
            length inputs.now ≡ length u.definition.inputs }
        ensures { self.new ≡ changed_at task.0 (with_job origin inputs.now) self.old }
    {
        let place = usize::from(task.0);
        if place >= self.items.len() {
            return;
        }
        let own = &mut self.items[place];
        own.start(origin, inputs);
    }
}

fn end_each(tasks: &mut [TaskNow], moment: &Moment)
    ensures { tasks.new ≡ map (task_after (bare moment.now) moment.now.at.0) tasks.old }
{
    for i in 0..tasks.len() {
        let task = &mut tasks[i];
        task.end_at(moment);
    }
}
