ghost use Rattle.std.specs.Prelude.{◌≡◌, suc, All, ◌<◌, ◌+◌, ◌^◌, true, false, IfOk, OnOk, IfErr, length, map, ◌∷◌, []};
ghost use Rattle.tdl_trace.specs.declared.why.Why.TheVariants as why;
ghost use Rattle.tdl_scen.specs.Scenario.{time_of};
ghost use Rattle.tdl_verify.specs.States.{Slot as SlotNow, initial_values};
ghost use Rattle.tdl_node.specs.Machines.{IsTrapOf};
ghost use Rattle.tdl_task.specs.Jobs.{cells_of_shape};
ghost use Rattle.tdl_host.specs.CheckedCodes.{IsCheckedTask, cells_of_table};
ghost use Rattle.tdl_host.specs.Lasting.{AreLasting};
ghost use Rattle.tdl_host.specs.Hosts.{TaskView, is_idle, with_job, IsCommitted, IsLate, first_view, worked_in};

use crate::job::{put, slot_after, take};
use crate::times::next_time;
use std::alloc::Global;
use std::marker::Model;
use tdl_base::{Kind, Listed, ModeId, ModuleId, NoMemory, TaskId};
use tdl_image::{ImageWindow, Initial, ReleaseEntry, TaskTable};
use tdl_node::Stop;
use tdl_scen::TaskTimes;
use tdl_task::{Idle, Job, Slot, TaskShape};
use tdl_trace::Why;

/// A task: its table, its committed outputs, its slot, and how many jobs were released. The slot is
/// there but within a call.
pub struct TaskState<'a> {
    table: &'a TaskTable,
    outputs: Vec<i64>,
    slot: Option<Slot>,
    released: u64,
}

impl<'a> Model for TaskState<'a> {
    ghost use Rattle.tdl_host.specs.Hosts.{TaskView, slot_now, FitsTable};

    ghost Value = { TaskView };

    ghost view = { λ t. record {
      table = t.table.now;
      now = record { outputs = t.outputs.items; slot = slot_now t.slot; released = t.released };
    } };

    ghost invariant = { λ t. FitsTable t.table.now t.outputs.items t.slot };
}

impl Drop for TaskState<'_> {
    fn drop(self) {
        let TaskState {
            table: _,
            outputs: _,
            slot,
            released: _,
        } = self;
        match slot {
            None => {}
            Some(slot) => slot.scrap(),
        }
    }
}

/// The initial numbers of ports.
pub fn initials(alloc: Global, ports: &[Initial]) -> Result<Vec<i64>, NoMemory>
    ensures { IfOk result (λ numbers. numbers.items ≡ initial_values ports.now) }
{
    let numbers = ports.iter().map(|port| port.initial).collect(alloc)?;
    Ok(numbers)
}

fn copied(alloc: Global, kinds: &[Kind]) -> Result<Listed<Kind>, NoMemory>
    ensures { IfOk result (λ copy. copy ≡ kinds.now) }
{
    let copy = Vec::from_slice(alloc, kinds)?;
    Ok(Listed::from_vec(copy))
}

fn kinds_of(alloc: Global, ports: &[Initial]) -> Result<Vec<Kind>, NoMemory>
    ensures { IfOk result (λ kinds. kinds.items ≡ map (λ o. o.kind) ports.now) }
{
    let kinds = ports.iter().map(|port| port.kind).collect(alloc)?;
    Ok(kinds)
}

// The kinds of a task's cells.
fn shape(alloc: Global, table: &TaskTable) -> Result<TaskShape, NoMemory>
    ensures { IfOk result (λ shape. cells_of_shape shape ≡ cells_of_table table.now) }
{
    Ok(TaskShape {
        inputs: copied(alloc, table.inputs.as_slice())?,
        outputs: Listed::from_vec(kinds_of(alloc, table.outputs.as_slice())?),
        locals: copied(alloc, table.locals.as_slice())?,
    })
}

impl<'a> TaskState<'a> {
    /// A task before its first job.
    pub fn first(alloc: Global, table: &'a TaskTable) -> Result<TaskState<'a>, NoMemory>
        requires { IsCheckedTask table.now }
        ensures { IfOk result (λ task. task ≡ first_view table.now) }
    {
        let outputs = initials(alloc, table.outputs.as_slice())?;
        let shape = shape(alloc, table)?;
        let idle = Idle::new(alloc, &shape)?;
        Ok(TaskState {
            table,
            outputs,
            slot: Some(Slot::Idle(idle)),
            released: 0,
        })
    }

    /// The committed outputs.
    pub fn outputs(&self) -> &[i64]
        ensures { result.now ≡ self.now.now.outputs }
    {
        &self.outputs
    }

    /// Ends the job. A done one is committed, and the answer is then true.
    pub fn end(&mut self) -> Result<bool, Stop>
        ensures kept { IfOk result (λ done. done ≡ false → self.new ≡ self.old) }
        ensures idle { IfOk result (λ done. done ≡ false → self.old.now.slot ≡ SlotNow.Idle) }
        ensures committed { IfOk result
            (λ done. done ≡ true → IsCommitted self.old.now self.new.now) }
        ensures late { IfErr result (IsTrapOf why.Late (IsLate self.old.now.slot)) }
        ensures table { self.new.table ≡ self.old.table }
    {
        match take(&mut self.slot) {
            Slot::Idle(idle) => {
                put(&mut self.slot, Slot::Idle(idle));
                Ok(false)
            }
            Slot::Ready(ready) => {
                put(&mut self.slot, Slot::Ready(ready));
                Err(Stop::Trapped(Why::Late))
            }
            Slot::Done(done) => {
                let idle = done.commit(&mut self.outputs);
                put(&mut self.slot, Slot::Idle(idle));
                Ok(true)
            }
        }
    }

    /// A microsecond of the task: the window's job works.
    pub fn work(&mut self, window: &ImageWindow)
        ensures { self.new ≡ worked_in window.now self.old }
    {
        let slot = slot_after(take(&mut self.slot), self.table, window);
        put(&mut self.slot, slot);
    }

    /// How long its next job takes, in microseconds, where this task of this module is its own.
    pub fn next_time(&self, times: &[TaskTimes], module: ModuleId, task: TaskId) -> u64
        requires { AreLasting times.now }
        ensures is { result
            ≡ time_of times.now self.now.table.worst module.0 task.0 (suc self.now.now.released) }
        ensures lasts { 0 < result }
    {
        let worst = u64::from(self.table.worst);
        next_time(times, module, task, self.released, worst)
    }

    /// Releases a job with these inputs, where there is none. It takes so many microseconds.
    pub fn start(&mut self, release: ReleaseEntry, time: u64, inputs: &[i64]) -> Result<(), Stop>
        requires lasts { 0 < time }
        requires count { length inputs.now ≡ length self.old.table.inputs }
        requires released { self.old.now.released + 1 < 2 ^ 64 }
        ensures idle { OnOk result (self.old.now.slot ≡ SlotNow.Idle) }
        ensures started { OnOk result
            (self.new.now ≡ with_job self.old.table release time inputs.now self.old.now) }
        ensures busy { IfErr result (IsTrapOf why.Busy (is_idle self.old.now.slot ≡ false)) }
        ensures table { self.new.table ≡ self.old.table }
    {
        match take(&mut self.slot) {
            Slot::Idle(idle) => {
                let job = Job {
                    mode: ModeId(release.mode),
                    invocation: release.invocation,
                    exec: time,
                };
                let ready = idle.release(job, inputs, &self.outputs);
                put(&mut self.slot, Slot::Ready(ready));
                self.released += 1;
                Ok(())
            }
            busy => {
                put(&mut self.slot, busy);
                Err(Stop::Trapped(Why::Busy))
            }
        }
    }
}

/// Tasks before their first jobs.
pub fn first_tasks<'a>(
    alloc: Global,
    tables: &'a [TaskTable],
) -> Result<Vec<TaskState<'a>>, NoMemory>
    requires { All IsCheckedTask tables.now }
    ensures { IfOk result (λ tasks. tasks.items ≡ map first_view tables.now) }
{
    let mut tasks = Vec::new(alloc);
    for table in tables {
        tasks.push(TaskState::first(alloc, table)?)?;
    }
    Ok(tasks)
}

/// A microsecond of tasks: the window's job works.
pub fn work_all(tasks: &mut [TaskState], window: &ImageWindow)
    ensures { tasks.new ≡ map (worked_in window.now) tasks.old }
{
    for i in 0..tasks.len() {
        let task = &mut tasks[i];
        task.work(window);
    }
}
