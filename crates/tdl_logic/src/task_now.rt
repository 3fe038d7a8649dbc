ghost use Rattle.std.specs.Prelude.{◌≡◌, ◌++◌, ◌+◌, ◌≤◌, ◌<◌, length, pos, slice_index_or, IfOk, OnOk, Some, None, option_map, unwrap_or};
ghost use Rattle.tdl_mode.specs.States.{initials_of, kinds_of};
ghost use Rattle.tdl_mode.specs.Phases.{ended, has_ended, task_after};
ghost use Rattle.tdl_mode.specs.Instants.{begun_task};
ghost use Rattle.tdl_logic.specs.Standing.{bare, with_job, cell_kinds, filled};

use crate::moment::Moment;
use std::alloc::Global;
use std::marker::Model;
use tdl_base::{Kind, Listed, ModeId, NoMemory};
use tdl_eval::exec_cells;
use tdl_mode::{PortDef, Task};

/// Where a job comes from: an invocation of a mode, by its number from 1.
#[derive(Clone, Copy, Debug, PartialEq, Eq)]
pub(crate) struct Origin {
    pub mode: ModeId,
    pub invocation: usize,
}

/// A task with its committed outputs and its active job or none, and room for what its jobs take.
#[derive(Drop)]
pub(crate) struct TaskNow<'a> {
    task: &'a Task,
    outputs: Vec<i64>,
    active: Option<Origin>,
    inputs: Vec<i64>,
    kinds: Listed<Kind>,
    cells: Listed<i64>,
}

impl<'a> Model for TaskNow<'a> {
    ghost use Rattle.tdl_mode.specs.States.{TaskState};

    ghost Value = { TaskState };

    ghost use Rattle.tdl_mode.specs.contracts.program.Task.{the_row};
    ghost use Rattle.std.specs.Coded.{codes};

    ghost coded = { Prim.hlevel (codes, the_row.coded) };

    ghost use Rattle.tdl_logic.specs.Standing.{task_state, HasRoom};

    ghost view = { λ t. task_state t.task.now t.outputs.items t.active t.inputs.items };

    ghost invariant = { λ t. HasRoom t.task.now t.outputs.items t.inputs.items t.cells t.kinds };
}

/// The numbers that ports begin with.
pub(crate) fn initials(alloc: Global, ports: &[PortDef]) -> Result<Vec<i64>, NoMemory>
    ensures { IfOk result (λ numbers. numbers.items ≡ initials_of ports.now) }
{
    let numbers = ports.iter().map(|port| port.initial).collect(alloc)?;
    Ok(numbers)
}

// Appends the kinds of ports.
fn put_kinds(ports: &[PortDef], into: &mut Listed<Kind>) -> Result<(), NoMemory>
    ensures { OnOk result (into.new ≡ into.old ++ kinds_of ports.now) }
{
    for port in ports {
        into.push(port.kind)?;
    }
    Ok(())
}

fn cell_kinds(alloc: Global, task: &Task) -> Result<Listed<Kind>, NoMemory>
    ensures { IfOk result (λ kinds. kinds ≡ cell_kinds task.now) }
{
    let mut kinds = Listed::new(alloc);
    put_kinds(task.inputs.as_slice(), &mut kinds)?;
    put_kinds(task.outputs.as_slice(), &mut kinds)?;
    put_kinds(task.locals.as_slice(), &mut kinds)?;
    Ok(kinds)
}

// The number of a cell when a job begins to work.
fn filled_at(inputs: &[i64], outputs: &[i64], count: usize, at: usize) -> i64
    requires { at < count }
    ensures { result ≡ slice_index_or (filled inputs.now outputs.now count) at (pos 0) }
{
    if at < inputs.len() {
        return inputs[at];
    }
    let place = at - inputs.len();
    if place < outputs.len() {
        return outputs[place];
    }
    0
}

// The cells of a job that begins to work: its inputs, the outputs, and locals that are 0.
fn fill(cells: &mut Listed<i64>, inputs: &[i64], outputs: &[i64])
    requires { length inputs.now + length outputs.now ≤ length cells.old }
    ensures values { cells.new ≡ filled inputs.now outputs.now (length cells.old) }
    ensures count { length cells.new ≡ length cells.old }
{
    let count = cells.len();
    for at in 0..count {
        cells.set(at, filled_at(inputs, outputs, count, at));
    }
}

impl<'a> TaskNow<'a> {
    /// A task before its first job.
    pub(crate) fn new(alloc: Global, task: &'a Task) -> Result<TaskNow<'a>, NoMemory>
        ensures { IfOk result (λ now. now ≡ begun_task task.now) }
    {
        let outputs = initials(alloc, task.outputs.as_slice())?;
        let inputs = initials(alloc, task.inputs.as_slice())?;
        let kinds = cell_kinds(alloc, task)?;
        let cells = Listed::from_vec(vec![in alloc; 0i64; kinds.len()]?);
        Ok(TaskNow {
            task,
            outputs,
            active: None,
            inputs,
            kinds,
            cells,
        })
    }

    /// The task.
    pub(crate) fn task(&self) -> &'a Task
        ensures { result.now ≡ self.now.definition }
    {
        self.task
    }

    /// A committed output, 0 where there is none.
    pub(crate) fn output(&self, output: u16) -> i64
        ensures { result ≡ slice_index_or self.now.outputs output (pos 0) }
    {
        self.outputs.get(usize::from(output)).copied().unwrap_or(0)
    }

    /// Whether there is an active job, and it ends now.
    pub(crate) fn has_ended(&self, moment: &Moment) -> bool
        ensures { result ≡ has_ended (bare moment.now) moment.now.at.0 self.now }
    {
        match self.active {
            None => false,
            Some(origin) => moment.ends(origin),
        }
    }

    /// The active job, where there is one and it ends now, ends.
    pub(crate) fn end_at(&mut self, moment: &Moment)
        ensures { self.new ≡ task_after (bare moment.now) moment.now.at.0 self.old }
    {
        if self.has_ended(moment) {
            self.end();
        }
    }

    /// The active job, where there is one, ends: its result becomes the outputs.
    fn end(&mut self)
        ensures { self.new ≡ unwrap_or (option_map (ended self.old) self.old.active) self.old }
    {
        let Some(_) = self.active else {
            return;
        };
        fill(&mut self.cells, &self.inputs, &self.outputs);
        exec_cells(&self.task.body, &self.kinds, &mut self.cells);
        let from = self.task.inputs.len();
        let cells = self.cells.as_slice();
        self.outputs
            .copy_from_slice(&cells[from..from + self.task.outputs.len()]);
        self.active = None;
    }

    /// A job starts with these inputs.
    pub(crate) fn start(&mut self, origin: Origin, inputs: &[i64])
        requires { length inputs.now ≡ length self.old.definition.inputs }
        ensures { self.new ≡ with_job origin inputs.now self.old }
    {
        self.inputs.copy_from_slice(inputs);
        self.active = Some(origin);
    }
}
