ghost use Rattle.std.specs.Prelude.{◌≡◌, ◌-◌, ◌^◌, true, false, IfOk, OnOk, IfErr, ℕ, List, slice_get, Some, None, length, ◌∷◌, []};
ghost use Rattle.tdl_base.specs.Lists.{changed_at};
ghost use Rattle.tdl_trace.specs.declared.why.Why.TheVariants as why;
ghost use Rattle.tdl_scen.specs.Scenario.{time_of};
ghost use Rattle.tdl_image.specs.declared.hosted.TaskTable.{TaskTable};
ghost use Rattle.tdl_verify.specs.States.{Slot, Part, host_first};
ghost use Rattle.tdl_verify.specs.Micros.{is_live, tasks_run};
ghost use Rattle.tdl_verify.specs.Turns.{is_mode, phase_of};
ghost use Rattle.tdl_node.specs.Machines.{IsTrapOf};
ghost use Rattle.tdl_host.specs.CheckedCodes.{HasCheckedCodes};
ghost use Rattle.tdl_host.specs.Lasting.{AreLasting};
ghost use Rattle.tdl_host.specs.Hosts.{HasReleased, due_block, trigger_taken, task_outputs, slot_of, IsStartedAt, IsCommittedAt, IsLate, IsBusyAt};

use crate::task::{TaskState, first_tasks, initials, work_all};
use std::alloc::Global;
use std::marker::Model;
use tdl_base::{NoMemory, TaskId};
use tdl_image::{Hosted, ImageWindow, ReleaseEntry};
use tdl_node::Stop;
use tdl_scen::TaskTimes;

/// An instant, and the block that runs then.
#[derive(Clone, Copy, Debug, PartialEq, Eq)]
pub struct Alarm {
    pub at: u64,
    pub block: u32,
}

/// A module: its tables, its mode, the start of its cycle, its trigger, its tasks and its
/// actuators.
#[derive(Drop)]
pub struct HostState<'a> {
    hosted: &'a Hosted,
    mode: Option<u16>,
    base: u32,
    trigger: Option<Alarm>,
    tasks: Vec<TaskState<'a>>,
    actuators: Vec<i64>,
}

impl<'a> Model for HostState<'a> {
    ghost use Rattle.std.specs.Prelude.{◌≡◌, option_map};
    ghost use Rattle.tdl_host.specs.CheckedCodes.{HasCheckedCodes};
    ghost use Rattle.tdl_host.specs.Hosts.{HostedNow, trigger_now, tables_of, states_of};

    ghost Value = { HostedNow };

    ghost view = { λ s. record {
      host = s.hosted.now;
      now = record {
        mode = s.mode;
        base = s.base;
        trigger = option_map trigger_now s.trigger;
        tasks = states_of s.tasks.items;
        actuators = s.actuators.items;
      };
    } };

    ghost invariant = { λ s. HasCheckedCodes s.hosted.now
        × (tables_of s.tasks.items ≡ s.hosted.now.tasks) };
}

fn phase_of(hosted: &Hosted, block: u32) -> u8
    ensures { result ≡ phase_of hosted.now.blocks block }
{
    match hosted.blocks.get(block as usize) {
        None => 0,
        Some(block) => block.phase,
    }
}

impl<'a> HostState<'a> {
    /// A module before instant 0: no mode, and a trigger at 0 for its entry block.
    pub fn first(alloc: Global, hosted: &'a Hosted) -> Result<HostState<'a>, NoMemory>
        requires { HasCheckedCodes hosted.now }
        ensures host { IfOk result (λ state. state.host ≡ hosted.now) }
        ensures now { IfOk result
            (λ state. Part.Host hosted.now state.now ≡ host_first hosted.now) }
    {
        let tasks = first_tasks(alloc, hosted.tasks.as_slice())?;
        let actuators = initials(alloc, hosted.actuators.as_slice())?;
        Ok(HostState {
            hosted,
            mode: None,
            base: 0,
            trigger: Some(Alarm {
                at: 0,
                block: hosted.entry,
            }),
            tasks,
            actuators,
        })
    }

    /// The tables.
    pub fn hosted(&self) -> &'a Hosted
        ensures is { result.now ≡ self.now.host }
        ensures codes { HasCheckedCodes result.now }
    {
        self.hosted
    }

    /// The outputs of a task, none where there is no such task.
    pub fn outputs(&self, task: u16) -> &[i64]
        ensures { result.now ≡ task_outputs self.now.now task }
    {
        match self.tasks.get(usize::from(task)) {
            None => &[],
            Some(own) => own.outputs(),
        }
    }

    /// Ends the job of a task. A done one is committed, and the answer is then true.
    pub fn end(&mut self, task: u16) -> Result<bool, Stop>
        ensures host { self.new.host ≡ self.old.host }
        ensures kept { IfOk result (λ done. done ≡ false → self.new.now ≡ self.old.now) }
        ensures idle { IfOk result (λ done. done ≡ false → slot_of self.old.now task ≡ Slot.Idle) }
        ensures committed { IfOk result
            (λ done. done ≡ true → IsCommittedAt task self.old.now self.new.now) }
        ensures late { IfErr result (IsTrapOf why.Late (IsLate (slot_of self.old.now task))) }
    {
        let place = usize::from(task);
        if place >= self.tasks.len() {
            return Ok(false);
        }
        let own = &mut self.tasks[place];
        own.end()
    }

    /// Releases a job of a task with these inputs, where it has none; the job takes its listed
    /// time. Nothing changes where there is no such task.
    pub fn start(
        &mut self,
        times: &[TaskTimes],
        task: u16,
        release: ReleaseEntry,
        inputs: &[i64],
    ) -> Result<(), Stop>
        requires lasting { AreLasting times.now }
        requires count { (table : TaskTable) → slice_get self.old.host.tasks task ≡ Some table →
            length inputs.now ≡ length table.inputs }
        requires released { HasReleased (2 ^ 64 - 2) self.old.now }
        ensures host { self.new.host ≡ self.old.host }
        ensures absent { OnOk result
            (slice_get self.old.host.tasks task ≡ None → self.new.now ≡ self.old.now) }
        ensures started { OnOk result
            ((table : TaskTable) → slice_get self.old.host.tasks task ≡ Some table →
            IsStartedAt task release
            (time_of times.now table.worst self.old.host.number.0 task) inputs.now table
            self.old.now self.new.now) }
        ensures busy { IfErr result (IsTrapOf why.Busy (IsBusyAt task self.old)) }
    {
        let place = usize::from(task);
        if place >= self.tasks.len() {
            return Ok(());
        }
        let owner = self.hosted.number;
        let own = &mut self.tasks[place];
        let time = own.next_time(times, owner, TaskId(task));
        own.start(release, time, inputs)
    }

    /// Whether the module is in a mode.
    pub fn is_in(&self, mode: u16) -> bool
        ensures { result ≡ is_mode mode self.now.now.mode }
    {
        match self.mode {
            None => false,
            Some(now) => now == mode,
        }
    }

    /// Whether a processor window is live in the microsecond that begins at an instant.
    pub fn is_live(&self, window: &ImageWindow, at: u32) -> bool
        ensures { result ≡ is_live at self.now.now window.now }
    {
        let start = u64::from(self.base) + u64::from(window.offset);
        let at = u64::from(at);
        !window.bus
            && self.is_in(window.mode)
            && start <= at
            && at < start + u64::from(window.length)
    }

    /// A microsecond of the tasks: the window's job works.
    pub fn work(&mut self, window: &ImageWindow)
        ensures host { self.new.host ≡ self.old.host }
        ensures now { self.new.now ≡ record self.old.now {
          tasks = tasks_run (window.now ∷ []) self.old.host.tasks self.old.now.tasks;
        } }
    {
        work_all(&mut self.tasks, window);
    }

    /// Begins a cycle of a mode.
    pub fn enter(&mut self, mode: u16, at: u32)
        ensures host { self.new.host ≡ self.old.host }
        ensures now { self.new.now ≡ record self.old.now { mode = Some mode; base = at } }
    {
        self.mode = Some(mode);
        self.base = at;
    }

    /// Sets the trigger.
    pub fn await_block(&mut self, at: u64, block: u32)
        ensures host { self.new.host ≡ self.old.host }
        ensures now { self.new.now
            ≡ record self.old.now { trigger = Some (record { at = at; block = block }) } }
    {
        self.trigger = Some(Alarm { at, block });
    }

    /// Takes the trigger out where it is due at an instant, and says its block.
    pub fn take_due(&mut self, at: u32) -> Option<u32>
        ensures host { self.new.host ≡ self.old.host }
        ensures is { result ≡ due_block at self.old.host self.old.now.trigger }
        ensures trigger_taken { self.new.now ≡ trigger_taken result self.old.now }
    {
        let Some(alarm) = self.trigger else {
            return None;
        };
        if alarm.at != u64::from(at) || phase_of(self.hosted, alarm.block) > 4 {
            return None;
        }
        self.trigger = None;
        Some(alarm.block)
    }

    /// Sets an actuator. Nothing changes where there is no such actuator.
    pub fn update(&mut self, actuator: u16, value: i64)
        ensures host { self.new.host ≡ self.old.host }
        ensures now { self.new.now ≡ record self.old.now {
          actuators = changed_at actuator (λ _. value) self.old.now.actuators;
        } }
    {
        let place = usize::from(actuator);
        if place < self.actuators.len() {
            self.actuators[place] = value;
        }
    }
}
