ghost use Rattle.std.specs.Prelude.{◌≡◌, ◌≤◌, ℕ, List, None, IfOk, length, map};
ghost use Rattle.tdl_base.specs.declared.limits.TheConstants.{SOURCES};
ghost use Rattle.tdl_base.specs.Sensed.{sensed_at};
ghost use Rattle.tdl_mode.specs.Instants.{logical, begun_task};
ghost use Rattle.tdl_mode.specs.WellFormed.{WellFormed};
ghost use Rattle.tdl_logic.specs.Releases.{definitions_of};
ghost use Rattle.tdl_logic.specs.Runs.{before_first, with_instant, phases_after};
ghost use Rattle.tdl_logic.specs.Wholes.{all_standing, entered_now, IsWhole, AllHaveArguments};

use crate::module_now::ModuleNow;
use crate::phases::{end_all, release_all, turn_all, update_all};
use crate::room::most_inputs;
use crate::tasks::Tasks;
use std::alloc::Global;
use std::marker::Model;
use tdl_base::{NoMemory, Sensed, Us};
use tdl_deploy::Placement;
use tdl_mode::{Module, Program};

/// The logical execution of a program on a placement, from instant to instant.
#[derive(Drop)]
pub struct Logic<'a> {
    program: &'a Program,
    placement: &'a Placement,
    reached: Option<Us>,
    nows: Vec<ModuleNow>,
    tasks: Vec<Tasks<'a>>,
    numbers: Vec<i64>,
}

impl<'a> Model for Logic<'a> {
    ghost use Rattle.std.specs.Coded.{codes};
    ghost use Rattle.tdl_mode.specs.contracts.program.Program.{the_row as program_row};
    ghost use Rattle.tdl_mode.specs.contracts.program.Module.{the_row as module_row};
    ghost use Rattle.tdl_mode.specs.contracts.program.Task.{the_row as task_row};
    ghost use Rattle.tdl_logic.specs.Runs.{Run};

    ghost Value = { Run };

    ghost coded = { Prim.hlevel (codes, program_row.coded, module_row.coded, task_row.coded) };

    ghost use Rattle.std.specs.Prelude.{length, option_map};
    ghost use Rattle.tdl_logic.specs.Wholes.{all_standing};
    ghost use Rattle.tdl_logic.specs.Facts.{IsReady};

    ghost view = { λ l. record {
      program = l.program.now;
      placement = l.placement.now;
      reached = option_map (λ at. at.0) l.reached;
      state = all_standing l.program.now.modules l.nows.items l.tasks.items;
    } };

    ghost invariant = { λ l. IsReady l.program.now l.nows.items l.tasks.items
        (length l.numbers.items) (option_map (λ at. at.0) l.reached) };
}

fn first_nows(alloc: Global, modules: &[Module]) -> Result<Vec<ModuleNow>, NoMemory>
    ensures { IfOk result (λ nows. nows.items ≡ map entered_now modules.now) }
{
    let mut nows = Vec::new(alloc);
    for module in modules {
        nows.push(ModuleNow::new(alloc, module)?)?;
    }
    Ok(nows)
}

fn first_tasks<'a>(alloc: Global, modules: &'a [Module]) -> Result<Vec<Tasks<'a>>, NoMemory>
    ensures { IfOk result (λ all. all.items ≡ map (λ m. map begun_task m.tasks) modules.now) }
{
    let mut all = Vec::new(alloc);
    for module in modules {
        all.push(Tasks::new(alloc, module.tasks.as_slice())?)?;
    }
    Ok(all)
}

// An instant above 0: the four phases, each of all modules before the next begins.
fn go_on(
    modules: &[Module],
    nows: &mut [ModuleNow],
    tasks: &mut [Tasks],
    sensed: &Sensed,
    at: Us,
    numbers: &mut [i64],
)
    requires whole { IsWhole modules.now nows.old tasks.old }
    requires arguments { (ns : List ModuleNow) →
        AllHaveArguments modules.now ns tasks.old (length numbers.old) }
    ensures states { all_standing modules.now nows.new tasks.new
        ≡ logical at.0 (sensed_at sensed.now) (all_standing modules.now nows.old tasks.old) }
    ensures definitions { definitions_of tasks.new ≡ definitions_of tasks.old }
{
    end_all(modules, nows, tasks, at);
    update_all(modules, nows, tasks, sensed, at);
    turn_all(modules, nows, tasks, sensed, at);
    release_all(modules, nows, tasks, sensed, at, numbers);
}

// An instant: the fourth phase alone where none is reached, and all four otherwise.
fn go_to(
    reached: Option<Us>,
    modules: &[Module],
    nows: &mut [ModuleNow],
    tasks: &mut [Tasks],
    sensed: &Sensed,
    at: Us,
    numbers: &mut [i64],
)
    requires whole { IsWhole modules.now nows.old tasks.old }
    requires arguments { (ns : List ModuleNow) →
        AllHaveArguments modules.now ns tasks.old (length numbers.old) }
    ensures states { all_standing modules.now nows.new tasks.new
        ≡ phases_after reached at.0 (sensed_at sensed.now)
        (all_standing modules.now nows.old tasks.old) }
    ensures definitions { definitions_of tasks.new ≡ definitions_of tasks.old }
{
    match reached {
        None => release_all(modules, nows, tasks, sensed, at, numbers),
        Some(_) => go_on(modules, nows, tasks, sensed, at, numbers),
    }
}

impl<'a> Logic<'a> {
    /// The program, of at most 64 modules, before instant 0. All memory is taken here.
    pub fn new(
        alloc: Global,
        program: &'a Program,
        placement: &'a Placement,
    ) -> Result<Logic<'a>, NoMemory>
        requires well { WellFormed program.now }
        requires few { length program.now.modules ≤ SOURCES }
        ensures { IfOk result (λ logic. logic ≡ before_first program.now placement.now) }
    {
        let modules = program.modules.as_slice();
        let nows = first_nows(alloc, modules)?;
        let tasks = first_tasks(alloc, modules)?;
        let numbers = vec![in alloc; 0i64; most_inputs(modules)]?;
        Ok(Logic {
            program,
            placement,
            reached: None,
            nows,
            tasks,
            numbers,
        })
    }

    /// Goes to an instant, the first of which is 0: at 0 each module enters its start mode, and its
    /// releases follow; above 0 all modules together do the four phases. It takes no memory.
    pub fn instant(&mut self, at: Us, sensed: &Sensed)
        requires { self.old.reached ≡ None → at.0 ≡ 0 }
        ensures { self.new ≡ with_instant at.0 (sensed_at sensed.now) self.old }
    {
        go_to(
            self.reached,
            self.program.modules.as_slice(),
            &mut self.nows,
            &mut self.tasks,
            sensed,
            at,
            &mut self.numbers,
        );
        self.reached = Some(at);
    }
}
