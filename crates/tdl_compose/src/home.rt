ghost use Rattle.std.specs.Prelude.{◌≡◌, ◌≤◌, [], length, map, slice_get, IfOk, IfSome};
ghost use Rattle.tdl_base.specs.declared.limits.TheConstants.{PORTS};
ghost use Rattle.tdl_rules.specs.Faults.{faults};
ghost use Rattle.tdl_rules.specs.Parts.{modules};
ghost use Rattle.tdl_program.specs.Activities as activities;
ghost use Rattle.tdl_program.specs.Expressions as expressions;
ghost use Rattle.tdl_program.specs.Bodies as bodies;
ghost use Rattle.tdl_program.specs.Programs as programs;
ghost use Rattle.tdl_resolve.specs.Turns.{KeepsTurns};
ghost use Rattle.tdl_compose.specs.Bounds.{KeepsBounds};

use crate::starts::first_start;
use std::alloc::Global;
use std::marker::Model;
use tdl_base::{Listed, ModeId, ModuleId, NoMemory, TaskId};
use tdl_body::{Body, Expr};
use tdl_names::{Entry, Ports, Scope, actuator_of, exporter_of, mode_of, task_of};
use tdl_resolve::{Numbers, body_of, expression_of, guard_of};
use tdl_tree::{ExprTree, Id, StmtTree, Tree};

/// A module of sources that break no rule, with the numbers of all declarations.
#[derive(Drop)]
pub(crate) struct Home<'c, 'b, 'a> {
    numbers: &'c Numbers<'b, 'a>,
    scope: Scope<'b, 'a>,
}

impl<'c, 'b, 'a> Model for Home<'c, 'b, 'a> {
    ghost use Rattle.tdl_rules.specs.Naming.{Scope as Standing};
    ghost use Rattle.tdl_names.specs.Standing.{scope_code};
    ghost use Rattle.tdl_compose.specs.Bounds.{IsFaultless};

    ghost Value = { Standing };

    ghost coded = { scope_code };

    ghost view = { λ h. h.scope };

    ghost invariant = { λ h. IsFaultless h.numbers.now h.scope };
}

impl<'c, 'b, 'a> Home<'c, 'b, 'a> {
    /// The module of a source, counted from 0.
    pub(crate) fn of(numbers: &'c Numbers<'b, 'a>, file: usize) -> Option<Home<'c, 'b, 'a>>
        requires { faults numbers.now ≡ [] }
        ensures { result ≡ slice_get (modules numbers.now) file }
    {
        match numbers.sources().scope(file) {
            None => None,
            Some(scope) => Some(Home { numbers, scope }),
        }
    }

    /// The source.
    pub(crate) fn tree(&self) -> &'a Tree
        ensures { result.now ≡ self.now.tree }
    {
        self.scope.module().tree()
    }

    /// A declaration by its number from 0.
    pub(crate) fn entry(&self, number: usize) -> Option<Entry<'b, 'a>>
        ensures value { result ≡ slice_get self.now.tree.decls number }
        ensures bounds { IfSome result KeepsBounds }
    {
        self.scope.module().entry(number)
    }

    /// The number of the module that an import names; 0 where it names none.
    pub(crate) fn import(&self, id: &Id) -> ModuleId
        ensures { result ≡ programs.import_of self.now id.now }
    {
        match exporter_of(&self.scope, id.text.as_str()) {
            None => ModuleId(0),
            Some((file, _module)) => self.numbers.module_of(file),
        }
    }

    /// The number of the task that a name means; 0 where it means none.
    pub(crate) fn task(&self, id: &Id) -> TaskId
        ensures { result ≡ activities.task_number self.now id.now }
    {
        match task_of(self.scope.module(), id) {
            None => TaskId(0),
            Some(task) => TaskId(self.numbers.task(self.scope.file(), task.number)),
        }
    }

    /// The number of the actuator that a name means; 0 where it means none.
    pub(crate) fn actuator(&self, id: &Id) -> u16
        ensures { result ≡ activities.actuator_number self.now id.now }
    {
        match actuator_of(self.scope.module(), id) {
            None => 0,
            Some((number, _kind)) => self.numbers.actuator(self.scope.file(), number),
        }
    }

    /// The number of the mode that a name means; 0 where it means none.
    pub(crate) fn mode(&self, id: &Id) -> ModeId
        ensures { result ≡ activities.mode_number self.now id.now }
    {
        match mode_of(self.scope.module(), id) {
            None => ModeId(0),
            Some(number) => ModeId(self.numbers.mode(self.scope.file(), number)),
        }
    }

    /// The number of the first start mode; 0 where there is none.
    pub(crate) fn start(&self) -> ModeId
        ensures { result ≡ programs.start_of self.now.tree.decls }
    {
        match first_start(self.tree().decls.as_slice()) {
            None => ModeId(0),
            Some(number) => ModeId(self.numbers.mode(self.scope.file(), number)),
        }
    }

    /// The expression that a tree says.
    pub(crate) fn expression(&self, alloc: Global, tree: &ExprTree) -> Result<Expr, NoMemory>
        ensures { IfOk result (λ made. made ≡ expressions.expression_of self.now tree.now) }
    {
        expression_of(alloc, self.numbers, &self.scope, tree)
    }

    /// The expressions of a list.
    pub(crate) fn expressions(
        &self,
        alloc: Global,
        trees: &[ExprTree],
    ) -> Result<Listed<Expr>, NoMemory>
        ensures { IfOk result (λ made. made ≡ map (expressions.expression_of self.now) trees.now) }
    {
        let mut list = Listed::new(alloc);
        for tree in trees {
            list.push(self.expression(alloc, tree)?)?;
        }
        Ok(list)
    }

    /// The guard, where there is one.
    pub(crate) fn guard(
        &self,
        alloc: Global,
        guard: &Option<ExprTree>,
    ) -> Result<Option<Expr>, NoMemory>
        ensures { IfOk result (λ made. made ≡ expressions.guard_of self.now guard.now) }
    {
        guard_of(alloc, self.numbers, &self.scope, guard)
    }

    /// The body of a task with these ports, of which no `repeat` takes more turns than it may.
    pub(crate) fn body(
        &self,
        alloc: Global,
        ports: &Ports,
        statements: &[StmtTree],
    ) -> Result<Body, NoMemory>
        requires few { length ports.now ≤ PORTS }
        requires turns { KeepsTurns statements.now }
        ensures { IfOk result (λ made. made ≡ bodies.body_of self.now ports.now statements.now) }
    {
        body_of(alloc, self.numbers, &self.scope, ports, statements)
    }
}
