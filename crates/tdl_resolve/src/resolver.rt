ghost use Rattle.std.specs.Prelude.{◌≡◌, ◌≤◌, [], unwrap_or};
ghost use Rattle.tdl_program.specs.Expressions as says;
ghost use Rattle.tdl_program.specs.Bodies as bodies;
ghost use Rattle.tdl_program.specs.Ordinals as ordinals;
ghost use Rattle.tdl_resolve.specs.Standing.{Stands};
ghost use Rattle.tdl_resolve.specs.Within.{ReadsUpTo};
ghost use Rattle.tdl_rules.specs.Meanings.{found};

use crate::Numbers;
use crate::literals::literal_of;
use crate::ports::{cell_named, cell_of};
use std::marker::Model;
use tdl_base::{Kind, Place, PortKey, TaskId};
use tdl_body::Expr;
use tdl_names::{Scope, found_in};
use tdl_rules::{Found, Target};
use tdl_tree::Id;

/// Where an expression stands, with the numbers of the sources' declarations.
#[derive(Drop)]
pub(crate) struct Resolver<'r, 'b, 'a> {
    numbers: &'r Numbers<'b, 'a>,
    scope: &'r Scope<'b, 'a>,
}

impl<'r, 'b, 'a> Model for Resolver<'r, 'b, 'a> {
    ghost use Rattle.tdl_rules.specs.Naming.{Scope as Standing};
    ghost use Rattle.tdl_names.specs.Standing.{scope_code};
    ghost use Rattle.tdl_resolve.specs.Standing.{Stands};

    ghost Value = { Standing };

    ghost coded = { scope_code };

    ghost view = { λ r. r.scope.now };

    ghost invariant = { λ r. Stands r.numbers.now r.scope.now };
}

impl<'r, 'b, 'a> Resolver<'r, 'b, 'a> {
    /// Where the scope is one of the sources.
    pub(crate) fn new(
        numbers: &'r Numbers<'b, 'a>,
        scope: &'r Scope<'b, 'a>,
    ) -> Resolver<'r, 'b, 'a>
        requires { Stands numbers.now scope.now }
        ensures { result ≡ scope.now }
    {
        Resolver { numbers, scope }
    }

    /// The cell of a port of the body.
    fn cell(&self, port: usize) -> u16
        ensures { result ≡ ordinals.cell_of (unwrap_or self.now.body []) port }
    {
        match self.scope.body() {
            None => 0,
            Some(ports) => cell_of(ports.items(), port),
        }
    }

    /// The cell of a port of the body by its name.
    pub(crate) fn cell_named(&self, name: &Id) -> u16
        ensures { result ≡ bodies.cell_named (unwrap_or self.now.body []) name.now }
    {
        match self.scope.body() {
            None => 0,
            Some(ports) => cell_named(ports, name),
        }
    }

    /// The number of a sensor of the module, by its declaration.
    fn sensor(&self, number: usize) -> u16
        ensures { result ≡ ordinals.ordinal ordinals.is_sensor self.now.tree.decls number }
    {
        self.numbers.sensor(self.scope.file(), number)
    }

    /// An output of a task, by its declaration and its port.
    fn output(&self, file: usize, task: usize, port: usize) -> PortKey
        requires { file ≤ self.now.file }
        ensures { result ≡ says.output_key self.now file task port }
    {
        PortKey {
            module: self.numbers.module_of(file),
            task: TaskId(self.numbers.task(file, task)),
            output: self.numbers.output(file, task, port),
        }
    }

    /// What a name that is found reads.
    fn target(&self, kind: Kind, target: Target) -> Expr
        requires { ReadsUpTo self.now.file target }
        ensures { result ≡ says.target_of self.now kind target }
    {
        match target {
            Target::Port(port) => Expr::Load(Place::Cell(self.cell(port))),
            Target::Fixed(literal) => Expr::Const(literal_of(kind, &literal)),
            Target::Sensor(number) => Expr::Load(Place::Sensor(self.sensor(number))),
            Target::Output {
                module: file,
                task,
                port,
            } => Expr::Load(Place::Port(self.output(file, task, port))),
        }
    }

    /// What a name reads; 0 where nothing is found.
    pub(crate) fn name(&self, parts: &[Id]) -> Expr
        ensures { result ≡ says.name_read self.now (found self.now parts.now) }
    {
        match found_in(self.scope, parts) {
            Found::Is { kind, target } => self.target(kind, target),
            _ => Expr::Const(0),
        }
    }
}
