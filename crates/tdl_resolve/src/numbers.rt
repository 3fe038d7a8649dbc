ghost use Rattle.std.specs.Prelude.{◌≡◌, ◌<◌, ◌≤◌, [], length, IfOk};
ghost use Rattle.tdl_base.specs.declared.limits.TheConstants.{SOURCES};
ghost use Rattle.tdl_tree.specs.declared.declarations.Sort.TheVariants.{Output};
ghost use Rattle.tdl_rules.specs.Faults.{faults};
ghost use Rattle.tdl_program.specs.Ordinals as ordinals;
ghost use Rattle.tdl_resolve.specs.Counting as counting;

use crate::ports::port_ordinal;
use std::alloc::Global;
use std::marker::Model;
use tdl_base::{Listed, ModuleId, NoMemory};
use tdl_names::Sources;
use tdl_tree::{Decl, Sort};

/// How many declarations of each sort there are.
#[derive(Clone, Copy, Debug)]
struct Counts {
    sensors: u16,
    actuators: u16,
    tasks: u16,
    modes: u16,
}

const NONE: Counts = Counts {
    sensors: 0,
    actuators: 0,
    tasks: 0,
    modes: 0,
};

impl Counts {
    /// One declaration more.
    fn and(self, decl: &Decl) -> Counts
        requires { counting.IsSmall self }
        ensures { result ≡ counting.and_one self decl.now }
    {
        match decl {
            Decl::Sensor { .. } => Counts {
                sensors: self.sensors + 1,
                ..self
            },
            Decl::Actuator { .. } => Counts {
                actuators: self.actuators + 1,
                ..self
            },
            Decl::Task { .. } => Counts {
                tasks: self.tasks + 1,
                ..self
            },
            Decl::Mode { .. } => Counts {
                modes: self.modes + 1,
                ..self
            },
            Decl::Const { .. } => self,
        }
    }
}

/// The declarations of a source, with how many of each sort stand before each, and how many there
/// are.
#[derive(Drop)]
struct Row<'a> {
    decls: &'a [Decl],
    before: Listed<Counts>,
    all: Counts,
}

impl<'a> Model for Row<'a> {
    ghost use Rattle.std.specs.Prelude.{List};
    ghost use Rattle.tdl_tree.specs.declared.declarations.Decl.{Decl};
    ghost use Rattle.std.specs.Coded.{coded_list};
    ghost use Rattle.tdl_tree.specs.contracts.declarations.Decl.{the_row};
    ghost use Rattle.tdl_resolve.specs.Counting.{EachCounted};

    ghost Value = { List Decl };

    ghost coded = { coded_list the_row.coded };

    ghost view = { λ r. r.decls.now };

    ghost invariant = { λ r. EachCounted r.decls.now r.before r.all };
}

impl<'a> Row<'a> {
    /// How many declarations of each sort stand before one.
    fn counts(&self, number: usize) -> Counts
        ensures { result ≡ counting.counts_at self.now number }
    {
        match self.before.get(number) {
            Some(counts) => *counts,
            None => self.all,
        }
    }
}

/// The row of a source.
fn row_of<'a>(alloc: Global, decls: &'a [Decl]) -> Result<Row<'a>, NoMemory>
    requires { counting.AreFew decls.now }
    ensures { IfOk result (λ row. row ≡ decls.now) }
{
    let mut before = Listed::new(alloc);
    let mut all = NONE;
    for decl in decls {
        before.push(all)?;
        all = all.and(decl);
    }
    Ok(Row { decls, before, all })
}

/// The numbers that the declarations of sources have among those of their sort. The sources break
/// no rule.
#[derive(Drop)]
pub struct Numbers<'b, 'a> {
    sources: &'b Sources<'a>,
    rows: Listed<Row<'a>>,
}

impl<'b, 'a> Model for Numbers<'b, 'a> {
    ghost use Rattle.std.specs.Prelude.{List};
    ghost use Rattle.tdl_tree.specs.declared.declarations.Tree.{Tree};
    ghost use Rattle.std.specs.Coded.{coded_list};
    ghost use Rattle.tdl_tree.specs.contracts.declarations.Tree.{the_row};
    ghost use Rattle.tdl_resolve.specs.Numbered.{IsNumbered};

    ghost Value = { List Tree };

    ghost coded = { coded_list the_row.coded };

    ghost view = { λ n. n.sources.now };

    ghost invariant = { IsNumbered };
}

impl<'b, 'a> Numbers<'b, 'a> {
    /// The sources.
    pub fn sources(&self) -> &'b Sources<'a>
        ensures { result.now ≡ self.now }
    {
        self.sources
    }

    /// How many declarations of each sort stand before one of a source.
    fn counts(&self, file: usize, number: usize) -> Counts
        ensures { result ≡ counting.counts_at (ordinals.declarations_of self.now file) number }
    {
        match self.rows.get(file) {
            None => NONE,
            Some(row) => row.counts(number),
        }
    }

    /// The number of a sensor of a source, by its declaration.
    pub fn sensor(&self, file: usize, number: usize) -> u16
        ensures { result
            ≡ ordinals.ordinal ordinals.is_sensor (ordinals.declarations_of self.now file) number }
    {
        self.counts(file, number).sensors
    }

    /// The number of an actuator of a source, by its declaration.
    pub fn actuator(&self, file: usize, number: usize) -> u16
        ensures { result
            ≡ ordinals.ordinal ordinals.is_actuator (ordinals.declarations_of self.now file) number }
    {
        self.counts(file, number).actuators
    }

    /// The number of a task of a source, by its declaration.
    pub fn task(&self, file: usize, number: usize) -> u16
        ensures { result
            ≡ ordinals.ordinal ordinals.is_task (ordinals.declarations_of self.now file) number }
    {
        self.counts(file, number).tasks
    }

    /// The number of a mode of a source, by its declaration.
    pub fn mode(&self, file: usize, number: usize) -> u16
        ensures { result
            ≡ ordinals.ordinal ordinals.is_mode (ordinals.declarations_of self.now file) number }
    {
        self.counts(file, number).modes
    }

    /// The number of an output of a task of a source, by its declaration and its port.
    pub(crate) fn output(&self, file: usize, task: usize, port: usize) -> u16
        ensures { result
            ≡ ordinals.port_ordinal Output (ordinals.ports_at self.now file task) port }
    {
        match self.sources.scope(file) {
            None => 0,
            Some(scope) => match scope.module().entry(task) {
                None => 0,
                Some(entry) => port_ordinal(Sort::Output, entry.ports().items(), port),
            },
        }
    }

    /// A source as a module.
    pub fn module_of(&self, file: usize) -> ModuleId
        requires { file < length self.now }
        ensures { result ≡ record { 0 = file } }
    {
        let _ = &self.sources;
        ModuleId(file as u16)
    }
}

/// The numbers of the declarations of sources that break no rule, at most 64.
pub fn numbers_of<'b, 'a>(
    alloc: Global,
    sources: &'b Sources<'a>,
) -> Result<Numbers<'b, 'a>, NoMemory>
    requires kept { faults sources.now ≡ [] }
    requires few { length sources.now ≤ SOURCES }
    ensures { IfOk result (λ numbers. numbers ≡ sources.now) }
{
    let mut rows = Listed::new(alloc);
    for file in 0..sources.len() {
        let Some(scope) = sources.scope(file) else {
            unreachable!();
        };
        rows.push(row_of(alloc, scope.module().tree().decls.as_slice())?)?;
    }
    Ok(Numbers { sources, rows })
}
