ghost use Rattle.std.specs.Prelude.{◌≡◌, map, slice_get, IfOk};
ghost use Rattle.std.specs.Option.{option_copied};
ghost use Rattle.tdl_rules.specs.Naming as naming;

use crate::Table;
use std::alloc::Global;
use std::marker::Model;
use tdl_base::{Listed, NoMemory};
use tdl_tree::{Decl, Id, PortDecl, Tree};

/// The ports of a task with the table of their names.
#[derive(Drop)]
pub struct Ports<'a> {
    items: &'a [PortDecl],
    names: Table<'a>,
}

impl<'a> Model for Ports<'a> {
    ghost use Rattle.std.specs.Prelude.{◌≡◌, List, map};
    ghost use Rattle.tdl_tree.specs.declared.declarations.PortDecl.{PortDecl};

    ghost Value = { List PortDecl };

    ghost view = { λ p. p.items.now };

    ghost invariant = { λ p. p.names ≡ map (λ port. port.name) p.items.now };
}

impl<'a> Ports<'a> {
    /// The ports in order.
    pub fn items(&self) -> &'a [PortDecl]
        ensures { result.now ≡ self.now }
    {
        self.items
    }

    /// A port by its number from 0.
    pub fn get(&self, number: usize) -> Option<&'a PortDecl>
        ensures { option_copied result ≡ slice_get self.now number }
    {
        self.items.get(number)
    }

    /// The ports' names in order, with the first place of each.
    pub fn names(&self) -> &Table<'a>
        ensures { result.now ≡ map (λ port. port.name) self.now }
    {
        &self.names
    }
}

/// The ports of a task with their table.
pub(crate) fn ports_of<'a>(alloc: Global, items: &'a [PortDecl]) -> Result<Ports<'a>, NoMemory>
    ensures { IfOk result (λ ports. ports ≡ items.now) }
{
    let mut names = Table::new(alloc);
    for port in items {
        names = names.with(&port.name)?;
    }
    Ok(Ports { items, names })
}

/// A declaration with the table of its ports, which is empty where it is no task.
#[derive(Drop)]
pub struct Entry<'b, 'a> {
    decl: &'a Decl,
    ports: &'b Ports<'a>,
}

impl<'b, 'a> Model for Entry<'b, 'a> {
    ghost use Rattle.std.specs.Prelude.{◌≡◌};
    ghost use Rattle.tdl_tree.specs.declared.declarations.Decl.{Decl};
    ghost use Rattle.tdl_rules.specs.Naming.{ports_in};
    ghost use Rattle.tdl_tree.specs.contracts.declarations.Decl.{the_row};

    ghost Value = { Decl };

    ghost coded = { the_row.coded };

    ghost view = { λ e. e.decl.now };

    ghost invariant = { λ e. e.ports.now ≡ ports_in e.decl.now };
}

impl<'b, 'a> Entry<'b, 'a> {
    /// The declaration.
    pub fn decl(&self) -> &'a Decl
        ensures { result.now ≡ self.now }
    {
        self.decl
    }

    /// Its ports, none where it is no task.
    pub fn ports(&self) -> &'b Ports<'a>
        ensures { result.now ≡ naming.ports_in self.now }
    {
        self.ports
    }
}

/// A source with the tables of its space and of its tasks' ports.
#[derive(Drop)]
pub struct Module<'a> {
    tree: &'a Tree,
    names: Table<'a>,
    ports: Listed<Ports<'a>>,
}

impl<'a> Model for Module<'a> {
    ghost use Rattle.std.specs.Prelude.{◌≡◌, map};
    ghost use Rattle.tdl_tree.specs.declared.declarations.Tree.{Tree};
    ghost use Rattle.tdl_rules.specs.Naming.{space, ports_in};
    ghost use Rattle.tdl_tree.specs.contracts.declarations.Tree.{the_row};

    ghost Value = { Tree };

    ghost coded = { the_row.coded };

    ghost view = { λ m. m.tree.now };

    ghost invariant = { λ m. (m.names ≡ space m.tree.now) × (m.ports ≡ map ports_in m.tree.now.decls) };
}

impl<'a> Module<'a> {
    /// The source.
    pub fn tree(&self) -> &'a Tree
        ensures { result.now ≡ self.now }
    {
        self.tree
    }

    /// The names of its space: its imports, then its declarations.
    pub fn names(&self) -> &Table<'a>
        ensures { result.now ≡ naming.space self.now }
    {
        &self.names
    }

    /// A declaration by its number from 0.
    pub fn entry<'b>(&'b self, number: usize) -> Option<Entry<'b, 'a>>
        ensures { result ≡ slice_get self.now.decls number }
    {
        let decl = self.tree.decls.get(number)?;
        let ports = self.ports.get(number)?;
        Some(Entry { decl, ports })
    }
}

/// The name of a declaration.
fn name_of(decl: &Decl) -> &Id
    ensures { result.now ≡ naming.name_of decl.now }
{
    match decl {
        Decl::Const { name, .. } => name,
        Decl::Sensor { name, .. } => name,
        Decl::Actuator { name, .. } => name,
        Decl::Task { name, .. } => name,
        Decl::Mode { name, .. } => name,
    }
}

/// The ports of a declaration, none where it is no task.
fn ports_in(decl: &Decl) -> &[PortDecl]
    ensures { result.now ≡ naming.ports_in decl.now }
{
    match decl {
        Decl::Task { ports, .. } => ports.as_slice(),
        _ => &[],
    }
}

/// A source with its tables.
pub(crate) fn module_of<'a>(alloc: Global, tree: &'a Tree) -> Result<Module<'a>, NoMemory>
    ensures { IfOk result (λ home. home ≡ tree.now) }
{
    let mut names = Table::new(alloc);
    for id in tree.imports.as_slice() {
        names = names.with(id)?;
    }
    let mut ports = Listed::new(alloc);
    for decl in tree.decls.as_slice() {
        names = names.with(name_of(decl))?;
        ports.push(ports_of(alloc, ports_in(decl))?)?;
    }
    Ok(Module { tree, names, ports })
}
