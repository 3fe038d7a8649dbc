ghost use Rattle.std.specs.Prelude.{◌≡◌, ◌≤◌, length, slice_get, IfOk};
ghost use Rattle.tdl_base.specs.declared.limits.TheConstants.{SOURCES};
ghost use Rattle.tdl_rules.specs.Lists.{first_named};
ghost use Rattle.tdl_rules.specs.Parts.{modules};
ghost use Rattle.tdl_names.specs.Seen.{held};

use crate::modules::module_of;
use crate::{Module, Scope, Table};
use std::alloc::Global;
use std::marker::Model;
use tdl_base::{Listed, NoMemory};
use tdl_tree::Tree;

/// All sources with the table of their names; at most `SOURCES`.
#[derive(Drop)]
pub struct Sources<'a> {
    trees: &'a [Tree],
    names: Table<'a>,
    modules: Listed<Module<'a>>,
}

impl<'a> Model for Sources<'a> {
    ghost use Rattle.std.specs.Prelude.{List};
    ghost use Rattle.tdl_tree.specs.declared.declarations.Tree.{Tree};
    ghost use Rattle.std.specs.Coded.{coded_list};
    ghost use Rattle.tdl_tree.specs.contracts.declarations.Tree.{the_row};

    ghost Value = { List Tree };

    ghost coded = { coded_list the_row.coded };

    ghost use Rattle.tdl_names.specs.Tables.{IsTabled};

    ghost view = { λ s. s.trees.now };

    ghost invariant = { IsTabled };
}

impl<'a> Sources<'a> {
    /// How many sources there are.
    pub fn len(&self) -> usize
        ensures { result ≡ length self.now }
    {
        self.trees.len()
    }

    /// Where what stands outside of the bodies of a source stands. Sources count from 0.
    #[tactic(auto, using(crate::proofs::ModuleScopes::scope_of_module))]
    pub fn scope<'b>(&'b self, file: usize) -> Option<Scope<'b, 'a>>
        ensures { result ≡ slice_get (modules self.now) file }
    {
        match self.modules.get(file) {
            None => None,
            Some(home) => Some(Scope::of_module(self, file as u32, home)),
        }
    }

    /// The first source of a name, with its number.
    pub(crate) fn named<'b>(&'b self, name: &str) -> Option<(usize, &'b Module<'a>)>
        ensures { held result ≡ first_named (λ tree. tree.name.text) name.now self.now }
    {
        match self.names.place(name) {
            None => None,
            Some(place) => match self.modules.get(place) {
                None => None,
                Some(home) => Some((place, home)),
            },
        }
    }
}

/// All sources with their tables.
pub fn sources_of<'a>(alloc: Global, trees: &'a [Tree]) -> Result<Sources<'a>, NoMemory>
    requires { length trees.now ≤ SOURCES }
    ensures { IfOk result (λ sources. sources ≡ trees.now) }
{
    let mut names = Table::new(alloc);
    let mut modules = Listed::new(alloc);
    for tree in trees {
        names = names.with(&tree.name)?;
        modules.push(module_of(alloc, tree)?)?;
    }
    Ok(Sources {
        trees,
        names,
        modules,
    })
}
