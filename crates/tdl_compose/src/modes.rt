ghost use Rattle.std.specs.Prelude.{◌≡◌, ◌++◌, IfOk, OnOk};
ghost use Rattle.tdl_rules.specs.Lists.{each};
ghost use Rattle.tdl_program.specs.Programs as programs;
ghost use Rattle.tdl_compose.specs.Bounds.{KeepsBounds};

use crate::home::Home;
use crate::invocations::invocations_of;
use crate::names::copied;
use crate::switches::switches_of;
use crate::updates::updates_of;
use std::alloc::Global;
use tdl_base::{Listed, NoMemory, Us};
use tdl_mode::Mode;
use tdl_times::capped_us;
use tdl_tree::Decl;

/// Appends a mode, where the declaration is one.
fn put_mode(
    alloc: Global,
    home: &Home,
    decl: &Decl,
    into: &mut Listed<Mode>,
) -> Result<(), NoMemory>
    requires { KeepsBounds decl.now }
    ensures { OnOk result (into.new ≡ into.old ++ programs.modes_in home.now decl.now) }
{
    let Decl::Mode {
        name,
        period,
        acts,
        ..
    } = decl
    else {
        return Ok(());
    };
    let acts = acts.as_slice();
    into.push(Mode {
        name: copied(alloc, name)?,
        period: Us(capped_us(period)),
        invocations: invocations_of(alloc, home, period, acts)?,
        updates: updates_of(alloc, home, period, acts)?,
        switches: switches_of(alloc, home, period, acts)?,
    })
}

/// The modes of a module.
pub(crate) fn modes_of(alloc: Global, home: &Home) -> Result<Listed<Mode>, NoMemory>
    ensures { IfOk result (λ list. list ≡
        each (programs.modes_in home.now) home.now.tree.decls) }
{
    let mut list = Listed::new(alloc);
    for number in 0..home.tree().decls.len() {
        let Some(entry) = home.entry(number) else {
            return Ok(list);
        };
        put_mode(alloc, home, entry.decl(), &mut list)?;
    }
    Ok(list)
}
