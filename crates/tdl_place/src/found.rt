ghost use Rattle.std.specs.Prelude.{◌≡◌, ◌≤◌, length, map, filter_map, is_none, IfOk};
ghost use Rattle.std.specs.List.{list_any};
ghost use Rattle.tdl_place.specs.Entries.{module_named};
ghost use Rattle.tdl_place.specs.declared.limits.TheConstants.{MODULES};

use std::alloc::Global;
use tdl_base::{Listed, ModuleId, NoMemory};
use tdl_mode::Program;

/// The number of the first module of a name.
fn module_named(program: &Program, name: &[u8]) -> Option<ModuleId>
    requires { length program.now.modules ≤ MODULES }
    ensures { result ≡ module_named program.now name.now }
{
    for (number, module) in program.modules.as_slice().iter().enumerate() {
        if module.name.as_str().as_bytes() == name {
            return Some(ModuleId(number as u16));
        }
    }
    None
}

/// The modules that words name, without the words that name none.
pub(crate) fn modules_named(
    alloc: Global,
    program: &Program,
    words: &[&[u8]],
) -> Result<Listed<ModuleId>, NoMemory>
    requires { length program.now.modules ≤ MODULES }
    ensures { IfOk result (λ found.
        found ≡ filter_map (module_named program.now) (map (λ word. word.now) words.now)) }
{
    let mut found = Listed::new(alloc);
    for word in words {
        if let Some(module) = module_named(program, word) {
            found.push(module)?;
        }
    }
    Ok(found)
}

/// Whether a word names no module.
pub(crate) fn names_none(program: &Program, words: &[&[u8]]) -> bool
    requires { length program.now.modules ≤ MODULES }
    ensures { result ≡ list_any (λ word. is_none (module_named program.now word))
        (map (λ word. word.now) words.now) }
{
    for word in words {
        if module_named(program, word).is_none() {
            return true;
        }
    }
    false
}
