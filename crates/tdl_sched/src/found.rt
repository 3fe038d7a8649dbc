ghost use Rattle.std.specs.Prelude.{◌≡◌, option_map};
ghost use Rattle.tdl_sched.specs.Looked.{short, first_from, module_named, mode_named, numbered_in, called};

use crate::entry::Called;
use tdl_base::{ModeId, ModuleId};
use tdl_mode::{Invocation, Mode, Module, Program};

/// A number of 16 bits.
fn short(number: u64) -> Option<u16>
    ensures { result ≡ short number }
{
    if number > 65_535 {
        return None;
    }
    Some(number as u16)
}

/// The first module of a name, with its number.
fn module_named<'a>(modules: &'a [Module], name: &[u8]) -> Option<(u16, &'a Module)>
    ensures { option_map (λ found. (found.0, found.1.now)) result
        ≡ module_named modules.now name.now }
{
    for (place, module) in modules.iter().enumerate() {
        if module.name.as_str().as_bytes() == name {
            let number = short(place as u64)?;
            return Some((number, module));
        }
    }
    None
}

/// The first mode of a name, with its number.
fn mode_named<'a>(modes: &'a [Mode], name: &[u8]) -> Option<(u16, &'a Mode)>
    ensures { option_map (λ found. (found.0, found.1.now)) result
        ≡ mode_named modes.now name.now }
{
    for (place, mode) in modes.iter().enumerate() {
        if mode.name.as_str().as_bytes() == name {
            let number = short(place as u64)?;
            return Some((number, mode));
        }
    }
    None
}

/// The number of an invocation, from 1, where there is one of that number.
fn numbered_in(invocations: &[Invocation], number: u64) -> Option<u16>
    ensures { result ≡ numbered_in invocations.now number }
{
    let number = short(number)?;
    if number == 0 || usize::from(number) > invocations.len() {
        return None;
    }
    Some(number)
}

/// The invocation of a number of a mode of a module, by their names.
pub(crate) fn called(
    program: &Program,
    module_name: &[u8],
    mode_name: &[u8],
    number: u64,
) -> Option<Called>
    ensures { result ≡ called program.now module_name.now mode_name.now number }
{
    let (module, owner) = module_named(program.modules.as_slice(), module_name)?;
    let (mode, told) = mode_named(owner.modes.as_slice(), mode_name)?;
    let invocation = numbered_in(told.invocations.as_slice(), number)?;
    Some(Called {
        module: ModuleId(module),
        mode: ModeId(mode),
        invocation,
    })
}
