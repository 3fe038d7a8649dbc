ghost use Rattle.std.specs.Prelude.{◌≡◌, ◌++◌, OnOk, IfOk};
ghost use Rattle.std.specs.Fmt.{decimal};
ghost use Rattle.tdl_sched.specs.ScheduleText.{resource_word, module_name, mode_name, after_space, window_line, schedule_text};

use itoa::Buffer;
use std::alloc::Global;
use tdl_base::{ModeId, ModuleId, NoMemory};
use tdl_deploy::{Resource, Schedule, Window};
use tdl_mode::Program;

fn resource_word(resource: Resource) -> &'static str
    ensures { result.now ≡ resource_word resource }
{
    match resource {
        Resource::Cpu => "cpu",
        Resource::Bus => "bus",
    }
}

/// The name of a module; empty where there is none of the number.
fn module_name(program: &Program, module: ModuleId) -> &str
    ensures { result.now ≡ module_name program.now «module».0 }
{
    match program.modules.get(usize::from(module.0)) {
        None => "",
        Some(owner) => owner.name.as_str(),
    }
}

/// The name of a mode of a module; empty where there is none of the numbers.
fn mode_name(program: &Program, module: ModuleId, mode: ModeId) -> &str
    ensures { result.now ≡ mode_name program.now «module».0 mode.0 }
{
    match program.modules.get(usize::from(module.0)) {
        None => "",
        Some(owner) => match owner.modes.get(usize::from(mode.0)) {
            None => "",
            Some(told) => told.name.as_str(),
        },
    }
}

fn put_text(into: &mut Vec<u8>, text: &[u8]) -> Result<(), NoMemory>
    ensures { OnOk result (into.new.items ≡ into.old.items ++ text.now) }
{
    into.extend_from_slice(text)?;
    Ok(())
}

// The number with a space before it.
fn put_number(into: &mut Vec<u8>, number: u64) -> Result<(), NoMemory>
    ensures { OnOk result (into.new.items ≡ into.old.items ++ after_space (decimal number)) }
{
    put_text(into, b" ")?;
    let mut buffer = Buffer::new();
    put_text(into, buffer.format(number).as_bytes())
}

// The name with a space before it.
fn put_name(into: &mut Vec<u8>, name: &str) -> Result<(), NoMemory>
    ensures { OnOk result (into.new.items ≡ into.old.items ++ after_space name.now) }
{
    put_text(into, b" ")?;
    put_text(into, name.as_bytes())
}

fn put_window(into: &mut Vec<u8>, program: &Program, window: &Window) -> Result<(), NoMemory>
    ensures { OnOk result
        (into.new.items ≡ into.old.items ++ window_line program.now window.now) }
{
    put_text(into, resource_word(window.resource).as_bytes())?;
    put_name(into, module_name(program, window.module))?;
    put_name(into, mode_name(program, window.module, window.mode))?;
    put_number(into, u64::from(window.invocation))?;
    put_number(into, u64::from(window.offset))?;
    put_number(into, u64::from(window.length))?;
    put_text(into, b"\n")
}

/// The text of a schedule: a line for each window. A number that has no name in the program prints
/// nothing in the name's place.
pub fn print_sched(
    alloc: Global,
    schedule: &Schedule,
    program: &Program,
) -> Result<Vec<u8>, NoMemory>
    ensures { IfOk result (λ text. text.items ≡ schedule_text schedule.now program.now) }
{
    let mut text = Vec::new(alloc);
    for window in schedule.windows.as_slice() {
        put_window(&mut text, program, window)?;
    }
    Ok(text)
}
