ghost use Rattle.std.specs.Prelude.{◌≡◌, ◌↔◌, IfOk, IsTrue};
ghost use Rattle.tdl_image.specs.Spellable.{IsSpellable};
ghost use Rattle.tdl_make.specs.FormIn as reading;
ghost use Rattle.tdl_make.specs.PlainBundle.{IsPlainBundle};

use crate::plain_bundle;
use std::alloc::Global;
use tdl_base::{NoMemory, Text};
use tdl_ecode::EInstr;
use tdl_image::{Bundle, Hosted, TaskTable, write_bundle};
use tdl_plain::Form;

/// A name for the input that is not the output's.
fn input_beside(output: &str) -> &'static str
    ensures { result.now ≡ reading.input_beside output.now }
{
    if output == "a" { "b" } else { "a" }
}

fn ahead(instr: EInstr) -> u32
    ensures { result ≡ reading.ahead instr }
{
    match instr {
        EInstr::Future(delay, _) => delay,
        _ => 0,
    }
}

#[tactic(auto, unfolding(crate::specs::FormIn::cycle_in))]
fn cycle_in(host: &Hosted) -> Option<u32>
    ensures { result ≡ reading.cycle_in host.now }
{
    let block = host.blocks.get(1)?;
    let instr = block.code.get(1)?;
    Some(ahead(*instr))
}

#[tactic(auto, unfolding(crate::specs::FormIn::host_form))]
fn host_form(
    alloc: Global,
    host: &Hosted,
    task: &TaskTable,
    cycle: u32,
) -> Result<Option<Form>, NoMemory>
    ensures { IfOk result (λ form. form ≡ reading.host_form host.now task.now cycle) }
{
    let Some(sensor) = host.sensors.get(0) else {
        return Ok(None);
    };
    let Some(mode) = host.modes.get(0) else {
        return Ok(None);
    };
    let Some(output) = task.outputs.get(0) else {
        return Ok(None);
    };
    Ok(Some(Form {
        module: Text::from_str(alloc, host.name.as_str())?,
        sensor: Text::from_str(alloc, sensor.name.as_str())?,
        task: Text::from_str(alloc, task.name.as_str())?,
        worst: u64::from(task.worst),
        input: Text::from_str(alloc, input_beside(output.name.as_str()))?,
        output: Text::from_str(alloc, output.name.as_str())?,
        initial: output.initial.cast_unsigned(),
        mode: Text::from_str(alloc, mode.as_str())?,
        period: u64::from(cycle / 1000),
    }))
}

/// The form whose names and numbers stand in the tables, or NoMemory.
#[tactic(auto, unfolding(crate::specs::FormIn::form_in))]
fn form_in(alloc: Global, bundle: &Bundle) -> Result<Option<Form>, NoMemory>
    ensures { IfOk result (λ form. form ≡ reading.form_in bundle.now) }
{
    let Some(image) = bundle.images.get(0) else {
        return Ok(None);
    };
    let Some(host) = image.hosted.get(0) else {
        return Ok(None);
    };
    let Some(task) = host.tasks.get(0) else {
        return Ok(None);
    };
    let Some(cycle) = cycle_in(host) else {
        return Ok(None);
    };
    host_form(alloc, host, task, cycle)
}

/// Whether the bundle is that of a plain program, or NoMemory.
pub fn is_plain_bundle(alloc: Global, bundle: &Bundle) -> Result<bool, NoMemory>
    requires { IsSpellable bundle.now }
    ensures { IfOk result (λ plain. IsTrue plain ↔ IsPlainBundle bundle.now) }
{
    let Some(form) = form_in(alloc, bundle)? else {
        return Ok(false);
    };
    if !form.is_plain() {
        return Ok(false);
    }
    let made = plain_bundle(alloc, &form)?;
    let spelling = write_bundle(alloc, bundle)?;
    let spelled = write_bundle(alloc, &made)?;
    Ok(spelling.as_slice() == spelled.as_slice())
}
