ghost use Rattle.std.specs.Prelude.{◌≡◌, IfOk};
ghost use Rattle.tdl_make.specs.PlainBundle as plain;
ghost use Rattle.tdl_plain.specs.Runnable.{IsRunnable};

use crate::parts::{argument, blocks, sensor, table};
use std::alloc::Global;
use tdl_base::{Listed, ModuleId, NoMemory, Text};
use tdl_image::{Bundle, CallEntry, Hosted, Image, ImageWindow, ReleaseEntry};
use tdl_plain::Form;

fn hosted(alloc: Global, form: &Form) -> Result<Hosted, NoMemory>
    requires { IsRunnable form.now }
    ensures { IfOk result (λ host. host ≡ plain.plain_hosted form.now) }
{
    let call = CallEntry {
        task: 0,
        args: Listed::only(alloc, argument(alloc)?)?,
    };
    let release = ReleaseEntry {
        mode: 0,
        invocation: 1,
        call: 0,
    };
    let window = ImageWindow {
        bus: false,
        mode: 0,
        invocation: 1,
        offset: 0,
        length: form.worst as u32,
    };
    Ok(Hosted {
        number: ModuleId(0),
        name: Text::from_str(alloc, form.module.as_str())?,
        sensors: Listed::only(alloc, sensor(alloc, &form.sensor)?)?,
        actuators: Listed::new(alloc),
        tasks: Listed::only(alloc, table(alloc, form)?)?,
        modes: Listed::only(alloc, Text::from_str(alloc, form.mode.as_str())?)?,
        calls: Listed::only(alloc, call)?,
        releases: Listed::only(alloc, release)?,
        guards: Listed::new(alloc),
        drivers: Listed::new(alloc),
        windows: Listed::only(alloc, window)?,
        blocks: blocks(alloc, form)?,
        entry: 0,
    })
}

/// The bundle of a plain program, its module on the one node `n1`, or NoMemory.
pub fn plain_bundle(alloc: Global, form: &Form) -> Result<Bundle, NoMemory>
    requires { IsRunnable form.now }
    ensures { IfOk result (λ bundle. bundle ≡ plain.plain_bundle form.now) }
{
    let image = Image {
        node: Text::from_str(alloc, "n1")?,
        declared: 11,
        hosted: Listed::only(alloc, hosted(alloc, form)?)?,
        stubs: Listed::new(alloc),
    };
    Ok(Bundle {
        images: Listed::only(alloc, image)?,
    })
}
