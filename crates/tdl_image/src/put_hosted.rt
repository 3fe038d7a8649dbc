//! The spelling of a hosted module and of its tables.
ghost use Rattle.std.specs.Prelude.{◌≡◌, ◌++◌, OnOk};
ghost use Rattle.tdl_image.specs.Spelling.{task_bytes, call_bytes, release_bytes, driver_bytes, window_bytes, resource_number, declaration_bytes, table_bytes, timing_bytes, hosted_bytes};
ghost use Rattle.tdl_image.specs.Spellable.{IsSpellableTask, IsSpellableCall, IsSpellableRelease, IsSpellableDriver, IsSpellableWindow, IsSpellableHosted};

use crate::spelled::{Spelled, put_long_list, put_short_list};
use crate::{CallEntry, Driver, Hosted, ImageWindow, ReleaseEntry, TaskTable};
use tdl_base::NoMemory;
use tdl_base::bytes::{put_byte, put_short, put_word};

impl Spelled for TaskTable {
    ghost spelling = { task_bytes };

    ghost spellable = { IsSpellableTask };

    fn put(&self, into: &mut Vec<u8>) -> Result<(), NoMemory> {
        self.name.put(into)?;
        put_word(into, self.worst)?;
        put_short_list(into, &self.inputs)?;
        put_short_list(into, &self.outputs)?;
        put_short_list(into, &self.locals)?;
        self.body.put(into)
    }
}

impl Spelled for CallEntry {
    ghost spelling = { call_bytes };

    ghost spellable = { IsSpellableCall };

    fn put(&self, into: &mut Vec<u8>) -> Result<(), NoMemory> {
        put_short(into, self.task)?;
        put_short_list(into, &self.args)
    }
}

impl Spelled for ReleaseEntry {
    ghost spelling = { release_bytes };

    ghost spellable = { IsSpellableRelease };

    fn put(&self, into: &mut Vec<u8>) -> Result<(), NoMemory> {
        put_short(into, self.mode)?;
        put_short(into, self.invocation)?;
        put_short(into, self.call)
    }
}

impl Spelled for Driver {
    ghost spelling = { driver_bytes };

    ghost spellable = { IsSpellableDriver };

    fn put(&self, into: &mut Vec<u8>) -> Result<(), NoMemory> {
        put_short(into, self.actuator)?;
        self.value.put(into)
    }
}

impl Spelled for ImageWindow {
    ghost spelling = { window_bytes };

    ghost spellable = { IsSpellableWindow };

    fn put(&self, into: &mut Vec<u8>) -> Result<(), NoMemory> {
        put_byte(into, number_of(self.bus))?;
        put_short(into, self.mode)?;
        put_short(into, self.invocation)?;
        put_word(into, self.offset)?;
        put_word(into, self.length)
    }
}

// The number of a window's resource.
fn number_of(bus: bool) -> u8
    ensures { result ≡ resource_number bus }
{
    if bus { 1 } else { 0 }
}

fn put_declarations(into: &mut Vec<u8>, host: &Hosted) -> Result<(), NoMemory>
    requires { IsSpellableHosted host.now }
    ensures { OnOk result (into.new.items ≡ into.old.items ++ declaration_bytes host.now) }
{
    put_short(into, host.number.0)?;
    host.name.put(into)?;
    put_short_list(into, &host.sensors)?;
    put_short_list(into, &host.actuators)?;
    put_short_list(into, &host.tasks)?;
    put_short_list(into, &host.modes)
}

fn put_tables(into: &mut Vec<u8>, host: &Hosted) -> Result<(), NoMemory>
    requires { IsSpellableHosted host.now }
    ensures { OnOk result (into.new.items ≡ into.old.items ++ table_bytes host.now) }
{
    put_short_list(into, &host.calls)?;
    put_short_list(into, &host.releases)?;
    put_short_list(into, &host.guards)?;
    put_short_list(into, &host.drivers)
}

fn put_timing(into: &mut Vec<u8>, host: &Hosted) -> Result<(), NoMemory>
    requires { IsSpellableHosted host.now }
    ensures { OnOk result (into.new.items ≡ into.old.items ++ timing_bytes host.now) }
{
    put_long_list(into, &host.windows)?;
    put_long_list(into, &host.blocks)?;
    put_word(into, host.entry)
}

impl Spelled for Hosted {
    ghost spelling = { hosted_bytes };

    ghost spellable = { IsSpellableHosted };

    fn put(&self, into: &mut Vec<u8>) -> Result<(), NoMemory> {
        put_declarations(into, self)?;
        put_tables(into, self)?;
        put_timing(into, self)
    }
}
