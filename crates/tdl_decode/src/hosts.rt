//! Hosted modules and their tables at the front of bytes.
ghost use Rattle.tdl_decode.specs.BundleReading.{sensor_in, initial_in, task_in, call_in, release_in, driver_in, window_in, hosted_in};

use crate::codes::resource;
use crate::fields::{any_short, any_word, long, short, string, word};
use crate::flaw::Flaw;
use crate::lists::{Numbered, Part, listed, long_listed};
use std::alloc::Global;
use tdl_base::{Kind, ModuleId, Text};
use tdl_image::{
    CallEntry, Driver, Hosted, ImageWindow, Initial, KindName, ReleaseEntry, TaskTable,
};
use tdl_stack::Code;

impl Part for Text {
    ghost use Rattle.tdl_decode.specs.Reading.{string_in};

    ghost reading = { string_in };

    fn read(alloc: Global, bytes: &[u8]) -> Result<(Text, &[u8]), Flaw> {
        string(alloc, bytes)
    }
}

impl Part for KindName {
    ghost reading = { sensor_in };

    #[tactic(auto, unfolding(crate::specs::BundleReading::sensor_in))]
    fn read(alloc: Global, bytes: &[u8]) -> Result<(KindName, &[u8]), Flaw> {
        let (kind, bytes) = Kind::read(alloc, bytes)?;
        let (name, bytes) = string(alloc, bytes)?;
        Ok((KindName { kind, name }, bytes))
    }
}

impl Part for Initial {
    ghost reading = { initial_in };

    #[tactic(auto, unfolding(crate::specs::BundleReading::initial_in))]
    fn read(alloc: Global, bytes: &[u8]) -> Result<(Initial, &[u8]), Flaw> {
        let (kind, bytes) = Kind::read(alloc, bytes)?;
        let (name, bytes) = string(alloc, bytes)?;
        let (initial, bytes) = long(bytes, kind)?;
        let port = Initial {
            kind,
            name,
            initial,
        };
        Ok((port, bytes))
    }
}

impl Part for TaskTable {
    ghost reading = { task_in };

    #[tactic(auto, unfolding(crate::specs::BundleReading::task_in))]
    fn read(alloc: Global, bytes: &[u8]) -> Result<(TaskTable, &[u8]), Flaw> {
        let (name, bytes) = string(alloc, bytes)?;
        let (worst, bytes) = word(bytes, 1, u32::MAX)?;
        let (inputs, bytes) = listed(alloc, bytes)?;
        let (outputs, bytes) = listed(alloc, bytes)?;
        let (locals, bytes) = listed(alloc, bytes)?;
        let (body, bytes) = Code::read(alloc, bytes)?;
        let task = TaskTable {
            name,
            worst,
            inputs,
            outputs,
            locals,
            body,
        };
        Ok((task, bytes))
    }
}

impl Part for CallEntry {
    ghost reading = { call_in };

    #[tactic(auto, unfolding(crate::specs::BundleReading::call_in))]
    fn read(alloc: Global, bytes: &[u8]) -> Result<(CallEntry, &[u8]), Flaw> {
        let (task, bytes) = any_short(bytes)?;
        let (args, bytes) = listed(alloc, bytes)?;
        Ok((CallEntry { task, args }, bytes))
    }
}

impl Part for ReleaseEntry {
    ghost reading = { release_in };

    #[tactic(auto, unfolding(crate::specs::BundleReading::release_in))]
    fn read(_alloc: Global, bytes: &[u8]) -> Result<(ReleaseEntry, &[u8]), Flaw> {
        let (mode, bytes) = any_short(bytes)?;
        let (invocation, bytes) = any_short(bytes)?;
        let (call, bytes) = any_short(bytes)?;
        let release = ReleaseEntry {
            mode,
            invocation,
            call,
        };
        Ok((release, bytes))
    }
}

impl Part for Driver {
    ghost reading = { driver_in };

    #[tactic(auto, unfolding(crate::specs::BundleReading::driver_in))]
    fn read(alloc: Global, bytes: &[u8]) -> Result<(Driver, &[u8]), Flaw> {
        let (actuator, bytes) = any_short(bytes)?;
        let (value, bytes) = Code::read(alloc, bytes)?;
        Ok((Driver { actuator, value }, bytes))
    }
}

impl Part for ImageWindow {
    ghost reading = { window_in };

    #[tactic(auto, unfolding(crate::specs::BundleReading::window_in))]
    fn read(_alloc: Global, bytes: &[u8]) -> Result<(ImageWindow, &[u8]), Flaw> {
        let (bus, bytes) = resource(bytes)?;
        let (mode, bytes) = any_short(bytes)?;
        let (invocation, bytes) = any_short(bytes)?;
        let (offset, bytes) = any_word(bytes)?;
        let (length, bytes) = any_word(bytes)?;
        let window = ImageWindow {
            bus,
            mode,
            invocation,
            offset,
            length,
        };
        Ok((window, bytes))
    }
}

impl Numbered for Hosted {
    ghost reading = { hosted_in };

    ghost number_of = { λ host. host.number.0 };

    #[tactic(auto, unfolding(crate::specs::BundleReading::hosted_in))]
    fn read(alloc: Global, least: u32, bytes: &[u8]) -> Result<(Hosted, &[u8]), Flaw> {
        let (number, bytes) = short(bytes, 4, least, u16::MAX)?;
        let (name, bytes) = string(alloc, bytes)?;
        let (sensors, bytes) = listed(alloc, bytes)?;
        let (actuators, bytes) = listed(alloc, bytes)?;
        let (tasks, bytes) = listed(alloc, bytes)?;
        let (modes, bytes) = listed(alloc, bytes)?;
        let (calls, bytes) = listed(alloc, bytes)?;
        let (releases, bytes) = listed(alloc, bytes)?;
        let (guards, bytes) = listed(alloc, bytes)?;
        let (drivers, bytes) = listed(alloc, bytes)?;
        let (windows, bytes) = long_listed(alloc, bytes)?;
        let (blocks, bytes) = long_listed(alloc, bytes)?;
        let (entry, bytes) = any_word(bytes)?;
        let host = Hosted {
            number: ModuleId(number),
            name,
            sensors,
            actuators,
            tasks,
            modes,
            calls,
            releases,
            guards,
            drivers,
            windows,
            blocks,
            entry,
        };
        Ok((host, bytes))
    }

    fn number(&self) -> u16 {
        self.number.0
    }
}
