//! Stubs and their tables at the front of bytes.
ghost use Rattle.tdl_decode.specs.BundleReading.{stub_task_in, receive_in, stub_in};

use crate::fields::{any_short, any_word, short, string};
use crate::flaw::Flaw;
use crate::lists::{Numbered, Part, ascending, listed, long_listed};
use std::alloc::Global;
use tdl_base::ModuleId;
use tdl_image::{Receive, Stub, StubTask};

impl Numbered for StubTask {
    ghost reading = { stub_task_in };

    ghost number_of = { λ task. task.number };

    #[tactic(auto, unfolding(crate::specs::BundleReading::stub_task_in))]
    fn read(alloc: Global, least: u32, bytes: &[u8]) -> Result<(StubTask, &[u8]), Flaw> {
        let (number, bytes) = short(bytes, 4, least, u16::MAX)?;
        let (name, bytes) = string(alloc, bytes)?;
        let (outputs, bytes) = listed(alloc, bytes)?;
        let task = StubTask {
            number,
            name,
            outputs,
        };
        Ok((task, bytes))
    }

    fn number(&self) -> u16 {
        self.number
    }
}

impl Part for Receive {
    ghost reading = { receive_in };

    #[tactic(auto, unfolding(crate::specs::BundleReading::receive_in))]
    fn read(_alloc: Global, bytes: &[u8]) -> Result<(Receive, &[u8]), Flaw> {
        let (mode, bytes) = any_short(bytes)?;
        let (invocation, bytes) = any_short(bytes)?;
        let (task, bytes) = any_short(bytes)?;
        let (delta, bytes) = any_word(bytes)?;
        let (block, bytes) = any_word(bytes)?;
        let entry = Receive {
            mode,
            invocation,
            task,
            delta,
            block,
        };
        Ok((entry, bytes))
    }
}

impl Numbered for Stub {
    ghost reading = { stub_in };

    ghost number_of = { λ stub. stub.number.0 };

    #[tactic(auto, unfolding(crate::specs::BundleReading::stub_in))]
    fn read(alloc: Global, least: u32, bytes: &[u8]) -> Result<(Stub, &[u8]), Flaw> {
        let (number, bytes) = short(bytes, 4, least, u16::MAX)?;
        let (name, bytes) = string(alloc, bytes)?;
        let (tasks, bytes) = ascending(alloc, bytes)?;
        let (entries, bytes) = listed(alloc, bytes)?;
        let (blocks, bytes) = long_listed(alloc, bytes)?;
        let stub = Stub {
            number: ModuleId(number),
            name,
            tasks,
            entries,
            blocks,
        };
        Ok((stub, bytes))
    }

    fn number(&self) -> u16 {
        self.number.0
    }
}
