//! The spelling of a stub.
ghost use Rattle.tdl_image.specs.Spelling.{stub_bytes, stub_task_bytes, receive_bytes};
ghost use Rattle.tdl_image.specs.Spellable.{IsSpellableReceive, IsSpellableStub, IsSpellableStubTask};

use crate::spelled::{Spelled, put_long_list, put_short_list};
use crate::{Receive, Stub, StubTask};
use tdl_base::NoMemory;
use tdl_base::bytes::{put_short, put_word};

impl Spelled for StubTask {
    ghost spelling = { stub_task_bytes };

    ghost spellable = { IsSpellableStubTask };

    fn put(&self, into: &mut Vec<u8>) -> Result<(), NoMemory> {
        put_short(into, self.number)?;
        self.name.put(into)?;
        put_short_list(into, &self.outputs)
    }
}

impl Spelled for Receive {
    ghost spelling = { receive_bytes };

    ghost spellable = { IsSpellableReceive };

    fn put(&self, into: &mut Vec<u8>) -> Result<(), NoMemory> {
        put_short(into, self.mode)?;
        put_short(into, self.invocation)?;
        put_short(into, self.task)?;
        put_word(into, self.delta)?;
        put_word(into, self.block)
    }
}

impl Spelled for Stub {
    ghost spelling = { stub_bytes };

    ghost spellable = { IsSpellableStub };

    fn put(&self, into: &mut Vec<u8>) -> Result<(), NoMemory> {
        put_short(into, self.number.0)?;
        self.name.put(into)?;
        put_short_list(into, &self.tasks)?;
        put_short_list(into, &self.entries)?;
        put_long_list(into, &self.blocks)
    }
}
