//! The spelling of what hosted modules and stubs share.
ghost use Rattle.std.specs.Prelude.{◌≡◌, ⊤};
ghost use Rattle.tdl_ecode.specs.Spelling as ecode;
ghost use Rattle.tdl_stack.specs.Spelling as stack;
ghost use Rattle.tdl_image.specs.Spelling.{kind_bytes, kind_number, kind_name_bytes, initial_bytes, stack_code_bytes, block_bytes};
ghost use Rattle.tdl_image.specs.Spellable.{IsSpellableBlock, IsSpellableCode, IsSpellableInitial, IsSpellableSensor};

use crate::spelled::{Spelled, put_long_list};
use crate::{Initial, KindName};
use tdl_base::bytes::{put_byte, put_long};
use tdl_base::{Kind, NoMemory};
use tdl_ecode::{Block, EInstr, put_instr};
use tdl_stack::{Code, Instr, put_code_instr};

fn number_of(kind: Kind) -> u8
    ensures { result ≡ kind_number kind }
{
    match kind {
        Kind::Boolean => 0,
        Kind::Byte => 1,
        Kind::Short => 2,
        Kind::Int => 3,
        Kind::Long => 4,
    }
}

impl Spelled for Kind {
    ghost spelling = { kind_bytes };

    ghost spellable = { λ _. ⊤ };

    fn put(&self, into: &mut Vec<u8>) -> Result<(), NoMemory> {
        put_byte(into, number_of(*self))
    }
}

impl Spelled for KindName {
    ghost spelling = { kind_name_bytes };

    ghost spellable = { IsSpellableSensor };

    fn put(&self, into: &mut Vec<u8>) -> Result<(), NoMemory> {
        self.kind.put(into)?;
        self.name.put(into)
    }
}

impl Spelled for Initial {
    ghost spelling = { initial_bytes };

    ghost spellable = { IsSpellableInitial };

    fn put(&self, into: &mut Vec<u8>) -> Result<(), NoMemory> {
        self.kind.put(into)?;
        self.name.put(into)?;
        put_long(into, self.initial)
    }
}

impl Spelled for Instr {
    ghost spelling = { stack.instr_bytes };

    ghost spellable = { stack.IsInRange };

    fn put(&self, into: &mut Vec<u8>) -> Result<(), NoMemory> {
        put_code_instr(self, into)
    }
}

impl Spelled for Code {
    ghost spelling = { stack_code_bytes };

    ghost spellable = { IsSpellableCode };

    fn put(&self, into: &mut Vec<u8>) -> Result<(), NoMemory> {
        put_long_list(into, &self.instrs)
    }
}

impl Spelled for EInstr {
    ghost spelling = { ecode.einstr_bytes };

    ghost spellable = { ecode.IsInRange };

    fn put(&self, into: &mut Vec<u8>) -> Result<(), NoMemory> {
        put_instr(self, into)
    }
}

impl Spelled for Block {
    ghost spelling = { block_bytes };

    ghost spellable = { IsSpellableBlock };

    fn put(&self, into: &mut Vec<u8>) -> Result<(), NoMemory> {
        put_byte(into, self.phase)?;
        put_long_list(into, &self.code)
    }
}
