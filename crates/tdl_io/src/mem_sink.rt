ghost use Rattle.std.specs.Prelude.{◌≡◌, ◌≤◌, ◌↔◌, [], Some, IfOk, IsErr, IsTrue};
ghost use Rattle.tdl_io.specs.MemSink.{put_fails, after_put};

use crate::{Sink, SinkFailed};
use std::alloc::Global;
use std::marker::Model;
use tdl_base::NoMemory;

/// A sink in memory, of a fixed room, some of whose puts fail.
#[derive(Drop)]
pub struct MemSink {
    bytes: Vec<u8>,
    room: usize,
    fail: Vec<u64>,
    puts: u64,
    faults: u64,
}

impl Model for MemSink {
    ghost use Rattle.std.specs.Prelude.{◌≤◌, vec_len, vec_capacity};
    ghost use Rattle.tdl_io.specs.MemSink.{SinkState};

    ghost Value = { SinkState };

    ghost view = { λ s. record {
      bytes = s.bytes.items;
      room = s.room;
      fail = s.fail.items;
      puts = s.puts;
      faults = s.faults;
    } };

    ghost invariant = { λ s. (vec_len s.bytes ≤ s.room) × (s.room ≤ vec_capacity s.bytes) };
}

impl MemSink {
    /// Takes memory for `room` bytes, and none later. Puts are counted from 1, and those whose
    /// numbers are in `fail` are told to fail.
    pub fn new(alloc: Global, room: usize, fail: Vec<u64>) -> Result<MemSink, NoMemory>
        ensures { IfOk result (λ sink. sink
            ≡ record { bytes = []; room = room; fail = fail.items; puts = 0; faults = 0 }) }
    {
        Ok(MemSink {
            bytes: Vec::with_capacity(alloc, room)?,
            room,
            fail,
            puts: 0,
            faults: 0,
        })
    }

    /// The bytes that it holds.
    pub fn bytes(&self) -> &[u8]
        ensures { result.now ≡ self.now.bytes }
    {
        self.bytes.as_slice()
    }
}

impl Sink for MemSink {
    ghost told = { λ s. record { contents = Some s.bytes; faults = s.faults } };

    /// Fails where it is told to or has too little room, nowhere else, and leaves all as it was.
    fn put(&mut self, bytes: &[u8]) -> Result<(), SinkFailed>
        ensures answer { IsErr result ↔ IsTrue (put_fails self.old bytes.now) }
        ensures after { self.new ≡ after_put self.old bytes.now }
        ensures later { self.old.faults ≤ self.new.faults }
    {
        self.puts = self.puts.saturating_add(1);
        if self.fail.contains(&self.puts) || bytes.len() > self.room - self.bytes.len() {
            self.faults = self.faults.saturating_add(1);
            return Err(SinkFailed);
        }
        self.bytes.extend_from_slice(bytes).unwrap();
        Ok(())
    }
}
