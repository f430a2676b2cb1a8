// A source and a sink in memory, some of whose calls fail.
ghost use Rattle.std.specs.Prelude.{◌≡◌, ℕ, ◌<◌, ◌≤◌, ◌↔◌, ◌⊎◌, [], List, length, Some, IfOk, OnOk, OnErr, IsErr, Contains};
ghost use Rattle.std.specs.Io.{ReadsAtMost, WritesAtMost};
ghost use Rattle.std.specs.Io.KnownBytes.{ReadConsumes, WriteAppends};
ghost use Rattle.edge_io.specs.Faults.{CountsFaults};
ghost use Rattle.edge_io.specs.Memory.{SourceState, SinkState, given_count, after_read, after_failed_read, taken_count, after_write, after_failed_write};

use crate::stream::counted;
use crate::{Failed, Sink, Source};
use std::alloc::Global;
use std::marker::Model;

/// There was no memory.
#[derive(Clone, Copy, Debug, PartialEq, Eq)]
pub struct NoMemory;

/// A source of given bytes, which tells what is left.
#[derive(Drop)]
pub struct MemorySource {
    bytes: Vec<u8>,
    at: usize,
    failing: Vec<u32>,
    chunk: usize,
    calls: u32,
    faults: u64,
}

impl Model for MemorySource {
    ghost use Rattle.std.specs.Prelude.{ℕ, ◌≤◌, List, length, drop};
    ghost use Rattle.edge_io.specs.Memory.{SourceState};

    ghost Value = { SourceState };

    ghost view = { λ s. record {
      left = drop s.at s.bytes.items;
      failing = s.failing.items;
      chunk = s.chunk;
      calls = s.calls;
      faults = s.faults;
    } };

    ghost invariant = { λ s. (s.at ≤ length s.bytes.items) × (1 ≤ s.chunk) };
}

impl MemorySource {
    /// A source of these bytes, which gives at most `chunk` bytes a read, `chunk` being at least 1. The reads whose
    /// numbers, counted from 0, are in `failing` fail, and 2^32 - 1 stands for every read from that one on.
    pub fn new(bytes: Vec<u8>, failing: Vec<u32>, chunk: usize) -> MemorySource
        requires { 1 ≤ chunk }
        ensures { result ≡ record {
          left = bytes.items;
          failing = failing.items;
          chunk = chunk;
          calls = 0;
          faults = 0;
        } }
    {
        MemorySource {
            bytes,
            at: 0,
            failing,
            chunk,
            calls: 0,
            faults: 0,
        }
    }
}

impl Source for MemorySource {
    ghost left = { λ s. Some s.left };

    ghost faults = { λ s. s.faults };

    /// Fails exactly where the number of this read is one of the failing ones.
    fn read(&mut self, buf: &mut [u8]) -> Result<usize, Failed>
        ensures bound { ReadsAtMost result buf.new }
        ensures bytes { ReadConsumes (Some self.old.left) (Some self.new.left) result buf.new }
        ensures counted { CountsFaults self.old.faults self.new.faults result }

        ensures fails { IsErr result ↔ Contains self.old.failing self.old.calls }
        ensures count { IfOk result (λ n. n ≡ given_count self.old (length buf.old)) }
        ensures ok { OnOk result (self.new ≡ after_read self.old (length buf.old)) }
        ensures err { OnErr result (self.new ≡ after_failed_read self.old) }
    {
        let number = self.calls;
        self.calls = number.saturating_add(1);
        if self.failing.contains(&number) {
            return Err(counted(&mut self.faults));
        }
        let count = self.chunk.min(buf.len()).min(self.bytes.len() - self.at);
        buf[..count].copy_from_slice(&self.bytes[self.at..self.at + count]);
        self.at += count;
        Ok(count)
    }
}

/// A sink with room for a number of bytes, which tells what it took.
#[derive(Drop)]
pub struct MemorySink {
    bytes: Vec<u8>,
    room: usize,
    failing: Vec<u32>,
    chunk: usize,
    calls: u32,
    faults: u64,
}

impl Model for MemorySink {
    ghost use Rattle.std.specs.Prelude.{ℕ, ◌≤◌, List, length, vec_capacity};
    ghost use Rattle.edge_io.specs.Memory.{SinkState};

    ghost Value = { SinkState };

    ghost view = { λ s. record {
      taken = s.bytes.items;
      room = s.room;
      failing = s.failing.items;
      chunk = s.chunk;
      calls = s.calls;
      faults = s.faults;
    } };

    ghost invariant = { λ s. (length s.bytes.items ≤ s.room) × (s.room ≤ vec_capacity s.bytes)
        × (1 ≤ s.chunk) };
}

impl MemorySink {
    /// An empty sink with room for `room` bytes, whose memory is taken here. It takes at most `chunk` bytes a write,
    /// `chunk` being at least 1. The writes whose numbers, counted from 0, are in `failing` fail, and 2^32 - 1 stands
    /// for every write from that one on.
    pub fn new(
        alloc: Global,
        room: usize,
        failing: Vec<u32>,
        chunk: usize,
    ) -> Result<MemorySink, NoMemory>
        requires { 1 ≤ chunk }
        ensures { IfOk result (λ s. s ≡ record {
          taken = [];
          room = room;
          failing = failing.items;
          chunk = chunk;
          calls = 0;
          faults = 0;
        }) }
    {
        let Ok(bytes) = Vec::with_capacity(alloc, room) else {
            return Err(NoMemory);
        };
        Ok(MemorySink {
            bytes,
            room,
            failing,
            chunk,
            calls: 0,
            faults: 0,
        })
    }

    /// The bytes that were taken, in order.
    pub fn taken(&self) -> &[u8]
        ensures { result.now ≡ self.now.taken }
    {
        self.bytes.as_slice()
    }
}

impl Sink for MemorySink {
    ghost taken = { λ s. Some s.taken };

    ghost faults = { λ s. s.faults };

    /// Fails exactly where the number of this write is one of the failing ones, or the sink is full.
    fn write(&mut self, piece: &[u8]) -> Result<usize, Failed>
        ensures bound { WritesAtMost result piece.now }
        ensures progress { IfOk result (λ n. 0 < length piece.now → 0 < n) }
        ensures bytes { WriteAppends (Some self.old.taken) (Some self.new.taken) result piece.now }
        ensures counted { CountsFaults self.old.faults self.new.faults result }

        ensures fails { IsErr result ↔ (Contains self.old.failing self.old.calls ⊎
            (self.old.room ≤ length self.old.taken)) }
        ensures count { IfOk result (λ n. n ≡ taken_count self.old piece.now) }
        ensures ok { OnOk result (self.new ≡ after_write self.old piece.now) }
        ensures err { OnErr result (self.new ≡ after_failed_write self.old) }
    {
        let number = self.calls;
        self.calls = number.saturating_add(1);
        let free = self.room - self.bytes.len();
        if self.failing.contains(&number) {
            return Err(counted(&mut self.faults));
        }
        if free == 0 {
            return Err(counted(&mut self.faults));
        }
        let count = self.chunk.min(piece.len()).min(free);
        self.bytes.extend_from_slice(&piece[..count]).unwrap();
        Ok(count)
    }
}
