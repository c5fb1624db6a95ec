ghost use Rattle.std.specs.Prelude.{◌≡◌, ◌≤◌, ◌<◌, ◌-◌, ◌↔◌, ◌⊎◌, ◌++◌, length, take, min, Some, [], IfOk, OnErr, IsErr, Contains};
ghost use Rattle.outside.specs.Counts.{raised};

use crate::{Sink, SinkFault};
use std::alloc::{AllocError, Global};
use std::marker::Model;

/// An output in memory, for tests.
#[derive(Drop)]
pub struct MemorySink {
    bytes: Vec<u8>,
    room: usize,
    bite: usize,
    fails: Vec<u64>,
    calls: u64,
    faults: u64,
}

impl Model for MemorySink {
    ghost use Rattle.std.specs.Prelude.{◌≤◌, vec_len, vec_capacity};
    ghost use Rattle.outside.specs.Memory.{MemoryOutput};

    ghost Value = { MemoryOutput };

    ghost view = { λ s. record {
      bytes = s.bytes.items;
      room = s.room;
      bite = s.bite;
      fails = s.fails.items;
      calls = s.calls;
      faults = s.faults;
    } };

    ghost invariant = { λ s. (1 ≤ s.bite) × (s.room ≤ vec_capacity s.bytes)
        × (vec_len s.bytes ≤ s.room) };
}

impl MemorySink {
    /// A sink that holds `room` bytes, reserved here, takes at most `bite` bytes a write, and fails
    /// at the writes whose numbers stand in `fails`, where the first write is 0. A write of a piece
    /// that is not empty fails too where no room is left.
    pub fn new(
        alloc: Global,
        room: usize,
        bite: usize,
        fails: Vec<u64>,
    ) -> Result<MemorySink, AllocError>
        requires { 1 ≤ bite }
        ensures { IfOk result (λ sink. sink ≡ record {
          bytes = [];
          room = room;
          bite = bite;
          fails = fails.items;
          calls = 0;
          faults = 0;
        }) }
    {
        Ok(MemorySink {
            bytes: Vec::with_capacity(alloc, room)?,
            room,
            bite,
            fails,
            calls: 0,
            faults: 0,
        })
    }

    /// What was written so far.
    pub fn written(&self) -> &[u8]
        ensures { result.now ≡ self.now.bytes }
    {
        self.bytes.as_slice()
    }
}

impl Sink for MemorySink {
    ghost written = { λ s. Some s.bytes };

    ghost faults = { λ s. s.faults };

    fn write(&mut self, piece: &[u8]) -> Result<usize, SinkFault>
        ensures fails { IsErr result ↔ (Contains self.old.fails self.old.calls
            ⊎ ((0 < length piece.now) × (self.old.room ≤ length self.old.bytes))) }
        ensures count { IfOk result (λ n. n ≡ min (min (length piece.now) self.old.bite)
            (self.old.room - length self.old.bytes)) }
        ensures some { IfOk result (λ n. 0 < length piece.now → 0 < n) }
        ensures taken { IfOk result (λ n. self.new ≡ record self.old {
          bytes = self.old.bytes ++ take n piece.now;
          calls = raised self.old.calls 1;
        }) }
        ensures failed { OnErr result (self.new ≡ record self.old {
          calls = raised self.old.calls 1;
          faults = raised self.old.faults 1;
        }) }
        ensures faults_last { self.old.faults ≤ self.new.faults }
    {
        let failing = self.fails.contains(&self.calls);
        self.calls = self.calls.saturating_add(1);
        let is_full = self.bytes.len() >= self.room && !piece.is_empty();
        if failing || is_full {
            self.faults = self.faults.saturating_add(1);
            return Err(SinkFault::Failed);
        }
        let count = piece.len().min(self.bite).min(self.room - self.bytes.len());
        match self.bytes.extend_from_slice(&piece[..count]) {
            Ok(()) => Ok(count),
            Err(_) => unreachable!(),
        }
    }
}
