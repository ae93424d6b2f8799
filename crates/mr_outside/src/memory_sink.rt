ghost use Rattle.std.specs.Prelude.{Some, ℕ, ◌≡◌, ◌≤◌, ◌<◌, ◌-◌, ◌+◌, ◌⊎◌, ◌↔◌, ◌++◌, ◌∷◌, [], min, length, IsTrue, IfOk, OnOk, OnErr};
ghost use Rattle.mr_outside.specs.Calls.{no_calls, failing_at, called, fails_next};
ghost use Rattle.mr_outside.specs.Count.{risen};
ghost use Rattle.mr_outside.specs.Sink.{Takes};

use crate::calls::Calls;
use crate::{Put, Sink};
use mr_base::Memory;
use std::alloc::Global;
use std::marker::Model;

/// A sink that tells its bytes, and fails where it is full or a call was told to fail.
#[derive(Drop)]
pub struct MemorySink {
    bytes: Vec<u8>,
    room: u64,
    calls: Calls,
    faults: u64,
}

impl Model for MemorySink {
    ghost use Rattle.std.specs.Prelude.{◌≤◌, vec_len, vec_capacity};
    ghost use Rattle.mr_outside.specs.MemorySink.{SinkState};

    ghost Value = { SinkState };

    ghost view = { λ s. record {
      bytes = s.bytes.items;
      room = s.room;
      calls = s.calls;
      faults = s.faults;
    } };

    ghost invariant = { λ s. (vec_len s.bytes ≤ s.room) × (s.room ≤ vec_capacity s.bytes) };
}

impl MemorySink {
    /// An empty sink that takes `room` bytes in all. Its memory is taken at once.
    pub fn new(alloc: Global, room: u64) -> Result<MemorySink, Memory>
        ensures { IfOk result (λ sink. sink ≡ record { bytes = []; room = room; calls = no_calls; faults = 0 }) }
    {
        Ok(MemorySink {
            bytes: Vec::with_capacity(alloc, room as usize)?,
            room,
            calls: Calls::new(alloc),
            faults: 0,
        })
    }

    /// Makes the call of `write` of this number fail, which is then a fault. The calls are numbered from 1.
    pub fn fail_at(&mut self, call: u64) -> Result<(), Memory>
        ensures ok { OnOk result (self.new ≡ record self.old { calls = failing_at call self.old.calls }) }
        ensures err { OnErr result (self.new ≡ self.old) }
    {
        self.calls.fail_at(call)
    }

    /// The bytes that it took, in their order.
    pub fn bytes(&self) -> &[u8]
        ensures { result.now ≡ self.now.bytes }
    {
        &self.bytes
    }
}

impl Sink for MemorySink {
    ghost held = { λ s. Some s.bytes };

    ghost count = { λ s. s.faults };

    fn write(&mut self, piece: &[u8]) -> Put
        requires { 0 < length piece.now }
        ensures takes { Takes (Some self.old.bytes) (Some self.new.bytes) result piece.now }
        ensures later { self.old.faults ≤ self.new.faults }
        ensures quiet { (n : ℕ) → result ≡ Put.Took n → self.new.faults ≡ self.old.faults }

        ensures failed { (result ≡ Put.Failed)
            ↔ ((self.old.room ≤ length self.old.bytes) ⊎ IsTrue (fails_next self.old.calls)) }
        ensures took { (n : ℕ) → result ≡ Put.Took n
            → n ≡ min (length piece.now) (self.old.room - length self.old.bytes) }
        ensures counted { result ≡ Put.Failed → self.new.faults ≡ risen self.old.faults }
        ensures rest { (self.new.room ≡ self.old.room) × (self.new.calls ≡ called self.old.calls) }
    {
        let fails = self.calls.next_fails();
        let left = self.room - self.bytes.len() as u64;
        if fails || left == 0 {
            self.faults = self.faults.saturating_add(1);
            return Put::Failed;
        }
        let n = piece.len().min(left as usize);
        let Ok(()) = self.bytes.extend_from_slice(&piece[..n]) else {
            unreachable!()
        };
        Put::Took(n)
    }

    fn faults(&self) -> u64 {
        self.faults
    }
}
