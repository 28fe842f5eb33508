//! A sink that holds bytes in memory.
ghost use Rattle.std.specs.Prelude.{◌≡◌, ◌⊎◌, ◌≤◌, ◌<◌, ◌++◌, ◌↔◌, [], length, min, take, Some, IsErr, IfOk, OnErr};
ghost use Rattle.disk_model.specs.Causes.{HasCause};
ghost use Rattle.sector_disk.specs.Faults.{FailsNext, unused_plan, with_call, with_fault};

use crate::Sink;
use sector_disk::{Counted, Failed, FaultPlan, MOST_FAILING, Memory};
use std::alloc::Global;
use std::marker::Model;

/// Holds what it has taken, up to its room. The room is taken from memory when it is made.
#[derive(Drop)]
pub struct MemSink {
    held: Vec<u8>,
    room: usize,
    plan: FaultPlan,
}

impl Model for MemSink {
    ghost use Rattle.std.specs.Prelude.{◌≤◌, length, vec_capacity};
    ghost use Rattle.stream_io.specs.InMemory.{SinkState};

    ghost Value = { SinkState };

    ghost view = { λ sink. record { held = sink.held.items; room = sink.room; plan = sink.plan } };

    ghost invariant = { λ sink. (length sink.held.items ≤ sink.room) × (sink.room ≤ vec_capacity sink.held) };
}

impl MemSink {
    /// Makes a sink that holds nothing, with room for so many bytes. No call of it is to fail.
    ///
    /// # Errors
    ///
    /// - `Memory`: there is none for these.
    pub fn new(alloc: Global, room: usize) -> Result<MemSink, Memory>
        ensures held { IfOk result (λ sink. sink.held ≡ []) }
        ensures room { IfOk result (λ sink. sink.room ≡ room) }
        ensures plan { IfOk result (λ sink. sink.plan ≡ unused_plan) }
    {
        let held = Vec::with_capacity(alloc, room)?;
        Ok(MemSink {
            held,
            room,
            plan: FaultPlan::new(),
        })
    }

    /// What it has taken, from its beginning on.
    pub fn bytes(&self) -> &[u8]
        ensures { result.now ≡ self.now.held }
    {
        &self.held
    }

    /// Sets which calls of `write` are to fail, in place of those that were set before. Calls are numbered from 1,
    /// since the sink was made, failed ones included.
    pub fn fail_at(&mut self, calls: &[u64])
        requires { length calls.now ≤ MOST_FAILING }

        ensures { self.new ≡ record self.old {
          plan = record self.old.plan { failing = record { items = calls.now } };
        } }
    {
        self.plan.fail_at(calls);
    }
}

impl Counted for MemSink {
    ghost faults = { λ sink. sink.plan.faults };
}

impl Sink for MemSink {
    ghost use Rattle.stream_io.specs.InMemory.{room_left};

    ghost held = { λ sink. Some sink.held };

    fn write(&mut self, bytes: &[u8]) -> Result<usize, Failed>
        ensures count { IfOk result (λ n. n ≡ min (length bytes.now) (room_left self.old)) }
        ensures written { IfOk result (λ n. self.new ≡ record self.old {
          held = self.old.held ++ take n bytes.now;
          plan = with_call self.old.plan;
        }) }

        ensures fails { IsErr result ↔ (FailsNext self.old.plan
            ⊎ ((0 < length bytes.now) × (room_left self.old ≡ 0))) }
        ensures cause { HasCause self.old.plan.faults self.new.plan.faults result }
        ensures err { OnErr result (self.new
            ≡ record self.old { plan = with_fault (with_call self.old.plan) }) }
    {
        self.plan.begin()?;
        let n = bytes.len().min(self.room - self.held.len());
        if n == 0 && !bytes.is_empty() {
            return Err(self.plan.fault());
        }
        self.held.extend_from_slice(&bytes[..n]).unwrap();
        Ok(n)
    }
}
