//! A source over bytes in memory.
ghost use Rattle.std.specs.Prelude.{◌≡◌, ◌≤◌, ◌↔◌, length, min, drop, Some, IsErr, IfOk, OnErr};
ghost use Rattle.disk_model.specs.Causes.{HasCause};
ghost use Rattle.sector_disk.specs.Faults.{FailsNext, unused_plan, with_call, with_fault};
ghost use Rattle.stream_io.specs.Stream.{Gives};

use crate::Source;
use sector_disk::{Counted, Failed, FaultPlan, MOST_FAILING};
use std::marker::Model;

/// Gives bytes that it borrows. It takes no memory.
#[derive(Drop)]
pub struct MemSource<'b> {
    left: &'b [u8],
    plan: FaultPlan,
}

impl<'b> Model for MemSource<'b> {
    ghost use Rattle.stream_io.specs.InMemory.{SourceState};

    ghost Value = { SourceState };

    ghost view = { λ source. record { left = source.left.now; plan = source.plan } };
}

impl<'b> MemSource<'b> {
    /// Makes a source that has all these bytes left. No call of it is to fail.
    pub fn new(bytes: &'b [u8]) -> MemSource<'b>
        ensures left { result.left ≡ bytes.now }
        ensures plan { result.plan ≡ unused_plan }
    {
        MemSource {
            left: bytes,
            plan: FaultPlan::new(),
        }
    }

    /// Sets which calls of `read` are to fail, in place of those that were set before. Calls are numbered from 1,
    /// since the source was made, failed ones included.
    pub fn fail_at(&mut self, calls: &[u64])
        requires { length calls.now ≤ MOST_FAILING }

        ensures { self.new ≡ record self.old {
          plan = record self.old.plan { failing = record { items = calls.now } };
        } }
    {
        self.plan.fail_at(calls);
    }
}

impl Counted for MemSource<'_> {
    ghost faults = { λ source. source.plan.faults };
}

impl Source for MemSource<'_> {
    ghost left = { λ source. Some source.left };

    fn read(&mut self, buffer: &mut [u8]) -> Result<usize, Failed>
        ensures count { IfOk result (λ n. n ≡ min (length buffer.new) (length self.old.left)) }
        ensures read { IfOk result (λ n. Gives n buffer.new self.old.left) }
        ensures rest { IfOk result (λ n. drop n buffer.new ≡ drop n buffer.old) }
        ensures left { IfOk result (λ n. self.new
            ≡ record { left = drop n self.old.left; plan = with_call self.old.plan }) }

        ensures fails { IsErr result ↔ FailsNext self.old.plan }
        ensures cause { HasCause self.old.plan.faults self.new.plan.faults result }
        ensures err { OnErr result (self.new
            ≡ record self.old { plan = with_fault (with_call self.old.plan) }) }
    {
        self.plan.begin()?;
        let n = buffer.len().min(self.left.len());
        buffer[..n].copy_from_slice(&self.left[..n]);
        self.left = &self.left[n..];
        Ok(n)
    }
}
