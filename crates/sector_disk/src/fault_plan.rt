//! Which calls of an object in memory are to fail, as a test wants it.
ghost use Rattle.std.specs.Prelude.{◌≡◌, ◌+◌, ◌-◌, ◌^◌, ◌≤◌, ◌↔◌, ℕ, [], length, min, OnOk, OnErr, IsErr};
ghost use Rattle.disk_model.specs.Causes.{HasCause, Rose};

use crate::Failed;
use arrayvec::ArrayVec;

/// How many calls can be set to fail at once.
pub const MOST_FAILING: usize = 8;

/// Counts the calls of an object in memory and its faults, and fails the calls that a test has chosen.
#[derive(Debug, Drop)]
pub struct FaultPlan {
    /// How many calls were made, failed ones included. It stays at 2^64 - 1.
    pub calls: u64,
    /// The numbers of the calls that are to fail, counted from 1.
    pub failing: ArrayVec<u64, MOST_FAILING>,
    /// How many faults there were. It stays at 2^64 - 1.
    pub faults: u64,
}

impl FaultPlan {
    ghost use Rattle.sector_disk.specs.Faults.{FailsNext, unused_plan, with_call, with_fault};

    /// No call was made, and none is to fail.
    pub fn new() -> FaultPlan
        ensures { result ≡ unused_plan }
    {
        FaultPlan {
            calls: 0,
            failing: ArrayVec::new(),
            faults: 0,
        }
    }

    /// Sets which calls are to fail, in place of those that were set before. Calls are numbered from 1, since
    /// the object was made.
    pub fn fail_at(&mut self, calls: &[u64])
        requires { length calls.now ≤ MOST_FAILING }

        ensures { self.new ≡ record self.old { failing = record { items = calls.now } } }
    {
        self.failing.clear();
        let _ = self.failing.try_extend_from_slice(calls);
    }

    /// Counts a call, and a fault where the call is to fail.
    ///
    /// # Errors
    ///
    /// - `Failed`: the call is one of those that were set.
    pub fn begin(&mut self) -> Result<(), Failed>
        ensures ok { OnOk result (self.new ≡ with_call self.old) }

        ensures fails { IsErr result ↔ FailsNext self.old }
        ensures cause { HasCause self.old.faults self.new.faults result }
        ensures err { OnErr result (self.new ≡ with_fault (with_call self.old)) }
    {
        self.calls = self.calls.saturating_add(1);
        if self.failing.contains(&self.calls) {
            return Err(self.fault());
        }
        Ok(())
    }

    /// Counts a fault of the call that is under way.
    pub fn fault(&mut self) -> Failed
        ensures counted { self.new ≡ with_fault self.old }
        ensures rose { Rose self.old.faults self.new.faults }
        ensures later { self.old.faults ≤ self.new.faults }
    {
        self.faults = self.faults.saturating_add(1);
        Failed
    }
}
