//! A named source over bytes in memory.
ghost use Rattle.std.specs.Prelude.{◌≡◌, ◌≤◌, ◌↔◌, ℕ, List, length, min, drop, Some, IsErr, IsOk, IfOk, OnOk, OnErr};
ghost use Rattle.std.proofs.Common.{ap, refl};
ghost use Rattle.disk_model.specs.Causes.{HasCause};
ghost use Rattle.disk_model.specs.Identity.{AnyName, IsBoundTo};
ghost use Rattle.sector_disk.specs.Faults.{FailsNext, unused_plan, with_call, with_fault};
ghost use Rattle.stream_io.specs.Stream.{Gives};

use crate::{MemSource, NamedSource, Source};
use sector_disk::{Counted, Failed, MOST_FAILING, Named};
use std::marker::Model;

/// Gives bytes that it borrows, under whatever name it is bound to. It takes no memory.
#[derive(Drop)]
pub struct MemFile<'b> {
    source: MemSource<'b>,
}

impl<'b> Model for MemFile<'b> {
    ghost use Rattle.stream_io.specs.InMemory.{SourceState};

    ghost Value = { SourceState };

    ghost view = { λ file. file.source };
}

impl<'b> MemFile<'b> {
    /// Makes a source that has all these bytes left. No call of it is to fail.
    pub fn new(bytes: &'b [u8]) -> MemFile<'b>
        ensures left { result.left ≡ bytes.now }
        ensures plan { result.plan ≡ unused_plan }
    {
        MemFile {
            source: MemSource::new(bytes),
        }
    }

    /// Sets which calls of `read` are to fail, in place of those that were set before. Calls are numbered from 1,
    /// since the source was made, failed ones included.
    pub fn fail_at(&mut self, calls: &[u64])
        requires { length calls.now ≤ MOST_FAILING }

        ensures { self.new ≡ record self.old {
          plan = record self.old.plan { failing = record { items = calls.now } };
        } }
    {
        self.source.fail_at(calls);
    }
}

impl Counted for MemFile<'_> {
    ghost faults = { λ file. file.plan.faults };
}

impl Named for MemFile<'_> {
    ghost binding = { λ file. AnyName };

    ghost tells_same = { λ name a b. b.left ≡ a.left };

    fn bind(&mut self, _name: &str) -> Result<(), Failed>
        ensures ok { IsOk result }
        ensures bound { OnOk result (IsBoundTo _name.now AnyName) }

        ensures cause { HasCause self.old.plan.faults self.new.plan.faults result }

        ensures same { self.new.left ≡ self.old.left }
        ensures kept { self.new ≡ self.old }
    {
        Ok(())
    }
}

impl NamedSource for MemFile<'_> {
    ghost left = { λ file. Some file.left };

    ghost named = { λ file name. Some file.left };

    fn read(&mut self, buffer: &mut [u8]) -> Result<usize, Failed>
        ensures count { IfOk result (λ n. n ≡ min (length buffer.new) (length self.old.left)) }
        ensures read { IfOk result (λ n. Gives n buffer.new self.old.left) }
        ensures rest { IfOk result (λ n. drop n buffer.new ≡ drop n buffer.old) }
        ensures left { IfOk result (λ n. self.new
            ≡ record { left = drop n self.old.left; plan = with_call self.old.plan }) }

        ensures fails { IsErr result ↔ FailsNext self.old.plan }
        ensures cause { HasCause self.old.plan.faults self.new.plan.faults result }
        ensures err { OnErr result (self.new
            ≡ record self.old { plan = with_fault (with_call self.old.plan) }) }
    {
        self.source.read(buffer)
    }

    ghost named_if_bound = { λ file name bound. refl };

    ghost same_named = { λ name a b bytes same told. ap (λ (x : List ℕ). Some x) same };
}
