//! Objects in memory that count what is asked of them. They hand each call on, and tell nothing of
//! their content.
ghost use Rattle.std.specs.Prelude.{⊤, None};
ghost use Rattle.std.proofs.Common.{refl};
ghost use Rattle.std.proofs.lemmas.Option.{none-some};
ghost use Rattle.disk_model.specs.Identity.{AnyName};

use case_text::Fails;
use sector_disk::{Counted, Failed, Memory, Named};
use std::alloc::Global;
use stream_io::{MemFile, MemSink, MemSource, NamedSource, Sink, Source};

/// A source in memory, with what was asked of it.
#[derive(Drop)]
pub struct WatchedSource<'b> {
    pub source: MemSource<'b>,
    /// How many calls failed.
    pub failed: u64,
}

impl<'b> WatchedSource<'b> {
    /// Watches a source of these bytes, of which a call may fail.
    pub fn new(bytes: &'b [u8], failing: Option<u64>) -> WatchedSource<'b> {
        let mut source = MemSource::new(bytes);
        if let Some(call) = failing {
            source.fail_at(&[call]);
        }
        WatchedSource { source, failed: 0 }
    }
}

impl Counted for WatchedSource<'_> {
    ghost faults = { λ s. s.source.plan.faults };
}

impl Source for WatchedSource<'_> {
    ghost left = { λ s. None };

    fn read(&mut self, buffer: &mut [u8]) -> Result<usize, Failed> {
        let answer = self.source.read(buffer);
        if answer.is_err() {
            self.failed = self.failed.saturating_add(1);
        }
        answer
    }
}

/// A named source in memory, with what was asked of it.
#[derive(Drop)]
pub struct WatchedFile<'b> {
    pub file: MemFile<'b>,
    /// How many calls there were, those of `bind` included.
    pub calls: u64,
    /// How many calls failed.
    pub failed: u64,
}

impl<'b> WatchedFile<'b> {
    /// Watches a source of these bytes, of which a call may fail.
    pub fn new(bytes: &'b [u8], failing: Option<u64>) -> WatchedFile<'b> {
        let mut file = MemFile::new(bytes);
        if let Some(call) = failing {
            file.fail_at(&[call]);
        }
        WatchedFile {
            file,
            calls: 0,
            failed: 0,
        }
    }
}

impl Counted for WatchedFile<'_> {
    ghost faults = { λ f. f.file.plan.faults };
}

impl Named for WatchedFile<'_> {
    ghost binding = { λ watched. AnyName };

    ghost tells_same = { λ name a b. ⊤ };

    fn bind(&mut self, name: &str) -> Result<(), Failed> {
        self.calls = self.calls.saturating_add(1);
        let answer = self.file.bind(name);
        if answer.is_err() {
            self.failed = self.failed.saturating_add(1);
        }
        answer
    }
}

impl NamedSource for WatchedFile<'_> {
    ghost left = { λ f. None };

    ghost named = { λ f name. None };

    fn read(&mut self, buffer: &mut [u8]) -> Result<usize, Failed> {
        self.calls = self.calls.saturating_add(1);
        let answer = self.file.read(buffer);
        if answer.is_err() {
            self.failed = self.failed.saturating_add(1);
        }
        answer
    }

    ghost named_if_bound = { λ f name bound. refl };

    ghost same_named = { λ name a b bytes same told. absurd (none-some bytes told) };
}

/// A sink in memory, with what was asked of it.
#[derive(Drop)]
pub struct WatchedSink {
    pub sink: MemSink,
    /// How many calls failed.
    pub failed: u64,
}

impl WatchedSink {
    /// Watches a sink, which fails so.
    pub fn new(alloc: Global, fails: Fails) -> Result<WatchedSink, Memory> {
        let mut sink = MemSink::new(alloc, fails.room as usize)?;
        if let Some(call) = fails.sink {
            sink.fail_at(&[call]);
        }
        Ok(WatchedSink { sink, failed: 0 })
    }
}

impl Counted for WatchedSink {
    ghost faults = { λ s. s.sink.plan.faults };
}

impl Sink for WatchedSink {
    ghost held = { λ s. None };

    fn write(&mut self, bytes: &[u8]) -> Result<usize, Failed> {
        let answer = self.sink.write(bytes);
        if answer.is_err() {
            self.failed = self.failed.saturating_add(1);
        }
        answer
    }
}
