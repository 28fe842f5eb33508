//! The requests of a workload.
//!
//! Each is told by the next number of a linear congruential generator, with the constants of Knuth's MMIX. No request
//! is kept, so that a workload of any length takes no memory.
ghost use Rattle.std.specs.Prelude.{◌≡◌, ◌≤◌};
ghost use Rattle.workload_model.specs.Workload.{next_number, workload_ask};
ghost use Rattle.script_text.specs.Line.{ask_of};

use script_text::Ask;
use std::marker::Model;

const MULTIPLIER: u64 = 6364136223846793005;

const INCREMENT: u64 = 1442695040888963407;

/// The workload of a seed on a device: requests that fill, read and flush.
#[derive(Drop)]
pub struct Workload {
    /// The number that told the last request: the seed where none is told yet.
    number: u64,
    blocks: u64,
}

impl Model for Workload {
    ghost use Rattle.std.specs.Prelude.{◌≤◌};
    ghost use Rattle.workload.specs.Workload.{WorkloadState};

    ghost Value = { WorkloadState };

    ghost view = { λ w. record { number = w.number; blocks = w.blocks } };

    ghost invariant = { λ w. 1 ≤ w.blocks };
}

impl Workload {
    /// The workload of this seed on a device of so many blocks, before its first request.
    pub fn new(seed: u64, blocks: u64) -> Workload
        requires { 1 ≤ blocks }

        ensures { result ≡ record { number = seed; blocks = blocks } }
    {
        Workload {
            number: seed,
            blocks,
        }
    }

    /// The next request. There always is one.
    ///
    /// Own: `docs/COMMANDS.md`, the workload.
    pub fn next_ask(&mut self) -> Ask<'static>
        ensures ask { ask_of result ≡ workload_ask self.new.number self.old.blocks }
        ensures number { self.new ≡ record self.old { number = next_number self.old.number } }
    {
        self.number = number_after(self.number);
        ask_by_number(self.number, self.blocks)
    }
}

/// The number behind this one.
fn number_after(x: u64) -> u64
    ensures { result ≡ next_number x }
{
    x.wrapping_mul(MULTIPLIER).wrapping_add(INCREMENT)
}

/// The request that a number tells.
fn ask_by_number(x: u64, blocks: u64) -> Ask<'static>
    requires blocks { 1 ≤ blocks }

    ensures { ask_of result ≡ workload_ask x blocks }
{
    let first = (x >> 32) % (1 << 28) % blocks;
    let count = (1 + x % 4).min(blocks - first);
    match x >> 60 {
        0..=8 => Ask::Fill {
            first,
            count,
            byte: ((x >> 8) % 256) as u8,
            fua: false,
        },
        9..=13 => Ask::Read { first, count },
        _ => Ask::Flush,
    }
}
