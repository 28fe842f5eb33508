//! Reads of one leg: of a block, and of blocks up to the first that does not match.
ghost use Rattle.std.specs.Prelude.{◌≡◌, ◌+◌, ◌-◌, ◌*◌, ◌^◌, ◌<◌, ◌≤◌, length, IfOk, OnOk};
ghost use Rattle.disk_model.specs.Causes.{HasCause};
ghost use Rattle.device_model.specs.Request as Asks;
ghost use Rattle.mirror_calls.specs.Given.{ReadsOne, block_buffer};
ghost use Rattle.mirror_calls.specs.Leg.{KeepsBlocks, LeavesLeg, PassesLeg, RunsLeg, TakesBlocks};

use crate::{BlocksRead, Leg, TagPair};
use request_slots::Bytes;
use sector_disk::Failed;

/// What a block gave: its bytes, or both tags where the stored one is not theirs. The buffer comes back.
#[derive(Drop)]
pub(crate) enum BlockRead {
    Given { buffer: Bytes },
    Differs { tags: TagPair, buffer: Bytes },
}

/// Reads a block of a leg.
///
/// # Errors
///
/// - `Failed`: the disk failed.
pub(crate) fn read_one<L: Leg>(leg: &mut L, block: u64, buffer: Bytes) -> Result<BlockRead, Failed>
    requires ready { L.ready leg.old }
    requires few { L.submitted leg.old + 1 < 2 ^ 64 }
    requires block { block < L.blocks leg.old }
    requires buffer { length buffer ≡ L.block_size leg.old }

    ensures read { ReadsOne L.stands_for block result leg.old }
    ensures buffer { IfOk result (λ read. length (block_buffer read) ≡ length buffer) }
    ensures stands { OnOk result (RunsLeg L.stands_for (Asks.Read block 1) leg.old leg.new) }
    ensures ready { OnOk result (L.ready leg.new) }
    ensures submitted { OnOk result (L.submitted leg.new ≡ L.submitted leg.old + 1) }

    ensures cause { HasCause (L.faults leg.old) (L.faults leg.new) result }

    ensures same { KeepsBlocks L.blocks L.block_size L.name leg.old leg.new }

    ensures moments { LeavesLeg L.stands_for L.may_be_left L.moments (Asks.Read block 1) leg.old leg.new }
{
    match leg.read_whole(block, 1, buffer) {
        Ok(BlocksRead::Given { buffer }) => Ok(BlockRead::Given { buffer }),
        Ok(BlocksRead::Differs { tags, buffer, .. }) => Ok(BlockRead::Differs { tags, buffer }),
        Err(failed) => Err(failed),
    }
}

/// How many blocks matched before the first that did not, of all that were read. The buffer has these blocks.
#[derive(Drop)]
pub(crate) struct Passed {
    pub(crate) passed: u64,
    pub(crate) buffer: Bytes,
}

/// Reads blocks of a leg in one request, up to the first that does not match.
///
/// # Errors
///
/// - `Failed`: the disk failed.
pub(crate) fn pass<L: Leg>(
    leg: &mut L,
    first: u64,
    count: u64,
    buffer: Bytes,
) -> Result<Passed, Failed>
    requires ready { L.ready leg.old }
    requires few { L.submitted leg.old + 1 < 2 ^ 64 }
    requires blocks { TakesBlocks L.blocks L.block_size first count buffer leg.old }

    ensures read { IfOk result (λ pass. PassesLeg L.stands_for (L.block_size leg.old) first pass.passed pass.buffer
        leg.old) }
    ensures buffer { IfOk result (λ pass. (pass.passed ≤ count) × (length pass.buffer ≡ length buffer)) }
    ensures stands { OnOk result (RunsLeg L.stands_for (Asks.Read first count) leg.old leg.new) }
    ensures ready { OnOk result (L.ready leg.new) }
    ensures submitted { OnOk result (L.submitted leg.new ≡ L.submitted leg.old + 1) }

    ensures cause { HasCause (L.faults leg.old) (L.faults leg.new) result }

    ensures same { KeepsBlocks L.blocks L.block_size L.name leg.old leg.new }

    ensures moments { LeavesLeg L.stands_for L.may_be_left L.moments (Asks.Read first count) leg.old leg.new }
{
    match leg.read_whole(first, count, buffer) {
        Ok(BlocksRead::Given { buffer }) => Ok(Passed {
            passed: count,
            buffer,
        }),
        Ok(BlocksRead::Differs { block, buffer, .. }) => Ok(Passed {
            passed: block - first,
            buffer,
        }),
        Err(failed) => Err(failed),
    }
}
