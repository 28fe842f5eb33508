//! An entry is put into the runs of its section.
ghost use Rattle.std.specs.Prelude.{◌≡◌, ◌*◌, ◌^◌, ◌<◌, ◌≤◌, ℕ, List, length, slice_index_or};
ghost use Rattle.std.specs.Vec.{vec_capacity};
ghost use Rattle.commit_id.specs.Shape.{as_shape, IsShape};
ghost use Rattle.image_model.specs.Section.{Entry};
ghost use Rattle.sector_pool.specs.Run.{with_bytes, Piece};
ghost use Rattle.journal_section.specs.Pieces.{with_pieces, HasPieces, PutsEntry};
ghost use Rattle.journal_ring.specs.Runs.{PutsInRuns};

use commit_id::Shape;
use hmac_tag::Tag;
use journal_section::put_entry;
use sector_pool::Run;

/// Puts entry `n` into the section whose metadata sectors are the second run of `before`, and whose entries are
/// the first runs of `behind`.
pub(crate) fn put_in(
    before: &mut Vec<Run<'_>>,
    behind: &mut Vec<Run<'_>>,
    shape: Shape,
    n: u64,
    sector: u64,
    block: &[u8],
    tag: &Tag,
)
    requires before { 2 ≤ length before.old.items }
    requires metadata { (none : Piece) → length (slice_index_or before.old.items 1 none).bytes ≡ 4096 }
    requires behind { n < length behind.old.items }
    requires parts { (none : Piece) → length (slice_index_or behind.old.items n none).bytes ≡ 512 * shape.spb }
    requires shape { IsShape shape }
    requires n { n < shape.entries }
    requires sector { sector < 2 ^ 48 }
    requires block { length block.now ≡ 512 * shape.spb }
    requires tag { length tag.now ≡ shape.tag }

    ensures put { let entry : Entry = record { sector = sector; bytes = block.now; tag = tag.now } in
        PutsInRuns (as_shape shape) n entry before.old.items behind.old.items before.new.items behind.new.items }
    ensures capacity { (vec_capacity before.new ≡ vec_capacity before.old)
        × (vec_capacity behind.new ≡ vec_capacity behind.old) }
{
    put_in_runs(
        &mut before[1],
        &mut behind[n as usize],
        shape,
        n,
        sector,
        block,
        tag,
    );
}

/// Puts entry `n` into the runs of its section's metadata sectors and of its data sectors.
fn put_in_runs(
    metadata: &mut Run<'_>,
    parts: &mut Run<'_>,
    shape: Shape,
    n: u64,
    sector: u64,
    block: &[u8],
    tag: &Tag,
)
    requires metadata { length metadata.old.bytes ≡ 4096 }
    requires parts { length parts.old.bytes ≡ 512 * shape.spb }
    requires shape { IsShape shape }
    requires n { n < shape.entries }
    requires sector { sector < 2 ^ 48 }
    requires block { length block.now ≡ 512 * shape.spb }
    requires tag { length tag.now ≡ shape.tag }

    ensures put { let entry : Entry = record { sector = sector; bytes = block.now; tag = tag.now } in
        (bytes : List ℕ) → HasPieces (as_shape shape) n metadata.old.bytes parts.old.bytes bytes
        → PutsEntry (as_shape shape) n entry bytes
        (with_pieces (as_shape shape) n metadata.new.bytes parts.new.bytes bytes) }
    ensures metadata { metadata.new ≡ with_bytes metadata.old metadata.new.bytes }
    ensures parts { parts.new ≡ with_bytes parts.old parts.new.bytes }
    ensures sizes { (length metadata.new.bytes ≡ 4096) × (length parts.new.bytes ≡ 512 * shape.spb) }
{
    put_entry(
        shape,
        metadata.bytes_mut(),
        parts.bytes_mut(),
        n,
        sector,
        block,
        tag,
    );
}
