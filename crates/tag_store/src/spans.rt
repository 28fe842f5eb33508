//! Bytes that stand in a sector and may go on in the next one, through a cache.
ghost use Rattle.std.specs.Prelude.{◌≡◌, length, OnOk, OnErr};
ghost use Rattle.disk_model.specs.Causes.{HasCause};
ghost use Rattle.disk_model.specs.Disk.{OnlyAdds};
ghost use Rattle.disk_model.specs.Identity.{IsBound};
ghost use Rattle.disk_model.specs.Moments.{EachSince, HasNow};
ghost use Rattle.buffer_cache.specs.Cache.{sectors_of};
ghost use Rattle.buffer_cache.specs.Cached.{HasNoMark, IsOfDisk, Keeps, cached};
ghost use Rattle.tag_store.specs.Spans.{HoldsSpan, IsOfSpan, IsOutForSpan, IsSpan, MarksSpan, StoresPart, StoresSpan, span_of};

use buffer_cache::Cache;
use sector_disk::{Disk, Failed};

/// Reads the bytes from byte `from` of sector `at` on.
pub(crate) fn read_span<D: Disk>(
    disk: &mut D,
    cache: &mut Cache,
    at: u64,
    from: usize,
    out: &mut [u8],
) -> Result<(), Failed>
    requires bound { IsBound (D.identity disk.old).name }
    requires span { IsSpan at from (length out.old) (D.identity disk.old).sectors }
    requires cache { IsOfDisk (sectors_of cache.old) (D.identity disk.old) (D.moments disk.old) }

    ensures read { OnOk result (HasNow (λ c. out.new
        ≡ span_of at from (length out.old) (cached (sectors_of cache.old) c)) (D.moments disk.old)) }

    ensures cause { HasCause (D.faults disk.old) (D.faults disk.new) result }

    ensures cache { IsOfDisk (sectors_of cache.new) (D.identity disk.new) (D.moments disk.new) }
    ensures keeps { Keeps (sectors_of cache.old) (sectors_of cache.new)
        (D.moments disk.old) (D.moments disk.new) }
    ensures held { HoldsSpan at from (length out.old) (sectors_of cache.old) (sectors_of cache.new) }
    ensures identity { D.identity disk.new ≡ D.identity disk.old }

    ensures moments { EachSince (OnlyAdds (IsOutForSpan at from (length out.old) (sectors_of cache.old)))
        (D.moments disk.old) (D.moments disk.new) }
    ensures unwritten { HasNoMark (sectors_of cache.old) → D.moments disk.new ≡ D.moments disk.old }
{
    let len = out.len();
    let size = len.min(512 - from);
    let (first, rest) = out.split_at_mut(size);
    cache.read_at(disk, at, from, first)?;
    if size == len {
        return Ok(());
    }
    cache.read_at(disk, at + 1, 0, rest)
}

/// Puts bytes in place of those from byte `from` of sector `at` on.
pub(crate) fn write_span<D: Disk>(
    disk: &mut D,
    cache: &mut Cache,
    at: u64,
    from: usize,
    bytes: &[u8],
) -> Result<(), Failed>
    requires bound { IsBound (D.identity disk.old).name }
    requires span { IsSpan at from (length bytes.now) (D.identity disk.old).sectors }
    requires cache { IsOfDisk (sectors_of cache.old) (D.identity disk.old) (D.moments disk.old) }

    ensures stored { OnOk result (StoresSpan at from bytes.now (sectors_of cache.old) (sectors_of cache.new)
        (D.moments disk.old) (D.moments disk.new)) }

    ensures cause { HasCause (D.faults disk.old) (D.faults disk.new) result }
    ensures err { OnErr result (StoresPart at from bytes.now (sectors_of cache.old) (sectors_of cache.new)
        (D.moments disk.old) (D.moments disk.new)) }

    ensures cache { IsOfDisk (sectors_of cache.new) (D.identity disk.new) (D.moments disk.new) }
    ensures sectors { HoldsSpan at from (length bytes.now) (sectors_of cache.old) (sectors_of cache.new)
        × MarksSpan at from (length bytes.now) (sectors_of cache.old) (sectors_of cache.new) }
    ensures identity { D.identity disk.new ≡ D.identity disk.old }

    ensures moments { EachSince (λ start. OnlyAdds
        (IsOfSpan at from bytes.now (sectors_of cache.old) start) start) (D.moments disk.old) (D.moments disk.new) }
{
    let size = bytes.len().min(512 - from);
    cache.write_at(disk, at, from, &bytes[..size])?;
    if size == bytes.len() {
        return Ok(());
    }
    cache.write_at(disk, at + 1, 0, &bytes[size..])
}
