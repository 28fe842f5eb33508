//! The first sync of an opening, and a store that is made behind it.
ghost use Rattle.std.specs.Prelude.{◌≡◌, ℕ, IfOk, OnOk};
ghost use Rattle.disk_model.specs.Causes.{HasCause};
ghost use Rattle.disk_model.specs.Disk.{newest_only};
ghost use Rattle.disk_model.specs.Identity.{IsBound};
ghost use Rattle.disk_model.specs.Moments.{EachSince, IsChangedBy};
ghost use Rattle.image_model.specs.Geometry.{IsGeometry};
ghost use Rattle.buffer_cache.specs.Cache.{sectors_of};
ghost use Rattle.buffer_cache.specs.HeldSectors.{no_sectors};
ghost use Rattle.device_opening.specs.FirstSync.{LeavesPlaced, OpensPlaced};
ghost use Rattle.tag_store.specs.Store.{IsStore};

use buffer_cache::Cache;
use layout::Geometry;
use sector_disk::{Disk, Failed};
use tag_store::Tags;

/// Syncs a disk whose image can be opened, and makes a store for its tags over a cache that holds nothing.
///
/// # Errors
///
/// - `Failed`: the disk failed.
pub(crate) fn first_sync<D: Disk>(
    disk: &mut D,
    geometry: Geometry,
    cache: Cache,
) -> Result<Tags, Failed>
    requires bound { IsBound (D.identity disk.old).name }
    requires places { IsGeometry geometry (D.identity disk.old).sectors }
    requires fresh { (slots : ℕ) × (sectors_of cache ≡ no_sectors slots) }

    ensures made { IfOk result (λ tags. tags ≡ record { geometry = geometry; sectors = sectors_of cache }) }
    ensures opened { IfOk result (λ tags. OpensPlaced (D.identity disk.old).sectors geometry tags
        (D.moments disk.old) (D.moments disk.new)) }
    ensures store { IfOk result (λ tags. IsStore tags (D.identity disk.new) (D.moments disk.new)) }
    ensures synced { OnOk result (IsChangedBy newest_only (D.moments disk.old) (D.moments disk.new)) }

    ensures cause { HasCause (D.faults disk.old) (D.faults disk.new) result }

    ensures identity { D.identity disk.new ≡ D.identity disk.old }

    ensures moments { LeavesPlaced (D.identity disk.old).sectors (D.moments disk.old) (D.moments disk.new) }
    ensures newest { EachSince (λ start c. c ≡ newest_only start) (D.moments disk.old) (D.moments disk.new) }
{
    disk.sync()?;
    Ok(Tags::new(geometry, cache))
}
