//! Dropping the places of the sections that were freed.
ghost use Rattle.std.specs.Prelude.{◌≡◌, ◌+◌, ◌<◌};
ghost use Rattle.journal_mode.specs.Freeing.{DropsFreed};
ghost use Rattle.journal_ring.specs.Places.{oldest_at, oldest_of};
ghost use Rattle.journal_ring.specs.Sections.{wrap};

use journal_overlay::Overlay;
use journal_ring::Ring;

/// The section behind this one, in a ring of so many.
fn behind(section: u64, sections: u64) -> u64
    requires { section < sections }

    ensures section { result ≡ wrap sections (section + 1) }
    ensures inside { result < sections }
{
    if section + 1 < sections {
        section + 1
    } else {
        0
    }
}

/// Drops the places of the sections from this one on that are free, up to the first that is not.
fn drop_from(overlay: &mut Overlay, ring: &Ring<'_>, from: u64)
    requires from { from < ring.now.geometry.sections }

    ensures capacity { overlay.new.capacity ≡ overlay.old.capacity }
    ensures kept { DropsFreed from oldest_at ring.now overlay.old.kept overlay.new.kept }
{
    let sections = ring.sections();
    let mut section = from;
    for _k in 0..sections {
        if !ring.is_free(section) {
            return;
        }
        overlay.drop_section(section);
        section = behind(section, sections);
    }
}

/// Drops the places of the sections that were freed, where `oldest` was the oldest section before.
pub(crate) fn drop_freed(overlay: &mut Overlay, ring: &Ring<'_>, oldest: Option<u64>)
    ensures capacity { overlay.new.capacity ≡ overlay.old.capacity }
    ensures kept { DropsFreed oldest oldest_of ring.now overlay.old.kept overlay.new.kept }
{
    let Some(from) = oldest else {
        return;
    };
    if from < ring.sections() {
        drop_from(overlay, ring, from);
    }
}
