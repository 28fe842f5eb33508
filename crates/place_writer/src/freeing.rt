//! Freeing the oldest sections of a ring.
ghost use Rattle.std.specs.Prelude.{◌≡◌, ◌≤◌, length};
ghost use Rattle.journal_ring.specs.Places.{with_free};
ghost use Rattle.place_writer.specs.Placement.{without};

use journal_ring::Ring;

/// Makes the oldest section free, which is committed.
fn free_oldest(ring: &mut Ring<'_>)
    requires committed { 1 ≤ length ring.old.committed }

    ensures { ring.new ≡ with_free ring.old }
{
    match ring.oldest() {
        Some(section) => ring.free(section),
        None => unreachable!(),
    }
}

/// Makes the oldest sections free, so many of the committed ones.
pub(crate) fn free_sections(ring: &mut Ring<'_>, count: u64)
    requires committed { count ≤ length ring.old.committed }

    ensures { ring.new ≡ without count ring.old }
{
    for _freed in 0..count {
        free_oldest(ring);
    }
}
