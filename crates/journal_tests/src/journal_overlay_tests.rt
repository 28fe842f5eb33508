//! Places that are added and dropped.
ghost use Rattle.std.specs.Prelude.{◌<◌};

use journal_overlay::{EntryPlace, Memory, Overlay};
use std::alloc::Global;
use std::process::Abort;
use std::test::Fail;

/// An overlay with block 5 in sections 1, 2 and 3, in this order, and a block in each of 4 sections beside.
fn three_sections(alloc: Global) -> Result<Overlay, Memory> {
    let mut overlay = Overlay::with_capacity(alloc, 8)?;
    for (block, section, entry) in [(5, 1, 0), (6, 1, 1), (5, 2, 0), (7, 2, 1), (5, 3, 0)] {
        if overlay.spare() >= 1 {
            overlay.add(block, EntryPlace { section, entry });
        }
    }
    Ok(overlay)
}

#[test]
fn an_older_place_is_the_newest_again(rt: HostRuntime) -> Result<(), Fail> {
    let first = EntryPlace {
        section: 1,
        entry: 0,
    };
    let last = EntryPlace {
        section: 3,
        entry: 0,
    };
    // The section that is dropped, the newest place of block 5 then, and how many more places can be kept.
    for (section, newest, spare) in [
        (1, last, 5),
        (2, last, 5),
        (
            3,
            EntryPlace {
                section: 2,
                entry: 0,
            },
            4,
        ),
    ] {
        let mut overlay = three_sections(rt.alloc())?;
        assert_eq!(rt; overlay.spare(), 3);
        overlay.drop_section(section);
        assert_eq!(rt;
            overlay.newest(5),
            Some(newest),
            "without section {section}"
        );
        assert_eq!(rt; overlay.spare(), spare, "without section {section}");
    }
    let mut overlay = three_sections(rt.alloc())?;
    overlay.drop_section(2);
    overlay.drop_section(3);
    assert_eq!(rt; overlay.newest(5), Some(first));
    assert_eq!(rt; overlay.newest(7), None);
    overlay.drop_section(1);
    assert_eq!(rt; overlay.newest(5), None);
    assert_eq!(rt; overlay.spare(), 8);
    Ok(())
}

#[test]
fn an_overlay_without_memory_is_refused(rt: HostRuntime) -> Result<(), Fail> {
    assert!(rt; Overlay::with_capacity(rt.alloc(), u64::MAX).is_err());
    let overlay = Overlay::with_capacity(rt.alloc(), 0)?;
    assert_eq!(rt; overlay.spare(), 0);
    assert_eq!(rt; overlay.newest(0), None);
    Ok(())
}
