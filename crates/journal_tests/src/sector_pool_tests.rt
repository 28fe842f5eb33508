//! Runs of a small region, split, written and joined.
use sector_pool::{Region, Run};
use std::process::Abort;
use std::test::Fail;

/// Whether a run begins at `place` and has `len` sectors.
fn is_at(run: &Run<'_>, place: u64, len: u64) -> bool {
    run.place() == place && run.len() == len && run.bytes().len() as u64 == len * 512
}

#[test]
fn parts_are_written_by_turns_and_keep_their_bytes(rt: HostRuntime) -> Result<(), Fail> {
    let mut region = Region::new();
    region.reserve(rt.alloc(), 4)?;
    let (mut front, back) = region.whole().split(1);
    let (mut middle, mut back) = back.split(2);
    back.bytes_mut().fill(3);
    front.bytes_mut().fill(1);
    middle.bytes_mut().fill(2);
    front.bytes_mut()[511] = 9;
    let Ok(back) = middle.join(back) else {
        return Err("not joined".into());
    };
    let whole = front.join(back).ok().ok_or("not joined")?;
    for (at, value) in [(0, 1), (511, 9), (512, 2), (1535, 2), (1536, 3), (2047, 3)] {
        assert_eq!(rt; whole.bytes().get(at), Some(&value), "byte {at}");
    }
    // The region has what was left in its runs.
    let again = region.whole();
    assert_eq!(rt; again.bytes().get(511), Some(&9));
    assert_eq!(rt; again.bytes().get(2047), Some(&3));
    Ok(())
}

#[test]
fn a_region_without_memory_is_one_empty_run(rt: HostRuntime) -> Result<(), Fail> {
    let mut region = Region::new();
    assert!(rt; is_at(&region.whole(), 0, 0));
    assert!(rt; region.reserve(rt.alloc(), u64::MAX).is_err());
    assert!(rt; region.reserve(rt.alloc(), 1 << 54).is_err());
    assert!(rt; is_at(&region.whole(), 0, 0));
    region.reserve(rt.alloc(), 2)?;
    assert!(rt; is_at(&region.whole(), 0, 2));
    Ok(())
}
