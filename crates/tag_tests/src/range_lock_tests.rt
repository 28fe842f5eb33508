//! Requests that ask, wait and are released.
use range_lock::{Asked, Ranges};
use std::process::Abort;
use std::test::Fail;

#[test]
fn a_flush_takes_no_part(rt: HostRuntime) -> Result<(), Fail> {
    let mut ranges = Ranges::new(rt.alloc(), 3)?;
    for (ticket, first, count) in [(1, 0, 8), (2, 0, 0), (3, 0, 1)] {
        if ranges.has_room() {
            let _ = ranges.ask(ticket, first, count);
        }
    }
    assert!(rt; !ranges.has_room());
    assert_eq!(rt; ranges.check(2), Asked::Granted);
    assert_eq!(rt; ranges.check(3), Asked::Held { by: 1 });
    ranges.release(1);
    assert_eq!(rt; ranges.check(3), Asked::Granted);
    assert!(rt; Ranges::new(rt.alloc(), u64::MAX).is_err());
    Ok(())
}
