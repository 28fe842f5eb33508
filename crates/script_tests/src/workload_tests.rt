//! Workloads and exercises whose values were computed by a program that knows the rules alone, and a tally with faults.
ghost use Rattle.std.specs.Prelude.{◌<◌};

use hmac_tag::Tag;
use request_slots::{Bytes, Reply};
use script_text::Ask;
use std::test::Fail;
use workload::{Tally, Workload, tallies_go_on};

fn fill(first: u64, count: u64, byte: u8) -> Ask<'static> {
    Ask::Fill {
        first,
        count,
        byte,
        fua: false,
    }
}

#[test]
fn a_seed_tells_the_requests(rt: HostRuntime) {
    tallies_go_on();
    let read = Ask::Read {
        first: 82,
        count: 2,
    };
    let mut workload = Workload::new(0, 328);
    for wanted in [fill(198, 4, 129), fill(241, 3, 109), read] {
        assert_eq!(rt; workload.next_ask(), wanted);
    }
    let mut workload = Workload::new(7, 328);
    for wanted in [fill(132, 3, 251), Ask::Flush, Ask::Flush] {
        assert_eq!(rt; workload.next_ask(), wanted);
    }
    // On one block each request is for that.
    let mut workload = Workload::new(0, 1);
    assert_eq!(rt; workload.next_ask(), fill(0, 1, 129));
}

#[test]
fn a_fault_is_counted_and_its_bytes_are_not(rt: HostRuntime) -> Result<(), Fail> {
    let mut tally = Tally::new();
    assert!(rt; !tally.finds_fault());
    tally.add_reply(&Reply::Written {
        bytes: Bytes::from_vec(Vec::from_slice(rt.alloc(), &[7; 512])?),
    });
    tally.add_reply(&Reply::Flushed);
    tally.add_reply(&Reply::Read {
        buffer: Bytes::from_vec(Vec::from_slice(rt.alloc(), &[255; 512])?),
    });
    tally.add_reply(&Reply::TagFault {
        block: 5,
        stored: Tag::from_bytes(&[0, 255]),
        computed: Tag::from_bytes(&[30, 1]),
        buffer: Bytes::from_vec(Vec::from_slice(rt.alloc(), &[9; 512])?),
    });
    assert!(rt; tally.finds_fault());
    let text = tally.text(rt.alloc())?;
    let wanted = b"fills 0 reads 0 flushes 0 faults 1 sum 130560\n";
    assert_eq!(rt; text.as_slice(), wanted.as_slice());
    Ok(())
}
