//! Requests in flight on eight blocks of two bytes each.
use hmac_tag::Tag;
use request_slots::{BlockRange, Bytes, Reply, Request, Slots, SubmitFault, Ticket, Turn};
use std::alloc::{AllocError, Global};
use std::process::Abort;
use std::test::Fail;

/// Slots for the requests of these tests.
fn eight_blocks(alloc: Global) -> Result<Slots, range_lock::Memory> {
    Slots::new(alloc, 8, 2)
}

/// These bytes.
fn bytes_of(alloc: Global, bytes: &[u8]) -> Result<Bytes, AllocError> {
    Ok(Bytes::from_vec(Vec::from_slice(alloc, bytes)?))
}

/// The ticket of a request, where it gets one.
fn submitted(slots: &mut Slots, request: Request) -> Result<Ticket, Option<SubmitFault>> {
    if !slots.has_ticket() {
        return Err(None);
    }
    slots.submit(request).map_err(|refused| Some(refused.1))
}

/// What is done next.
fn turn(slots: &Slots, ticket: &Ticket) -> Option<Turn> {
    slots.holds(ticket).then(|| slots.turn(ticket))
}

/// Reads or writes the next block, and tells what was done. A read block has these bytes.
fn serve(slots: &mut Slots, ticket: &Ticket, bytes: &[u8]) -> Option<Turn> {
    if !slots.holds(ticket) || bytes.len() != slots.block_size() {
        return None;
    }
    let turn = slots.turn(ticket);
    match turn {
        Turn::Read { .. } => slots.put_block(ticket, bytes),
        Turn::Write { .. } => slots.count_block(ticket),
        Turn::Flush => slots.finish(ticket),
        Turn::Held { .. } | Turn::Finished => {}
    }
    Some(turn)
}

/// Ends a read with a fault of its next block.
fn fail(slots: &mut Slots, ticket: &Ticket) {
    if !slots.holds(ticket) {
        return;
    }
    if let Turn::Read { block } = slots.turn(ticket) {
        let (stored, computed) = (Tag::from_bytes(&[1]), Tag::from_bytes(&[2]));
        slots.put_fault(ticket, block, stored, computed);
    }
}

/// The bytes that go back with the reply, where there is one.
fn taken(slots: &mut Slots, ticket: Ticket) -> Option<Bytes> {
    if !slots.holds(&ticket) {
        return None;
    }
    match slots.take(ticket) {
        Ok(Reply::Read { buffer } | Reply::TagFault { buffer, .. }) => Some(buffer),
        Ok(Reply::Written { bytes }) => Some(bytes),
        Ok(Reply::Flushed) | Err(_) => None,
    }
}

#[test]
fn a_read_gives_its_blocks(rt: HostRuntime) -> Result<(), Fail> {
    let mut slots = eight_blocks(rt.alloc())?;
    let buffer = bytes_of(rt.alloc(), &[0; 4])?;
    let read = Request::Read {
        first: 3,
        count: 2,
        buffer,
    };
    let ticket = submitted(&mut slots, read).expect(&rt, "it fits");
    assert_eq!(rt; ticket.number(), 1);
    assert_eq!(rt; slots.range_at(0), Some(BlockRange { first: 3, count: 2 }));
    assert_eq!(rt; slots.range_at(1), None);
    assert_eq!(rt;
        serve(&mut slots, &ticket, &[1, 2]),
        Some(Turn::Read { block: 3 })
    );
    assert_eq!(rt;
        serve(&mut slots, &ticket, &[3, 4]),
        Some(Turn::Read { block: 4 })
    );
    assert_eq!(rt; turn(&slots, &ticket), Some(Turn::Finished));
    let buffer = taken(&mut slots, ticket).expect(&rt, "it is done");
    assert_eq!(rt; buffer.as_slice(), [1, 2, 3, 4].as_slice());
    Ok(())
}

#[test]
fn an_overlapping_request_waits(rt: HostRuntime) -> Result<(), Fail> {
    let mut slots = eight_blocks(rt.alloc())?;
    let bytes = bytes_of(rt.alloc(), &[5, 6, 7, 8])?;
    let write = Request::Write {
        first: 0,
        count: 2,
        bytes,
        fua: true,
    };
    let buffer = bytes_of(rt.alloc(), &[9; 4])?;
    let read = Request::Read {
        first: 1,
        count: 2,
        buffer,
    };
    let write = submitted(&mut slots, write).expect(&rt, "it fits");
    let read = submitted(&mut slots, read).expect(&rt, "it fits");
    let flush = submitted(&mut slots, Request::Flush).expect(&rt, "there is a slot");
    assert_eq!(rt; turn(&slots, &read), Some(Turn::Held { by: 1 }));
    let first = Turn::Write {
        block: 0,
        is_flushed: false,
    };
    assert_eq!(rt; serve(&mut slots, &write, &[0, 0]), Some(first));
    let last = Turn::Write {
        block: 1,
        is_flushed: true,
    };
    assert_eq!(rt; serve(&mut slots, &write, &[0, 0]), Some(last));
    assert_eq!(rt; serve(&mut slots, &flush, &[0, 0]), Some(Turn::Flush));
    assert_eq!(rt;
        serve(&mut slots, &read, &[7, 8]),
        Some(Turn::Read { block: 1 })
    );
    fail(&mut slots, &read);
    let buffer = taken(&mut slots, read).expect(&rt, "it is done");
    assert_eq!(rt; buffer.as_slice(), [7, 8, 9, 9].as_slice());
    let bytes = taken(&mut slots, write).expect(&rt, "it is done");
    assert_eq!(rt; bytes.into_vec().as_slice(), [5, 6, 7, 8].as_slice());
    Ok(())
}
