//! Requests out of pieces, as they are judged for a device of 80 blocks of 512 bytes.
use nbd_flight::Buffers;
use nbd_incoming::{Incoming, Taken};
use std::test::Fail;

/// The 28 bytes of a request.
fn request(kind: u8, cookie: u8, offset: u8, length: u8) -> [u8; 28] {
    [
        0x25, 0x60, 0x95, 0x13, 0, 0, 0, kind, 0, 0, 0, 0, 0, 0, 0, cookie, 0, 0, 0, 0, 0, 0,
        offset, 0, 0, 0, length, 0,
    ]
}

/// The cookie of a request that came whole, and how many bytes are kept of it.
fn told(taken: &Taken) -> Option<(u64, usize)> {
    match taken {
        Taken::Whole(whole) => Some((whole.request.cookie, whole.bytes.len())),
        _ => None,
    }
}

#[test]
fn a_write_is_told_with_its_last_byte(rt: HostRuntime) -> Result<(), Fail> {
    let mut buffers = Buffers::new(rt.alloc(), 512)?;
    let mut incoming = Incoming::new(80, 512);
    let (count, taken) = incoming.take(&mut buffers, &request(1, 7, 2, 2))?;
    assert_eq!(rt; (count, told(&taken)), (28, None));
    let (count, taken) = incoming.take(&mut buffers, &[0xaa; 511])?;
    assert_eq!(rt; (count, told(&taken)), (511, None));
    let (count, taken) = incoming.take(&mut buffers, &[0xbb; 100])?;
    assert_eq!(rt; (count, told(&taken)), (1, Some((7, 512))));
    Ok(())
}

/// Its bytes are taken all the same.
#[test]
fn no_byte_is_kept_of_a_write_that_is_refused(rt: HostRuntime) -> Result<(), Fail> {
    let mut buffers = Buffers::new(rt.alloc(), 512)?;
    let mut incoming = Incoming::new(1, 512);
    let (count, taken) = incoming.take(&mut buffers, &request(1, 8, 2, 2))?;
    assert_eq!(rt; (count, told(&taken)), (28, None));
    let (count, taken) = incoming.take(&mut buffers, &[0xaa; 600])?;
    assert_eq!(rt; (count, told(&taken)), (512, Some((8, 0))));
    Ok(())
}

#[test]
fn a_read_is_whole_with_its_head(rt: HostRuntime) -> Result<(), Fail> {
    let mut buffers = Buffers::new(rt.alloc(), 512)?;
    let mut incoming = Incoming::new(80, 512);
    // A read of two blocks from the first on, but for its last byte.
    let most = [
        0x25, 0x60, 0x95, 0x13, 0, 0, 0, 0, 0, 0, 0, 0, 0, 0, 0, 9, 0, 0, 0, 0, 0, 0, 0, 0, 0, 0, 2,
    ];
    let (count, taken) = incoming.take(&mut buffers, &most)?;
    assert_eq!(rt; (count, told(&taken)), (27, None));
    let (count, taken) = incoming.take(&mut buffers, &[0])?;
    assert_eq!(rt; (count, told(&taken)), (1, Some((9, 0))));
    Ok(())
}

#[test]
fn the_ends_of_a_stream_are_told(rt: HostRuntime) -> Result<(), Fail> {
    let mut buffers = Buffers::new(rt.alloc(), 512)?;
    let mut incoming = Incoming::new(80, 512);
    let (count, taken) = incoming.take(&mut buffers, &request(2, 0, 0, 0))?;
    assert_eq!(rt; count, 28);
    assert!(rt; matches!(taken, Taken::Disconnected));
    let mut wrong = Incoming::new(80, 512);
    let (count, taken) = wrong.take(&mut buffers, &[0x25, 0x60, 0x95, 0x14, 0])?;
    assert_eq!(rt; count, 4);
    assert!(rt; matches!(taken, Taken::Wrong { magic: 0x2560_9514 }));
    Ok(())
}
