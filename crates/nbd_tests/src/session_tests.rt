//! Sessions on small images in memory.
use device::{Consent, Device, OpenMode};
use hmac_tag::Hash;
use image_formatting::{ImageMode, NewImage, Padding, Wipe, format};
use nbd_session::{Ended, SessionFault, session};
use sector_disk::{Counted, Disk, Failed, MemDisk};
use sector_pool::Region;
use std::alloc::Global;
use std::test::Fail;
use stream_io::{MemSink, MemSource, Source};

/// A journal of one section, with 80 blocks of one sector.
const NEW: NewImage = NewImage {
    tag_size: 32,
    log2_spb: 0,
    log2_interleave: 3,
    mode: ImageMode::Journal,
    sections: 1,
    log2_region: 15,
    salt: None,
    padding: Padding::Fixed,
    wipe: Wipe::Wiped,
};

/// The images have nothing to be recalculated.
const JOURNAL: OpenMode = OpenMode::Journal(Consent::Withheld);

/// Gives so many bytes at a time, at most, and tells how often it was read.
#[derive(Drop)]
struct Slow<'b> {
    source: MemSource<'b>,
    most: usize,
}

impl Counted for Slow<'_> {
    ghost faults = { λ slow. slow.source.plan.faults };
}

impl Source for Slow<'_> {
    ghost use Rattle.std.specs.Prelude.{Some};

    ghost left = { λ slow. Some slow.source.left };

    fn read(&mut self, buffer: &mut [u8]) -> Result<usize, Failed> {
        let most = buffer.len().min(self.most).max(1);
        if buffer.is_empty() {
            return Ok(0);
        }
        self.source.read(&mut buffer[..most])
    }
}

fn new_disk(alloc: Global, wipe: Wipe) -> Result<MemDisk, Fail> {
    let mut disk = MemDisk::new(alloc, 256, 4000)?;
    format(alloc, &mut disk, Hash::Sha256, NewImage { wipe, ..NEW })?;
    Ok(disk)
}

/// The 28 bytes of a request.
fn request(kind: u8, cookie: u8, offset: u16, length: u16) -> [u8; 28] {
    let mut bytes = [0; 28];
    bytes[..4].copy_from_slice(&[0x25, 0x60, 0x95, 0x13]);
    bytes[7] = kind;
    bytes[15] = cookie;
    bytes[22] = (offset >> 8) as u8;
    bytes[23] = (offset & 0xff) as u8;
    bytes[26] = (length >> 8) as u8;
    bytes[27] = (length & 0xff) as u8;
    bytes
}

fn reply(error: u8, cookie: u8) -> [u8; 16] {
    [
        0x67, 0x44, 0x66, 0x98, 0, 0, 0, error, 0, 0, 0, 0, 0, 0, 0, cookie,
    ]
}

fn run_in<S: Source>(
    alloc: Global,
    mode: OpenMode,
    disk: &mut MemDisk,
    source: &mut S,
    out: &mut MemSink,
) -> Option<Result<Ended, SessionFault>> {
    let mut region = Region::new();
    let Ok(device) = Device::open(alloc, disk, &mut region, Hash::Sha256, mode) else {
        return None;
    };
    Some(session(alloc, device, source, out).0)
}

/// What a stream in pieces of so many bytes is replied in journal mode, and how it ends.
fn told(
    alloc: Global,
    disk: &mut MemDisk,
    stream: &[u8],
    most: usize,
    out: &mut MemSink,
) -> Option<Result<Ended, SessionFault>> {
    let mut source = Slow {
        source: MemSource::new(stream),
        most,
    };
    run_in(alloc, JOURNAL, disk, &mut source, out)
}

const CLOSED: Option<Result<Ended, SessionFault>> = Some(Ok(Ended::Closed { eio: false }));

const SIZES: [usize; 2] = [65_536, 1];

#[test]
fn a_read_gives_the_block(rt: HostRuntime) -> Result<(), Fail> {
    for most in SIZES {
        let mut disk = new_disk(rt.alloc(), Wipe::Wiped)?;
        let mut out = MemSink::new(rt.alloc(), 4000)?;
        let stream = request(0, 1, 0, 512);
        assert_eq!(rt;
            told(rt.alloc(), &mut disk, &stream, most, &mut out),
            CLOSED
        );
        assert_eq!(rt; out.bytes().len(), 528);
        assert_eq!(rt; &out.bytes()[..16], reply(0, 1).as_slice());
        assert_eq!(rt; &out.bytes()[16..], [0; 512].as_slice());
    }
    Ok(())
}

#[test]
fn requests_are_in_flight_together(rt: HostRuntime) -> Result<(), Fail> {
    let mut stream = Vec::new(rt.alloc());
    stream.extend_from_slice(&request(1, 1, 0, 4096))?;
    stream.extend_from_slice(&[0xaa; 4096])?;
    stream.extend_from_slice(&request(0, 2, 40448, 512))?;
    stream.extend_from_slice(&request(0, 3, 0, 512))?;
    stream.extend_from_slice(&request(2, 0, 0, 0))?;
    stream.extend_from_slice(b"what follows is ignored")?;
    let mut together = Vec::new(rt.alloc());
    together.extend_from_slice(&reply(0, 2))?;
    together.extend_from_slice(&[0; 512])?;
    together.extend_from_slice(&reply(0, 1))?;
    together.extend_from_slice(&reply(0, 3))?;
    together.extend_from_slice(&[0xaa; 512])?;
    let mut alone = Vec::new(rt.alloc());
    alone.extend_from_slice(&reply(0, 1))?;
    alone.extend_from_slice(&reply(0, 2))?;
    alone.extend_from_slice(&[0; 512])?;
    alone.extend_from_slice(&reply(0, 3))?;
    alone.extend_from_slice(&[0xaa; 512])?;
    for (most, wanted) in [(65_536, &together), (1, &alone)] {
        let mut disk = new_disk(rt.alloc(), Wipe::Wiped)?;
        let mut out = MemSink::new(rt.alloc(), 4000)?;
        assert_eq!(rt;
            told(rt.alloc(), &mut disk, &stream, most, &mut out),
            CLOSED
        );
        assert_eq!(rt; out.bytes(), wanted.as_slice(), "pieces of {most}");
    }
    Ok(())
}

#[test]
fn requests_that_cannot_be_are_refused(rt: HostRuntime) -> Result<(), Fail> {
    for (kind, offset, length) in [
        (0, 0, 0),
        (0, 0, 511),
        (0, 1, 512),
        (0, 40960, 512),
        (9, 0, 512),
        (1, 0, 0),
    ] {
        for most in SIZES {
            let mut disk = new_disk(rt.alloc(), Wipe::Wiped)?;
            let mut out = MemSink::new(rt.alloc(), 4000)?;
            let stream = request(kind, 7, offset, length);
            assert_eq!(rt;
                told(rt.alloc(), &mut disk, &stream, most, &mut out),
                CLOSED
            );
            assert_eq!(rt;
                out.bytes(),
                reply(22, 7).as_slice(),
                "{kind} {offset} {length}"
            );
        }
    }
    Ok(())
}

/// The bytes of a write that is refused are taken, and what stands behind them is the next request.
#[test]
fn a_refused_write_changes_nothing(rt: HostRuntime) -> Result<(), Fail> {
    let mut stream = Vec::new(rt.alloc());
    stream.extend_from_slice(&request(1, 4, 1, 512))?;
    stream.extend_from_slice(&[0xaa; 512])?;
    stream.extend_from_slice(&request(0, 5, 0, 512))?;
    for most in SIZES {
        let mut disk = new_disk(rt.alloc(), Wipe::Wiped)?;
        let mut out = MemSink::new(rt.alloc(), 4000)?;
        assert_eq!(rt;
            told(rt.alloc(), &mut disk, &stream, most, &mut out),
            CLOSED
        );
        assert_eq!(rt; out.bytes().len(), 544);
        assert_eq!(rt; &out.bytes()[..16], reply(22, 4).as_slice());
        assert_eq!(rt; &out.bytes()[16..32], reply(0, 5).as_slice());
        assert_eq!(rt; &out.bytes()[32..], [0; 512].as_slice());
    }
    Ok(())
}

#[test]
fn a_cut_message_and_a_wrong_magic_write_nothing(rt: HostRuntime) -> Result<(), Fail> {
    // A read of one block, but for its last byte.
    let cut = [
        0x25, 0x60, 0x95, 0x13, 0, 0, 0, 0, 0, 0, 0, 0, 0, 0, 0, 1, 0, 0, 0, 0, 0, 0, 0, 0, 0, 0, 2,
    ];
    let wrong = [0x25, 0x60, 0x95, 0x14];
    let refused = Some(Ok(Ended::Wrong { magic: 0x2560_9514 }));
    for most in SIZES {
        let mut disk = new_disk(rt.alloc(), Wipe::Wiped)?;
        let mut out = MemSink::new(rt.alloc(), 4000)?;
        assert_eq!(rt; told(rt.alloc(), &mut disk, &cut, most, &mut out), CLOSED);
        assert_eq!(rt;
            told(rt.alloc(), &mut disk, &wrong, most, &mut out),
            refused
        );
        assert_eq!(rt; out.bytes().len(), 0);
    }
    Ok(())
}

/// Nothing has given the blocks of an image that was not wiped their tags.
#[test]
fn a_damaged_block_is_told(rt: HostRuntime) -> Result<(), Fail> {
    let stream = request(0, 1, 3584, 512);
    let damaged = Some(Ok(Ended::Closed { eio: true }));
    for most in SIZES {
        let mut disk = new_disk(rt.alloc(), Wipe::Kept)?;
        let mut out = MemSink::new(rt.alloc(), 4000)?;
        assert_eq!(rt;
            told(rt.alloc(), &mut disk, &stream, most, &mut out),
            damaged
        );
        assert_eq!(rt; out.bytes(), reply(5, 1).as_slice());
    }
    Ok(())
}

/// With more requests in a piece than there are slots, all are replied to, in each mode.
#[test]
fn forty_requests_in_one_piece_are_served(rt: HostRuntime) -> Result<(), Fail> {
    let mut stream = Vec::new(rt.alloc());
    let mut wanted = Vec::new(rt.alloc());
    for cookie in 0..20 {
        stream.extend_from_slice(&request(1, cookie, 512, 512))?;
        stream.extend_from_slice(&[cookie; 512])?;
        stream.extend_from_slice(&request(3, cookie + 100, 0, 0))?;
        wanted.extend_from_slice(&reply(0, cookie))?;
        wanted.extend_from_slice(&reply(0, cookie + 100))?;
    }
    stream.extend_from_slice(&request(0, 99, 512, 512))?;
    wanted.extend_from_slice(&reply(0, 99))?;
    wanted.extend_from_slice(&[19; 512])?;
    for mode in [JOURNAL, OpenMode::Direct(Consent::Withheld)] {
        let mut disk = new_disk(rt.alloc(), Wipe::Wiped)?;
        let mut out = MemSink::new(rt.alloc(), 4000)?;
        let mut source = MemSource::new(&stream);
        assert_eq!(rt;
            run_in(rt.alloc(), mode, &mut disk, &mut source, &mut out),
            CLOSED
        );
        assert_eq!(rt; out.bytes().len(), wanted.len());
    }
    Ok(())
}

/// There are far more requests than buffers, of two sizes, and each stands on the blocks of the one before: so replies
/// come in order however the stream is cut, and a read that showed bytes of another request would be seen.
#[test]
fn buffers_come_back_and_show_nothing_of_what_they_held(rt: HostRuntime) -> Result<(), Fail> {
    let mut stream = Vec::new(rt.alloc());
    let mut wanted = Vec::new(rt.alloc());
    for cookie in 0..40 {
        stream.extend_from_slice(&request(1, cookie, 512, 2048))?;
        stream.extend_from_slice(&[cookie; 2048])?;
        wanted.extend_from_slice(&reply(0, cookie))?;
        stream.extend_from_slice(&request(0, cookie + 100, 1024, 512))?;
        wanted.extend_from_slice(&reply(0, cookie + 100))?;
        wanted.extend_from_slice(&[cookie; 512])?;
        stream.extend_from_slice(&request(1, cookie + 200, 2048, 512))?;
        stream.extend_from_slice(&[cookie + 200; 512])?;
        wanted.extend_from_slice(&reply(0, cookie + 200))?;
        stream.extend_from_slice(&request(0, cookie + 50, 1536, 1536))?;
        wanted.extend_from_slice(&reply(0, cookie + 50))?;
        wanted.extend_from_slice(&[cookie; 512])?;
        wanted.extend_from_slice(&[cookie + 200; 512])?;
        wanted.extend_from_slice(&[0; 512])?;
    }
    for most in [65_536, 700] {
        let mut disk = new_disk(rt.alloc(), Wipe::Wiped)?;
        let mut out = MemSink::new(rt.alloc(), 100_000)?;
        assert_eq!(rt;
            told(rt.alloc(), &mut disk, &stream, most, &mut out),
            CLOSED
        );
        assert_eq!(rt; out.bytes(), wanted.as_slice(), "pieces of {most}");
    }
    Ok(())
}

/// Each call of the sink fails in turn.
#[test]
fn a_sink_that_fails_ends_the_session(rt: HostRuntime) -> Result<(), Fail> {
    let stream = request(0, 1, 0, 512);
    for (call, held) in [(1, 0), (2, 16)] {
        let mut disk = new_disk(rt.alloc(), Wipe::Wiped)?;
        let mut out = MemSink::new(rt.alloc(), 4000)?;
        out.fail_at(&[call]);
        let ended = told(rt.alloc(), &mut disk, &stream, 65_536, &mut out);
        assert_eq!(rt; ended, Some(Err(SessionFault::Sink)));
        assert_eq!(rt; out.bytes().len(), held);
    }
    Ok(())
}

/// The source is asked again only where all that came is replied to: its second call fails.
#[test]
fn a_reply_comes_before_the_next_request(rt: HostRuntime) -> Result<(), Fail> {
    let mut disk = new_disk(rt.alloc(), Wipe::Wiped)?;
    let mut out = MemSink::new(rt.alloc(), 4000)?;
    let stream = request(0, 1, 0, 512);
    let mut source = MemSource::new(&stream);
    source.fail_at(&[2]);
    let ended = run_in(rt.alloc(), JOURNAL, &mut disk, &mut source, &mut out);
    assert_eq!(rt; ended, Some(Err(SessionFault::Source)));
    assert_eq!(rt; out.bytes().len(), 528);
    assert_eq!(rt; &out.bytes()[..16], reply(0, 1).as_slice());
    Ok(())
}
