//! Lines on small images in memory, in each mode, and what they tell.
ghost use Rattle.disk_model.specs.Identity.{IsBound};

use device::{Consent, Device, OpenMode};
use hmac_tag::Hash;
use image_formatting::{ImageMode, NewImage, Padding, Wipe, format};
use script_session::{Tickets, run_line};
use script_text::{Actor, Ask, Line, LineEnd, TagsFound};
use sector_disk::{Disk, MemDisk};
use sector_pool::Region;
use std::alloc::Global;
use std::test::Fail;
use stream_io::MemSink;

/// What a new image is to be: a journal of one section, of 8 metadata sectors and 80 entries of one sector.
const NEW: NewImage = NewImage {
    tag_size: 32,
    log2_spb: 0,
    log2_interleave: 3,
    mode: ImageMode::Journal,
    sections: 1,
    log2_region: 15,
    salt: None,
    padding: Padding::Fixed,
    wipe: Wipe::Kept,
};

/// A write of block 5, each byte of which is this one.
fn fill_of(byte: u8) -> Ask<'static> {
    Ask::Fill {
        first: 5,
        count: 1,
        byte,
        fua: false,
    }
}

/// A new image on a disk of 256 sectors: 80 blocks of zeros, whose tags are zeros too.
fn new_disk(alloc: Global) -> Result<MemDisk, Fail> {
    let mut disk = MemDisk::new(alloc, 256, 2000)?;
    format(alloc, &mut disk, Hash::Sha256, NEW)?;
    Ok(disk)
}

/// Runs lines with a device of its own in a mode, up to the first that is ended. None where it is not opened.
fn run_lines<D: Disk>(
    alloc: Global,
    disk: &mut D,
    mode: OpenMode,
    lines: &[Line<'_>],
    out: &mut MemSink,
) -> Option<Result<TagsFound, LineEnd>>
    requires { IsBound (D.identity disk.old).name }
{
    let mut region = Region::new();
    let Ok(mut device) = Device::open(alloc, disk, &mut region, Hash::Sha256, mode) else {
        return None;
    };
    let mut tickets = Tickets::new(alloc);
    let mut last = TagsFound::Matching;
    for line in lines {
        if !device.has_ticket() {
            break;
        }
        match run_line(alloc, &mut device, &mut tickets, line, out) {
            Ok(found) => last = found,
            Err(end) => {
                let _ = device.close();
                return Some(Err(end));
            }
        }
    }
    let _ = device.close();
    Some(Ok(last))
}

#[test]
fn a_request_in_flight_is_told_when_it_is_taken(rt: HostRuntime) -> Result<(), Fail> {
    let mut disk = new_disk(rt.alloc())?;
    let mut out = MemSink::new(rt.alloc(), 200)?;
    let read = Ask::Read { first: 5, count: 1 };
    let lines = [
        Line::Ask {
            start: false,
            ask: fill_of(0xaa),
        },
        Line::Ask {
            start: true,
            ask: read,
        },
        Line::Take { ticket: 2 },
        Line::Serve { ticket: 2 },
        Line::Take { ticket: 2 },
    ];
    let ended = run_lines(
        rt.alloc(),
        &mut disk,
        OpenMode::Direct(Consent::Withheld),
        &lines,
        &mut out,
    );
    assert_eq!(rt; ended, Some(Ok(TagsFound::Matching)));
    let told = "ok write 5 1\nticket 2\nnot done\ndone\nok read 5 1 aa*512\n";
    assert_eq!(rt; out.bytes(), told.as_bytes());
    Ok(())
}

#[test]
fn steps_in_journal_mode_are_told(rt: HostRuntime) -> Result<(), Fail> {
    let mut disk = new_disk(rt.alloc())?;
    let mut out = MemSink::new(rt.alloc(), 200)?;
    let commit = Line::Step {
        actor: Actor::Commit,
    };
    let lines = [
        Line::Ask {
            start: false,
            ask: fill_of(0xaa),
        },
        commit,
        commit,
        Line::Ask {
            start: false,
            ask: Ask::Read { first: 5, count: 1 },
        },
    ];
    let ended = run_lines(
        rt.alloc(),
        &mut disk,
        OpenMode::Journal(Consent::Withheld),
        &lines,
        &mut out,
    );
    assert_eq!(rt; ended, Some(Ok(TagsFound::Matching)));
    let told = "ok write 5 1\ndid\nidle\nok read 5 1 aa*512\n";
    assert_eq!(rt; out.bytes(), told.as_bytes());
    Ok(())
}
