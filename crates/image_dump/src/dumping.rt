//! Shows an image: first its format is read and judged, then its journal, or its bitmap.
ghost use Rattle.std.specs.Prelude.{◌≡◌, true, Err, IfErr, IfOk, IsOk, Ok};
ghost use Rattle.disk_model.specs.Disk.{last_image};
ghost use Rattle.disk_model.specs.Identity.{IsBound};
ghost use Rattle.disk_model.specs.Moments.{HasNow};
ghost use Rattle.image_model.specs.declared.flags.TheConstants.{DIRTY_BITMAP};
ghost use Rattle.image_model.specs.Superblock.{has_flag};
ghost use Rattle.image_format.specs.Format.{IsFormat, format_of};
ghost use Rattle.image_refusal.specs.Calls.{HasCallCause, TellsCause};
ghost use Rattle.dump_model.specs.Dump.{dump_in, dump_of};

use crate::{Dump, DumpJournal};
use bitmap_reading::count_dirty;
use commit_id::scan;
use image_format::{ImageFormat, read_format};
use image_refusal::{CallFault, DumpFault};
use journal_reading::{GridRoom, read_grid};
use sector_disk::Disk;
use sector_window::SectorWindow;
use std::alloc::Global;

/// How many sectors of a bitmap one call of the disk reads at most.
///
/// Own: 64 KiB of them.
const BITMAP_WINDOW: u64 = 128;

/// Shows what is on an image. It takes no key and judges no entry, and nothing is written. Memory is taken for
/// the scan of a journal, or for a run of sectors of a bitmap.
///
/// # Errors
///
/// The first that holds:
///
/// - `Disk`, `Head`: as `read_format` tells them.
/// - `Memory`: there is none for the numbers of the journal, or for what is read of the bitmap.
/// - `Disk`: the disk failed at a read of either.
/// - `Scan`: there is no bitmap, and the numbers of the journal make no plan.
pub fn dump<D: Disk>(alloc: Global, disk: &mut D) -> Result<Dump, CallFault<DumpFault>>
    requires { IsBound (D.identity disk.old).name }

    ensures format { IfOk result (λ dump. IsFormat (D.identity disk.old).sectors dump.format) }

    ensures told { IfOk result (λ dump. HasNow (λ c. Ok dump
        ≡ dump_of (D.identity disk.old).sectors (last_image c)) (D.moments disk.old)) }
    ensures refused { IfErr result (TellsCause (dump_of (D.identity disk.old).sectors) (D.moments disk.old)) }
    ensures memory { result ≡ Err CallFault.Memory → HasNow (λ c.
        IsOk (format_of (D.identity disk.old).sectors (last_image c))) (D.moments disk.old) }
    ensures cause { HasCallCause (D.faults disk.old) (D.faults disk.new) result }

    ensures identity { D.identity disk.new ≡ D.identity disk.old }
    ensures kept { D.moments disk.new ≡ D.moments disk.old }
{
    let format = read_format(disk)?;
    show(alloc, disk, format)
}

/// Shows an image in this format, which is its own.
///
/// # Errors
///
/// As `dump` has them, but for the format.
fn show<D: Disk>(
    alloc: Global,
    disk: &mut D,
    format: ImageFormat,
) -> Result<Dump, CallFault<DumpFault>>
    requires bound { IsBound (D.identity disk.old).name }
    requires format { IsFormat (D.identity disk.old).sectors format }

    ensures format { IfOk result (λ dump. dump.format ≡ format) }

    ensures told { IfOk result (λ dump. HasNow (λ c. Ok dump ≡ dump_in format (last_image c)) (D.moments disk.old)) }
    ensures refused { IfErr result (TellsCause (dump_in format) (D.moments disk.old)) }
    ensures cause { HasCallCause (D.faults disk.old) (D.faults disk.new) result }

    ensures identity { D.identity disk.new ≡ D.identity disk.old }
    ensures kept { D.moments disk.new ≡ D.moments disk.old }
{
    if format.has_bitmap() {
        return show_bitmap(alloc, disk, format);
    }
    let room = GridRoom::new(alloc, &format.geometry)?;
    let grid = read_grid(disk, &format.geometry, room)?;
    match scan(&grid) {
        Ok(plan) => Ok(Dump {
            format,
            journal: DumpJournal::State(plan.state),
        }),
        Err(fault) => Err(CallFault::Refused(DumpFault::Scan(fault))),
    }
}

/// Shows an image in this format, which is its own, and has a bitmap.
///
/// # Errors
///
/// - `Memory`: there is none for what is read of the bitmap.
/// - `Disk`: the disk failed at a read.
fn show_bitmap<D: Disk>(
    alloc: Global,
    disk: &mut D,
    format: ImageFormat,
) -> Result<Dump, CallFault<DumpFault>>
    requires bound { IsBound (D.identity disk.old).name }
    requires format { IsFormat (D.identity disk.old).sectors format }
    requires bitmap { has_flag DIRTY_BITMAP format.fields.flags ≡ true }

    ensures format { IfOk result (λ dump. dump.format ≡ format) }

    ensures told { IfOk result (λ dump. HasNow (λ c. Ok dump ≡ dump_in format (last_image c)) (D.moments disk.old)) }
    ensures refused { IfErr result (TellsCause (dump_in format) (D.moments disk.old)) }
    ensures cause { HasCallCause (D.faults disk.old) (D.faults disk.new) result }

    ensures identity { D.identity disk.new ≡ D.identity disk.old }
    ensures kept { D.moments disk.new ≡ D.moments disk.old }
{
    let mut window = SectorWindow::new(alloc, BITMAP_WINDOW)?;
    let set = count_dirty(disk, &format.geometry, &mut window)?;
    let journal = DumpJournal::Bitmap { set };
    Ok(Dump { format, journal })
}
