//! An image is checked as a whole, and its bad blocks are listed.
ghost use Rattle.std.specs.Prelude.{◌≡◌, IfOk, None, OnOk};
ghost use Rattle.disk_model.specs.Disk.{last_image};
ghost use Rattle.disk_model.specs.Identity.{IsBound};
ghost use Rattle.disk_model.specs.Moments.{HasNow};
ghost use Rattle.hmac_tag.specs.TagMaker.{key_of};
ghost use Rattle.image_refusal.specs.Calls.{HasCallCause};
ghost use Rattle.judging_model.specs.Faults.{fault_in};
ghost use Rattle.check_model.specs.Faults.{TellsFault, fault_for};
ghost use Rattle.check_model.specs.Report.{IsReportOn, with_found};
ghost use Rattle.image_check.specs.Checked.{IsCheckOf, IsSameCheck, bad_in};

use crate::{Bad, CheckedImage, Report, What};
use hmac_tag::Hash;
use image_refusal::{CallFault, OpenFault};
use sector_disk::{Disk, Memory};
use std::alloc::Global;

/// Checks an image, and lists its bad blocks. Nothing is written. Memory is taken for the journal where it is looked
/// at, for what is read, and for the list.
///
/// # Errors
///
/// - `Head`, `Journal`, `Disk`, `Memory`: as `CheckedImage::open` tells them.
/// - `Disk`: the disk failed at a read of tags, blocks or the bitmap.
/// - `Memory`: there is none for the list.
pub fn check<D: Disk>(
    alloc: Global,
    disk: &mut D,
    hash: Hash,
    what: What,
) -> Result<Report, CallFault<OpenFault>>
    requires { IsBound (D.identity disk.old).name }

    ensures report { IfOk result (λ report. HasNow (λ c. IsReportOn what (key_of hash)
        (D.identity disk.old).sectors (last_image c) report) (D.moments disk.old)) }

    ensures refused { TellsFault result (fault_for what (key_of hash) (D.identity disk.old).sectors)
        (D.moments disk.old) }
    ensures cause { HasCallCause (D.faults disk.old) (D.faults disk.new) result }

    ensures identity { D.identity disk.new ≡ D.identity disk.old }
    ensures kept { D.moments disk.new ≡ D.moments disk.old }
{
    let mut image = CheckedImage::open(alloc, disk, hash, what)?;
    let bad = list_bad(alloc, disk, &mut image)?;
    let awaiting = image.count_awaiting(disk)?;
    Ok(Report {
        blocks: image.blocks(),
        awaiting,
        bad,
    })
}

/// The bad blocks of an image, in order.
///
/// # Errors
///
/// - `Disk`: the disk failed at a read.
/// - `Memory`: there is none for the list.
fn list_bad<D: Disk>(
    alloc: Global,
    disk: &mut D,
    image: &mut CheckedImage,
) -> Result<Vec<Bad>, CallFault<OpenFault>>
    requires image { IsCheckOf image.old (D.identity disk.old) (D.moments disk.old) }

    ensures bad { IfOk result (λ bad. HasNow (λ c. bad.items
        ≡ bad_in image.old (D.identity disk.old).sectors (last_image c)) (D.moments disk.old)) }

    ensures refused { fault_in result ≡ None }
    ensures cause { HasCallCause (D.faults disk.old) (D.faults disk.new) result }

    ensures image { IsCheckOf image.new (D.identity disk.new) (D.moments disk.new) }
    ensures same { IsSameCheck image.old image.new }
    ensures identity { D.identity disk.new ≡ D.identity disk.old }
    ensures kept { D.moments disk.new ≡ D.moments disk.old }
{
    let mut list = Vec::new(alloc);
    for block in 0..image.blocks() {
        let found = image.judge(disk, block)?;
        add_found(&mut list, found)?;
    }
    Ok(list)
}

/// Adds a block that was found, if it was.
///
/// # Errors
///
/// - `Memory`: there is none for it.
fn add_found(list: &mut Vec<Bad>, found: Option<Bad>) -> Result<(), Memory>
    ensures { OnOk result (list.new.items ≡ with_found found list.old.items) }
{
    let Some(bad) = found else {
        return Ok(());
    };
    if list.push(bad).is_err() {
        return Err(Memory);
    }
    Ok(())
}
