//! Judging an image before anything is done to it.
ghost use Rattle.std.specs.Prelude.{◌≡◌, IfOk};
ghost use Rattle.disk_model.specs.Identity.{IsBound};
ghost use Rattle.image_model.specs.Cells.{salt_of};
ghost use Rattle.hmac_tag.specs.TagMaker.{key_of};
ghost use Rattle.image_refusal.specs.Calls.{HasCallCause};
ghost use Rattle.judging_model.specs.Faults.{fault_of};
ghost use Rattle.device_opening.specs.Judged.{HasJournalFormat, HasJudged, rule_of};
ghost use Rattle.device_opening.specs.Opening.{TellsFault};

use hmac_tag::{Hash, TagMaker};
use image_format::ImageFormat;
use image_judging::{Consent, judge_consent};
use image_model::FIXED_HMAC;
use image_refusal::{CallFault, OpenFault};
use journal_reading::{JudgedJournal, judge_journal};
use layout::Geometry;
use sector_disk::Disk;
use std::alloc::Global;
use superblock::Super;

/// An image that can be opened.
#[derive(Drop)]
pub(crate) struct JudgedImage {
    /// What its first sector tells.
    pub(crate) format: ImageFormat,
    /// What makes its tags.
    pub(crate) maker: TagMaker,
    /// Its journal.
    pub(crate) journal: JudgedJournal,
}

impl JudgedImage {
    /// Where all lies on its disk.
    pub(crate) fn geometry(&self) -> Geometry
        ensures { result ≡ self.now.format.geometry }
    {
        self.format.geometry
    }
}

/// Judges the image of a disk, whose first sector tells this format, which has a journal: consent, and then the
/// journal. Nothing is done but reads, and the memory that is taken is for what the journal is judged with.
///
/// # Errors
///
/// `Memory` and `Disk` come whenever they hold, and of the others the first that holds:
///
/// - `Memory`: there is none for what is kept of the journal.
/// - `Disk`: the disk failed at a read.
/// - `Consent`: some block is to be recalculated, there is a key, and consent is withheld.
/// - `Journal`: the journal is refused, by its scan or for the first entry in the order of the replay.
pub(crate) fn judge_found<D: Disk>(
    alloc: Global,
    disk: &mut D,
    format: ImageFormat,
    hash: Hash,
    consent: Consent,
) -> Result<JudgedImage, CallFault<OpenFault>>
    requires bound { IsBound (D.identity disk.old).name }
    requires found { HasJournalFormat (D.identity disk.old).sectors format (D.moments disk.old) }

    ensures judged { IfOk result (λ image. HasJudged (D.identity disk.old).sectors image (D.moments disk.old)) }
    ensures key { IfOk result (λ image. image.maker.key ≡ key_of hash) }
    ensures format { IfOk result (λ image. image.format ≡ format) }

    ensures refused { TellsFault (fault_of (key_of hash) consent (D.identity disk.old).sectors)
        (D.moments disk.old) result }
    ensures cause { HasCallCause (D.faults disk.old) (D.faults disk.new) result }

    ensures identity { D.identity disk.new ≡ D.identity disk.old }
    ensures kept { D.moments disk.new ≡ D.moments disk.old }
{
    judge_consent(&format.fields, &hash, consent)?;
    let maker = maker_of(hash, &format);
    let journal = judge_journal(alloc, disk, &format.geometry, &maker)?;
    Ok(JudgedImage {
        format,
        maker,
        journal,
    })
}

/// What makes the tags of a disk of this format.
pub(crate) fn maker_of(hash: Hash, format: &ImageFormat) -> TagMaker
    ensures { result ≡ rule_of (key_of hash) format.now }
{
    let shape = format.geometry.shape();
    TagMaker::new(hash, salt_of(&format.fields), shape.tag as u8)
}

/// The salt of the tags, if they have one.
///
/// Source: Linux, `drivers/md/dm-integrity.c`, `SB_FLAG_FIXED_HMAC`.
fn salt_of(fields: &Super) -> Option<[u8; 16]>
    ensures { result ≡ salt_of fields.now }
{
    if fields.flags & FIXED_HMAC != 0 {
        return Some(fields.salt);
    }
    None
}
