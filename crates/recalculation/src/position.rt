//! The position of a recalculation without a bitmap, as sector 0 has it.
//!
//! It moves behind tags that are synced: up to the least region that still awaits and has a sector at or above it, and
//! where there is none the flag is cleared.
ghost use Rattle.std.specs.Prelude.{◌≡◌, true, max, IfSome, OnErr, OnOk};
ghost use Rattle.disk_model.specs.Causes.{HasCause};
ghost use Rattle.disk_model.specs.Disk.{OnlyAdds};
ghost use Rattle.disk_model.specs.Moments.{EachSince};
ghost use Rattle.image_model.specs.declared.flags.TheConstants as Flags;
ghost use Rattle.image_model.specs.Superblock.{IsAccepted, has_flag};
ghost use Rattle.change_model.specs.Fields.{with_version, without_flag};
ghost use Rattle.recalculate_laws.specs.Position.{moved_fields};
ghost use Rattle.recalculation.specs.Awaiting.{awaiting_of};
ghost use Rattle.recalculation.specs.Position.{CanBeWritten, HasMoved, MayMove, MovesIn, fields_to_write};
ghost use Rattle.recalculation.specs.Position.{WritesFields, WritesFieldsIn};
ghost use Rattle.tag_store.specs.Store.{IsStore, given_tags};

use crate::awaiting::Awaiting;
use crate::head::head_with;
use image_model::{RECALCULATING, Super};
use sector_disk::{Disk, Failed};
use std::marker::Model;
use superblock::version_for;
use tag_store::Tags;

/// The fields as they stand in sector 0, where tags are recalculated without a bitmap.
#[derive(Drop)]
pub struct Position {
    fields: Super,
}

impl Model for Position {
    ghost use Rattle.image_model.specs.Superblock.{Superblock};
    ghost use Rattle.recalculation.specs.Position.{CanBeWritten};

    ghost Value = { Superblock };

    ghost view = { λ position. position.fields };

    ghost invariant = { λ position. CanBeWritten position.fields };
}

impl Position {
    /// The position that these fields tell, which stand in sector 0.
    pub fn of(fields: Super) -> Position
        requires { IsAccepted fields }

        ensures { result ≡ fields }
    {
        Position { fields }
    }

    /// Whether the fields say that tags are to be recalculated.
    pub fn is_set(&self) -> bool
        ensures set { result ≡ has_flag Flags.RECALCULATING self.now.flags }
        ensures position { MayMove self.now }
    {
        self.fields.flags & RECALCULATING != 0
    }

    /// Moves the position as far as the regions that await let it, and writes it to sector 0, and syncs. Where neither
    /// position nor flag changes, and where the flag is not set, nothing is done. The bytes behind the fields stay.
    ///
    /// All tags of regions that do not await are to be written and synced before.
    ///
    /// Source: Linux, `drivers/md/dm-integrity.c`, `integrity_recalc` and `sync_rw_sb`. Own: it is synced each time.
    ///
    /// # Errors
    ///
    /// - `Failed`: the disk failed. Sector 0 may have got the new fields as a candidate.
    pub fn advance<D: Disk>(
        &mut self,
        disk: &mut D,
        tags: &Tags,
        awaiting: &Awaiting,
    ) -> Result<(), Failed>
        requires same { tags.now.geometry ≡ awaiting.now.geometry }
        requires store { IsStore tags.now (D.identity disk.old) (D.moments disk.old) }

        ensures moved { OnOk result (HasMoved (fields_to_write self.old awaiting.now.geometry
            (awaiting_of awaiting.now)) tags.now.geometry (given_tags tags.now) self.old self.new
            (D.moments disk.old) (D.moments disk.new)) }

        ensures cause { HasCause (D.faults disk.old) (D.faults disk.new) result }
        ensures err { OnErr result (self.new ≡ self.old) }

        ensures store { IsStore tags.now (D.identity disk.new) (D.moments disk.new) }
        ensures identity { D.identity disk.new ≡ D.identity disk.old }

        ensures through { MovesIn (fields_to_write self.old awaiting.now.geometry (awaiting_of awaiting.now))
            (D.moments disk.old) (D.moments disk.new) }
        ensures writes { EachSince (OnlyAdds (λ sector x. sector ≡ 0)) (D.moments disk.old) (D.moments disk.new) }
    {
        let Some(fields) = self.moved(awaiting) else {
            return Ok(());
        };
        write_fields(disk, tags, &fields)?;
        self.fields = fields;
        Ok(())
    }

    /// The fields that are to be written, if any.
    fn moved(&self, awaiting: &Awaiting) -> Option<Super>
        ensures fields { result ≡ fields_to_write self.now awaiting.now.geometry (awaiting_of awaiting.now) }
        ensures can { IfSome result (λ fields. CanBeWritten fields) }
    {
        if self.fields.flags & RECALCULATING == 0 {
            return None;
        }
        let fields = moved_to(&self.fields, awaiting);
        if fields.recalc_sector == self.fields.recalc_sector && fields.flags == self.fields.flags {
            return None;
        }
        Some(fields)
    }
}

/// The fields where these regions await.
fn moved_to(fields: &Super, awaiting: &Awaiting) -> Super
    requires { CanBeWritten fields.now }

    ensures moved { result ≡ moved_fields fields.now awaiting.now.geometry (awaiting_of awaiting.now) }
    ensures can { CanBeWritten result }
{
    match awaiting.next_above(fields.recalc_sector) {
        Some(region) => with_start(fields, awaiting.start_of(region)),
        None => without_position(fields),
    }
}

/// The fields with the position at a sector, but never before where it is.
fn with_start(fields: &Super, start: u64) -> Super
    requires { CanBeWritten fields.now }

    ensures moved { result ≡ with_version
        (record fields.now { recalc_sector = max fields.now.recalc_sector start }) }
    ensures can { CanBeWritten result }
{
    Super {
        version: version_for(fields.flags, fields.version),
        recalc_sector: fields.recalc_sector.max(start),
        ..*fields
    }
}

/// The fields where no region is left: the flag is not set, and the position is behind the last block.
fn without_position(fields: &Super) -> Super
    requires { CanBeWritten fields.now }

    ensures moved { result ≡ with_version (record fields.now {
      flags = without_flag Flags.RECALCULATING fields.now.flags;
      recalc_sector = fields.now.provided;
    }) }
    ensures can { CanBeWritten result }
{
    let flags = fields.flags & !RECALCULATING;
    Super {
        version: version_for(flags, fields.version),
        flags,
        recalc_sector: fields.provided,
        ..*fields
    }
}

/// Writes the fields to sector 0, and syncs. What lies behind the fields stays.
///
/// # Errors
///
/// - `Failed`: the disk failed. Sector 0 may have got the fields as a candidate.
fn write_fields<D: Disk>(disk: &mut D, tags: &Tags, fields: &Super) -> Result<(), Failed>
    requires fields { IsAccepted fields.now }
    requires store { IsStore tags.now (D.identity disk.old) (D.moments disk.old) }

    ensures written { OnOk result (WritesFields tags.now.geometry fields.now (given_tags tags.now)
        (D.moments disk.old) (D.moments disk.new)) }

    ensures cause { HasCause (D.faults disk.old) (D.faults disk.new) result }

    ensures store { IsStore tags.now (D.identity disk.new) (D.moments disk.new) }
    ensures identity { D.identity disk.new ≡ D.identity disk.old }

    ensures through { WritesFieldsIn fields.now (D.moments disk.old) (D.moments disk.new) }
    ensures writes { EachSince (OnlyAdds (λ sector x. sector ≡ 0)) (D.moments disk.old) (D.moments disk.new) }
{
    // The store is named in the contract alone: no tag moves.
    let _ = tags;
    let head = head_with(disk, fields)?;
    disk.write_run(0, &head)?;
    disk.sync()
}
