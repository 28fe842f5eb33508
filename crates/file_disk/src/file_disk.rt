//! A disk that is the whole sectors of a file.
ghost use Rattle.std.specs.Prelude.{◌≡◌, ◌⊎◌, ◌+◌, ◌*◌, ◌/◌, ◌^◌, ◌<◌, [], length, IsOk, IsSome, None, OnErr, OnOk, Some};
ghost use Rattle.std.proofs.Common.{refl};
ghost use Rattle.std.proofs.lemmas.Option.{none-some};
ghost use Rattle.disk_model.specs.Causes.{HasCause, Rose};
ghost use Rattle.disk_model.specs.Disk.{AddsSome, IsImage, IsRun, Reads, last_image, newest_only, with_run};
ghost use Rattle.disk_model.specs.Identity.{IsBound, IsBoundTo};
ghost use Rattle.disk_model.specs.Moments.{EachSince, HasNow, IsChangedBy, content_now};
ghost use Rattle.sector_disk.specs.Faults.{one_more};
ghost use Rattle.file_disk.specs.Files.{BindsAgain, HasCauseOf, IsForWrites, ServesFor, TellsSame, TellsSameOf, named_as, no_disk, of_file};

use crate::transfer::{open_file, read_all, sync_all, write_all};
use crate::{Access, Folder, SectorFile};
use sector_disk::{Counted, Disk, Failed, Named, SECTOR_SIZE};

/// The whole sectors of a file. It has none until it is bound to the file's name, and then it is bound to no other: a
/// `bind` to the same name changes nothing, and one to another name is a fault. So is a `bind` of one that is bound for
/// reads alone; one that is bound for writes serves for reads too.
#[derive(Drop)]
pub struct FileDisk<O: Folder + Drop> {
    pub(crate) folder: O,
    pub(crate) file: Option<O::File>,
    faults: u64,
    // How often it was read.
    reads: u64,
}

impl<O: Folder + Drop> FileDisk<O> {
    /// Makes a disk that is bound to no file. It opens none.
    pub fn new(folder: O) -> FileDisk<O>
        ensures { result ≡ record { folder = folder; file = None; faults = 0; reads = 0 } }
    {
        FileDisk {
            folder,
            file: None,
            faults: 0,
            reads: 0,
        }
    }

    /// Binds it to a name, for reads alone or for writes too.
    ///
    /// # Errors
    ///
    /// - `Failed`: it is bound to another name, or for less, or the folder failed.
    fn bind_for(&mut self, name: &str, access: Access) -> Result<(), Failed>
        ensures bound { OnOk result
            (IsBoundTo name.now (of_file no_disk O.File.identity self.new.file).name) }
        ensures access { OnOk result
            ((of_file Access.Read O.File.access self.new.file ≡ Access.Write) ⊎ (access ≡ Access.Read)) }
        ensures opened { OnOk result (IsSome self.old.file
            ⊎ of_file Access.Read O.File.access self.new.file ≡ access) }
        ensures again { BindsAgain O.File.identity name.now self.old.file
            (ServesFor O.File.access self.old.file access) (IsOk result) self.old self.new }
        ensures kept { IsSome self.old.file → self.new.file ≡ self.old.file }

        ensures fails { OnErr result (IsSome self.old.file
            ⊎ Rose (O.faults self.old.folder) (O.faults self.new.folder)) }
        ensures cause { HasCauseOf O.faults O.File.faults self.old.faults self.old.folder self.old.file
            self.new.faults self.new.folder self.new.file result }

        ensures same { TellsSameOf O.named O.File.identity O.File.moments name.now
            self.old.folder self.old.file self.new.folder self.new.file }
    {
        if let Some(file) = &self.file
            && file.has_name(name)
            && file.access().serves(access)
        {
            return Ok(());
        }
        if self.file.is_some() {
            self.faults = self.faults.saturating_add(1);
            return Err(Failed);
        }
        let file = open_file(&mut self.folder, name, access)?;
        self.file = Some(file);
        Ok(())
    }
}

impl<O: Folder + Drop> Counted for FileDisk<O> {
    ghost faults = { λ disk. disk.faults + (O.faults disk.folder + of_file 0 O.File.faults disk.file) };
}

impl<O: Folder + Drop> Named for FileDisk<O> {
    ghost binding = { λ disk. (of_file no_disk O.File.identity disk.file).name };

    ghost tells_same = { λ name a b. TellsSame
        (named_as O.File.identity O.File.moments (O.named a.folder name) a.file)
        (named_as O.File.identity O.File.moments (O.named b.folder name) b.file) };

    fn bind(&mut self, name: &str) -> Result<(), Failed>
        ensures bound { OnOk result
            (IsBoundTo name.now (of_file no_disk O.File.identity self.new.file).name) }
        ensures access { OnOk result (of_file Access.Read O.File.access self.new.file ≡ Access.Write) }
        ensures again { BindsAgain O.File.identity name.now self.old.file
            (IsForWrites O.File.access self.old.file) (IsOk result) self.old self.new }
        ensures kept { IsSome self.old.file → self.new.file ≡ self.old.file }

        ensures fails { OnErr result (IsSome self.old.file
            ⊎ Rose (O.faults self.old.folder) (O.faults self.new.folder)) }
        ensures cause { HasCauseOf O.faults O.File.faults self.old.faults self.old.folder self.old.file
            self.new.faults self.new.folder self.new.file result }

        ensures same { TellsSameOf O.named O.File.identity O.File.moments name.now
            self.old.folder self.old.file self.new.folder self.new.file }
    {
        self.bind_for(name, Access::Write)
    }

    fn bind_to_read(&mut self, name: &str) -> Result<(), Failed>
        ensures bound { OnOk result
            (IsBoundTo name.now (of_file no_disk O.File.identity self.new.file).name) }
        ensures opened { OnOk result (IsSome self.old.file
            ⊎ of_file Access.Read O.File.access self.new.file ≡ Access.Read) }
        ensures again { IsBoundTo name.now (of_file no_disk O.File.identity self.old.file).name
            → IsOk result × (self.new ≡ self.old) }
        ensures kept { IsSome self.old.file → self.new.file ≡ self.old.file }

        ensures fails { OnErr result (IsSome self.old.file
            ⊎ Rose (O.faults self.old.folder) (O.faults self.new.folder)) }
        ensures cause { HasCauseOf O.faults O.File.faults self.old.faults self.old.folder self.old.file
            self.new.faults self.new.folder self.new.file result }

        ensures same { TellsSameOf O.named O.File.identity O.File.moments name.now
            self.old.folder self.old.file self.new.folder self.new.file }
    {
        self.bind_for(name, Access::Read)
    }
}

impl<O: Folder + Drop> Disk for FileDisk<O> {
    ghost identity = { λ disk. of_file no_disk O.File.identity disk.file };

    ghost moments = { λ disk. of_file [] O.File.moments disk.file };

    ghost reads = { λ disk. disk.reads };

    ghost named = { λ disk name.
        named_as O.File.identity O.File.moments (O.named disk.folder name) disk.file };

    fn sectors(&self) -> u64 {
        match &self.file {
            Some(file) => file.sectors(),
            None => unreachable!(),
        }
    }

    fn read_run(&mut self, at: u64, buffer: &mut [u8]) -> Result<(), Failed>
        requires bound { IsBound (of_file no_disk O.File.identity self.old.file).name }
        requires run { IsRun at (length buffer.old) (of_file no_disk O.File.identity self.old.file).sectors }

        ensures read { OnOk result (HasNow (Reads at buffer.new) (of_file [] O.File.moments self.old.file)) }

        ensures fails { OnErr result (Rose (of_file 0 O.File.faults self.old.file)
            (of_file 0 O.File.faults self.new.file)) }
        ensures passed { OnOk result (of_file 0 O.File.faults self.new.file
            ≡ of_file 0 O.File.faults self.old.file) }
        ensures cause { HasCauseOf O.faults O.File.faults self.old.faults self.old.folder self.old.file
            self.new.faults self.new.folder self.new.file result }

        ensures identity { of_file no_disk O.File.identity self.new.file
            ≡ of_file no_disk O.File.identity self.old.file }
        ensures access { of_file Access.Read O.File.access self.new.file
            ≡ of_file Access.Read O.File.access self.old.file }
        ensures counted { self.new.reads ≡ one_more self.old.reads }
        ensures kept { of_file [] O.File.moments self.new.file ≡ of_file [] O.File.moments self.old.file }
    {
        self.reads = self.reads.saturating_add(1);
        match &mut self.file {
            Some(file) => read_all(file, SECTOR_SIZE as u64 * at, buffer),
            None => unreachable!(),
        }
    }

    fn write_run(&mut self, at: u64, bytes: &[u8]) -> Result<(), Failed>
        requires bound { IsBound (of_file no_disk O.File.identity self.old.file).name }
        requires run { IsRun at (length bytes.now) (of_file no_disk O.File.identity self.old.file).sectors }

        ensures written { OnOk result (IsChangedBy (with_run at bytes.now)
            (of_file [] O.File.moments self.old.file) (of_file [] O.File.moments self.new.file)) }

        ensures fails { OnErr result (Rose (of_file 0 O.File.faults self.old.file)
            (of_file 0 O.File.faults self.new.file)) }
        ensures passed { OnOk result (of_file 0 O.File.faults self.new.file
            ≡ of_file 0 O.File.faults self.old.file) }
        ensures cause { HasCauseOf O.faults O.File.faults self.old.faults self.old.folder self.old.file
            self.new.faults self.new.folder self.new.file result }

        ensures identity { of_file no_disk O.File.identity self.new.file
            ≡ of_file no_disk O.File.identity self.old.file }
        ensures access { of_file Access.Read O.File.access self.new.file
            ≡ of_file Access.Read O.File.access self.old.file }
        ensures unread { self.new.reads ≡ self.old.reads }

        ensures moments { EachSince (AddsSome at bytes.now)
            (of_file [] O.File.moments self.old.file) (of_file [] O.File.moments self.new.file) }
    {
        match &mut self.file {
            Some(file) => write_all(file, SECTOR_SIZE as u64 * at, bytes),
            None => unreachable!(),
        }
    }

    fn sync(&mut self) -> Result<(), Failed>
        requires { IsBound (of_file no_disk O.File.identity self.old.file).name }

        ensures synced { OnOk result (IsChangedBy newest_only
            (of_file [] O.File.moments self.old.file) (of_file [] O.File.moments self.new.file)) }

        ensures fails { OnErr result (Rose (of_file 0 O.File.faults self.old.file)
            (of_file 0 O.File.faults self.new.file)) }
        ensures passed { OnOk result (of_file 0 O.File.faults self.new.file
            ≡ of_file 0 O.File.faults self.old.file) }
        ensures cause { HasCauseOf O.faults O.File.faults self.old.faults self.old.folder self.old.file
            self.new.faults self.new.folder self.new.file result }
        ensures err { OnErr result (of_file [] O.File.moments self.new.file
            ≡ of_file [] O.File.moments self.old.file) }

        ensures identity { of_file no_disk O.File.identity self.new.file
            ≡ of_file no_disk O.File.identity self.old.file }
        ensures access { of_file Access.Read O.File.access self.new.file
            ≡ of_file Access.Read O.File.access self.old.file }
        ensures unread { self.new.reads ≡ self.old.reads }

        ensures moments { EachSince (λ start c. c ≡ newest_only start)
            (of_file [] O.File.moments self.old.file) (of_file [] O.File.moments self.new.file) }
    {
        match &mut self.file {
            Some(file) => sync_all(file),
            None => unreachable!(),
        }
    }

    ghost reads_an_image = { λ disk c told. elim disk.file as (λ o.
        content_now (of_file [] O.File.moments o) ≡ Some c → IsImage c (last_image c)) [
          | None ↦ λ told. absurd (none-some c told)
          | Some file ↦ λ told. O.File.reads_an_image file c told
        ] told };

    ghost whole_sectors = { λ disk c sector x told low has. elim disk.file as (λ o.
        content_now (of_file [] O.File.moments o) ≡ Some c
        → sector < (of_file no_disk O.File.identity o).sectors → length x ≡ 512) [
          | None ↦ λ told low. absurd (none-some c told)
          | Some file ↦ λ told low. O.File.whole_sectors file c sector x told low has
        ] told low };

    ghost identity_name = { λ disk. refl };

    ghost named_if_bound = { λ disk name bound. elim disk.file as (λ o.
        IsBoundTo name (of_file no_disk O.File.identity o).name
        → named_as O.File.identity O.File.moments (O.named disk.folder name) o
        ≡ record {
          sectors = (of_file no_disk O.File.identity o).sectors;
          moments = of_file [] O.File.moments o;
        }) [
          | None ↦ λ bound. absurd bound
          | Some file ↦ λ bound. refl
        ] bound };

    ghost same_named = { λ name a b c same told. same.is c told };
}
