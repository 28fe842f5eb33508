//! What is asked of a file, and of the folder that opens it.
//!
//! Each call is one call of the system, which may be interrupted by a signal, or do a part of what it is asked.
ghost use Rattle.std.specs.Prelude.{◌≡◌, ◌⊎◌, ◌↔◌, ◌≤◌, ◌*◌, ◌/◌, ◌^◌, ◌<◌, List, ℕ, length, take, IsTrue, IfOk, OnOk, OnErr, Some};
ghost use Rattle.std.specs.List.{Contains};
ghost use Rattle.disk_model.specs.Disk.{Content, IsImage, Reads, AddsSome, with_run, newest_only, last_image};
ghost use Rattle.disk_model.specs.Identity.{DiskIdentity, IsBoundTo, IsThere, NamedDisk};
ghost use Rattle.disk_model.specs.Moments.{EachSince, HasNow, IsChangedBy, content_now};
ghost use Rattle.file_disk.specs.Files.{HasFileCause, IsFileRun, IsPart};
ghost use Rattle.file_disk.specs.declared.sector_file.Access.{Access};

/// Why a call of a file did not do its work.
#[derive(Clone, Copy, Debug, PartialEq, Eq)]
pub enum FileFault {
    /// A signal came first. Nothing was done, and the call can be made again.
    Interrupted,
    /// The system failed.
    Failed,
}

/// What a file is opened for.
#[derive(Clone, Copy, Debug, PartialEq, Eq)]
pub enum Access {
    /// Reads alone. Others may read it at the same time, and nobody may write it.
    Read,
    /// Reads and writes. Nobody else has it.
    Write,
}

impl Access {
    /// Whether what was opened for this serves for the other too.
    pub fn serves(self, wanted: Access) -> bool
        ensures { IsTrue result ↔ ((self ≡ Access.Write) ⊎ (wanted ≡ Access.Read)) }
    {
        self == Access::Write || wanted == Access::Read
    }
}

/// A file that is open, as whole sectors of 512 bytes. What stands behind them is neither seen nor changed.
pub trait SectorFile {
    /// The name that it was opened by, and how many whole sectors it has.
    ghost identity: { Self → DiskIdentity };

    /// The contents of all its moments, the newest first. A file that does not tell its content, as one of the system,
    /// has none: then no clause speaks of it.
    ghost moments: { Self → List Content };

    /// What it was opened for.
    ghost access: { Self → Access };

    /// How often it has failed.
    ghost faults: { Self → ℕ };

    /// How often it can still be interrupted.
    ghost interruptions: { Self → ℕ };

    /// How many whole sectors it has.
    fn sectors(&self) -> u64
        ensures { result ≡ (identity self.now).sectors };

    /// Whether it was opened by this name.
    fn has_name(&self, name: &str) -> bool
        ensures { IsTrue result ↔ IsBoundTo name.now (identity self.now).name };

    /// What it was opened for.
    fn access(&self) -> Access
        ensures { result ≡ access self.now };

    /// Reads from byte `from` on into the front of the buffer, and tells how many bytes: whole sectors.
    ///
    /// # Errors
    ///
    /// - `Interrupted`: nothing was done.
    /// - `Failed`: the file failed.
    fn read_at(&mut self, from: u64, buffer: &mut [u8]) -> Result<usize, FileFault>
        requires { IsFileRun from (length buffer.old) (identity self.old).sectors }

        ensures count { IfOk result (λ n. IsPart n (length buffer.new)) }
        ensures read { IfOk result (λ n. HasNow (Reads (from / 512) (take n buffer.new)) (moments self.old)) }

        ensures cause { HasFileCause (faults self.old) (faults self.new)
            (interruptions self.old) (interruptions self.new) result }

        ensures identity { identity self.new ≡ identity self.old }
        ensures access { access self.new ≡ access self.old }
        ensures kept { moments self.new ≡ moments self.old };

    /// Writes from the front of these bytes, from byte `from` on, and tells how many: whole sectors. They become
    /// candidates, one after the other in any order.
    ///
    /// # Errors
    ///
    /// - `Interrupted`: nothing was done.
    /// - `Failed`: the file failed. Any of the sectors may have become candidates.
    fn write_at(&mut self, from: u64, bytes: &[u8]) -> Result<usize, FileFault>
        requires { IsFileRun from (length bytes.now) (identity self.old).sectors }

        ensures count { IfOk result (λ n. IsPart n (length bytes.now)) }
        ensures written { IfOk result (λ n. IsChangedBy (with_run (from / 512) (take n bytes.now))
            (moments self.old) (moments self.new)) }

        ensures cause { HasFileCause (faults self.old) (faults self.new)
            (interruptions self.old) (interruptions self.new) result }
        ensures interrupted { result ≡ Err FileFault.Interrupted → moments self.new ≡ moments self.old }

        ensures identity { identity self.new ≡ identity self.old }
        ensures access { access self.new ≡ access self.old }

        ensures moments { EachSince (AddsSome (from / 512) bytes.now) (moments self.old) (moments self.new) };

    /// Settles what was written: of each sector the last candidate alone is left.
    ///
    /// # Errors
    ///
    /// - `Interrupted`: nothing was done.
    /// - `Failed`: the file failed. Nothing has changed.
    fn sync(&mut self) -> Result<(), FileFault>
        ensures synced { OnOk result (IsChangedBy newest_only (moments self.old) (moments self.new)) }

        ensures cause { HasFileCause (faults self.old) (faults self.new)
            (interruptions self.old) (interruptions self.new) result }
        ensures err { OnErr result (moments self.new ≡ moments self.old) }

        ensures identity { identity self.new ≡ identity self.old }
        ensures access { access self.new ≡ access self.old }

        ensures moments { EachSince (λ start c. c ≡ newest_only start)
            (moments self.old) (moments self.new) };

    /// A byte of it has a number of 64 bits.
    ghost fits: { (file : Self) → 512 * (identity file).sectors < 2 ^ 64 };

    /// What reads give is one of the images.
    ghost reads_an_image: { (file : Self) (c : Content) → content_now (moments file) ≡ Some c
        → IsImage c (last_image c) };

    /// Each candidate of its sectors has 512 bytes.
    ghost whole_sectors: { (file : Self) (c : Content) (sector : ℕ) (x : List ℕ)
        → content_now (moments file) ≡ Some c → sector < (identity file).sectors
        → Contains (c sector) x → length x ≡ 512 };
}

/// What opens files by their names.
pub trait Folder {
    /// What it opens.
    type File: SectorFile + Drop;

    /// How often it has failed.
    ghost faults: { Self → ℕ };

    /// How often it can still be interrupted.
    ghost interruptions: { Self → ℕ };

    /// What has this name. Where the folder does not tell it, it has no moment.
    ghost named: { Self → List ℕ → NamedDisk };

    /// Opens the file of this name, and locks it until it is dropped: for reads alone beside others that read it, or
    /// for reads and writes, and then nobody else gets it. One that can't be written is opened for reads in either
    /// case.
    ///
    /// # Errors
    ///
    /// - `Interrupted`: nothing was done.
    /// - `Failed`: there is no such file, or it can't be read by sectors, or somebody has locked it or uses it, or the
    ///   system failed.
    fn open(&mut self, name: &str, access: Access) -> Result<Self::File, FileFault>
        ensures bound { IfOk result (λ file. IsBoundTo name.now (Self.File.identity file).name) }
        ensures found { IfOk result (λ file. IsThere (named self.old name.now)
            (Self.File.identity file).sectors (Self.File.moments file)) }
        ensures access { IfOk result (λ file. Self.File.access file ≡ access) }
        // It has not failed yet.
        ensures fresh { IfOk result (λ file. Self.File.faults file ≡ 0) }

        ensures cause { HasFileCause (faults self.old) (faults self.new)
            (interruptions self.old) (interruptions self.new) result }
        ensures err { OnErr result ((other : List ℕ) → named self.new other ≡ named self.old other) };
}
