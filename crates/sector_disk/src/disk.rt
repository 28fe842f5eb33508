//! The model of a disk that every crate above is proved against.
//!
//! Each sector has a list of candidates. A read gives the last of them, and a cut may leave any one.
ghost use Rattle.std.specs.Prelude.{◌≡◌, ◌≤◌, ◌+◌, ◌*◌, ◌/◌, ◌^◌, ◌<◌, List, ℕ, length, OnOk, OnErr, Some};
ghost use Rattle.std.specs.List.{Contains};
ghost use Rattle.disk_model.specs.Causes.{HasCause};
ghost use Rattle.disk_model.specs.Disk.{Content, IsImage, IsRun, Reads, AddsSome, with_run, newest_only, last_image};
ghost use Rattle.disk_model.specs.Identity.{Binding, DiskIdentity, IsBound, IsBoundTo, NamedDisk};
ghost use Rattle.disk_model.specs.Moments.{EachSince, HasNow, IsChangedBy, content_now};
ghost use Rattle.sector_disk.specs.Faults.{one_more};

use thiserror::Error;

/// Something outside has failed: a disk, a source or a sink.
#[derive(Clone, Copy, Debug, PartialEq, Eq, Error)]
#[error("a disk, a source or a sink has failed")]
pub struct Failed;

/// An object that counts the faults of what it stands for.
pub trait Counted {
    /// How often it has failed. The count never falls, and stays at 2^64 - 1 once it is there.
    ghost faults: { Self → ℕ };
}

/// An object that stands for nothing until it is bound to a name, as that of a file.
pub trait Named: Counted {
    /// The name that it is bound to. One in memory stands for any.
    ghost binding: { Self → Binding };

    /// Two states tell the same of what has this name: what differs is the count, and what is bound.
    ghost tells_same: { List ℕ → Self → Self → Type 0 };

    /// Binds it to a name. What has this name stays as it is, and over memory nothing changes.
    ///
    /// # Errors
    ///
    /// - `Failed`: what has the name could not be reached.
    fn bind(&mut self, name: &str) -> Result<(), Failed>
        ensures bound { OnOk result (IsBoundTo name.now (binding self.new)) }

        ensures cause { HasCause (Self.faults self.old) (Self.faults self.new) result }

        ensures same { tells_same name.now self.old self.new };

    /// Binds it to a name for reads alone, as others may at the same time. What has this name stays as it is, and over
    /// memory nothing changes. Where reads alone are the same as any other use it is `bind`.
    ///
    /// # Errors
    ///
    /// - `Failed`: what has the name could not be reached.
    fn bind_to_read(&mut self, name: &str) -> Result<(), Failed>
        ensures bound { OnOk result (IsBoundTo name.now (binding self.new)) }

        ensures cause { HasCause (Self.faults self.old) (Self.faults self.new) result }

        ensures same { tells_same name.now self.old self.new }
    {
        self.bind(name)
    }
}

/// A disk of sectors of 512 bytes.
pub trait Disk: Named {
    /// What it is: the name that it is bound to, and how many sectors it has.
    ghost identity: { Self → DiskIdentity };

    /// The contents of all its moments, the newest first. A disk that does not tell its content has none: then no
    /// clause speaks of it.
    ghost moments: { Self → List Content };

    /// How often it was read, calls that failed included. It stays at 2^64 - 1 once it is there.
    ghost reads: { Self → ℕ };

    /// What has this name: what the disk will be once it is bound to it, and what it is where it is bound to it.
    ghost named: { Self → List ℕ → NamedDisk };

    /// How many sectors it has.
    fn sectors(&self) -> u64
        requires { IsBound (identity self.now).name }

        ensures { result ≡ (identity self.now).sectors };

    /// Reads whole sectors from sector `at` on. What a failed read leaves in the buffer is open.
    ///
    /// # Errors
    ///
    /// - `Failed`: the disk failed.
    fn read_run(&mut self, at: u64, buffer: &mut [u8]) -> Result<(), Failed>
        requires bound { IsBound (identity self.old).name }
        requires run { IsRun at (length buffer.old) (identity self.old).sectors }

        ensures read { OnOk result (HasNow (Reads at buffer.new) (moments self.old)) }

        ensures cause { HasCause (Self.faults self.old) (Self.faults self.new) result }

        ensures identity { identity self.new ≡ identity self.old }
        ensures counted { reads self.new ≡ one_more (reads self.old) }
        ensures kept { moments self.new ≡ moments self.old };

    /// Writes whole sectors from sector `at` on. They become candidates, one after the other in any order.
    ///
    /// # Errors
    ///
    /// - `Failed`: the disk failed. Any of the sectors may have become candidates, and all that were there stay.
    fn write_run(&mut self, at: u64, bytes: &[u8]) -> Result<(), Failed>
        requires bound { IsBound (identity self.old).name }
        requires run { IsRun at (length bytes.now) (identity self.old).sectors }

        ensures written { OnOk result (IsChangedBy (with_run at bytes.now)
            (moments self.old) (moments self.new)) }

        ensures cause { HasCause (Self.faults self.old) (Self.faults self.new) result }

        ensures identity { identity self.new ≡ identity self.old }
        ensures unread { reads self.new ≡ reads self.old }

        ensures moments { EachSince (AddsSome at bytes.now) (moments self.old) (moments self.new) };

    /// Settles what was written: of each sector the last candidate alone is left.
    ///
    /// # Errors
    ///
    /// - `Failed`: the disk failed. Nothing has changed.
    fn sync(&mut self) -> Result<(), Failed>
        requires { IsBound (identity self.old).name }

        ensures synced { OnOk result (IsChangedBy newest_only (moments self.old) (moments self.new)) }

        ensures cause { HasCause (Self.faults self.old) (Self.faults self.new) result }
        ensures err { OnErr result (moments self.new ≡ moments self.old) }

        ensures identity { identity self.new ≡ identity self.old }
        ensures unread { reads self.new ≡ reads self.old }

        ensures moments { EachSince (λ start c. c ≡ newest_only start)
            (moments self.old) (moments self.new) };

    /// What reads give is one of the images.
    ghost reads_an_image: { (disk : Self) (c : Content) → content_now (moments disk) ≡ Some c
        → IsImage c (last_image c) };

    /// Each candidate of its sectors has 512 bytes.
    ghost whole_sectors: { (disk : Self) (c : Content) (sector : ℕ) (x : List ℕ)
        → content_now (moments disk) ≡ Some c → sector < (identity disk).sectors
        → Contains (c sector) x → length x ≡ 512 };

    /// The name of what it is, is the one that it was bound to.
    ghost identity_name: { (disk : Self) → (identity disk).name ≡ Self.binding disk };

    /// What has the name that it is bound to, is what it is.
    ghost named_if_bound: { (disk : Self) (name : List ℕ) → IsBoundTo name (identity disk).name
        → named disk name ≡ record { sectors = (identity disk).sectors; moments = moments disk } };

    /// Where two states tell the same of a name, it has the same sectors and moments, if the first tells its content.
    ghost same_named: { (name : List ℕ) (a b : Self) (c : Content) → Self.tells_same name a b
        → content_now (named a name).moments ≡ Some c → named b name ≡ named a name };
}
