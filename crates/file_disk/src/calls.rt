//! What the calls of a file of the system have answered.
ghost use Rattle.std.specs.Prelude.{◌≡◌, ◌≤◌, ◌-◌, ◌^◌, IfOk, IsErrAnd, None};
ghost use Rattle.std.specs.IoError.{error_kind};
ghost use Rattle.disk_model.specs.Causes.{Rose};
ghost use Rattle.file_disk.specs.Files.{HasFileCause};

use crate::FileFault;
use std::io;
use std::io::ErrorKind;

/// What has failed, and how often a call can still be interrupted.
#[derive(Drop)]
pub struct Calls {
    /// How many calls have failed. It stays at 2^64 - 1.
    pub faults: u64,
    /// How often a call can still be interrupted.
    pub interruptions: u64,
    /// What std has answered to the last call that failed, for a text to the user.
    pub last: Option<io::Error>,
}

impl Calls {
    /// Nothing has failed, and calls can be interrupted 2^64 - 1 times.
    pub fn new() -> Calls
        ensures { result ≡ record { faults = 0; interruptions = 2 ^ 64 - 1; last = None } }
    {
        Calls {
            faults: 0,
            interruptions: u64::MAX,
            last: None,
        }
    }

    /// Hands on what std has answered. An error is counted, and kept as the last.
    ///
    /// # Errors
    ///
    /// - `Interrupted`: a signal came first.
    /// - `Failed`: std has answered another error, or signals came too often.
    pub fn judge<T>(&mut self, answer: io::Result<T>) -> Result<T, FileFault>
        ensures value { IfOk result (λ value. answer ≡ Ok value) }

        ensures interrupted { result ≡ Err FileFault.Interrupted
            → IsErrAnd answer (λ e. error_kind e ≡ ErrorKind.Interrupted) }
        ensures failed { result ≡ Err FileFault.Failed → IsErrAnd answer (λ e.
            error_kind e ≡ ErrorKind.Interrupted → self.old.interruptions ≡ 0) }
        ensures cause { HasFileCause self.old.faults self.new.faults
            self.old.interruptions self.new.interruptions result }
    {
        match answer {
            Ok(value) => Ok(value),
            Err(e) if e.kind() == ErrorKind::Interrupted && self.interruptions > 0 => {
                self.interruptions -= 1;
                Err(FileFault::Interrupted)
            }
            Err(e) => {
                self.last = Some(e);
                Err(self.fail())
            }
        }
    }

    /// Counts a call that has failed.
    pub fn fail(&mut self) -> FileFault
        ensures failed { result ≡ FileFault.Failed }
        ensures counted { Rose self.old.faults self.new.faults }
        ensures later { self.old.faults ≤ self.new.faults }
        ensures interruptions { self.new.interruptions ≡ self.old.interruptions }
    {
        self.faults = self.faults.saturating_add(1);
        FileFault::Failed
    }
}
