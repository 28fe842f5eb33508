//! A disk of sectors of 512 bytes: what its calls may fail with, what it tells of its content, and one in memory.
//!
//! A contract sees a disk as the contents of all its moments (`disk_model`, `specs/Disk.antt` first). Every crate
//! above is proved over any `Disk`, so over one that a cut may stop at any moment.
#![tactic(auto)]

mod candidates;
mod disk;
mod fault_plan;
mod latest;
mod mem_disk;
mod record;
mod stop;

pub use disk::{Counted, Disk, Failed, Named};
pub use disk_model::{Memory, SECTOR_SIZE};
pub use fault_plan::{FaultPlan, MOST_FAILING};
pub use mem_disk::MemDisk;
