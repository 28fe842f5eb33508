//! Definitions alone: what the bytes of a dm-integrity image mean, and the plain types in which a program has it.
//!
//! `specs/Superblock.antt` is the file to read first; `docs/FORMAT.md` leads through the others.
#![tactic(auto)]

mod byte_place;
mod entry_place;
mod flags;
mod geom_fault;
mod geometry_laws;
mod journal_plan;
mod judged;
mod new_image;
mod scan_fault;
mod sector_cell;
mod sector_place;
mod sizes;
mod super_fields;
mod superblock_laws;
mod walk_laws;

pub use byte_place::BytePlace;
pub use disk_model::SECTOR_SIZE;
pub use entry_place::EntryPlace;
pub use flags::{
    DIRTY_BITMAP, FIXED_HMAC, FIXED_PADDING, HAVE_JOURNAL_MAC, INLINE, KNOWN_FLAGS, RECALCULATING,
};
pub use geom_fault::GeomFault;
pub use geometry_laws::{
    best_provided_is_greatest, fitting_log2_region_is_least, geometry_is_given, parts_lie_apart,
};
pub use journal_plan::{Plan, State};
pub use judged::What;
pub use new_image::{ImageMode, Padding, Wipe};
pub use scan_fault::ScanFault;
pub use sector_cell::Cell;
pub use sector_place::SectorPlace;
pub use sizes::{
    COMMIT_NUMBERS, GROUP_BITS, HIGH_HALF, ID_FROM, ID_SIZE, LARGEST_BLOCK, LEAST_LOG2_INTERLEAVE,
    LONGEST_TAG, META_SECTORS, MOST_JOURNAL_SECTORS, MOST_LOG2_INTERLEAVE, MOST_LOG2_SPB,
    MOST_SECTORS, NEWEST_VERSION, SECTOR_BITS, SUPERBLOCK_SECTORS, UNUSED,
};
pub use super_fields::{Super, SuperFault};
pub use superblock_laws::{superblock_is_told, superblock_reads_back};
pub use walk_laws::{
    commit_ids_differ, grid_is_of_the_image, journal_faults_are_told, scan_follows_the_rules,
};
