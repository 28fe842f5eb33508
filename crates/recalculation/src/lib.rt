//! Which regions await the tags of their blocks, the recalculation of one, and the position that tells how far that is.
//!
//! A contract sees the regions that await as the geometry, the first block that may await and a test of regions
//! (`specs/Awaiting.antt` first), and the position as the fields of sector 0 (`specs/Position.antt`). Nothing is
//! written but tags, and sector 0 where the position moves.
#![tactic(auto)]

mod all;
mod awaiting;
mod block_run;
mod head;
mod laws;
mod left;
mod places;
mod position;
mod recalculating;
mod taking;

pub use all::recalculate_all;
pub use awaiting::Awaiting;
pub use head::head_with;
pub use laws::{
    bitmap_regions_are_recalculated, recovered_regions_are_recalculated, region_is_recalculated,
    regions_await,
};
pub use position::Position;
pub use recalculating::Recalculation;
