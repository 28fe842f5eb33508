//! What must hold of a run of the program in which a call failed, and of what it left on an image.
//!
//! All is computed from the run's script and from the disk that it began with, by none of the program's code.
#![tactic(auto)]

mod bitmap;
mod bitmapped;
mod form;
mod growth;
mod images;
mod journal;
mod journaled;
mod judging;
mod kept;
mod key;
mod levelled;
mod marks;
mod position;
mod reading;
mod small;
mod wrong;

pub use bitmap::{Bitmap, bitmap_of};
pub use bitmapped::judge_bitmapped;
pub use form::{Form, form_of, put_at};
pub use growth::{Growth, Provides};
pub use images::{Images, judge_left};
pub use journal::{
    behind_journal, count_used, has_empty_journal, is_same_outside_journal, numbers_of, put_empty,
    put_fresh, put_sector, with_journal_placed,
};
pub use journaled::Writes;
pub use judging::{Met, Told, judge_made, judge_text};
pub use kept::judge_kept;
pub use levelled::Levelled;
pub use marks::judge_bits;
pub use position::{Reading, is_recalculating, judge_position, with_tags_made};
pub use reading::{Known, judge_read_of_all, judge_reads, read_of_all, reads};
pub use small::small_image;
pub use wrong::Wrong;
