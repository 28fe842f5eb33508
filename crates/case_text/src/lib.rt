//! The text of cases: what a case asks for, and how its lines are read.
//!
//! The form of a case is described at the head of the stored input of `integrity_cases`, which runs them.
#![tactic(auto)]

mod blocks;
mod case;
mod fails;
mod reading;
mod runs;

pub use blocks::{Block, Line, blocks_of, case_of, table_of};
pub use case::{
    CHOICES, Candidates, Case, Edit, Kind, Piece, Second, Show, Start, kind_of, name_of,
};
pub use fails::{Fails, with_failure};
pub use reading::{apply, cut};
