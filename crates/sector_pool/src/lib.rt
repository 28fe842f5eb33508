//! One region of memory, whose sectors are handed out as runs that are split and joined without a copy.
//!
//! A contract sees a `Run` as its region, a place in it and its bytes (`specs/Run.antt`, the file to read first), and a
//! `Region` as the list of its bytes. The two functions over a raw pointer, `cut` and `joined`, and the loan of
//! `bytes_mut` are proved by hand.
#![tactic(auto)]

mod pieces;
mod region;
mod run;

pub use disk_model::Memory;
pub use region::Region;
pub use run::Run;
