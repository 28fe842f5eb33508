//! Why a call over an image fails: for want of memory, by its disk, or because the image is refused, and for which
//! cause.
//!
//! A contract sees a `CallFault` and each of the causes as they are. What they say of an image stands in
//! `specs/Causes.antt`, and when a call fails by its disk in `specs/Calls.antt`, the file to read first.
#![tactic(auto)]

mod call_fault;
mod dump_fault;
mod journal_fault;
mod open_fault;
mod resize_fault;

pub use call_fault::CallFault;
pub use dump_fault::DumpFault;
pub use journal_fault::JournalFault;
pub use open_fault::{HeadFault, OpenFault};
pub use resize_fault::ResizeFault;
