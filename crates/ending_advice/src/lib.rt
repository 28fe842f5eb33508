//! A sentence for the standard error: what the last line of a command means, and what can be done.
//!
//! `LastLine` is an output that keeps the beginning of the last line, and `Beginning` one that keeps the first bytes of
//! all; `advice_on` and `advice_on_session` have the sentences. A contract sees of such an output the one under it. Of
//! the sentences no clause speaks.
#![tactic(auto)]

mod advice;
mod beginning;
mod last_line;

pub use advice::{advice_on, advice_on_session};
pub use beginning::Beginning;
pub use last_line::LastLine;
