//! Sources and sinks in memory that count what is asked of them, and the choices of what a run left.
#![tactic(auto)]

mod choices;
mod watched;

pub use choices::choice_from;
pub use watched::{WatchedFile, WatchedSink, WatchedSource};
