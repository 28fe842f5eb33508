//! The requests of a workload, made from a seed one after the other, and what an exercise of a device counts.
//!
//! A contract sees a workload as the number that it stands at (`specs/Workload.antt`), and a tally as that of
//! `workload_model` (`specs/Tally.antt`). That it is the one of all requests and replies is a law
//! (`specs/Laws.antt`); what an exercise is stands in `workload_model`, `specs/Exercise.antt`, the file to read first.
#![tactic(auto)]

mod generator;
mod laws;
mod tally;

pub use generator::Workload;
pub use laws::tallies_go_on;
pub use tally::Tally;
