//! An exercise of a device: the requests of a workload, and a read of each block, run one by one and counted.
//!
//! What an exercise is stands in `workload_model`, `specs/Exercise.antt`; a contract says that a device does its
//! events, and that the tally is its own (`specs/Exercising.antt`, the file to read first), and does them line by
//! line (`specs/InOrder.antt`).
#![tactic(auto)]

mod exercising;

pub use exercising::exercise;
