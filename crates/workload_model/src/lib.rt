//! Definitions alone: the requests of a seed, and what an exercise of a device asks, counts and prints.
//!
//! `specs/Exercise.antt` is the exercise of a device, over the requests of `specs/Workload.antt`, the file to read first.
#![tactic(auto)]
