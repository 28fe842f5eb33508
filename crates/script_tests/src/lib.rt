//! Tests of scripts: read, made, run and answered.
#![tactic(auto)]

#[cfg(test)]
mod device_exercise_tests;
#[cfg(test)]
mod script_reader_tests;
#[cfg(test)]
mod script_session_tests;
#[cfg(test)]
mod script_text_tests;
#[cfg(test)]
mod workload_tests;
