//! Tests of devices: opened, asked, and driven to the end.
#![tactic(auto)]

#[cfg(test)]
mod bitmap_call_tests;
#[cfg(test)]
mod blank_journal_tests;
#[cfg(test)]
mod call_tests;
#[cfg(test)]
mod chain_tests;
#[cfg(test)]
mod journal_device_tests;
