//! Tests of whole images: formatting, opening, dump, check and salvage.
#![tactic(auto)]

#[cfg(test)]
mod image_check_tests;
#[cfg(test)]
mod image_dump_tests;
#[cfg(test)]
mod image_format_tests;
#[cfg(test)]
mod image_formatting_tests;
#[cfg(test)]
mod image_judging_tests;
#[cfg(test)]
mod image_salvage_tests;
#[cfg(test)]
mod journal_reading_tests;
