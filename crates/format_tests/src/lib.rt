//! Tests of the parts of the format: superblock, layout, commit ids, tags, journal sections.
#![tactic(auto)]

#[cfg(test)]
mod commit_id_tests;
#[cfg(test)]
mod hmac_tag_tests;
#[cfg(test)]
mod journal_section_tests;
#[cfg(test)]
mod layout_tests;
#[cfg(test)]
mod superblock_tests;
