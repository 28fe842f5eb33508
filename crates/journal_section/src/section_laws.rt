//! A law on the bytes of a section.
ghost use Rattle.journal_section.specs.SectionLaws.{SectionIsTold};

/// A section is told by its entries and its commit number: no byte of it is left open. It does nothing.
pub fn section_is_told()
    ensures { SectionIsTold }
{}
