//! The choices of candidates of what a run left.
use case_text::Candidates;
use std::alloc::{AllocError, Global};

/// A choice of candidates, by the last one of each sector.
pub fn choice_from(
    alloc: Global,
    last: &[u32],
    candidates: Candidates,
) -> Result<Vec<u32>, AllocError> {
    let mut choice = Vec::new(alloc);
    for (sector, last) in last.iter().enumerate() {
        let is_last = match candidates {
            Candidates::First | Candidates::Middle => false,
            Candidates::Last => true,
            Candidates::LastData => sector % 16 >= 8,
            Candidates::FirstData => sector % 16 < 8,
            Candidates::Alternate => sector % 2 == 0,
        };
        choice.push(match candidates {
            Candidates::Middle => *last / 2,
            _ if is_last => *last,
            _ => 0,
        })?;
    }
    Ok(choice)
}
