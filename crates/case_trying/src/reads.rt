//! Runs that read all blocks of what another run has left.
use anyhow::Result;
use case_judging::{Form, Known, Told, judge_read_of_all, judge_reads, read_of_all, reads};
use case_running::{Command, Ended, run};
use case_text::{Case, Fails};
use cut_disk::CutDisk;
use std::alloc::Global;

/// Reads of all blocks in a mode: by one line, and each block alone.
#[derive(Drop)]
pub struct Reads {
    at_once: Case,
    alone: Case,
}

impl Reads {
    /// These reads of an image of a form in a mode, `D` or `J`.
    pub fn in_mode(alloc: Global, form: &Form, mode: &str) -> Result<Reads> {
        Reads::by_words(alloc, form, mode, "", &[])
    }

    /// These reads of an image of a form by runs with a key, whose words are these and others from the mode on.
    pub fn by_words(
        alloc: Global,
        form: &Form,
        words: &str,
        others: &str,
        key: &[u8],
    ) -> Result<Reads> {
        let words = format!(in alloc; "{words}{others}")?;
        let words = words.as_str();
        Ok(Reads {
            at_once: case_by(alloc, read_of_all(alloc, form)?, words, key)?,
            alone: case_by(alloc, reads(alloc, form)?, words, key)?,
        })
    }

    /// Reads each block of an image alone, and gives the run that does.
    pub fn run_alone<C: Command>(&self, alloc: Global, command: &C, image: &[u8]) -> Result<Ended> {
        let disk = CutDisk::new(alloc, image)?;
        run(alloc, command, &self.alone, Fails::NONE, disk)
    }

    /// Reads all blocks of an image, and gives the run that does. They are to be those of `blocks`. One line reads them
    /// where each of these has the tag of its data.
    pub fn judge<C: Command>(
        &self,
        alloc: Global,
        command: &C,
        base: &Known,
        image: &[u8],
        blocks: &[u8],
    ) -> Result<Ended> {
        let is_whole = base.is_whole(blocks);
        let case = if is_whole { &self.at_once } else { &self.alone };
        let disk = CutDisk::new(alloc, image)?;
        let ended = run(alloc, command, case, Fails::NONE, disk)?;
        let told = Told {
            status: ended.status,
            text: ended.text.as_str(),
        };
        if is_whole {
            judge_read_of_all(alloc, base, blocks, told)?;
        } else {
            judge_reads(alloc, base, blocks, told)?;
        }
        Ok(ended)
    }
}

/// A case with this script and this key, whose words are these from the mode on.
fn case_by(alloc: Global, script: Vec<u8>, words: &str, key: &[u8]) -> Result<Case> {
    let mut case = Case::new(alloc, script)?;
    case.words.pop();
    for word in words.split(' ') {
        case.words.push(word.to_string(alloc)?)?;
    }
    case.key = Vec::from_slice(alloc, key)?;
    Ok(case)
}
