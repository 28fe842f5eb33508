//! Runs cases one after the other, and tells what each shows.
use crate::mirroring::{Pair, try_each_of_both};
use crate::starting::{base_of, edit_bytes};
use crate::trying::{Counts, Trial, try_each};
use anyhow::{Result, bail};
use case_judging::small_image;
use case_running::{Command, Ended, add, outcome_of, put_rows, run, run_on_both, told_of};
use case_text::{Case, Edit, Piece, Second, Start};
use cut_disk::CutDisk;
use std::alloc::Global;

/// What cases share.
#[derive(Drop)]
pub struct Session {
    small: Vec<u8>,
    /// What the last case left.
    left: Option<CutDisk>,
    /// What it left of the disk of a second image, if it had one.
    second_left: Option<CutDisk>,
    pub counts: Counts,
}

impl Session {
    /// No case was run yet.
    pub fn new(alloc: Global) -> Result<Session> {
        Ok(Session {
            small: small_image(alloc)?,
            left: None,
            second_left: None,
            counts: Counts {
                runs: 0,
                images: 0,
                wrong: 0,
                expected: 0,
            },
        })
    }

    /// Runs a case by a command, and tells what it shows.
    ///
    /// # Errors
    ///
    /// The case asks for what there is none of, or there is no memory.
    pub fn run_case<C: Command>(
        &mut self,
        alloc: Global,
        command: &C,
        case: &Case,
    ) -> Result<String> {
        self.counts.runs = self.counts.runs.saturating_add(1);
        if let Some(second) = &case.second {
            return self.run_beside(alloc, command, case, second);
        }
        if let Start::Left = case.start {
            let disk = taken(&mut self.left)?;
            let ended = run(alloc, command, case, case.fails, disk)?;
            let told = told_of(alloc, command, case, &ended)?;
            self.left = Some(ended.disk);
            return Ok(told);
        }
        let base = base_of(alloc, &self.small, &self.left, case.start, &case.edits)?;
        self.run_on(alloc, command, case, base)
    }

    /// Runs a case of two disks, and tries on them what the case wants to be tried.
    fn run_beside<C: Command>(
        &mut self,
        alloc: Global,
        command: &C,
        case: &Case,
        second: &Second,
    ) -> Result<String> {
        let disk = disk_of(alloc, &self.small, &mut self.left, case.start, &case.edits)?;
        let other = disk_of(
            alloc,
            &self.small,
            &mut self.second_left,
            second.start,
            &second.edits,
        )?;
        let bases = if case.kinds.is_empty() {
            None
        } else {
            let one = Vec::from_slice(alloc, disk.bytes())?;
            Some((one, Vec::from_slice(alloc, other.bytes())?))
        };
        let fails = (case.fails, second.fails);
        let ended = run_on_both(alloc, command, case, fails, (disk, other))?;
        let mut told = told_of(alloc, command, case, &ended)?;
        if let Some(bases) = bases {
            let pair = Pair::new(alloc, case, bases, &ended)?;
            let counts = &mut self.counts;
            let tried = try_both(alloc, command, counts, &pair, case, second, &ended)?;
            told.push_str(tried.as_str())?;
        }
        self.left = Some(ended.disk);
        self.second_left = Some(ended.second);
        Ok(told)
    }

    /// Runs a case on a disk with these bytes, and tries on it what the case wants to be tried.
    fn run_on<C: Command>(
        &mut self,
        alloc: Global,
        command: &C,
        case: &Case,
        base: Vec<u8>,
    ) -> Result<String> {
        let disk = CutDisk::new(alloc, &base)?;
        let ended = run(alloc, command, case, case.fails, disk)?;
        let mut told = told_of(alloc, command, case, &ended)?;
        for piece in &case.bits {
            let bits = try_bits(alloc, command, &mut self.counts, case, &base, *piece)?;
            told.push_str(bits.as_str())?;
        }
        if !case.kinds.is_empty() {
            let tried = try_kinds(alloc, command, &mut self.counts, case, base, &ended)?;
            told.push_str(tried.as_str())?;
        }
        self.left = Some(ended.disk);
        Ok(told)
    }
}

/// The disk that the last case left.
fn taken(left: &mut Option<CutDisk>) -> Result<CutDisk> {
    match left.take() {
        Some(disk) => Ok(disk),
        None => bail!("no case has left a disk"),
    }
}

/// A disk that a case begins with: one that is made so, or the one that the last case left.
fn disk_of(
    alloc: Global,
    small: &[u8],
    left: &mut Option<CutDisk>,
    start: Start,
    edits: &[Edit],
) -> Result<CutDisk> {
    if let Start::Left = start {
        return taken(left);
    }
    let base = base_of(alloc, small, left, start, edits)?;
    Ok(CutDisk::new(alloc, &base)?)
}

/// Tries each kind of failure that a case names, and tells it.
fn try_kinds<C: Command>(
    alloc: Global,
    command: &C,
    counts: &mut Counts,
    case: &Case,
    base: Vec<u8>,
    undisturbed: &Ended,
) -> Result<String> {
    let mut told = String::new(alloc);
    let trial = Trial::new(alloc, command, case, base, undisturbed)?;
    for kind in &case.kinds {
        let wrong = counts.wrong;
        let tried = try_each(alloc, command, counts, &trial, case, undisturbed, *kind)?;
        // A case that says what it is to show leaves open how much was tried.
        if case.expected.is_none() || counts.wrong > wrong {
            told.push_str(tried.as_str())?;
        }
    }
    Ok(told)
}

/// Tries each kind of failure that a case of two disks names, and tells it.
fn try_both<C: Command>(
    alloc: Global,
    command: &C,
    counts: &mut Counts,
    pair: &Pair,
    case: &Case,
    second: &Second,
    undisturbed: &Ended,
) -> Result<String> {
    let mut told = String::new(alloc);
    for kind in &case.kinds {
        let wrong = counts.wrong;
        let tried = try_each_of_both(
            alloc,
            command,
            counts,
            pair,
            case,
            second,
            undisturbed,
            *kind,
        )?;
        // A case that says what it is to show leaves open how much was tried.
        if case.expected.is_none() || counts.wrong > wrong {
            told.push_str(tried.as_str())?;
        }
    }
    Ok(told)
}

/// Runs a case once for each bit of some bytes, with this bit flipped, and tells how the runs end.
fn try_bits<C: Command>(
    alloc: Global,
    command: &C,
    counts: &mut Counts,
    case: &Case,
    base: &[u8],
    piece: Piece,
) -> Result<String> {
    let mut rows = Vec::new(alloc);
    for k in 0..piece.count {
        let byte = piece.first.saturating_add(k);
        for bit in 0..8 {
            let at = piece.at;
            counts.runs = counts.runs.saturating_add(1);
            let edit = Edit::Flip { at, byte, bit };
            let outcome = outcome_at(alloc, command, case, base, &edit)?;
            let label = format!(in alloc; "byte {byte} bit {bit}")?;
            add(
                alloc,
                &mut rows,
                label.as_str(),
                without_tags(outcome.as_str()),
            )?;
        }
    }
    let mut told = String::new(alloc);
    put_rows(alloc, &mut told, &rows, "bits", "")?;
    Ok(told)
}

/// An outcome without the tags that a fault of the journal tells, which differ with each bit of an entry.
fn without_tags(outcome: &str) -> &str {
    if !outcome.starts_with("3 fault image journal tag ") {
        return outcome;
    }
    match outcome.split_once(" stored ") {
        Some((front, _)) => front,
        None => outcome,
    }
}

/// How a case ends on a disk with one more edit.
fn outcome_at<C: Command>(
    alloc: Global,
    command: &C,
    case: &Case,
    base: &[u8],
    edit: &Edit,
) -> Result<String> {
    let mut bytes = Vec::from_slice(alloc, base)?;
    edit_bytes(&mut bytes, edit)?;
    let disk = CutDisk::new(alloc, &bytes)?;
    let ended = run(alloc, command, case, case.fails, disk)?;
    Ok(outcome_of(alloc, &ended)?)
}
