//! Runs cases of the program's one call over disks, scripts and sinks in memory, and prints what
//! each shows.
//!
//! The cases stand in the standard input, and in the files that the words name; the form of a case
//! is described at the head of `stdin`. A line that is none of a case ends the program with its
//! number, and a case or a run that is not as it should be with status 1.
#![tactic(auto)]

mod tool;

use anyhow::{Result, bail};
use case_trying::{Counts, Session, run_text};
use std::alloc::Global;
use std::{env, fs, io};
use tool::Tool;

/// Runs the cases of a text, and prints what each shows.
fn print_cases(rt: &impl Print, alloc: Global, session: &mut Session, text: &str) -> Result<()> {
    let told = run_text(alloc, &Tool, session, text)?;
    rt.print(told)?;
    Ok(())
}

/// Prints how much was tried.
fn print_counts(rt: &impl Print, counts: &Counts) -> Result<()> {
    let (runs, images, expected) = (counts.runs, counts.images, counts.expected);
    println!(rt; "{runs} runs, {images} images opened again, {expected} cases as expected")?;
    if counts.wrong > 0 {
        bail!("{} wrong", counts.wrong);
    }
    Ok(())
}

fn main(rt: HostRuntime) -> Result<()> {
    let alloc = rt.alloc();
    let mut session = Session::new(alloc)?;
    let text = io::read_to_string(alloc, rt.reader())?;
    print_cases(&rt, alloc, &mut session, text.as_str())?;
    for name in env::args(&rt)?.skip(1) {
        let text = fs::read_to_string(&rt, name.as_str())?;
        print_cases(&rt, alloc, &mut session, text.as_str())?;
    }
    print_counts(&rt, &session.counts)
}
