//! Runs the cases of a text.
use crate::session::Session;
use anyhow::{Context, Result, bail};
use case_running::{Command, Repeated, add, put_rows};
use case_text::{Block, blocks_of, case_of, cut, table_of};
use std::alloc::Global;

/// Runs the cases of a text by a command, and tells what each shows.
///
/// # Errors
///
/// A line is none of a case, or a case asks for what there is none of: the context tells the line.
pub fn run_text<C: Command>(
    alloc: Global,
    command: &C,
    session: &mut Session,
    text: &str,
) -> Result<String> {
    let blocks = blocks_of(alloc, text)?;
    let mut told = String::new(alloc);
    for block in &blocks {
        if block.is_case {
            let shown = run_block(alloc, command, session, &blocks, block)?;
            told.push_str(shown.as_str())?;
        }
    }
    Ok(told)
}

/// Runs a case, for each row of the table that it names, and tells what it shows.
fn run_block<C: Command>(
    alloc: Global,
    command: &C,
    session: &mut Session,
    blocks: &[Block],
    block: &Block,
) -> Result<String> {
    let mut rows = Vec::new(alloc);
    match table_of(blocks, block)? {
        None => run_row(alloc, command, session, block, "", &mut rows)?,
        Some(table) => {
            for row in &table.lines {
                let (word, text) = cut(row.text.as_str());
                if word != "row" {
                    bail!("line {}: it is no row", row.number);
                }
                run_row(alloc, command, session, block, text, &mut rows)?;
            }
        }
    }
    let mut told = String::new(alloc);
    if !rows.is_empty() {
        told.push_str(block.name.as_str())?;
        put_rows(alloc, &mut told, &rows, "rows", "  ")?;
        told.push_str("\n")?;
    }
    Ok(told)
}

/// Runs a case with a row's columns in their places.
fn run_row<C: Command>(
    alloc: Global,
    command: &C,
    session: &mut Session,
    block: &Block,
    row: &str,
    rows: &mut Vec<Repeated>,
) -> Result<()> {
    let number = block.number;
    let case = case_of(alloc, block, row)?;
    let shown = session
        .run_case(alloc, command, &case)
        .context(format_args!("line {number}"))?;
    match &case.expected {
        None => add(alloc, rows, row, shown.as_str())?,
        Some(expected) if expected.as_str() == shown.as_str() => {
            session.counts.expected = session.counts.expected.saturating_add(1);
        }
        Some(expected) => {
            session.counts.wrong = session.counts.wrong.saturating_add(1);
            let fault = format!(in alloc; "WRONG line {number}: {shown}\nexpected {expected}")?;
            add(alloc, rows, row, fault.as_str())?;
        }
    }
    Ok(())
}
