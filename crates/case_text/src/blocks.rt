//! The cases and tables of a text.
use crate::reading::{apply, cut};
use crate::{Case, Second};
use anyhow::{Context, Result, bail};
use std::alloc::{AllocError, Global};

/// A line of a case or a table, without the spaces before it.
#[derive(Drop)]
pub struct Line {
    pub number: usize,
    pub text: String,
}

/// A case or a table: the word and the name that begin it, and the lines below.
#[derive(Drop)]
pub struct Block {
    pub is_case: bool,
    pub number: usize,
    pub name: String,
    pub lines: Vec<Line>,
}

/// Parts a text into its blocks.
pub fn blocks_of(alloc: Global, text: &str) -> Result<Vec<Block>> {
    let mut blocks: Vec<Block> = Vec::new(alloc);
    for (k, line) in text.split('\n').enumerate() {
        let number = k.saturating_add(1);
        add_line(alloc, &mut blocks, number, line.trim_start()).context(format_args!(
            "line {number}"
        ))?;
    }
    Ok(blocks)
}

/// Adds a line, which may begin a block. An empty line, and one that begins with `#`, says nothing.
fn add_line(alloc: Global, blocks: &mut Vec<Block>, number: usize, line: &str) -> Result<()> {
    if line.is_empty() || line.starts_with('#') {
        return Ok(());
    }
    if line.ends_with(' ') {
        bail!("it ends with a space");
    }
    let (word, name) = cut(line);
    if word == "case" || word == "table" {
        blocks.push(Block {
            is_case: word == "case",
            number,
            name: name.to_string(alloc)?,
            lines: Vec::new(alloc),
        })?;
        return Ok(());
    }
    let text = line.to_string(alloc)?;
    match blocks.last_mut() {
        Some(block) => block.lines.push(Line { number, text })?,
        None => bail!("it stands before any case"),
    }
    Ok(())
}

/// The table that a case names.
pub fn table_of<'b>(blocks: &'b [Block], block: &Block) -> Result<Option<&'b Block>> {
    for line in &block.lines {
        if let Some(name) = line.text.as_str().strip_prefix("for ") {
            for table in blocks {
                if !table.is_case && table.name.as_str() == name {
                    return Ok(Some(table));
                }
            }
            bail!("line {}: there is no such table", line.number);
        }
    }
    Ok(None)
}

/// The case that a block says, with these columns.
pub fn case_of(alloc: Global, block: &Block, row: &str) -> Result<Case> {
    let mut case = Case::new(alloc, Vec::new(alloc))?;
    for line in &block.lines {
        let number = line.number;
        apply_line(alloc, &mut case, line, row).context(format_args!("line {number}"))?;
    }
    Ok(case)
}

/// Adds to a case what a line says, with these columns.
fn apply_line(alloc: Global, case: &mut Case, line: &Line, row: &str) -> Result<()> {
    let text = filled(alloc, line.text.as_str(), row)?;
    if text.as_str().starts_with("for ") {
        return Ok(());
    }
    match text.as_str().strip_prefix("second ") {
        Some(line) => apply_to_second(alloc, case, line),
        None => apply(alloc, case, text.as_str()),
    }
}

/// Adds to the second disk of a case what a line says. What is no disk's does not count.
fn apply_to_second(alloc: Global, case: &mut Case, line: &str) -> Result<()> {
    let mut alone = Case::new(alloc, Vec::new(alloc))?;
    if let Some(second) = case.second.take() {
        alone.start = second.start;
        alone.edits = second.edits;
        alone.fails = second.fails;
        alone.shows = second.shows;
    }
    apply(alloc, &mut alone, line)?;
    case.second = Some(Second {
        start: alone.start,
        edits: alone.edits,
        fails: alone.fails,
        shows: alone.shows,
    });
    Ok(())
}

/// A line with the columns of a row in the places of `{1}`, `{2}` and so on.
fn filled(alloc: Global, line: &str, row: &str) -> Result<String, AllocError> {
    let mut text = line.to_string(alloc)?;
    if !line.contains('{') {
        return Ok(text);
    }
    for (k, column) in row.split(" | ").enumerate() {
        let number = k.saturating_add(1);
        let place = format!(in alloc; "{{{number}}}")?;
        text = text.as_str().replace(alloc, place.as_str(), column)?;
    }
    Ok(text)
}
