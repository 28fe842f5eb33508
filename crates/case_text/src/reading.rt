//! Reads what the lines of a case say.
use crate::runs::bytes_of_runs;
use crate::{Candidates, Case, Edit, Piece, Show, Start, kind_of, with_failure};
use anyhow::{Result, bail};
use std::alloc::Global;

/// Adds to a case what a line says.
pub fn apply(alloc: Global, case: &mut Case, line: &str) -> Result<()> {
    let (word, text) = cut(line);
    match word {
        "words" => case.words = words_of(alloc, text)?,
        "key" => case.key = bytes_of(alloc, text)?,
        "keys" => {
            let (times, text) = cut(text);
            put_script(alloc, &mut case.key, times.parse::<u64>()?, text, "")?;
        }
        "line" => put_script(alloc, &mut case.script, 1, text, "\n")?,
        "text" => put_script(alloc, &mut case.script, 1, text, "")?,
        "lines" | "texts" => {
            let (times, text) = cut(text);
            let end = if word == "lines" { "\n" } else { "" };
            put_script(alloc, &mut case.script, times.parse::<u64>()?, text, end)?;
        }
        "first" => put_reopened(alloc, case, Candidates::First, text)?,
        "last" => put_reopened(alloc, case, Candidates::Last, text)?,
        "expect" => put_expected(alloc, &mut case.expected, text)?,
        "sector" | "put" | "part" => apply_bytes(alloc, case, word, text)?,
        _ => apply_numbers(alloc, case, line)?,
    }
    Ok(())
}

/// The first word, and what stands behind the space after it.
pub fn cut(text: &str) -> (&str, &str) {
    match text.split_once(' ') {
        Some(parts) => parts,
        None => (text, ""),
    }
}

/// Adds what a line says that is words with numbers behind them.
fn apply_numbers(alloc: Global, case: &mut Case, line: &str) -> Result<()> {
    let mut words = String::new(alloc);
    let mut numbers: Vec<u64> = Vec::new(alloc);
    for word in line.split(' ') {
        match word.parse::<u64>() {
            Ok(number) => numbers.push(number)?,
            Err(_) => {
                words.push_str(if words.is_empty() { "" } else { " " })?;
                words.push_str(word)?;
            }
        }
    }
    match numbers.as_slice() {
        [] => apply_words(case, words.as_str()),
        [number] => apply_number(case, words.as_str(), *number),
        [at, first, last] => apply_three(alloc, case, words.as_str(), *at, *first, *last),
        [section, sector, count, number] if words.as_str() == "empty" => {
            case.edits.push(Edit::Journal {
                section: *section,
                sector: *sector,
                count: *count,
                number: *number,
                bytes: Vec::new(alloc),
            })?;
            Ok(())
        }
        _ => bail!("so many numbers stand behind no word"),
    }
}

/// Adds what a word says with numbers behind it and then bytes.
fn apply_bytes(alloc: Global, case: &mut Case, word: &str, text: &str) -> Result<()> {
    let Some((places, runs)) = text.rsplit_once(' ') else {
        bail!("it has no bytes");
    };
    let bytes = bytes_of_runs(alloc, runs)?;
    let mut numbers: Vec<u64> = Vec::new(alloc);
    for place in places.split(' ') {
        numbers.push(place.parse::<u64>()?)?;
    }
    case.edits.push(match (word, numbers.as_slice()) {
        ("sector", [at]) => Edit::Put {
            at: *at,
            byte: 0,
            bytes,
        },
        ("put", [at, byte]) => Edit::Put {
            at: *at,
            byte: *byte,
            bytes,
        },
        ("part", [section, sector, number]) => Edit::Journal {
            section: *section,
            sector: *sector,
            count: 1,
            number: *number,
            bytes,
        },
        _ => bail!("it is no line of a case with bytes"),
    })?;
    Ok(())
}

/// Adds what words alone say.
fn apply_words(case: &mut Case, words: &str) -> Result<()> {
    if let Some(name) = words.strip_prefix("each ") {
        let Some(kind) = kind_of(name) else {
            bail!("there is nothing that fails of this name");
        };
        case.kinds.push(kind)?;
        return Ok(());
    }
    match words {
        "disk left" => case.start = Start::Left,
        "disk first" => case.start = Start::ImageOfLeft(Candidates::First),
        "disk last" => case.start = Start::ImageOfLeft(Candidates::Last),
        "disk mixed" => case.start = Start::ImageOfLeft(Candidates::Alternate),
        "fresh" => case.edits.push(Edit::Fresh)?,
        "show digest" => case.shows.push(Show::Digest)?,
        "show digest outside" => case.shows.push(Show::Outside)?,
        "show digest text" => case.shows.push(Show::Text)?,
        "show numbers" => case.shows.push(Show::Numbers)?,
        "show writes" => case.shows.push(Show::Writes)?,
        _ => bail!("it is no line of a case"),
    }
    Ok(())
}

/// Adds what words with one number say.
fn apply_number(case: &mut Case, words: &str, number: u64) -> Result<()> {
    match words {
        "disk small" => case.start = Start::Small { sectors: number },
        "disk zeros" => case.start = Start::Zeros { sectors: number },
        "unreadable" => case.fails.unreadable = Some(number),
        _ => {
            let name = match words.strip_prefix("fail ") {
                Some(name) => name,
                None => words,
            };
            let Some(kind) = kind_of(name) else {
                bail!("it is no line of a case with one number");
            };
            case.fails = with_failure(case.fails, kind, number);
        }
    }
    Ok(())
}

/// Adds what words with three numbers say.
fn apply_three(
    alloc: Global,
    case: &mut Case,
    words: &str,
    at: u64,
    first: u64,
    last: u64,
) -> Result<()> {
    let piece = Piece {
        at,
        first,
        count: last,
    };
    match words {
        "set" => case.edits.push(Edit::Put {
            at,
            byte: first,
            bytes: Vec::from_slice(alloc, &[(last % 256) as u8])?,
        })?,
        "flip" => case.edits.push(Edit::Flip {
            at,
            byte: first,
            bit: last,
        })?,
        "number" => case.edits.push(Edit::Number {
            at,
            count: first,
            number: last,
        })?,
        "each bit" => case.bits.push(piece)?,
        "show bytes" => case.shows.push(Show::Bytes(piece))?,
        _ => bail!("it is no line of a case with three numbers"),
    }
    Ok(())
}

/// The words that are parted by spaces. Of no text there are none.
fn words_of(alloc: Global, text: &str) -> Result<Vec<String>> {
    let bytes = bytes_of(alloc, text)?;
    let Ok(line) = str::from_utf8(&bytes) else {
        bail!("a word is no UTF-8");
    };
    let mut words = Vec::new(alloc);
    if !line.is_empty() {
        for word in line.split(' ') {
            words.push(word.to_string(alloc)?)?;
        }
    }
    Ok(words)
}

/// The bytes of a text. `\x0a` stands for a byte, and `\-` for nothing.
fn bytes_of(alloc: Global, text: &str) -> Result<Vec<u8>> {
    let mut bytes = Vec::new(alloc);
    for (k, piece) in text.split('\\').enumerate() {
        let piece = piece.as_bytes();
        match piece {
            _ if k == 0 => bytes.extend_from_slice(piece)?,
            [b'-', rest @ ..] => bytes.extend_from_slice(rest)?,
            [b'x', high, low, rest @ ..] => {
                let mut byte = [0];
                if hex::decode_to_slice(&[*high, *low], &mut byte).is_err() {
                    bail!("two hexadecimal digits are to stand behind a backslash and x");
                }
                bytes.extend_from_slice(&byte)?;
                bytes.extend_from_slice(rest)?;
            }
            _ => bail!("a backslash stands before neither x nor -"),
        }
    }
    Ok(bytes)
}

/// Puts a text so many times, each with what ends it.
fn put_script(
    alloc: Global,
    script: &mut Vec<u8>,
    times: u64,
    text: &str,
    end: &str,
) -> Result<()> {
    let mut bytes = bytes_of(alloc, text)?;
    bytes.extend_from_slice(end.as_bytes())?;
    for _ in 0..times {
        script.extend_from_slice(&bytes)?;
    }
    Ok(())
}

/// Has shown what a script of one line prints on an image of what is left.
fn put_reopened(alloc: Global, case: &mut Case, candidates: Candidates, text: &str) -> Result<()> {
    let mut script = bytes_of(alloc, text)?;
    script.push(b'\n')?;
    case.shows.push(Show::Reopened { candidates, script })?;
    Ok(())
}

/// Adds a line to what a case is to show.
fn put_expected(alloc: Global, expected: &mut Option<String>, text: &str) -> Result<()> {
    match expected {
        Some(lines) => {
            lines.push_str("\n")?;
            lines.push_str(text)?;
        }
        None => *expected = Some(text.to_string(alloc)?),
    }
    Ok(())
}
