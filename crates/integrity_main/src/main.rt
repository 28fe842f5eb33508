//! The program: its files, its standard input and output, and its status.
//!
//! What it does is `integrity` of `integrity_tool`, which is proved over any disks, key, script and sink. Here these
//! are those of `file_disk` and `file_stream`, over the files of the system: text goes out by whole lines, and the
//! replies of a session each at once. The file of a second image is opened only where the words name one. What is shown
//! on the standard error beside it, how far long work is and what an ending means, changes none of these
//! (`watched_disk`, `progress_line`, `ending_advice`).
#![tactic(auto)]

use ending_advice::{Beginning, LastLine, advice_on, advice_on_session};
use file_disk::{FileDisk, StdFolder};
use file_stream::{FileSource, LineSink, OpenSource, PieceSink, StdInput, StdInputs, StdOutput};
use integrity_tool::{Outside, end_without_memory};
use progress_line::{ClearedOutput, Course, Progress};
use std::alloc::Global;
use std::io::{Eprint, ErrorKind, IsTerminal};
use std::process::ExitCode;
use std::rt::Env;
use std::{env, io};
use watched_disk::WatchedDisk;

/// The words that the program is given, the first its name.
fn words_of<R: Env + AllocGlobal>(rt: &R) -> io::Result<Vec<String>> {
    Ok(env::args(rt)?.collect(rt.alloc())?)
}

/// The words, if there was memory for them. Where one of them is no text they are no command, as no words are none.
fn texts_of(alloc: Global, words: io::Result<Vec<String>>) -> Option<Vec<String>> {
    match words {
        Ok(words) => Some(words),
        Err(e) if e.kind() == ErrorKind::OutOfMemory => None,
        Err(_) => Some(Vec::new(alloc)),
    }
}

/// What the user wishes by a variable of the environment: 1 and 0, or nothing else.
fn wish<R: Env + AllocGlobal>(rt: &R, name: &str) -> Option<bool> {
    match env::var(rt, name).ok()?.as_str() {
        "1" => Some(true),
        "0" => Some(false),
        _ => None,
    }
}

/// The command's word, if there is one.
fn command_of(words: &io::Result<Vec<String>>) -> Option<&str> {
    match words {
        Ok(words) => words.get(1).map(|command| command.as_str()),
        Err(_) => None,
    }
}

/// In which order the command goes over its image.
fn course_of(words: &io::Result<Vec<String>>) -> Course {
    match command_of(words) {
        Some(command) => Course::of(command),
        None => Course::Scattered,
    }
}

/// Whether the command is a session, in which who waits for a reply asks for nothing more.
fn is_session(words: &io::Result<Vec<String>>) -> bool {
    match command_of(words) {
        Some(command) => command == "nbd",
        None => false,
    }
}

/// Says on the standard error what a last line means, if there is advice on it.
fn advise_on_line<R: Eprint>(rt: &R, line: &[u8], error: Option<io::Error>) {
    advise(rt, advice_on(line, error.map(|e| e.kind())), error);
}

/// Says on the standard error what the end of a session means. Before it begins a line may come, and none in it.
fn advise_on_session<R: Eprint>(rt: &R, printed: &[u8], status: u8, error: Option<io::Error>) {
    let kind = error.map(|e| e.kind());
    let advice = advice_on(printed, kind).or(advice_on_session(status, kind));
    advise(rt, advice, error);
}

/// Says on the standard error what an ending means. One that takes nothing is told nothing.
fn advise<R: Eprint>(rt: &R, advice: Option<&str>, error: Option<io::Error>) {
    let Some(advice) = advice else {
        return;
    };
    let _ = match error {
        Some(error) => eprintln!(rt; "integrity: {advice} ({error})"),
        None => eprintln!(rt; "integrity: {advice}"),
    };
}

/// What lies outside the program.
fn outside<'o, D, E, K, S, O>(
    disk: &'o mut D,
    second: &'o mut E,
    key: &'o mut K,
    script: &'o mut S,
    out: &'o mut O,
) -> Outside<'o, D, E, K, S, O> {
    Outside {
        disk,
        second,
        key,
        script,
        out,
    }
}

fn main(rt: HostRuntime) -> ExitCode {
    let words = words_of(&rt);
    let is_session = is_session(&words);
    let is_shown = wish(&rt, "YOVAMELIS_PROGRESS").unwrap_or(rt.stderr().is_terminal());
    let is_advised = wish(&rt, "YOVAMELIS_ADVICE").unwrap_or(true);
    let progress = Progress::new(&rt, course_of(&words), is_shown);
    let mut disk = WatchedDisk::new(FileDisk::new(StdFolder::new(&rt)), progress);
    let mut second = FileDisk::new(StdFolder::new(&rt));
    let mut key = FileSource::new(StdInputs::new(&rt));
    let mut script = OpenSource::new(StdInput::new(rt.reader()));
    let output = ClearedOutput::new(&rt, StdOutput::new(&rt), is_shown);
    let Some(words) = texts_of(rt.alloc(), words) else {
        return ExitCode::from(end_without_memory(&mut LineSink::new(output)));
    };
    if is_session {
        let mut out = PieceSink::new(Beginning::new(output));
        let mut outside = outside(&mut disk, &mut second, &mut key, &mut script, &mut out);
        let status = outside.integrity(rt.alloc(), &words);
        if is_advised {
            advise_on_session(&rt, out.file().bytes(), status, disk.disk().last_error());
        }
        return ExitCode::from(status);
    }
    let mut out = LineSink::new(LastLine::new(output));
    let mut outside = outside(&mut disk, &mut second, &mut key, &mut script, &mut out);
    let status = outside.integrity(rt.alloc(), &words);
    if is_advised {
        advise_on_line(
            &rt,
            out.file().line(),
            disk.disk().last_error().or(second.last_error()),
        );
    }
    ExitCode::from(status)
}
