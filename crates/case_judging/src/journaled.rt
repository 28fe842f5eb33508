//! The writes of a script block by block, and what a cut of its run leaves of them: those of some prefix.
use crate::Wrong;
use crate::form::{Form, run_at};
use crate::journal::is_same_outside_journal;
use crate::judging::{is_skipped, told_lines, written_by};
use std::alloc::{AllocError, Global};

/// A block as a script writes it, with the digest that its tag is a part of.
#[derive(Drop)]
struct Written {
    block: u64,
    data: Vec<u8>,
    digest: [u8; 32],
}

/// A request that a script has started.
#[derive(Drop)]
struct Flight {
    ticket: u64,
    /// The blocks that it is still to write, the last one first.
    ahead: Vec<Written>,
    /// What is flushed once it is done.
    end: End,
    is_done: bool,
}

/// What a request flushes once it is done.
#[derive(Clone, Copy)]
enum End {
    Nothing,
    /// All writes before, and its own.
    All,
}

/// How many writes are flushed, and how many may have begun.
#[derive(Clone, Copy)]
struct Span {
    flushed: usize,
    begun: usize,
}

/// The writes of a script, in the order in which its lines serve them, one for each block.
#[derive(Drop)]
pub struct Writes {
    form: Form,
    writes: Vec<Written>,
    /// Of each number of lines that are told whole: the next one may have begun.
    spans: Vec<Span>,
    flushed: usize,
    flights: Vec<Flight>,
    submitted: u64,
}

impl Writes {
    /// The writes of a script whose undisturbed run, on an image of a form, has printed this text.
    ///
    /// A line without `start` serves all that is in flight, in the order of tickets, and then itself. What a `serve`
    /// has done, its text tells.
    pub fn of_script(
        alloc: Global,
        form: Form,
        script: &str,
        text: &str,
    ) -> Result<Writes, AllocError> {
        let mut all = Writes::of_nothing(alloc, form);
        all.run_script(alloc, script, text)?;
        Ok(all)
    }

    /// The writes of one image of a mirror, whose undisturbed run has printed this text: those of its levelling, which
    /// gives these blocks what they hold in an image, and which its first line tells; and then those of the script.
    pub fn of_mirror(
        alloc: Global,
        form: Form,
        blocks: &[u64],
        image: &[u8],
        script: &str,
        text: &str,
    ) -> Result<Writes, AllocError> {
        let mut all = Writes::of_nothing(alloc, form);
        for block in blocks {
            let data = form.data_of(image, *block);
            all.writes.push(Written {
                block: *block,
                data: Vec::from_slice(alloc, data)?,
                digest: form.digest_of(*block, data),
            })?;
        }
        all.add_span(0)?;
        all.flushed = all.writes.len();
        let text = match text.split_once('\n') {
            Some((_, text)) => text,
            None => "",
        };
        all.run_script(alloc, script, text)?;
        Ok(all)
    }

    /// No write.
    fn of_nothing(alloc: Global, form: Form) -> Writes {
        Writes {
            form,
            writes: Vec::new(alloc),
            spans: Vec::new(alloc),
            flushed: 0,
            flights: Vec::new(alloc),
            submitted: 0,
        }
    }

    /// Runs the lines of a script, which print this where they are told.
    fn run_script(&mut self, alloc: Global, script: &str, text: &str) -> Result<(), AllocError> {
        let told = told_lines(text);
        let mut replies = text.split('\n');
        let mut lines = 0usize;
        for line in script.split('\n') {
            if lines > told {
                break;
            }
            if is_skipped(line) {
                continue;
            }
            let reply = if lines < told { replies.next() } else { None };
            let flushed = self.flushed;
            self.run_line(alloc, line, reply)?;
            self.add_span(flushed)?;
            lines = lines.saturating_add(1);
        }
        let flushed = self.flushed;
        self.add_span(flushed)
    }

    /// Adds the span of one line more that is told.
    fn add_span(&mut self, flushed: usize) -> Result<(), AllocError> {
        let begun = self.writes.len();
        self.spans.push(Span { flushed, begun })?;
        Ok(())
    }

    /// Runs a line, which prints this where it is told.
    fn run_line(
        &mut self,
        alloc: Global,
        line: &str,
        reply: Option<&str>,
    ) -> Result<(), AllocError> {
        match line.split_once(' ') {
            Some(("start", started)) => self.start(alloc, started, reply),
            Some(("serve", ticket)) => self.serve(ticket, reply),
            Some(("fill" | "write" | "read", _)) => self.run_whole(alloc, line, reply),
            _ if line == "flush" => self.run_whole(alloc, line, reply),
            _ => Ok(()),
        }
    }

    /// Runs a request from its start to its end, behind all that are in flight.
    fn run_whole(
        &mut self,
        alloc: Global,
        line: &str,
        reply: Option<&str>,
    ) -> Result<(), AllocError> {
        for flight in self.flights.iter_mut() {
            self.flushed = serve_all(flight, &mut self.writes, self.flushed)?;
        }
        if reply == Some("slots full") {
            return Ok(());
        }
        self.submitted = self.submitted.saturating_add(1);
        let mut flight = flight_of(alloc, &self.form, self.submitted, line)?;
        self.flushed = serve_all(&mut flight, &mut self.writes, self.flushed)?;
        Ok(())
    }

    /// Starts a request, where there is a slot for it.
    fn start(&mut self, alloc: Global, line: &str, reply: Option<&str>) -> Result<(), AllocError> {
        match reply {
            Some(text) if text.starts_with("ticket ") => {
                self.submitted = self.submitted.saturating_add(1);
                self.flights
                    .push(flight_of(alloc, &self.form, self.submitted, line)?)?;
                Ok(())
            }
            _ => Ok(()),
        }
    }

    /// Serves a request once, where the text says so or is not told.
    fn serve(&mut self, ticket: &str, reply: Option<&str>) -> Result<(), AllocError> {
        if !matches!(reply, None | Some("did") | Some("done")) {
            return Ok(());
        }
        let Ok(ticket) = ticket.parse::<u64>() else {
            return Ok(());
        };
        for flight in self.flights.iter_mut() {
            if flight.ticket == ticket {
                self.flushed = serve_next(flight, &mut self.writes, self.flushed)?;
            }
        }
        Ok(())
    }

    /// Looks at the blocks of what is left, with those of its journal in their places: they are those that the run
    /// began with after the first of its writes, so many that the text tells what is flushed and what may have begun.
    pub fn judge(&self, alloc: Global, base: &[u8], left: &[u8], text: &str) -> Result<(), Wrong> {
        let form = &self.form;
        let Span { flushed, begun } = self.span_of(text);
        let mut image = Vec::from_slice(alloc, base)?;
        let mut differing = differing_blocks(form, &image, left);
        for (k, written) in self.writes.iter().enumerate() {
            if k >= begun || (k >= flushed && differing == 0) {
                break;
            }
            differing = differing.saturating_sub(differing_at(form, &image, left, written.block));
            let tag = form.tag_in(&written.digest);
            form.put_block(&mut image, written.block, &written.data, tag);
            differing = differing.saturating_add(differing_at(form, &image, left, written.block));
        }
        if differing > 0 {
            return Err(Wrong::Prefix { flushed, begun });
        }
        if !is_same_outside_journal(form, &image, left) {
            return Err(Wrong::Run("a sector has changed where no block and no tag stands"));
        }
        Ok(())
    }

    /// How many writes are flushed and begun where a run has printed this text.
    fn span_of(&self, text: &str) -> Span {
        let all = Span {
            flushed: self.flushed,
            begun: self.writes.len(),
        };
        match self.spans.get(told_lines(text)) {
            Some(span) if text.ends_with("closed\n") => Span {
                flushed: span.begun,
                begun: span.begun,
            },
            Some(span) => *span,
            None => all,
        }
    }
}

/// The request of a line, of which nothing is done.
fn flight_of(alloc: Global, form: &Form, ticket: u64, line: &str) -> Result<Flight, AllocError> {
    let mut ahead = Vec::new(alloc);
    if let Some((first, bytes)) = written_by(alloc, form, line)? {
        for (k, block) in (first..form.blocks).enumerate() {
            let data = run_at(&bytes, k.saturating_mul(form.size()), form.size());
            if data.is_empty() {
                break;
            }
            ahead.push(Written {
                block,
                data: Vec::from_slice(alloc, data)?,
                digest: form.digest_of(block, data),
            })?;
        }
    }
    ahead.reverse();
    let is_flushed = line == "flush" || line.ends_with(" fua");
    Ok(Flight {
        ticket,
        ahead,
        end: if is_flushed { End::All } else { End::Nothing },
        is_done: false,
    })
}

/// Serves a request once, and tells how many writes are flushed then.
fn serve_next(
    flight: &mut Flight,
    writes: &mut Vec<Written>,
    flushed: usize,
) -> Result<usize, AllocError> {
    if flight.is_done {
        return Ok(flushed);
    }
    if let Some(next) = flight.ahead.pop() {
        writes.push(next)?;
    }
    flight.is_done = flight.ahead.is_empty();
    match flight.end {
        End::All if flight.is_done => Ok(writes.len()),
        _ => Ok(flushed),
    }
}

/// Serves a request to its end, and tells how many writes are flushed then.
fn serve_all(
    flight: &mut Flight,
    writes: &mut Vec<Written>,
    mut flushed: usize,
) -> Result<usize, AllocError> {
    // Each serve but the last one writes a block.
    for _ in 0..flight.ahead.len().saturating_add(1) {
        flushed = serve_next(flight, writes, flushed)?;
    }
    Ok(flushed)
}

/// Whether a block of two images differs in its data or its tag, as a number.
fn differing_at(form: &Form, one: &[u8], other: &[u8], block: u64) -> usize {
    let is_same = form.data_of(one, block) == form.data_of(other, block)
        && form.tag_of(one, block) == form.tag_of(other, block);
    if is_same { 0 } else { 1 }
}

/// How many blocks of two images differ.
fn differing_blocks(form: &Form, one: &[u8], other: &[u8]) -> usize {
    let mut count = 0usize;
    for block in 0..form.blocks {
        count = count.saturating_add(differing_at(form, one, other, block));
    }
    count
}
