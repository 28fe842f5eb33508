//! What watches a disk, and shows how far the work on it is.
ghost use Rattle.std.specs.Prelude.{◌≡◌, ◌≤◌, None, false};

use crate::Course;
use crate::course::end_of_image;
use crate::pace::{Pace, milliseconds};
use crate::report::Report;
use image_model::SECTOR_SIZE;
use std::io::Eprint;
use std::rt::Clock;
use std::time::Instant;
use watched_disk::Watcher;

/// In milliseconds. Work that takes no longer is not shown.
const SHORT: u128 = 1000;

/// In milliseconds. The line is written anew no sooner.
const BETWEEN: u128 = 100;

/// Every how many calls of the disk the clock is looked at.
const CALLS_A_LOOK: u32 = 8;

/// Shows on the standard error how far the work on a disk is, where it takes longer than a second: at most ten times a
/// second, on one line that is overwritten.
#[derive(Drop)]
pub struct Progress<'r, R: Clock + Eprint> {
    rt: &'r R,
    course: Course,
    // None where nothing is to be shown: by the user's wish, or for want of a clock.
    pace: Option<Pace>,
    shown: Option<Instant>,
    at: u64,
    end: Option<u64>,
    calls: u32,
    moved: u64,
}

impl<'r, R: Clock + Eprint> Progress<'r, R> {
    /// Watches work of this course, and shows it if it is to be shown. It writes nothing yet.
    pub fn new(rt: &'r R, course: Course, is_shown: bool) -> Progress<'r, R>
        ensures course { result.course ≡ course }
        ensures begins { result.at ≡ 0 }
        ensures hidden { is_shown ≡ false → result.pace ≡ None }
    {
        let pace = if is_shown {
            Instant::now(rt).ok().map(Pace::new)
        } else {
            None
        };
        Progress {
            rt,
            course,
            pace,
            shown: None,
            at: 0,
            end: None,
            calls: 0,
            moved: 0,
        }
    }

    /// Notes that sectors were read or written. The tags of an area are read between its data, so the place that is
    /// shown is the furthest so far: it never goes back.
    fn go_on(&mut self, at: u64, bytes: &[u8])
        ensures { self.old.at ≤ self.new.at }
    {
        let sectors = (bytes.len() / SECTOR_SIZE) as u64;
        self.at = self.at.max(at.saturating_add(sectors));
        self.moved = self.moved.saturating_add(sectors);
        self.calls = self.calls.saturating_add(1);
        if self.calls >= CALLS_A_LOOK {
            self.look();
        }
    }

    /// Looks at the clock, and shows the line where it is time to.
    fn look(&mut self)
        ensures { self.new.at ≡ self.old.at }
    {
        let Some(mut pace) = self.pace else { return };
        let Ok(now) = Instant::now(self.rt) else {
            return;
        };
        pace.look(now, self.moved);
        self.pace = Some(pace);
        self.calls = 0;
        self.moved = 0;
        if pace.lasted() < SHORT || self.was_shown_since(now) {
            return;
        }
        self.shown = Some(now);
        let report = Report {
            place: self.end.map(|end| (self.at, end)),
            moved: pace.moved(),
            rate: pace.rate(),
        };
        // A standard error that takes nothing shows nothing.
        let _ = eprint!(self.rt; "\r{report}\x1b[K");
    }

    /// Whether the line was written a moment ago.
    fn was_shown_since(&self, now: Instant) -> bool {
        match self.shown {
            Some(then) => milliseconds(then, now) < BETWEEN,
            None => false,
        }
    }
}

impl<'r, R: Clock + Eprint> Watcher for Progress<'r, R> {
    fn has_bound(&mut self, sectors: u64)
        ensures { self.new.at ≡ self.old.at }
    {
        if self.course == Course::Disk {
            self.end = Some(sectors);
        }
    }

    fn has_read(&mut self, at: u64, bytes: &[u8])
        ensures { self.old.at ≤ self.new.at }
    {
        if self.pace.is_none() {
            return;
        }
        if at == 0 && self.course == Course::Image {
            self.end = end_of_image(bytes);
        }
        self.go_on(at, bytes);
    }

    fn has_written(&mut self, at: u64, bytes: &[u8])
        ensures { self.old.at ≤ self.new.at }
    {
        if self.pace.is_some() {
            self.go_on(at, bytes);
        }
    }

    fn has_synced(&mut self)
        ensures { self.new.at ≡ self.old.at }
    {
        if self.pace.is_some() {
            self.look();
        }
    }
}
