//! The requests in flight.
ghost use Rattle.std.specs.Prelude.{◌≡◌, ◌<◌, [], IfOk, OnOk, false, vec_capacity, vec_len};

use request_slots::{MOST_SLOTS, Ticket};
use sector_disk::Memory;
use std::alloc::Global;

/// A request in flight: its ticket, and the cookie that its reply is to bear.
#[derive(Drop)]
pub(crate) struct Waiting {
    pub(crate) ticket: Ticket,
    pub(crate) cookie: u64,
}

/// All of them, in order of submission, and what was replied so far.
#[derive(Drop)]
pub struct Flight {
    pub(crate) waiting: Vec<Waiting>,
    /// A damaged block was told.
    pub(crate) eio: bool,
}

impl Flight {
    /// None yet, with room for as many as a device takes.
    ///
    /// # Errors
    ///
    /// - `Memory`: there is none for them.
    pub fn new(alloc: Global) -> Result<Flight, Memory>
        ensures waiting { IfOk result (λ flight. flight.waiting.items ≡ []) }
        ensures eio { IfOk result (λ flight. flight.eio ≡ false) }
    {
        let waiting = Vec::with_capacity(alloc, MOST_SLOTS)?;
        Ok(Flight {
            waiting,
            eio: false,
        })
    }

    /// Takes memory for one more, where there is no room for it.
    ///
    /// # Errors
    ///
    /// - `Memory`: there is none.
    pub(crate) fn make_room(&mut self) -> Result<(), Memory>
        ensures room { OnOk result (vec_len self.new.waiting < vec_capacity self.new.waiting) }
        ensures same { self.new.waiting.items ≡ self.old.waiting.items }
        ensures eio { self.new.eio ≡ self.old.eio }
    {
        match self.waiting.reserve(1) {
            Ok(()) => Ok(()),
            Err(_) => Err(Memory),
        }
    }

    /// How many there are.
    pub fn len(&self) -> usize
        ensures { result ≡ vec_len self.now.waiting }
    {
        self.waiting.len()
    }

    /// Whether one of the replies told a damaged block.
    pub fn has_damage(&self) -> bool
        ensures { result ≡ self.now.eio }
    {
        self.eio
    }
}
