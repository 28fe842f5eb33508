//! The tickets of the requests in flight.
ghost use Rattle.std.specs.Prelude.{◌≡◌, ◌<◌, [], OnOk, position, true, vec_len, vec_capacity};
ghost use Rattle.std.specs.List.{list_any, position_or_len};

use request_slots::Ticket;
use sector_disk::Memory;
use std::alloc::Global;

/// A request that a script has submitted and not taken: its ticket, and the blocks that it is for.
#[derive(Drop)]
pub(crate) struct Waiting {
    pub(crate) ticket: Ticket,
    pub(crate) first: u64,
    pub(crate) count: u64,
}

/// The tickets of the requests in flight that a script has submitted, in order of submission.
#[derive(Drop)]
pub struct Tickets {
    pub(crate) waiting: Vec<Waiting>,
}

impl Tickets {
    ghost use Rattle.script_session.specs.Tickets.{is_of};

    /// No ticket.
    pub fn new(alloc: Global) -> Tickets
        ensures { result.waiting.items ≡ [] }
    {
        Tickets {
            waiting: Vec::new(alloc),
        }
    }

    /// Takes memory for one more.
    pub(crate) fn make_room(&mut self) -> Result<(), Memory>
        ensures room { OnOk result (vec_len self.new.waiting < vec_capacity self.new.waiting) }
        ensures same { self.new.waiting.items ≡ self.old.waiting.items }
    {
        match self.waiting.reserve(1) {
            Ok(()) => Ok(()),
            Err(_) => Err(Memory),
        }
    }

    /// Whether the request of this ticket is in flight.
    pub(crate) fn holds(&self, number: u64) -> bool
        ensures { result ≡ list_any (is_of number) self.now.waiting.items }
    {
        self.waiting
            .iter()
            .any(|waiting| waiting.ticket.number() == number)
    }

    /// The ticket of this number.
    pub(crate) fn ticket_of(&self, number: u64) -> &Ticket
        requires { list_any (is_of number) self.now.waiting.items ≡ true }

        ensures { result.now ≡ number }
    {
        &self.waiting[self.place_of(number)].ticket
    }

    /// Where the request of this ticket stands: behind all where it is not in flight.
    pub(crate) fn place_of(&self, number: u64) -> usize
        ensures { result ≡ position_or_len (is_of number) self.now.waiting.items }
    {
        self.find(number).unwrap_or(self.waiting.len())
    }

    // Where the request of this ticket stands, if it is in flight.
    fn find(&self, number: u64) -> Option<usize>
        ensures { result ≡ position (is_of number) self.now.waiting.items }
    {
        self.waiting
            .iter()
            .position(|waiting| waiting.ticket.number() == number)
    }
}
