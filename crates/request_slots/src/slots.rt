//! The requests in flight.
ghost use Rattle.std.specs.Prelude.{◌≡◌, ◌↔◌, ◌+◌, ◌<◌, ◌≤◌, ◌^◌, suc, true, length, option_map, position, slice_get};
ghost use Rattle.std.specs.Prelude.{IfOk, IfSome, IsTrue};
ghost use Rattle.std.specs.List.{position_or_len};
ghost use Rattle.request_slots.specs.Table.{with_unlocked};

use crate::slot::Slot;
use crate::{BlockRange, Reply, Request, SubmitFault, Ticket, Turn};
use hmac_tag::Tag;
use range_lock::{Asked, Memory, Ranges};
use std::alloc::Global;
use std::marker::Model;

/// How many requests may be submitted and not taken.
///
/// Own: sixteen.
pub const MOST_SLOTS: usize = 16;

/// The requests in flight on a device of so many blocks: submitted and not taken.
#[derive(Drop)]
pub struct Slots {
    blocks: u64,
    block_size: usize,
    submitted: u64,
    slots: Vec<Slot>,
    locks: Ranges,
}

impl Model for Slots {
    ghost use Rattle.request_slots.specs.Flight.{Flight};
    ghost use Rattle.request_slots.specs.Table.{flight_of, IsTable};

    ghost Value = { Flight };

    ghost view = { λ table. flight_of table };

    ghost invariant = { λ table. IsTable table };
}

impl Slots {
    ghost use Rattle.request_slots.specs.Flight.{is_in_flight, is_of, no_requests, range_of, slot_of, turn_of};
    ghost use Rattle.request_slots.specs.Flight.{FitsFlight, IsRead, IsTurnWithin, IsWrite};
    ghost use Rattle.request_slots.specs.Serving.{with_change, with_block_read, with_block_counted};
    ghost use Rattle.request_slots.specs.Serving.{with_fault, with_finish, next_bytes};
    ghost use Rattle.request_slots.specs.Submitting.{answer_by, after_submit, blocks_fault, fault_of, most_slots};
    ghost use Rattle.request_slots.specs.Submitting.{slots_fault};
    ghost use Rattle.request_slots.specs.Taking.{taken_by, after_take};

    /// No request, on a device of `blocks` blocks of `block_size` bytes each. It takes all memory that sixteen requests
    /// need, but for the bytes that come with them.
    ///
    /// # Errors
    ///
    /// - `Memory`: there is none for it.
    pub fn new(alloc: Global, blocks: u64, block_size: usize) -> Result<Slots, Memory>
        requires blocks { blocks ≤ 2 ^ 48 }
        requires some { 1 ≤ block_size }
        requires small { block_size ≤ 4096 }

        ensures { IfOk result (λ slots. slots ≡ no_requests blocks block_size) }
    {
        let locks = Ranges::new(alloc, MOST_SLOTS as u64)?;
        let slots = Vec::with_capacity(alloc, MOST_SLOTS)?;
        Ok(Slots {
            blocks,
            block_size,
            submitted: 0,
            slots,
            locks,
        })
    }

    /// How many blocks the device has.
    pub fn blocks(&self) -> u64
        ensures { result ≡ self.now.blocks }
    {
        self.blocks
    }

    /// How many bytes a block has.
    pub fn block_size(&self) -> usize
        ensures { result ≡ self.now.block_size }
    {
        self.block_size
    }

    /// Whether there is a ticket for one more request: fewer than 2^64 - 1 were submitted. The condition of `submit`.
    pub fn has_ticket(&self) -> bool
        ensures { IsTrue result ↔ (self.now.submitted + 1 < 2 ^ 64) }
    {
        self.submitted < u64::MAX
    }

    /// Whether the request of this ticket is submitted and not taken: the condition of the calls that name it.
    pub fn holds(&self, ticket: &Ticket) -> bool
        ensures { result ≡ is_in_flight ticket.now self.now }
    {
        self.slots.iter().any(|slot| slot.ticket == ticket.number)
    }

    /// The blocks of the request that is at this place in order of submission, of those that are submitted and not
    /// taken, done or not. A flush has none: its count is 0.
    pub fn range_at(&self, place: usize) -> Option<BlockRange>
        ensures range { result ≡ option_map range_of (slice_get self.now.slots place) }
        ensures inside { IfSome result (λ range. range.first + range.count ≤ self.now.blocks) }

        // What holds of all requests in flight: they are no more than there are slots.
        ensures few { length self.now.slots ≤ most_slots }
    {
        let slot = self.slots.get(place)?;
        Some(BlockRange {
            first: slot.request.first(),
            count: slot.request.count(),
        })
    }

    /// Takes a request, which comes last in order.
    ///
    /// # Errors
    ///
    /// The request comes back with the first of these, and nothing is changed.
    ///
    /// - `Range`: it has no block, or one that is not there.
    /// - `Length`: it did not come with as many bytes as its blocks have.
    /// - `SlotsFull`: sixteen are submitted and not taken.
    pub fn submit(&mut self, request: Request) -> Result<Ticket, (Request, SubmitFault)>
        requires { self.old.submitted + 1 < 2 ^ 64 }

        ensures answer { result ≡
            answer_by (fault_of self.old request) (suc self.old.submitted) request }
        ensures submitted { self.new ≡ after_submit (fault_of self.old request) request self.old }
    {
        if let Some(fault) = self.fault_of(&request) {
            return Err((request, fault));
        }
        self.submitted += 1;
        let number = self.submitted;
        let _ = self.locks.ask(number, request.first(), request.count());
        self.slots.push_reserved(Slot::new(number, request));
        Ok(Ticket { number })
    }

    /// What is done next for the request of this ticket.
    pub fn turn(&self, ticket: &Ticket) -> Turn
        requires { is_in_flight ticket.now self.now ≡ true }

        ensures turn { result ≡ turn_of self.now ticket.now }
        ensures inside { IsTurnWithin self.now.blocks result }
        ensures fits { FitsFlight ticket.now self.now }
    {
        let slot = &self.slots[self.place_of(ticket)];
        if !slot.is_unfinished() {
            return Turn::Finished;
        }
        match self.locks.check(ticket.number) {
            Asked::Held { by } => Turn::Held { by },
            Asked::Granted => slot.next(),
        }
    }

    /// The bytes of the block that a write writes next.
    pub fn next_bytes(&self, ticket: &Ticket) -> &[u8]
        requires there { is_in_flight ticket.now self.now ≡ true }
        requires writes { IsWrite (turn_of self.now ticket.now) }

        ensures bytes { IfSome (slot_of ticket.now self.now)
            (λ slot. result.now ≡ next_bytes self.now.block_size slot) }
        ensures size { length result.now ≡ self.now.block_size }
    {
        self.slots[self.place_of(ticket)].next_bytes(self.block_size)
    }

    /// Puts the bytes of the block that a read reads next into its buffer. With the last one it is done.
    pub fn put_block(&mut self, ticket: &Ticket, bytes: &[u8])
        requires there { is_in_flight ticket.now self.old ≡ true }
        requires reads { IsRead (turn_of self.old ticket.now) }
        requires bytes { length bytes.now ≡ self.old.block_size }

        ensures { self.new ≡
            with_change ticket.now (with_block_read self.old.block_size bytes.now) self.old }
    {
        let place = self.place_of(ticket);
        let slot = &mut self.slots[place];
        slot.put_block(self.block_size, bytes);
        unlock_finished(&mut self.locks, slot);
    }

    /// Ends a read with a fault of the block that it reads next.
    pub fn put_fault(&mut self, ticket: &Ticket, block: u64, stored: Tag, computed: Tag)
        requires there { is_in_flight ticket.now self.old ≡ true }
        requires reads { IsRead (turn_of self.old ticket.now) }

        ensures { self.new ≡ with_change ticket.now (with_fault block stored computed) self.old }
    {
        let place = self.place_of(ticket);
        let slot = &mut self.slots[place];
        slot.put_fault(block, stored, computed);
        unlock_finished(&mut self.locks, slot);
    }

    /// Counts the block that a write wrote. With the last one it is done.
    pub fn count_block(&mut self, ticket: &Ticket)
        requires there { is_in_flight ticket.now self.old ≡ true }
        requires writes { IsWrite (turn_of self.old ticket.now) }

        ensures { self.new ≡ with_change ticket.now with_block_counted self.old }
    {
        let place = self.place_of(ticket);
        let slot = &mut self.slots[place];
        slot.count_block();
        unlock_finished(&mut self.locks, slot);
    }

    /// Finishes a flush.
    pub fn finish(&mut self, ticket: &Ticket)
        requires there { is_in_flight ticket.now self.old ≡ true }

        ensures { self.new ≡ with_change ticket.now with_finish self.old }
    {
        let place = self.place_of(ticket);
        let slot = &mut self.slots[place];
        slot.finish();
        unlock_finished(&mut self.locks, slot);
    }

    /// Takes the reply to the request of this ticket, which is then no more in flight.
    ///
    /// # Errors
    ///
    /// The ticket comes back where the request is not done. Nothing is changed then.
    pub fn take(&mut self, ticket: Ticket) -> Result<Reply, Ticket>
        requires there { is_in_flight ticket self.old ≡ true }

        ensures reply { result ≡ taken_by ticket (slot_of ticket self.old) }
        ensures taken { self.new ≡ after_take ticket (slot_of ticket self.old) self.old }
    {
        let place = self.place_of(&ticket);
        if self.slots[place].is_unfinished() {
            return Err(ticket);
        }
        Ok(self.slots.remove(place).into_reply())
    }

    // Why a request is refused, if it is.
    fn fault_of(&self, request: &Request) -> Option<SubmitFault>
        ensures { result ≡ fault_of self.now request.now }
    {
        match request {
            Request::Flush => self.slots_fault(),
            _ => self
                .blocks_fault(request.first(), request.count(), request.bytes())
                .or(self.slots_fault()),
        }
    }

    // Why blocks with some bytes are refused, if they are.
    fn blocks_fault(&self, first: u64, count: u64, bytes: &[u8]) -> Option<SubmitFault>
        ensures { result ≡ blocks_fault self.now first count bytes.now }
    {
        let blocks = self.blocks;
        if count == 0 || count > blocks || first > blocks - count {
            return Some(SubmitFault::Range {
                first,
                count,
                blocks,
            });
        }
        let have = bytes.len() as u64;
        let need = count * self.block_size as u64;
        (have != need).then(|| SubmitFault::Length { have, need })
    }

    // Why any request is: no slot is left.
    fn slots_fault(&self) -> Option<SubmitFault>
        ensures { result ≡ slots_fault self.now }
    {
        if self.slots.len() < MOST_SLOTS {
            return None;
        }
        Some(SubmitFault::SlotsFull {
            slots: MOST_SLOTS as u64,
        })
    }

    // Where the request of a ticket is: behind all where it is not in flight.
    fn place_of(&self, ticket: &Ticket) -> usize
        ensures { result ≡ position_or_len (is_of ticket.now) self.now.slots }
    {
        self.find(ticket).unwrap_or(self.slots.len())
    }

    // Where the request of a ticket is, if it is in flight.
    fn find(&self, ticket: &Ticket) -> Option<usize>
        ensures { result ≡ position (is_of ticket.now) self.now.slots }
    {
        self.slots
            .iter()
            .position(|slot| slot.ticket == ticket.number)
    }
}

// Lets go of the blocks of a request that is done.
fn unlock_finished(locks: &mut Ranges, slot: &Slot)
    ensures { locks.new ≡ with_unlocked slot.now locks.old }
{
    if !slot.is_unfinished() {
        locks.release(slot.ticket);
    }
}
