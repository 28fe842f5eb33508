//! What a device keeps beside its disk.
ghost use Rattle.std.specs.Prelude.{◌≡◌, ◌*◌, ◌<◌, ◌^◌, true, length};
ghost use Rattle.request_slots.specs.Flight.{FitsFlight, is_in_flight, turn_of};
ghost use Rattle.request_slots.specs.declared.turn.Turn.TheVariants as Turns;
ghost use Rattle.device_parts.specs.Answers.{after_read, served_by, turns_left};

use crate::Served;
use hmac_tag::{Tag, TagMaker};
use request_slots::{Slots, Ticket, Turn};
use tag_store::Tags;

/// What a device keeps beside its disk.
#[derive(Drop)]
pub struct Parts {
    /// Where blocks and tags lie, and the tags that stand in memory.
    pub tags: Tags,
    /// What makes the tags of its blocks.
    pub maker: TagMaker,
    /// The requests in flight.
    pub slots: Slots,
    /// How many sectors a block has.
    pub spb: u64,
    /// One block, as it is read.
    pub buffer: Vec<u8>,
}

impl Parts {
    /// Serves a read its next block, whose bytes stand in the buffer, and which has this tag: the bytes are given where
    /// that is their tag, and else the fault, with both tags. It answers what the request is then told.
    pub fn serve_read(&mut self, ticket: &Ticket, block: u64, stored: Tag) -> Served
        requires there { is_in_flight ticket.now self.old.slots ≡ true }
        requires turn { turn_of self.old.slots ticket.now ≡ Turns.Read block }
        requires fits { FitsFlight ticket.now self.old.slots }
        requires size { length self.old.buffer.items ≡ self.old.slots.block_size }
        requires sector { block * self.old.spb < 2 ^ 64 }

        ensures answer { result ≡ served_by (turn_of self.new.slots ticket.now) }
        ensures fewer { turns_left ticket.now self.new.slots < turns_left ticket.now self.old.slots }

        ensures slots { self.new ≡ record self.old { slots = after_read ticket.now block stored self.old } }
    {
        self.put_read(ticket, block, stored);
        self.served(ticket)
    }

    /// What a request answers that was served.
    pub fn served(&self, ticket: &Ticket) -> Served
        requires { is_in_flight ticket.now self.now.slots ≡ true }

        ensures { result ≡ served_by (turn_of self.now.slots ticket.now) }
    {
        match self.slots.turn(ticket) {
            Turn::Finished => Served::Done,
            _ => Served::Did,
        }
    }

    /// Gives a read its next block, whose bytes stand in the buffer: the bytes where their tag is the stored one, and
    /// else the fault, with both tags.
    fn put_read(&mut self, ticket: &Ticket, block: u64, stored: Tag)
        requires there { is_in_flight ticket.now self.old.slots ≡ true }
        requires turn { turn_of self.old.slots ticket.now ≡ Turns.Read block }
        requires size { length self.old.buffer.items ≡ self.old.slots.block_size }
        requires sector { block * self.old.spb < 2 ^ 64 }

        ensures { self.new ≡ record self.old { slots = after_read ticket.now block stored self.old } }
    {
        let sector = block * self.spb;
        if self.maker.matches(sector, &self.buffer, &stored) {
            self.slots.put_block(ticket, &self.buffer);
        } else {
            let computed = self.maker.tag(sector, &self.buffer);
            self.slots.put_fault(ticket, block, stored, computed);
        }
    }
}
