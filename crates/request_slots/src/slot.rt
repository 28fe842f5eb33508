//! A request in flight: how far it is served, and what has come of it.
ghost use Rattle.std.specs.Prelude.{◌≡◌, ◌+◌, ◌*◌, ◌<◌, ◌≤◌, ◌^◌, ◌==◌, suc, length};
ghost use Rattle.request_slots.specs.Taking.{read_reply_of};

use crate::{Bytes, Reply, Request, Turn};
use hmac_tag::Tag;

/// What has come of a request.
#[derive(Drop)]
pub(crate) enum Outcome {
    /// It is still to be served.
    Unfinished,
    /// It is done.
    Finished,
    /// A read is done, since the stored tag of block `block` is not the tag of its bytes.
    Fault {
        block: u64,
        stored: Tag,
        computed: Tag,
    },
}

/// A request that is submitted and not taken, of which `served` blocks are served.
#[derive(Drop)]
pub(crate) struct Slot {
    pub(crate) ticket: u64,
    pub(crate) request: Request,
    pub(crate) served: u64,
    pub(crate) outcome: Outcome,
}

impl Slot {
    ghost use Rattle.request_slots.specs.Flight.{bytes_in, count_in, first_in, is_unfinished, newly_slotted, next_of};
    ghost use Rattle.request_slots.specs.Serving.{next_bytes, with_block_counted, with_block_read};
    ghost use Rattle.request_slots.specs.Serving.{with_fault, with_finish};
    ghost use Rattle.request_slots.specs.Taking.{reply_of};

    /// A request of which nothing is served yet.
    pub(crate) fn new(ticket: u64, request: Request) -> Slot
        ensures { result ≡ newly_slotted ticket request }
    {
        Slot {
            ticket,
            request,
            served: 0,
            outcome: Outcome::Unfinished,
        }
    }

    /// Whether it is still to be served.
    pub(crate) fn is_unfinished(&self) -> bool
        ensures { result ≡ is_unfinished self.now }
    {
        matches!(self.outcome, Outcome::Unfinished)
    }

    /// Whether the block that is served next is its last one.
    pub(crate) fn is_last(&self) -> bool
        requires { self.now.served + 1 < 2 ^ 64 }

        ensures { result ≡ (suc self.now.served == count_in self.now.request) }
    {
        self.served + 1 == self.request.count()
    }

    /// What is done next, where nothing holds it.
    pub(crate) fn next(&self) -> Turn
        requires block { first_in self.now.request + self.now.served < 2 ^ 64 }
        requires served { self.now.served + 1 < 2 ^ 64 }

        ensures { result ≡ next_of self.now self.now.request }
    {
        match &self.request {
            Request::Read { first, .. } => Turn::Read {
                block: first + self.served,
            },
            Request::Write { first, fua, .. } => Turn::Write {
                block: first + self.served,
                is_flushed: *fua && self.is_last(),
            },
            Request::Flush => Turn::Flush,
        }
    }

    /// The bytes of the block that is served next.
    pub(crate) fn next_bytes(&self, block_size: usize) -> &[u8]
        requires room { self.now.served * block_size + block_size ≤ length (bytes_in self.now.request) }
        requires from { self.now.served * block_size + block_size < 2 ^ 64 }

        ensures { result.now ≡ next_bytes block_size self.now }
    {
        let from = self.served as usize * block_size;
        &self.request.bytes()[from..from + block_size]
    }

    /// Puts the bytes of the next block into the buffer of a read, and counts it.
    pub(crate) fn put_block(&mut self, block_size: usize, bytes: &[u8])
        requires room { self.old.served * block_size + length bytes.now
            ≤ length (bytes_in self.old.request) }
        requires from { self.old.served * block_size < 2 ^ 64 }
        requires served { self.old.served + 1 < 2 ^ 64 }

        ensures { self.new ≡ with_block_read block_size bytes.now self.old }
    {
        let from = self.served as usize * block_size;
        if let Request::Read { buffer, .. } = &mut self.request {
            buffer.put(from, bytes);
        }
        self.count_block();
    }

    /// Counts a block that is served, and finishes the request with its last one.
    pub(crate) fn count_block(&mut self)
        requires { self.old.served + 1 < 2 ^ 64 }

        ensures { self.new ≡ with_block_counted self.old }
    {
        self.served += 1;
        if self.served == self.request.count() {
            self.outcome = Outcome::Finished;
        }
    }

    /// Counts a block that is at fault, which finishes a read.
    pub(crate) fn put_fault(&mut self, block: u64, stored: Tag, computed: Tag)
        requires { self.old.served + 1 < 2 ^ 64 }

        ensures { self.new ≡ with_fault block stored computed self.old }
    {
        self.served += 1;
        self.outcome = Outcome::Fault {
            block,
            stored,
            computed,
        };
    }

    /// Finishes the request.
    pub(crate) fn finish(&mut self)
        ensures { self.new ≡ with_finish self.old }
    {
        self.outcome = Outcome::Finished;
    }

    /// The reply to it.
    pub(crate) fn into_reply(self) -> Reply
        ensures { result ≡ reply_of self }
    {
        let Slot {
            request,
            outcome,
            ..
        } = self;
        match request {
            Request::Read { buffer, .. } => read_reply(buffer, outcome),
            Request::Write { bytes, .. } => Reply::Written { bytes },
            Request::Flush => Reply::Flushed,
        }
    }
}

// The reply to a read.
fn read_reply(buffer: Bytes, outcome: Outcome) -> Reply
    ensures { result ≡ read_reply_of buffer outcome }
{
    match outcome {
        Outcome::Unfinished | Outcome::Finished => Reply::Read { buffer },
        Outcome::Fault {
            block,
            stored,
            computed,
        } => Reply::TagFault {
            block,
            stored,
            computed,
            buffer,
        },
    }
}
