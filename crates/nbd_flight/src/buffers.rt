//! The buffers of the requests of a session, used again and again.
ghost use Rattle.std.specs.Prelude.{◌≡◌, ◌≤◌, [], IfOk, vec_capacity};

use crate::judging::MOST_BLOCKS;
use request_slots::{Bytes, MOST_SLOTS, Reply};
use sector_disk::Memory;
use std::alloc::Global;

/// Buffers that no request has. As many are made at the start as requests may be in flight, each as large as one may
/// ask for, and each comes back once the reply to its request is written: so a session takes no memory later.
#[derive(Drop)]
pub struct Buffers {
    alloc: Global,
    free: Vec<Vec<u8>>,
}

impl Buffers {
    /// Those for all requests that may be in flight on blocks of so many bytes.
    ///
    /// # Errors
    ///
    /// - `Memory`: there is none for them.
    pub fn new(alloc: Global, block_size: usize) -> Result<Buffers, Memory> {
        let most = block_size.saturating_mul(MOST_BLOCKS as usize);
        let mut free = Vec::with_capacity(alloc, MOST_SLOTS)?;
        for _slot in 0..MOST_SLOTS {
            let buffer = Vec::with_capacity(alloc, most)?;
            if free.push(buffer).is_err() {
                return Err(Memory);
            }
        }
        Ok(Buffers { alloc, free })
    }

    /// An empty one with room for so many bytes. Where all are in use it is a new one.
    ///
    /// # Errors
    ///
    /// - `Memory`: there is none for it.
    pub fn next(&mut self, length: usize) -> Result<Vec<u8>, Memory>
        ensures empty { IfOk result (λ bytes. bytes.items ≡ []) }
        ensures room { IfOk result (λ bytes. length ≤ vec_capacity bytes) }
    {
        let mut bytes = match self.free.pop() {
            Some(bytes) => bytes,
            None => Vec::new(self.alloc),
        };
        bytes.clear();
        match bytes.reserve(length) {
            Ok(()) => Ok(bytes),
            Err(_) => Err(Memory),
        }
    }

    /// None: it has no room.
    pub fn none(&self) -> Vec<u8>
        ensures { result.items ≡ [] }
    {
        Vec::new(self.alloc)
    }

    /// Takes back the buffer of a request whose reply is written.
    pub(crate) fn take_back(&mut self, reply: Reply) {
        match reply {
            Reply::Read { buffer } => self.keep(buffer),
            Reply::TagFault { buffer, .. } => self.keep(buffer),
            Reply::Written { bytes } => self.keep(bytes),
            Reply::Flushed => {}
        }
    }

    /// Keeps a buffer. It is dropped where there is no place for it, which is only where it was none of the first.
    fn keep(&mut self, bytes: Bytes) {
        if let Err(full) = self.free.push(bytes.into_vec()) {
            drop(full);
        }
    }
}
