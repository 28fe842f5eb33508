//! The bytes that come with a request and go back with its reply.
ghost use Rattle.std.specs.Prelude.{◌≡◌, ◌+◌, ◌≤◌, length};

use std::marker::Model;

/// The bytes of some blocks, or a buffer for them.
#[derive(Drop)]
pub struct Bytes {
    bytes: Vec<u8>,
}

impl Model for Bytes {
    ghost use Rattle.std.specs.Prelude.{List, ℕ};

    ghost Value = { List ℕ };

    ghost view = { λ bytes. bytes.bytes.items };
}

impl Bytes {
    ghost use Rattle.request_slots.specs.Serving.{with_piece};

    /// These bytes.
    pub fn from_vec(bytes: Vec<u8>) -> Bytes
        ensures { result ≡ bytes.items }
    {
        Bytes { bytes }
    }

    /// Gives them back.
    pub fn into_vec(self) -> Vec<u8>
        ensures { result.items ≡ self }
    {
        self.bytes
    }

    /// Looks at them.
    pub fn as_slice(&self) -> &[u8]
        ensures { result.now ≡ self.now }
    {
        self.bytes.as_slice()
    }

    /// Puts a piece in the place of the bytes from byte `from` on.
    pub(crate) fn put(&mut self, from: usize, piece: &[u8])
        requires { from + length piece.now ≤ length self.old }

        ensures { self.new ≡ with_piece from piece.now self.old }
    {
        self.bytes[from..from + piece.len()].copy_from_slice(piece);
    }
}
