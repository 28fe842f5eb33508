//! The kinds of requests.
//!
//! Source: the NBD protocol, `doc/proto.md`, "Request types".

/// A read: `NBD_CMD_READ`.
pub const READ: u16 = 0;

/// A write, behind whose head its bytes stand: `NBD_CMD_WRITE`.
pub const WRITE: u16 = 1;

/// The end of a session: `NBD_CMD_DISC`.
pub const DISCONNECT: u16 = 2;

/// A flush: `NBD_CMD_FLUSH`.
pub const FLUSH: u16 = 3;
