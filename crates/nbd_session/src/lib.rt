//! A session of the NBD transmission phase on a device: requests out of a source, replies into a sink.
//!
//! What a session does stands in `nbd_model`, `specs/Session.antt`; a contract says that its deeds are done on the
//! device and told to the sink, or how far they came (`specs/Session.antt`, the file to read first). Of one piece of the
//! stream, for each session under way, `specs/UnderWay.antt` and `specs/Piece.antt` say it.
#![tactic(auto)]

mod ended;
mod piece_end;
mod serving;
mod taking;

pub use ended::{Ended, SessionFault};
pub(crate) use piece_end::PieceEnd;
pub use serving::session;
pub(crate) use taking::serve_piece;
