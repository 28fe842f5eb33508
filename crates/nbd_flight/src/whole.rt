//! A request that came whole.
use crate::Asked;
use nbd_wire::NbdRequest;

/// A request that came whole: what it asks, and the bytes of a write. Those of a write that is refused are not kept.
#[derive(Drop)]
pub struct Whole {
    pub request: NbdRequest,
    pub asked: Asked,
    pub bytes: Vec<u8>,
}
