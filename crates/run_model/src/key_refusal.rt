//! Why the bytes of a key file are no key.

/// Why the bytes of a key file are no key.
#[derive(Clone, Copy, Debug, PartialEq, Eq)]
pub enum KeyRefusal {
    /// There are none.
    Empty,
    /// There are more than 4096.
    Long,
}
