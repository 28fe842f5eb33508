//! What fails in a run.
ghost use Rattle.std.specs.Prelude.{◌≡◌, Some};

use crate::Kind;

/// What fails in a run. Calls are numbered from 1.
#[derive(Clone, Copy)]
pub struct Fails {
    pub disk: Option<u64>,
    pub source: Option<u64>,
    pub sink: Option<u64>,
    pub key: Option<u64>,
    /// After how many sector writes the disk stops.
    pub stop: Option<u64>,
    /// The sector whose reads all fail.
    pub unreadable: Option<u64>,
    /// How many bytes of text the sink takes.
    pub room: u64,
}

impl Fails {
    /// Nothing fails.
    pub const NONE: Fails = Fails {
        disk: None,
        source: None,
        sink: None,
        key: None,
        stop: None,
        unreadable: None,
        room: 65_536,
    };
}

/// These failures, and one of a kind with this number in place of another one.
pub fn with_failure(mut fails: Fails, kind: Kind, number: u64) -> Fails
    ensures disk { kind ≡ Kind.Disk → result ≡ record fails { disk = Some number } }
    ensures source { kind ≡ Kind.Source → result ≡ record fails { source = Some number } }
    ensures sink { kind ≡ Kind.Sink → result ≡ record fails { sink = Some number } }
    ensures key { kind ≡ Kind.Key → result ≡ record fails { key = Some number } }
    ensures stop { kind ≡ Kind.Stop → result ≡ record fails { stop = Some number } }
    ensures room { kind ≡ Kind.Room → result ≡ record fails { room = number } }
{
    match kind {
        Kind::Disk => fails.disk = Some(number),
        Kind::Source => fails.source = Some(number),
        Kind::Sink => fails.sink = Some(number),
        Kind::Key => fails.key = Some(number),
        Kind::Stop => fails.stop = Some(number),
        Kind::Room => fails.room = number,
    }
    fails
}
