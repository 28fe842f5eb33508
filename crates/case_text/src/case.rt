//! What a case asks for.
use crate::Fails;
use anyhow::Result;
use std::alloc::{AllocError, Global};

/// Which disk a run begins with.
#[derive(Clone, Copy)]
pub enum Start {
    /// The small image, on a disk of so many sectors.
    Small { sectors: u64 },
    /// So many sectors of zeros.
    Zeros { sectors: u64 },
    /// The disk that the last case left, with all its candidates.
    Left,
    /// An image of it.
    ImageOfLeft(Candidates),
}

/// Which candidate of each sector a cut leaves.
#[derive(Clone, Copy)]
pub enum Candidates {
    First,
    Last,
    /// Of sectors of blocks the last one, and of all others the first.
    LastData,
    /// Of sectors of blocks the first one, and of all others the last.
    FirstData,
    /// Of every second sector the last one, and of all others the first.
    Alternate,
    Middle,
}

/// Every choice of candidates that is tried of what a run left.
pub const CHOICES: [Candidates; 6] = [
    Candidates::First,
    Candidates::Last,
    Candidates::LastData,
    Candidates::FirstData,
    Candidates::Alternate,
    Candidates::Middle,
];

/// A change of the disk before the run.
#[derive(Drop)]
pub enum Edit {
    /// Bytes are put in the place of others, from a byte of a sector on.
    Put {
        at: u64,
        byte: u64,
        bytes: Vec<u8>,
    },
    /// A bit of a byte of a sector is flipped, 0 being the lowest.
    Flip {
        at: u64,
        byte: u64,
        bit: u64,
    },
    /// So many sectors of a journal that have commit number 0 get another one, from 0 to 3.
    Number {
        at: u64,
        count: u64,
        number: u64,
    },
    /// So many sectors of a section of the journal, from one on, get these bytes and zeros behind them, and the id of a
    /// commit number. Without bytes they have no used entry.
    Journal {
        section: u64,
        sector: u64,
        count: u64,
        number: u64,
        bytes: Vec<u8>,
    },
    /// The journal becomes an empty one of commit number 0, and each block gets the tag of its data.
    Fresh,
}

/// So many bytes of a sector, from one on.
#[derive(Clone, Copy)]
pub struct Piece {
    pub at: u64,
    pub first: u64,
    pub count: u64,
}

/// What can fail.
#[derive(Clone, Copy)]
pub enum Kind {
    /// A call of the disk.
    Disk,
    /// A call of the script's source.
    Source,
    /// A call of the sink.
    Sink,
    /// A call of the key's source.
    Key,
    /// The disk, after so many sector writes.
    Stop,
    /// The sink, that has room for so many bytes.
    Room,
}

/// What is shown after a run.
#[derive(Drop)]
pub enum Show {
    /// The SHA-256 of all sectors, as reads give them.
    Digest,
    /// That of the sectors outside of the journal.
    Outside,
    /// That of the text, which is not shown itself.
    Text,
    /// The commit numbers of the journal, and how many of its entries are used.
    Numbers,
    /// Some bytes, as reads give them.
    Bytes(Piece),
    /// How many sectors were written, and how many syncs were made.
    Writes,
    /// What a script prints on an image of what is left.
    Reopened {
        candidates: Candidates,
        script: Vec<u8>,
    },
}

/// The disk of a second image: with what it begins, what fails of it, and what is shown of it after a run.
#[derive(Drop)]
pub struct Second {
    pub start: Start,
    pub edits: Vec<Edit>,
    pub fails: Fails,
    pub shows: Vec<Show>,
}

/// A case: what its run is given, and what is tried and shown.
#[derive(Drop)]
pub struct Case {
    pub start: Start,
    pub edits: Vec<Edit>,
    /// The disk of a second image, if there is one. Without it that disk has no sector.
    pub second: Option<Second>,
    pub words: Vec<String>,
    pub key: Vec<u8>,
    pub script: Vec<u8>,
    pub fails: Fails,
    pub kinds: Vec<Kind>,
    pub bits: Vec<Piece>,
    pub shows: Vec<Show>,
    /// What the case is to show, where it says so.
    pub expected: Option<String>,
}

impl Case {
    /// A script on the small image, with the words of the one command that there is. Nothing fails.
    pub fn new(alloc: Global, script: Vec<u8>) -> Result<Case, AllocError> {
        let mut words = Vec::new(alloc);
        for word in ["integrity", "run", "small", "--mode", "D"] {
            words.push(word.to_string(alloc)?)?;
        }
        Ok(Case {
            start: Start::Small { sectors: 256 },
            edits: Vec::new(alloc),
            second: None,
            words,
            key: Vec::new(alloc),
            script,
            fails: Fails::NONE,
            kinds: Vec::new(alloc),
            bits: Vec::new(alloc),
            shows: Vec::new(alloc),
            expected: None,
        })
    }
}

/// The kind of failure that has this name.
pub fn kind_of(name: &str) -> Option<Kind> {
    match name {
        "disk" => Some(Kind::Disk),
        "source" => Some(Kind::Source),
        "sink" => Some(Kind::Sink),
        "key" => Some(Kind::Key),
        "stop" => Some(Kind::Stop),
        "room" => Some(Kind::Room),
        _ => None,
    }
}

/// The name of a kind of failure.
pub fn name_of(kind: Kind) -> &'static str {
    match kind {
        Kind::Disk => "disk",
        Kind::Source => "source",
        Kind::Sink => "sink",
        Kind::Key => "key",
        Kind::Stop => "stop",
        Kind::Room => "room",
    }
}
