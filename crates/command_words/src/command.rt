//! A command, with its options.

use crate::values::{
    BlockSize, Consent, FileName, HashChoice, Interleave, Log2BlocksPerBit, Mode, NbdMode,
    RequestCount, SectionCount, TagSize,
};
use image_model::{ImageMode, Padding, What, Wipe};

/// A command that the words of a program give.
#[derive(Debug, Drop)]
pub enum Command {
    /// Writes a new image.
    Format(Format),
    /// Runs a script on an image.
    Run(Run),
    /// Answers a stream of NBD requests on an image.
    Nbd(Nbd),
    /// Runs a script on a mirror of two images.
    Mirror(Mirror),
    /// Prints what an image tells of itself.
    Dump(Dump),
    /// Compares the tags of an image.
    Check(Check),
    /// Prints what can still be read of an image.
    Salvage(Salvage),
    /// Makes an image use all sectors of its disk.
    Resize(Resize),
    /// Runs requests on an image that a number decides.
    Exercise(Exercise),
}

/// `format IMAGE`.
#[derive(Debug, Drop)]
pub struct Format {
    /// The image.
    pub image: FileName,
    /// The hash of its tags.
    pub hash: HashChoice,
    /// The size of its tags.
    pub tag_size: TagSize,
    /// The size of its blocks.
    pub block_size: BlockSize,
    /// The data of an area.
    pub interleave: Interleave,
    /// The sections of its journal.
    pub sections: SectionCount,
    /// What a bit of a bitmap stands for.
    pub log2_blocks_per_bit: Log2BlocksPerBit,
    /// What stands before all that a tag is computed of, if there is something.
    pub salt: Option<[u8; 16]>,
    /// The padding of tags.
    pub padding: Padding,
    /// The mode that it is made for.
    pub mode: ImageMode,
    /// What the blocks hold then.
    pub wipe: Wipe,
}

/// `run IMAGE --mode M`.
#[derive(Debug, Drop)]
pub struct Run {
    /// The image.
    pub image: FileName,
    /// Where a write goes first.
    pub mode: Mode,
    /// The hash of its tags.
    pub hash: HashChoice,
    /// Whether tags under a key may be made anew.
    pub consent: Consent,
}

/// `nbd IMAGE --mode M`.
#[derive(Debug, Drop)]
pub struct Nbd {
    /// The image.
    pub image: FileName,
    /// Where a write goes first.
    pub mode: NbdMode,
    /// The hash of its tags.
    pub hash: HashChoice,
    /// Whether tags under a key may be made anew.
    pub consent: Consent,
}

/// `mirror IMAGE SECOND --mode J`. It has journal mode alone.
#[derive(Debug, Drop)]
pub struct Mirror {
    /// The image of its first leg.
    pub image: FileName,
    /// The image of its second leg: another word than the first.
    pub second: FileName,
    /// The hash of the tags of both.
    pub hash: HashChoice,
    /// Whether tags under a key may be made anew.
    pub consent: Consent,
}

/// `dump IMAGE`.
#[derive(Debug, Drop)]
pub struct Dump {
    /// The image.
    pub image: FileName,
}

/// `check IMAGE`.
#[derive(Debug, Drop)]
pub struct Check {
    /// The image.
    pub image: FileName,
    /// The hash of its tags.
    pub hash: HashChoice,
    /// What is checked.
    pub checked: What,
}

/// `salvage IMAGE`.
#[derive(Debug, Drop)]
pub struct Salvage {
    /// The image.
    pub image: FileName,
    /// The hash of its tags.
    pub hash: HashChoice,
}

/// `resize IMAGE`.
#[derive(Debug, Drop)]
pub struct Resize {
    /// The image.
    pub image: FileName,
    /// The hash of its tags.
    pub hash: HashChoice,
}

/// `exercise IMAGE SEED COUNT`.
#[derive(Debug, Drop)]
pub struct Exercise {
    /// The image.
    pub image: FileName,
    /// The number that decides the requests.
    pub seed: u64,
    /// How many requests there are.
    pub count: RequestCount,
}
