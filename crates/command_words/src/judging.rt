//! Judges the values of places and options, and the rules between them.
ghost use Rattle.std.specs.Prelude.{◌≡◌, option_and_then, option_map};
ghost use Rattle.command_words.specs.Answers.{Answers};
ghost use Rattle.command_words.specs.Found.{given_in};
ghost use Rattle.command_words.specs.Judging;

use crate::command::{Check, Command, Dump, Exercise, Format, Mirror, Nbd, Resize, Run, Salvage};
use crate::given::Given;
use crate::numbers::{number, number_or, number_within};
use crate::table::{
    BLOCKS_PER_BIT, COUNT, IMAGE, INTEGRITY, INTERLEAVE, KEY_FILE, LEGACY_PADDING,
    LEGACY_RECALCULATE, MODE, NO_WIPE, PLACED, RECALCULATE, SALT, SECOND, SECTIONS, SECTOR_SIZE,
    SEED, TAG_SIZE,
};
use crate::values::{BlockSize, Consent, FileName, HashChoice, Interleave, Mode, NbdMode};
use crate::words_fault::WordsFault;
use hex::FromHex;
use image_model::{ImageMode, Padding, What, Wipe};
use std::alloc::Global;

/// The command of this name, with what the words give it.
pub(crate) fn command_named(
    alloc: Global,
    name: &str,
    given: &Given<'_>,
) -> Result<Command, WordsFault>
    ensures { Answers (Judging.command_named name.now (given_in given.now)) result }
{
    match name {
        "format" => format(alloc, given),
        "run" => run(alloc, given),
        "nbd" => nbd(alloc, given),
        "mirror" => mirror(alloc, given),
        "dump" => dump(alloc, given),
        "check" => check(alloc, given),
        "salvage" => salvage(alloc, given),
        "resize" => resize(alloc, given),
        "exercise" => exercise(alloc, given),
        _ => Err(WordsFault::Refused),
    }
}

/// `format IMAGE`.
fn format(alloc: Global, given: &Given<'_>) -> Result<Command, WordsFault>
    ensures { Answers (Judging.format_of (given_in given.now)) result }
{
    let image = image(alloc, given)?;
    let hash = hash(alloc, given)?;
    let tag_size = number_or(given.value(TAG_SIZE), 32).ok_or(WordsFault::Refused)?;
    let block_size = block_size_or_512(given.value(SECTOR_SIZE)).ok_or(WordsFault::Refused)?;
    let interleave = interleave_or_32768(given.value(INTERLEAVE)).ok_or(WordsFault::Refused)?;
    let sections = number_or(given.value(SECTIONS), 4).ok_or(WordsFault::Refused)?;
    let log2_blocks_per_bit = number_or(given.value(BLOCKS_PER_BIT), 15).ok_or(
        WordsFault::Refused,
    )?;
    let salt = salt_or_none(given.value(SALT)).ok_or(WordsFault::Refused)?;
    let mode = image_mode_or_journal(given.value(MODE)).ok_or(WordsFault::Refused)?;
    Ok(Command::Format(Format {
        image,
        hash,
        tag_size,
        block_size,
        interleave,
        sections,
        log2_blocks_per_bit,
        salt,
        padding: padding(given),
        mode,
        wipe: wipe(given),
    }))
}

/// `run IMAGE --mode M`.
fn run(alloc: Global, given: &Given<'_>) -> Result<Command, WordsFault>
    ensures { Answers (Judging.run_of (given_in given.now)) result }
{
    let image = image(alloc, given)?;
    let mode = mode(given).ok_or(WordsFault::Refused)?;
    let hash = hash(alloc, given)?;
    Ok(Command::Run(Run {
        image,
        mode,
        hash,
        consent: consent(given),
    }))
}

/// `nbd IMAGE --mode M`.
fn nbd(alloc: Global, given: &Given<'_>) -> Result<Command, WordsFault>
    ensures { Answers (Judging.nbd_of (given_in given.now)) result }
{
    let image = image(alloc, given)?;
    let mode = nbd_mode(given).ok_or(WordsFault::Refused)?;
    let hash = hash(alloc, given)?;
    Ok(Command::Nbd(Nbd {
        image,
        mode,
        hash,
        consent: consent(given),
    }))
}

/// `mirror IMAGE SECOND --mode J`.
fn mirror(alloc: Global, given: &Given<'_>) -> Result<Command, WordsFault>
    ensures { Answers (Judging.mirror_of (given_in given.now)) result }
{
    let image = image(alloc, given)?;
    let second = second(alloc, given, image.as_str())?;
    let hash = hash(alloc, given)?;
    if !names_journal(given) {
        return Err(WordsFault::Refused);
    }
    Ok(Command::Mirror(Mirror {
        image,
        second,
        hash,
        consent: consent(given),
    }))
}

/// `dump IMAGE`.
fn dump(alloc: Global, given: &Given<'_>) -> Result<Command, WordsFault>
    ensures { Answers (Judging.dump_of (given_in given.now)) result }
{
    let image = image(alloc, given)?;
    Ok(Command::Dump(Dump { image }))
}

/// `check IMAGE`.
fn check(alloc: Global, given: &Given<'_>) -> Result<Command, WordsFault>
    ensures { Answers (Judging.check_of (given_in given.now)) result }
{
    let image = image(alloc, given)?;
    let hash = hash(alloc, given)?;
    let checked = checked(given);
    Ok(Command::Check(Check {
        image,
        hash,
        checked,
    }))
}

/// `salvage IMAGE`.
fn salvage(alloc: Global, given: &Given<'_>) -> Result<Command, WordsFault>
    ensures { Answers (Judging.salvage_of (given_in given.now)) result }
{
    let image = image(alloc, given)?;
    let hash = hash(alloc, given)?;
    Ok(Command::Salvage(Salvage { image, hash }))
}

/// `resize IMAGE`.
fn resize(alloc: Global, given: &Given<'_>) -> Result<Command, WordsFault>
    ensures { Answers (Judging.resize_of (given_in given.now)) result }
{
    let image = image(alloc, given)?;
    let hash = hash(alloc, given)?;
    Ok(Command::Resize(Resize { image, hash }))
}

/// `exercise IMAGE SEED COUNT`.
fn exercise(alloc: Global, given: &Given<'_>) -> Result<Command, WordsFault>
    ensures { Answers (Judging.exercise_of (given_in given.now)) result }
{
    let image = image(alloc, given)?;
    let seed = given
        .value(SEED)
        .and_then(number)
        .ok_or(WordsFault::Refused)?;
    let count = given
        .value(COUNT)
        .and_then(number_within)
        .ok_or(WordsFault::Refused)?;
    Ok(Command::Exercise(Exercise { image, seed, count }))
}

/// The image.
fn image(alloc: Global, given: &Given<'_>) -> Result<FileName, WordsFault>
    ensures { Answers (given_in given.now IMAGE.now) result }
{
    let name = given.value(IMAGE).ok_or(WordsFault::Refused)?;
    Ok(FileName::new(alloc, name)?)
}

/// The image of a mirror's second leg. It is another word than that of the first.
fn second(alloc: Global, given: &Given<'_>, image: &str) -> Result<FileName, WordsFault>
    ensures { Answers (option_and_then (Judging.other_than image.now) (given_in given.now SECOND.now)) result }
{
    let name = given.value(SECOND).ok_or(WordsFault::Refused)?;
    if name == image {
        return Err(WordsFault::Refused);
    }
    Ok(FileName::new(alloc, name)?)
}

/// The hash, and the file of its key, which is given exactly where the hash is keyed.
fn hash(alloc: Global, given: &Given<'_>) -> Result<HashChoice, WordsFault>
    ensures { Answers (Judging.hash_of (given_in given.now)) result }
{
    let name = given.value(INTEGRITY).unwrap_or("sha256");
    match (name, given.value(KEY_FILE)) {
        ("sha256", None) => Ok(HashChoice::Sha256),
        ("hmac-sha256", Some(key_file)) => {
            let key_file = FileName::new(alloc, key_file)?;
            Ok(HashChoice::HmacSha256 { key_file })
        }
        _ => Err(WordsFault::Refused),
    }
}

/// The mode of a run. It has no default.
fn mode(given: &Given<'_>) -> Option<Mode>
    ensures { result ≡ option_and_then Judging.mode_named (given_in given.now MODE.now) }
{
    match given.value(MODE)? {
        "J" => Some(Mode::Journal),
        "D" => Some(Mode::Direct),
        "B" => Some(Mode::Bitmap),
        "R" => Some(Mode::Recovery),
        _ => None,
    }
}

/// The mode of an NBD session. It has no default, and recovery mode is none.
fn nbd_mode(given: &Given<'_>) -> Option<NbdMode>
    ensures { result ≡ option_and_then Judging.nbd_mode_named (given_in given.now MODE.now) }
{
    match given.value(MODE)? {
        "J" => Some(NbdMode::Journal),
        "D" => Some(NbdMode::Direct),
        "B" => Some(NbdMode::Bitmap),
        _ => None,
    }
}

/// Whether the words name journal mode, which is the one that a mirror has. It is no default.
fn names_journal(given: &Given<'_>) -> bool
    ensures { result ≡ Judging.names_journal (given_in given.now) }
{
    given.value(MODE).is_some_and(|text| text == "J")
}

/// Whether tags under a key may be made anew. It may be said in every mode.
fn consent(given: &Given<'_>) -> Consent
    ensures { result ≡ Judging.consent_of (given_in given.now) }
{
    if given.has(LEGACY_RECALCULATE) {
        Consent::Given
    } else {
        Consent::Withheld
    }
}

/// The size of a block, 512 bytes where none is given.
fn block_size_or_512(text: Option<&str>) -> Option<BlockSize>
    ensures { result ≡ Judging.block_size_or_512 (option_map (λ text. text.now) text.entry) }
{
    let Some(text) = text else {
        return Some(BlockSize::Bytes512);
    };
    match number(text)? {
        512 => Some(BlockSize::Bytes512),
        1024 => Some(BlockSize::Bytes1024),
        2048 => Some(BlockSize::Bytes2048),
        4096 => Some(BlockSize::Bytes4096),
        _ => None,
    }
}

/// The data of an area, 32768 sectors where none is given.
fn interleave_or_32768(text: Option<&str>) -> Option<Interleave>
    ensures { result ≡ Judging.interleave_or_32768 (option_map (λ text. text.now) text.entry) }
{
    match text {
        Some(text) => Interleave::new(number(text)?),
        None => Interleave::new(32768),
    }
}

/// The salt that 32 hexadecimal digits of either case write, none where none is given.
fn salt_or_none(text: Option<&str>) -> Option<Option<[u8; 16]>>
    ensures { result ≡ Judging.salt_or_none (option_map (λ text. text.now) text.entry) }
{
    match text {
        Some(text) => Some(Some(<[u8; 16]>::from_hex(text).ok()?)),
        None => Some(None),
    }
}

/// The mode of a new image, journal mode where none is given.
fn image_mode_or_journal(text: Option<&str>) -> Option<ImageMode>
    ensures { result ≡ Judging.image_mode_or_journal (option_map (λ text. text.now) text.entry) }
{
    let Some(text) = text else {
        return Some(ImageMode::Journal);
    };
    match text {
        "J" => Some(ImageMode::Journal),
        "B" => Some(ImageMode::Bitmap),
        _ => None,
    }
}

/// The padding of tags.
fn padding(given: &Given<'_>) -> Padding
    ensures { result ≡ Judging.padding_of (given_in given.now) }
{
    if given.has(LEGACY_PADDING) {
        Padding::Legacy
    } else {
        Padding::Fixed
    }
}

/// What becomes of the blocks. Where their tags are to be recalculated nothing is wiped, whether that is asked for or
/// not.
fn wipe(given: &Given<'_>) -> Wipe
    ensures { result ≡ Judging.wipe_of (given_in given.now) }
{
    if given.has(RECALCULATE) {
        Wipe::Recalculated
    } else if given.has(NO_WIPE) {
        Wipe::Kept
    } else {
        Wipe::Wiped
    }
}

/// What is checked.
fn checked(given: &Given<'_>) -> What
    ensures { result ≡ Judging.checked_of (given_in given.now) }
{
    if given.has(PLACED) {
        What::Placed
    } else {
        What::Cells
    }
}
