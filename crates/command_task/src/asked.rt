//! What the words ask for.
ghost use Rattle.std.specs.Prelude.{◌≡◌, ◌⊎◌, Err, IfErr, IfOk, None, Some, map};
ghost use Rattle.std.specs.String.{string_bytes};
ghost use Rattle.command_ending.specs.declared.ended.Ended.TheVariants as Endings;
ghost use Rattle.command_task.specs.Words.{IsAsking, IsTask, MayWrite, asked_by, asking_of, check_asked, consent_as, dump_asked, exercise_asked, format_asked, mirror_asked, mode_as, nbd_asked, nbd_mode_as, new_image_of, resize_asked, run_asked, salvage_asked};
ghost use Rattle.formatting_model.specs.NewImage.{IsNewImage};
ghost use Rattle.command_ending.specs.declared.refusal.Refusal.TheVariants as refusals;

use command_ending::{Ended, Refusal};
use command_words::{
    Check, Command, Consent, Dump, Exercise, FileName, Format, HashChoice, Mirror, Mode, Nbd,
    NbdMode, Resize, Run, Salvage, WordsFault, parse,
};
use device::OpenMode;
use image_check::What;
use image_formatting::NewImage;
use std::alloc::Global;

/// What the words ask for.
#[derive(Debug, Drop)]
pub enum Asking {
    /// Something that is done on one image.
    OneImage(Asked),
    /// A script that is run on a mirror of two.
    TwoImages(AskedMirror),
}

/// What is asked for on one image.
#[derive(Debug, Drop)]
pub struct Asked {
    /// The image.
    pub image: FileName,
    /// The hash of its tags. A dump looks at none of them, and an exercise makes its own: neither needs a key.
    pub hash: HashChoice,
    /// What is done on it.
    pub task: Task,
}

/// What is asked for on two images. Each is opened in journal mode.
#[derive(Debug, Drop)]
pub struct AskedMirror {
    /// The image of the first leg.
    pub image: FileName,
    /// The image of the second leg: another word than the first.
    pub second: FileName,
    /// The hash of the tags of both.
    pub hash: HashChoice,
    /// Whether tags under a key may be made anew.
    pub consent: device::Consent,
}

/// What is done on an image.
#[derive(Clone, Copy, Debug)]
pub enum Task {
    /// A script is run on a device in this mode.
    Run(OpenMode),
    /// A stream of requests is served on a device in this mode, which takes writes.
    Serve(OpenMode),
    /// What the image shows is printed.
    Dump,
    /// Its bad blocks are printed.
    Check(What),
    /// What stands in the place of each block is printed.
    Salvage,
    /// It gets all sectors of its disk.
    Resize,
    /// A new image is made.
    Format(NewImage),
    /// A new image is made and exercised.
    Exercise {
        /// The number that tells the requests.
        seed: u64,
        /// How many there are.
        count: u64,
    },
}

/// What the words ask for. The first is the program's name.
///
/// # Errors
///
/// - `Words`: they are no command.
/// - `Memory`: there is none.
pub fn words_asked(alloc: Global, words: &[String]) -> Result<Asking, Ended>
    ensures asked { IfOk result (λ asking. asking_of (map string_bytes words.now) ≡ Some asking) }
    ensures task { IfOk result IsAsking }

    ensures words { result ≡ Err (Endings.Refused refusals.Words) → asking_of (map string_bytes words.now) ≡ None }
    ensures errors { IfErr result (λ ended. (ended ≡ Endings.Refused refusals.Words) ⊎ (ended ≡ Endings.Memory)) }
{
    match parse(alloc, words) {
        Ok(command) => Ok(asked_by(command)),
        Err(WordsFault::Refused) => Err(Ended::Refused(Refusal::Words)),
        Err(WordsFault::Memory) => Err(Ended::Memory),
    }
}

/// What a command asks for.
fn asked_by(command: Command) -> Asking
    ensures asked { result ≡ asked_by command }
    ensures task { IsAsking result }
{
    match command {
        Command::Format(format) => Asking::OneImage(format_asked(format)),
        Command::Run(run) => Asking::OneImage(run_asked(run)),
        Command::Nbd(nbd) => Asking::OneImage(nbd_asked(nbd)),
        Command::Mirror(mirror) => Asking::TwoImages(mirror_asked(mirror)),
        Command::Dump(dump) => Asking::OneImage(dump_asked(dump)),
        Command::Check(check) => Asking::OneImage(check_asked(check)),
        Command::Salvage(salvage) => Asking::OneImage(salvage_asked(salvage)),
        Command::Resize(resize) => Asking::OneImage(resize_asked(resize)),
        Command::Exercise(exercise) => Asking::OneImage(exercise_asked(exercise)),
    }
}

/// What `format` asks for.
fn format_asked(format: Format) -> Asked
    ensures asked { result ≡ format_asked format }
    ensures task { IsTask result.task }
{
    let task = Task::Format(new_image(&format));
    Asked {
        image: format.image,
        hash: format.hash,
        task,
    }
}

/// What `run` asks for.
fn run_asked(run: Run) -> Asked
    ensures { result ≡ run_asked run }
{
    Asked {
        image: run.image,
        hash: run.hash,
        task: Task::Run(mode(run.mode, run.consent)),
    }
}

/// The same mode. Recovery mode makes no tag anew, and asks for no consent.
fn mode(mode: Mode, by: Consent) -> OpenMode
    ensures { result ≡ mode_as mode by }
{
    match mode {
        Mode::Journal => OpenMode::Journal(consent(by)),
        Mode::Direct => OpenMode::Direct(consent(by)),
        Mode::Bitmap => OpenMode::Bitmap(consent(by)),
        Mode::Recovery => OpenMode::Recovery,
    }
}

/// What `nbd` asks for.
fn nbd_asked(nbd: Nbd) -> Asked
    ensures asked { result ≡ nbd_asked nbd }
    ensures task { IsTask result.task }
{
    Asked {
        image: nbd.image,
        hash: nbd.hash,
        task: Task::Serve(nbd_mode(nbd.mode, nbd.consent)),
    }
}

/// The same mode.
fn nbd_mode(mode: NbdMode, by: Consent) -> OpenMode
    ensures mode { result ≡ nbd_mode_as mode by }
    ensures writes { MayWrite result }
{
    match mode {
        NbdMode::Journal => OpenMode::Journal(consent(by)),
        NbdMode::Direct => OpenMode::Direct(consent(by)),
        NbdMode::Bitmap => OpenMode::Bitmap(consent(by)),
    }
}

/// What `mirror` asks for.
fn mirror_asked(mirror: Mirror) -> AskedMirror
    ensures { result ≡ mirror_asked mirror }
{
    AskedMirror {
        image: mirror.image,
        second: mirror.second,
        hash: mirror.hash,
        consent: consent(mirror.consent),
    }
}

/// The same consent.
fn consent(consent: Consent) -> device::Consent
    ensures { result ≡ consent_as consent }
{
    match consent {
        Consent::Given => device::Consent::Given,
        Consent::Withheld => device::Consent::Withheld,
    }
}

/// What `dump` asks for.
fn dump_asked(dump: Dump) -> Asked
    ensures { result ≡ dump_asked dump }
{
    Asked {
        image: dump.image,
        hash: HashChoice::Sha256,
        task: Task::Dump,
    }
}

/// What `check` asks for.
fn check_asked(check: Check) -> Asked
    ensures { result ≡ check_asked check }
{
    Asked {
        image: check.image,
        hash: check.hash,
        task: Task::Check(check.checked),
    }
}

/// What `salvage` asks for.
fn salvage_asked(salvage: Salvage) -> Asked
    ensures { result ≡ salvage_asked salvage }
{
    Asked {
        image: salvage.image,
        hash: salvage.hash,
        task: Task::Salvage,
    }
}

/// What `resize` asks for.
fn resize_asked(resize: Resize) -> Asked
    ensures { result ≡ resize_asked resize }
{
    Asked {
        image: resize.image,
        hash: resize.hash,
        task: Task::Resize,
    }
}

/// What `exercise` asks for.
fn exercise_asked(exercise: Exercise) -> Asked
    ensures asked { result ≡ exercise_asked exercise }
    ensures task { IsTask result.task }
{
    Asked {
        image: exercise.image,
        hash: HashChoice::Sha256,
        task: Task::Exercise {
            seed: exercise.seed,
            count: exercise.count.number(),
        },
    }
}

/// The image that `format` is to make.
fn new_image(format: &Format) -> NewImage
    ensures image { result ≡ new_image_of format.now }
    ensures ranges { IsNewImage result }
{
    NewImage {
        tag_size: format.tag_size.number() as u8,
        log2_spb: format.block_size.log2_sectors(),
        log2_interleave: format.interleave.log2(),
        sections: format.sections.number() as u32,
        log2_region: format.log2_blocks_per_bit.number() as u8,
        salt: format.salt,
        padding: format.padding,
        mode: format.mode,
        wipe: format.wipe,
    }
}
