//! The top call: from the words to the status, on what lies outside the program.
ghost use Rattle.std.specs.Prelude.{◌≡◌, ℕ, List, Some, IfErr, OnOk};
ghost use Rattle.std.specs.Option.{ForSome};
ghost use Rattle.disk_model.specs.Causes.{HasCause, Rose};
ghost use Rattle.disk_model.specs.Identity.{IsBoundTo, IsThere};
ghost use Rattle.disk_model.specs.Moments.{content_now};
ghost use Rattle.run_model.specs.Ending.{Complete, status_of};
ghost use Rattle.script_text.specs.Found.{finds_fault};
ghost use Rattle.command_task.specs.Words.{HasOneImage, IsTask, asking_of};
ghost use Rattle.integrity_tool.specs.Ends.{ends_by};
ghost use Rattle.command_model.specs.Ends.{ends_with};
ghost use Rattle.script_lines.specs.Ends.{IsCounted};
ghost use Rattle.integrity_tool.specs.Mirrored.{KeepsMirrored, RunsMirrored};
ghost use Rattle.integrity_tool.specs.Top.{CallsOnly, HasCauseOfCommand, HasCauseOnImage, IsCountedInCommand, IsOnImage, KeepsGiven, ReadsOnly, RunsGiven};
ghost use Rattle.command_model.specs.Status.{HasStatusIn};
ghost use Rattle.command_model.specs.Given.{texts};
ghost use Rattle.command_model.specs.World.{World};

use crate::carrying_out::carry_out;
use crate::keyed::hash_of;
use command_ending::{Ended, Outer};
use command_mirror::mirror_images;
use command_task::{Asked, AskedMirror, Asking, Task, Telling, put_end, words_asked};
use device::OpenMode;
use script_text::TagsFound;
use sector_disk::{Counted, Disk, Failed};
use std::alloc::Global;
use stream_io::{NamedSource, Sink, Source};

/// What lies outside the program.
#[derive(Drop)]
pub struct Outside<'o, D, E, K, S, O> {
    /// The disk.
    pub disk: &'o mut D,
    /// The disk of a second image. Where a command names one image it is not called.
    pub second: &'o mut E,
    /// The source of keys.
    pub key: &'o mut K,
    /// The source of the script.
    pub script: &'o mut S,
    /// The sink of what is printed.
    pub out: &'o mut O,
}

/// What contracts see as a `World`.
pub trait AsWorld {
    /// What it is at one time.
    ghost world: { Self → World };
}

impl<D: Disk, E: Disk, K: NamedSource, S: Source, O: Sink> AsWorld for Outside<'_, D, E, K, S, O> {
    ghost world = { λ outside. record {
      named = D.named outside.disk.now;
      bound = (D.identity outside.disk.now).name;
      second_named = E.named outside.second.now;
      second_bound = (E.identity outside.second.now).name;
      keys = K.named outside.key.now;
      key = K.left outside.key.now;
      script = S.left outside.script.now;
      held = O.held outside.out.now;
      faults = record {
        disk = D.faults outside.disk.now;
        second = E.faults outside.second.now;
        key = K.faults outside.key.now;
        script = S.faults outside.script.now;
        sink = O.faults outside.out.now;
      };
    } };
}

impl<D: Disk, E: Disk, K: NamedSource, S: Source, O: Sink> Outside<'_, D, E, K, S, O> {
    /// Does what the words say, and answers the status. The words are the program's name and then those of a command.
    ///
    /// The commands are `format IMAGE`, `dump IMAGE`, `check IMAGE`, `salvage IMAGE`, `resize IMAGE`, `run IMAGE` and
    /// `nbd IMAGE` in a mode, `mirror IMAGE SECOND` in journal mode, and `exercise IMAGE SEED COUNT`. The key is bound
    /// and read, at most 4097 bytes of it, before an image is bound, and the script of a run, or the stream of a
    /// session, only once the device is open. Both images of a mirror are bound before the first is opened, and both are
    /// open before the mirror is levelled.
    ///
    /// # Statuses
    ///
    /// - 0: the command came to its end: the image is made or resized, its lines are printed, or the script, the stream
    ///   or the exercise was run to its end and the device closed.
    /// - 1: it came to its end, and a reply that was taken, or a line of a check or a salvage, names a block whose
    ///   stored tag differs.
    /// - 2: the words are no command, the bytes of the key file no key, or the script or the stream is refused.
    /// - 3: an image is refused, or two whose blocks are not alike.
    /// - 4, 5, 6: a disk, the source of the key or of the script, or the sink failed.
    /// - 7: there was no memory.
    pub fn integrity(&mut self, alloc: Global, words: &[String]) -> u8
        // By what a command of one image is given: the status, the text and what is left; what stands at each moment,
        // and in which order; what the close of a device leaves; and how much of the script is taken before a line of it
        // is run.
        ensures given { KeepsGiven ⟦<Self as AsWorld>⟧.world (texts words.now) result self.old self.new }
        // By what a mirror is given: the same, of both disks.
        ensures mirrored { KeepsMirrored ⟦<Self as AsWorld>⟧.world (texts words.now) result self.old self.new }

        // What each status but 0 to 3 comes from, and that no fault is passed over, whether the disk and the streams
        // tell what they hold or not.
        ensures status { HasStatusIn ⟦<Self as AsWorld>⟧.world result self.old self.new }

        // What is called: nothing where the words are no command, the key's source before all else, and the second disk
        // only where the words name two images.
        ensures calls { CallsOnly ⟦<Self as AsWorld>⟧.world (texts words.now) (ends_with result) self.old self.new }
        // What is read: of one key file its first bytes, and of the script no more than its bound and a byte.
        ensures read { ReadsOnly ⟦<Self as AsWorld>⟧.world (texts words.now) (ends_with result) self.old self.new }
        // Which images it is on, and that these keep their size.
        ensures image { IsOnImage ⟦<Self as AsWorld>⟧.world (texts words.now) (ends_with result) self.old self.new }
    {
        let mut telling = Telling::Lines;
        match self.run(alloc, words, &mut telling) {
            Ok(found) => complete_status(found),
            Err(ended) => {
                let _ = put_end(telling, &ended, self.out);
                ended.status()
            }
        }
    }

    /// Does what the words say, up to the end or to what ends it. It tells whether a line told a block whose stored tag
    /// differs, and in `telling` whether a session has begun.
    ///
    /// # Errors
    ///
    /// What ends it, in this order: the words, the key, the image, of two the first and then the second, the script.
    fn run(
        &mut self,
        alloc: Global,
        words: &[String],
        telling: &mut Telling,
    ) -> Result<TagsFound, Ended>
        requires lines { telling.old ≡ Telling.Lines }

        ensures given { RunsGiven ⟦<Self as AsWorld>⟧.world (texts words.now) telling.new result self.old self.new }
        ensures mirrored { RunsMirrored ⟦<Self as AsWorld>⟧.world (texts words.now) telling.new result
            self.old self.new }

        ensures cause { HasCauseOfCommand ⟦<Self as AsWorld>⟧.world result self.old self.new }
        ensures image_cause { HasOneImage (asking_of (texts words.now))
            → HasCauseOnImage ⟦<Self as AsWorld>⟧.world result self.old self.new }

        ensures counted { IsCountedInCommand ⟦<Self as AsWorld>⟧.world result self.old self.new }

        ensures calls { CallsOnly ⟦<Self as AsWorld>⟧.world (texts words.now) (ends_by result) self.old self.new }
        ensures read { ReadsOnly ⟦<Self as AsWorld>⟧.world (texts words.now) (ends_by result) self.old self.new }
        ensures image { IsOnImage ⟦<Self as AsWorld>⟧.world (texts words.now) (ends_by result) self.old self.new }
    {
        let asking = words_asked(alloc, words)?;
        match asking {
            Asking::OneImage(asked) => self.run_on_image(alloc, asked, telling),
            Asking::TwoImages(asked) => self.run_on_both(alloc, asked),
        }
    }

    /// Does what is asked on one image: the key is read, the disk bound, and the task carried out.
    ///
    /// # Errors
    ///
    /// What ends it, in this order: the key, the image, the script.
    fn run_on_image(
        &mut self,
        alloc: Global,
        asked: Asked,
        telling: &mut Telling,
    ) -> Result<TagsFound, Ended>
        requires task { IsTask asked.task }
        requires lines { telling.old ≡ Telling.Lines }

        ensures given { (command : List (List ℕ)) → asking_of command ≡ Some (Asking.OneImage asked)
            → RunsGiven ⟦<Self as AsWorld>⟧.world command telling.new result self.old self.new }

        ensures cause { HasCauseOfCommand ⟦<Self as AsWorld>⟧.world result self.old self.new }
        ensures image_cause { HasCauseOnImage ⟦<Self as AsWorld>⟧.world result self.old self.new }
        ensures counted { IsCountedInCommand ⟦<Self as AsWorld>⟧.world result self.old self.new }

        ensures calls { (command : List (List ℕ)) → asking_of command ≡ Some (Asking.OneImage asked)
            → CallsOnly ⟦<Self as AsWorld>⟧.world command (ends_by result) self.old self.new }
        ensures read { (command : List (List ℕ)) → asking_of command ≡ Some (Asking.OneImage asked)
            → ReadsOnly ⟦<Self as AsWorld>⟧.world command (ends_by result) self.old self.new }
        ensures image { (command : List (List ℕ)) → asking_of command ≡ Some (Asking.OneImage asked)
            → IsOnImage ⟦<Self as AsWorld>⟧.world command (ends_by result) self.old self.new }
    {
        let hash = hash_of(alloc, self.key, &asked.hash)?;
        bind_image(self.disk, asked.image.as_str(), &asked.task)?;
        carry_out(
            alloc,
            self.disk,
            hash,
            asked.task,
            self.script,
            self.out,
            telling,
        )
    }

    /// Does what is asked on two images: the key is read, both disks are bound, and a script is run on a mirror.
    ///
    /// # Errors
    ///
    /// What ends it, in this order: the key, the first image, the second, the blocks of both, the script.
    fn run_on_both(&mut self, alloc: Global, asked: AskedMirror) -> Result<TagsFound, Ended>
        ensures mirrored { (command : List (List ℕ)) → asking_of command ≡ Some (Asking.TwoImages asked)
            → RunsMirrored ⟦<Self as AsWorld>⟧.world command Telling.Lines result self.old self.new }

        ensures cause { HasCauseOfCommand ⟦<Self as AsWorld>⟧.world result self.old self.new }
        ensures counted { IsCountedInCommand ⟦<Self as AsWorld>⟧.world result self.old self.new }

        ensures calls { (command : List (List ℕ)) → asking_of command ≡ Some (Asking.TwoImages asked)
            → CallsOnly ⟦<Self as AsWorld>⟧.world command (ends_by result) self.old self.new }
        ensures read { (command : List (List ℕ)) → asking_of command ≡ Some (Asking.TwoImages asked)
            → ReadsOnly ⟦<Self as AsWorld>⟧.world command (ends_by result) self.old self.new }
        ensures image { (command : List (List ℕ)) → asking_of command ≡ Some (Asking.TwoImages asked)
            → IsOnImage ⟦<Self as AsWorld>⟧.world command (ends_by result) self.old self.new }
    {
        let hash = hash_of(alloc, self.key, &asked.hash)?;
        bind_leg(self.disk, asked.image.as_str())?;
        bind_leg(self.second, asked.second.as_str())?;
        mirror_images(
            alloc,
            self.disk,
            self.second,
            hash,
            asked.consent,
            self.script,
            self.out,
        )
    }
}

/// The status of a run that came to its end.
fn complete_status(found: TagsFound) -> u8
    ensures { result ≡ status_of (Complete (finds_fault found)) }
{
    match found {
        TagsFound::Matching => 0,
        TagsFound::Differing => 1,
    }
}

/// Binds the disk to the name of an image, as the task wants it.
///
/// # Errors
///
/// - `Disk`: the disk failed.
fn bind_image<D: Disk>(disk: &mut D, image: &str, task: &Task) -> Result<(), Ended>
    ensures bound { OnOk result (IsBoundTo image.now (D.identity disk.new).name) }
    ensures found { OnOk result (IsThere (D.named disk.old image.now) (D.identity disk.new).sectors
        (D.moments disk.new)) }

    ensures disk { IfErr result (λ ended. (ended ≡ Ended.Failed Outer.Disk)
        × Rose (D.faults disk.old) (D.faults disk.new)) }

    ensures counted { IsCounted Outer.Disk (D.faults disk.old) (D.faults disk.new) result }
    ensures same { ForSome (content_now (D.named disk.old image.now).moments)
        (λ c. D.named disk.new image.now ≡ D.named disk.old image.now) }
{
    match bind_for(disk, image, task) {
        Ok(()) => Ok(()),
        Err(_) => Err(Ended::Failed(Outer::Disk)),
    }
}

/// Binds a disk to the name of an image of a mirror.
///
/// # Errors
///
/// - `Disk`: the disk failed.
fn bind_leg<D: Disk>(disk: &mut D, image: &str) -> Result<(), Ended>
    ensures bound { OnOk result (IsBoundTo image.now (D.identity disk.new).name) }
    ensures found { OnOk result (IsThere (D.named disk.old image.now) (D.identity disk.new).sectors
        (D.moments disk.new)) }

    ensures disk { IfErr result (λ ended. (ended ≡ Ended.Failed Outer.Disk)
        × Rose (D.faults disk.old) (D.faults disk.new)) }

    ensures counted { IsCounted Outer.Disk (D.faults disk.old) (D.faults disk.new) result }
    ensures same { ForSome (content_now (D.named disk.old image.now).moments)
        (λ c. D.named disk.new image.now ≡ D.named disk.old image.now) }
{
    match disk.bind(image) {
        Ok(()) => Ok(()),
        Err(_) => Err(Ended::Failed(Outer::Disk)),
    }
}

/// Binds the disk to a name: for reads alone where the task writes nothing.
///
/// # Errors
///
/// - `Failed`: the disk failed.
fn bind_for<D: Disk>(disk: &mut D, name: &str, task: &Task) -> Result<(), Failed>
    ensures bound { OnOk result (IsBoundTo name.now (D.binding disk.new)) }

    ensures cause { HasCause (D.faults disk.old) (D.faults disk.new) result }

    ensures same { D.tells_same name.now disk.old disk.new }
{
    match task {
        Task::Dump | Task::Check(_) | Task::Salvage | Task::Run(OpenMode::Recovery) => {
            disk.bind_to_read(name)
        }
        Task::Run(_) | Task::Serve(_) | Task::Resize | Task::Format(_) | Task::Exercise { .. } => {
            disk.bind(name)
        }
    }
}
