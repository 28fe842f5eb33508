//! The hash of tags, with the key that a file has.
ghost use Rattle.std.specs.Prelude.{Err, IfErr, IfOk};
ghost use Rattle.hmac_tag.specs.TagMaker.{key_of};
ghost use Rattle.command_task.specs.Words.{key_file_of};
ghost use Rattle.integrity_tool.specs.KeyFile.{HasHash, HasKeyRead, IsKeyRefused, IsKeyed, ReadsKey};
ghost use Rattle.script_lines.specs.Ends.{IsCounted};

use command_ending::{Ended, KeyRefusal, Outer, Refusal};
use command_words::HashChoice;
use hmac_tag::{Hash, Key, KeyFault, LONGEST_KEY};
use std::alloc::Global;
use stream_io::{NamedSource, ReadFault, read_named};

/// How many bytes of a key file are read: one more than a key may have.
const MOST_READ: usize = LONGEST_KEY + 1;

/// The hash that is chosen. A key file is bound and read, at most 4097 bytes of it, before anything else is.
///
/// # Errors
///
/// - `Key`: its bytes are no key.
/// - `Failed`: the source of the key failed.
/// - `Memory`: there is none for them.
pub(crate) fn hash_of<K: NamedSource>(
    alloc: Global,
    source: &mut K,
    choice: &HashChoice,
) -> Result<Hash, Ended>
    ensures hash { IfOk result (λ hash. IsKeyed (key_file_of choice.now) (K.named source.old)
        (HasHash (key_of hash))) }

    ensures refused { IfErr result (λ ended. IsKeyRefused (key_file_of choice.now) (K.named source.old)
        (K.faults source.old) (K.faults source.new) ended) }

    ensures counted { IsCounted Outer.Key (K.faults source.old) (K.faults source.new) result }
    ensures read { ReadsKey (key_file_of choice.now) K.named K.left source.old source.new
        (IfErr result HasKeyRead) }
{
    match choice {
        HashChoice::Sha256 => Ok(Hash::Sha256),
        HashChoice::HmacSha256 { key_file } => {
            let bytes = match read_named(alloc, source, key_file.as_str(), MOST_READ) {
                Ok(bytes) => bytes,
                Err(ReadFault::Failed) => return Err(Ended::Failed(Outer::Key)),
                Err(ReadFault::Memory) => return Err(Ended::Memory),
            };
            match Key::from_bytes(alloc, &bytes) {
                Ok(key) => Ok(Hash::Hmac(key)),
                Err(KeyFault::Empty) => Err(Ended::Refused(Refusal::Key(KeyRefusal::Empty))),
                Err(KeyFault::TooLong { .. }) => Err(Ended::Refused(Refusal::Key(
                    KeyRefusal::Long,
                ))),
                Err(KeyFault::Memory) => Err(Ended::Memory),
            }
        }
    }
}
