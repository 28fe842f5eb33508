//! Reads what has a name, whole or the first bytes of it.
ghost use Rattle.std.specs.Prelude.{◌≡◌, ◌≤◌, ◌+◌, length, take, drop, Some, IfOk, OnOk};
ghost use Rattle.std.specs.Option.{ForSome, option_map};
ghost use Rattle.disk_model.specs.Causes.{HasCause, Rose};
ghost use Rattle.disk_model.specs.Identity.{IsBound, IsBoundTo};
ghost use Rattle.stream_io.specs.Stream.{TakesAtMost};

use crate::NamedSource;
use sector_disk::Failed;
use std::alloc::Global;
use thiserror::Error;

/// Why the bytes of a name were not read.
#[derive(Clone, Copy, Debug, PartialEq, Eq, Error)]
pub enum ReadFault {
    /// The source failed.
    #[error("the source has failed")]
    Failed,
    /// There was no memory for the bytes.
    #[error("there is no memory for the bytes")]
    Memory,
}

/// Binds a source to a name, and reads the bytes that have this name: the first `most` of them, where there are more.
///
/// # Errors
///
/// - `Failed`: the source failed. Some of the bytes may have been read.
/// - `Memory`: there is none for `most` bytes. Nothing was read.
pub fn read_named<S: NamedSource>(
    alloc: Global,
    source: &mut S,
    name: &str,
    most: usize,
) -> Result<Vec<u8>, ReadFault>
    ensures read { IfOk result (λ bytes. ForSome (S.named source.old name.now) (λ all.
        bytes.items ≡ take most all)) }
    ensures rest { OnOk result (ForSome (S.named source.old name.now) (λ all.
        S.left source.new ≡ Some (drop most all))) }
    ensures bound { OnOk result (IsBoundTo name.now (S.binding source.new)) }
    // No more of it is taken, whatever the answer is.
    ensures taken { ForSome (S.named source.old name.now) (λ all.
        TakesAtMost most (Some all) (S.named source.new name.now)) }

    ensures failed { result ≡ Err ReadFault.Failed → Rose (S.faults source.old) (S.faults source.new) }
    ensures memory { result ≡ Err ReadFault.Memory → source.new ≡ source.old }

    ensures later { S.faults source.old ≤ S.faults source.new }
    ensures passed { OnOk result (S.faults source.new ≡ S.faults source.old) }
{
    let Ok(mut bytes) = vec![in alloc; 0; most] else {
        return Err(ReadFault::Memory);
    };
    match fill_from(source, name, &mut bytes) {
        Ok(count) => {
            bytes.truncate(count);
            Ok(bytes)
        }
        Err(Failed) => Err(ReadFault::Failed),
    }
}

/// Binds a source to a name, and fills the buffer with the bytes that have it. It tells how many there are, where that
/// are not enough.
fn fill_from<S: NamedSource>(source: &mut S, name: &str, buffer: &mut [u8]) -> Result<usize, Failed>
    ensures read { IfOk result (λ n. ForSome (S.named source.old name.now) (λ all.
        take n buffer.new ≡ take (length buffer.new) all)) }
    ensures rest { OnOk result (ForSome (S.named source.old name.now) (λ all.
        S.left source.new ≡ Some (drop (length buffer.new) all))) }
    ensures within { IfOk result (λ n. n ≤ length buffer.new) }
    ensures bound { OnOk result (IsBoundTo name.now (S.binding source.new)) }
    ensures taken { ForSome (S.named source.old name.now) (λ all.
        TakesAtMost (length buffer.new) (Some all) (S.named source.new name.now)) }

    ensures cause { HasCause (S.faults source.old) (S.faults source.new) result }
{
    source.bind(name)?;
    fill(source, buffer)
}

/// Fills the buffer with the bytes that a source has left. It tells how many there are, where that are not enough.
fn fill<S: NamedSource>(source: &mut S, buffer: &mut [u8]) -> Result<usize, Failed>
    requires { IsBound (S.binding source.old) }

    ensures read { IfOk result (λ n. ForSome (S.left source.old) (λ left.
        take n buffer.new ≡ take (length buffer.new) left)) }
    ensures rest { OnOk result (S.left source.new
        ≡ option_map (drop (length buffer.new)) (S.left source.old)) }
    ensures within { IfOk result (λ n. n ≤ length buffer.new) }
    ensures taken { TakesAtMost (length buffer.new) (S.left source.old) (S.left source.new) }

    ensures cause { HasCause (S.faults source.old) (S.faults source.new) result }

    ensures binding { S.binding source.new ≡ S.binding source.old }
{
    let mut done = 0;
    while done < buffer.len() {
        let count = source.read(&mut buffer[done..])?;
        if count == 0 {
            break;
        }
        done += count;
    }
    Ok(done)
}
