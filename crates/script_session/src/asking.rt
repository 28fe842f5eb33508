//! The request that a line asks for, with its bytes.
ghost use Rattle.std.specs.Prelude.{◌≡◌, ◌*◌, ◌<◌, IfOk, replicate};
ghost use Rattle.device_model.specs.Script.{bytes_of_stretches, submission_of};
ghost use Rattle.request_slots.specs.InFlight.{as_submission};
ghost use Rattle.script_text.specs.Line.{ask_of, stretches_of};

use request_slots::{Bytes, Request};
use script_text::{Ask, Runs};
use sector_disk::Memory;
use std::alloc::Global;

/// The request of an ask, on blocks of `block_size` bytes. A read brings zeros.
///
/// # Errors
///
/// - `Memory`: there is none for its bytes.
pub fn request_of(alloc: Global, ask: &Ask<'_>, block_size: usize) -> Result<Request, Memory>
    requires { 0 < block_size }

    ensures { IfOk result (λ request. as_submission request ≡ submission_of block_size (ask_of ask.now)) }
{
    match *ask {
        Ask::Fill {
            first,
            count,
            byte,
            fua,
        } => {
            let bytes = filled(alloc, count, block_size, byte)?;
            Ok(Request::Write {
                first,
                count,
                bytes,
                fua,
            })
        }
        Ask::Write { first, runs, fua } => {
            let bytes = bytes_of(alloc, &runs)?;
            let count = (bytes.as_slice().len() / block_size) as u64;
            Ok(Request::Write {
                first,
                count,
                bytes,
                fua,
            })
        }
        Ask::Read { first, count } => {
            let buffer = filled(alloc, count, block_size, 0)?;
            Ok(Request::Read {
                first,
                count,
                buffer,
            })
        }
        Ask::Flush => Ok(Request::Flush),
    }
}

/// The bytes of `count` blocks, each byte this one.
fn filled(alloc: Global, count: u64, block_size: usize, byte: u8) -> Result<Bytes, Memory>
    ensures { IfOk result (λ bytes. bytes ≡ replicate (count * block_size) byte) }
{
    let Some(length) = (count as usize).checked_mul(block_size) else {
        return Err(Memory);
    };
    let bytes = Vec::from_elem(alloc, byte, length)?;
    Ok(Bytes::from_vec(bytes))
}

/// The bytes of runs.
fn bytes_of(alloc: Global, runs: &Runs<'_>) -> Result<Bytes, Memory>
    ensures { IfOk result (λ bytes. bytes ≡ bytes_of_stretches (stretches_of runs.now)) }
{
    let Ok(length) = usize::try_from(runs.total()) else {
        return Err(Memory);
    };
    let mut bytes = Vec::from_elem(alloc, 0, length)?;
    runs.fill(&mut bytes);
    Ok(Bytes::from_vec(bytes))
}
