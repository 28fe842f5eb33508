//! An output that keeps the beginning of its last line.
ghost use Rattle.std.specs.Prelude.{◌≡◌, ◌++◌, [], take};

use arrayvec::ArrayVec;
use file_disk::FileFault;
use file_stream::OutputFile;
use memchr::memrchr;

/// How many bytes are kept: all that advice looks at.
pub(crate) const KEPT: usize = 64;

/// An output that keeps the first bytes of the last line that it was given.
#[derive(Drop)]
pub struct LastLine<O: OutputFile + Drop> {
    output: O,
    line: ArrayVec<u8, KEPT>,
    is_ended: bool,
}

impl<O: OutputFile + Drop> LastLine<O> {
    /// Takes an output. It writes nothing.
    pub fn new(output: O) -> LastLine<O>
        ensures { result.output ≡ output }
    {
        LastLine {
            output,
            line: ArrayVec::new(),
            is_ended: false,
        }
    }

    /// The first bytes of the last line that the output has taken, without its newline.
    pub fn line(&self) -> &[u8]
        ensures { result.now ≡ self.now.line.items }
    {
        self.line.as_slice()
    }
}

impl<O: OutputFile + Drop> OutputFile for LastLine<O> {
    ghost held = { λ file. O.held file.output };

    ghost faults = { λ file. O.faults file.output };

    ghost interruptions = { λ file. O.interruptions file.output };

    fn write(&mut self, bytes: &[u8]) -> Result<usize, FileFault> {
        let count = self.output.write(bytes)?;
        keep(&mut self.line, &mut self.is_ended, &bytes[..count]);
        Ok(count)
    }
}

/// Keeps of the last line what was taken. It begins behind the last newline that has a byte behind it, and else goes
/// on, or begins anew where it had ended: so only the tail of what was taken is looked at.
fn keep(line: &mut ArrayVec<u8, KEPT>, is_ended: &mut bool, bytes: &[u8])
    ensures none { bytes.now ≡ [] → line.new ≡ line.old }
{
    let Some(end) = bytes.len().checked_sub(1) else {
        return;
    };
    let newline = memrchr(b'\n', &bytes[..end]);
    if *is_ended || newline.is_some() {
        line.clear();
    }
    let first = match newline {
        Some(at) => at + 1,
        None => 0,
    };
    *is_ended = bytes[end] == b'\n';
    let behind = if *is_ended { end } else { bytes.len() };
    go_on(line, &bytes[first..behind]);
}

/// A line goes on by these bytes, as far as they are kept.
pub(crate) fn go_on(line: &mut ArrayVec<u8, KEPT>, bytes: &[u8])
    ensures { line.new.items ≡ take KEPT (line.old.items ++ bytes.now) }
{
    let count = line.remaining_capacity().min(bytes.len());
    let _ = line.try_extend_from_slice(&bytes[..count]);
}
