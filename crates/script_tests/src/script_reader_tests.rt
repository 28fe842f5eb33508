//! Tests of the public calls.

use script_reader::{LineReader, NextLine};
use sector_disk::Counted;
use std::alloc::Global;
use std::test::Fail;
use stream_io::{MemSource, Source};

/// Whether the reader takes these lines and no other, and tells `end` behind them.
fn takes<S: Source>(
    alloc: Global,
    source: &mut S,
    lines: &[&[u8]],
    end: NextLine,
) -> Result<bool, Fail> {
    let mut reader = LineReader::new(alloc)?;
    for line in lines {
        if reader.next_line(source)? != NextLine::Line || reader.line() != *line {
            return Ok(false);
        }
    }
    Ok(reader.next_line(source)? == end)
}

// Own: a line ends at a newline, or at the script's end where it has bytes.
#[test]
fn lines_end_at_newlines_and_at_the_end(rt: HostRuntime) -> Result<(), Fail> {
    let cases: [(&[u8], &[&[u8]]); 8] = [
        (b"", &[]),
        (b"\n", &[b""]),
        (b"flush", &[b"flush"]),
        (b"flush\n", &[b"flush"]),
        (b"flush\n\n", &[b"flush", b""]),
        (b"\nflush\nread 0 1", &[b"", b"flush", b"read 0 1"]),
        (b"a\r\nb\n", &[b"a\r", b"b"]),
        (b"\n\n\nx", &[b"", b"", b"", b"x"]),
    ];
    for (script, lines) in cases {
        let mut source = MemSource::new(script);
        assert!(rt;
            takes(rt.alloc(), &mut source, lines, NextLine::End)?,
            "{script:?}"
        );
    }
    Ok(())
}
