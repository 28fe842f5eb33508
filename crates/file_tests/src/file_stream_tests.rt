//! Tests of sources and sinks over files of the system.
use file_stream::{FileSource, LineSink, OpenSource, PieceSink, StdInput, StdInputs, StdOutput};
use sector_disk::{Failed, Named};
use std::fmt::Display;
use std::fs::File;
use std::io::{ErrorKind, Print, Write};
use std::test::Fail;
use std::{fs, io};
use stream_io::{Sink, Source, put_all, read_named};

#[test]
fn the_bytes_are_those_of_a_file_of_the_system(rt: HostRuntime) -> Result<(), Fail> {
    fs::write(&rt, "key", b"abcde")?;
    let mut source = FileSource::new(StdInputs::new(&rt));
    assert_eq!(rt; source.bind("no file"), Err(Failed));
    let bytes = read_named(rt.alloc(), &mut source, "key", 9)?;
    assert_eq!(rt; bytes.as_slice(), b"abcde".as_slice());
    let mut source = OpenSource::new(StdInput::new(File::open(&rt, "key")?));
    let mut buffer = [b'-'; 9];
    assert_eq!(rt; source.read(&mut buffer), Ok(5));
    assert_eq!(rt; &buffer, b"abcde----");
    Ok(())
}

// A standard output that is a file, in which a bar stands behind what each call writes.
#[derive(Drop)]
struct Page {
    file: File,
}

impl Print for Page {
    fn print<D: Display + Drop>(&self, _value: D) -> io::Result<()> {
        Err(ErrorKind::Unsupported.into())
    }

    fn println<D: Display + Drop>(&self, _value: D) -> io::Result<()> {
        Err(ErrorKind::Unsupported.into())
    }

    fn write_all(&self, bytes: &[u8]) -> io::Result<()> {
        let mut file = &self.file;
        file.write_all(bytes)?;
        file.write_all(b"|")
    }
}

#[test]
fn a_line_is_one_call_of_the_system(rt: HostRuntime) -> Result<(), Fail> {
    let mut sink = LineSink::new(StdOutput::new(Page {
        file: File::create(&rt, "page")?,
    }));
    put_all(&mut sink, b"ok ")?;
    put_all(&mut sink, b"flush\nclo")?;
    put_all(&mut sink, b"sed\n")?;
    assert_eq!(rt;
        fs::read_to_string(&rt, "page")?.as_str(),
        "ok flush\nclo|sed\n|"
    );
    let mut sink = LineSink::new(StdOutput::new(Page {
        file: File::open(&rt, "page")?,
    }));
    assert_eq!(rt;
        sink.write(b"closed\n"),
        Err(Failed),
        "it is not open for writes"
    );
    Ok(())
}

#[test]
fn a_reply_is_in_the_file_before_the_next_one_comes(rt: HostRuntime) -> Result<(), Fail> {
    let mut sink = PieceSink::new(StdOutput::new(Page {
        file: File::create(&rt, "page")?,
    }));
    put_all(&mut sink, b"header")?;
    assert_eq!(rt; fs::read_to_string(&rt, "page")?.as_str(), "header|");
    put_all(&mut sink, b"da\nta")?;
    assert_eq!(rt; fs::read_to_string(&rt, "page")?.as_str(), "header|da\nta|");
    let mut sink = PieceSink::new(StdOutput::new(Page {
        file: File::open(&rt, "page")?,
    }));
    assert_eq!(rt;
        sink.write(b"header"),
        Err(Failed),
        "it is not open for writes"
    );
    Ok(())
}
