//! Tests of the public calls.
use sector_disk::Failed;
use std::test::Fail;
use stream_io::{MemFile, MemSink, MemSource, ReadFault, Sink, Source, put_all, read_named};

#[test]
fn a_source_gives_its_bytes_in_order(rt: HostRuntime) -> Result<(), Fail> {
    let mut source = MemSource::new(b"abcde");
    let mut buffer = [b'-'; 3];
    assert_eq!(rt; source.read(&mut buffer)?, 3);
    assert_eq!(rt; &buffer, b"abc");
    assert_eq!(rt; source.read(&mut [])?, 0, "no buffer");
    assert_eq!(rt; source.read(&mut buffer)?, 2);
    assert_eq!(rt; &buffer, b"dec");
    assert_eq!(rt; source.read(&mut buffer)?, 0, "at the end");
    assert_eq!(rt; &buffer, b"dec");
    Ok(())
}

#[test]
fn what_has_a_name_is_read_up_to_a_bound(rt: HostRuntime) -> Result<(), Fail> {
    for (most, failing, wanted) in [
        (0, 9, Ok(&b""[..])),
        (3, 9, Ok(b"abc")),
        (5, 9, Ok(b"abcde")),
        (9, 9, Ok(b"abcde")),
        (9, 2, Err(ReadFault::Failed)),
        (usize::MAX, 9, Err(ReadFault::Memory)),
    ] {
        let mut file = MemFile::new(b"abcde");
        file.fail_at(&[failing]);
        let bytes = read_named(rt.alloc(), &mut file, "key", most);
        match (&bytes, wanted) {
            (Ok(bytes), Ok(wanted)) => assert_eq!(rt; bytes.as_slice(), wanted, "{most}"),
            (Err(fault), Err(wanted)) => assert_eq!(rt; *fault, wanted, "{most}"),
            _ => assert!(rt; false, "{most}"),
        }
    }
    Ok(())
}

#[test]
fn a_sink_takes_what_it_has_room_for(rt: HostRuntime) -> Result<(), Fail> {
    let mut sink = MemSink::new(rt.alloc(), 5)?;
    assert_eq!(rt; sink.write(b"abc")?, 3);
    assert_eq!(rt; sink.write(b"def")?, 2, "there is room for a part");
    assert_eq!(rt; sink.write(b"f"), Err(Failed), "there is no room");
    assert_eq!(rt; sink.write(b"")?, 0, "nothing needs no room");
    assert_eq!(rt; sink.bytes(), b"abcde".as_slice());
    Ok(())
}

#[test]
fn put_all_leaves_a_prefix_where_the_sink_fails(rt: HostRuntime) -> Result<(), Fail> {
    let mut sink = MemSink::new(rt.alloc(), 8)?;
    put_all(&mut sink, b"abc")?;
    put_all(&mut sink, b"")?;
    sink.fail_at(&[2]);
    assert_eq!(rt; put_all(&mut sink, b"def"), Err(Failed), "the call was set");
    assert_eq!(rt; sink.bytes(), b"abc".as_slice());
    assert_eq!(rt;
        put_all(&mut sink, b"defghi"),
        Err(Failed),
        "there is no room for all"
    );
    assert_eq!(rt; sink.bytes(), b"abcdefgh".as_slice());
    Ok(())
}
