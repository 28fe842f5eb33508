//! Each ending by its status and its last line.
use command_ending::{
    Ended, FormFault, ImageFault, KeyRefusal, LineRefusal, Outer, Refusal, end_without_memory,
};
use hmac_tag::Tag;
use journal_reading::JournalFault;
use script_text::LineFault;
use std::alloc::Global;
use std::process::Abort;
use std::test::Fail;
use stream_io::MemSink;

/// Fails where an ending has another status than this, or another last line.
fn judge(
    rt: &impl Abort,
    alloc: Global,
    ended: &Ended,
    status: u8,
    line: &str,
) -> Result<(), Fail> {
    let mut out = MemSink::new(alloc, 100)?;
    ended.put_last_line(&mut out)?;
    assert_eq!(rt; ended.status(), status, "{ended:?}");
    assert_eq!(rt; out.bytes(), line.as_bytes(), "{ended:?}");
    Ok(())
}

fn judge_line(
    rt: &impl Abort,
    alloc: Global,
    number: u64,
    refusal: LineRefusal,
    text: &str,
) -> Result<(), Fail> {
    let line = format!(in alloc; "fault line {text}\n")?;
    let ended = Ended::Refused(Refusal::Line { number, refusal });
    judge(rt, alloc, &ended, 2, line.as_str())
}

// Own: the statuses and the lines of endings.
#[test]
fn each_ending_has_its_status_and_its_last_line(rt: HostRuntime) -> Result<(), Fail> {
    for (ended, status, line) in [
        (Ended::Refused(Refusal::Words), 2, "fault words\n"),
        (
            Ended::Refused(Refusal::Key(KeyRefusal::Empty)),
            2,
            "fault key empty\n",
        ),
        (
            Ended::Refused(Refusal::Key(KeyRefusal::Long)),
            2,
            "fault key long\n",
        ),
        (
            Ended::Refused(Refusal::Image(ImageFault::Consent { flags: 0xa })),
            3,
            "fault image consent 0xa\n",
        ),
        (
            Ended::Refused(Refusal::Second(ImageFault::Consent { flags: 0xa })),
            3,
            "fault second consent 0xa\n",
        ),
        (
            Ended::Refused(Refusal::Legs {
                a_blocks: 80,
                a_size: 512,
                b_blocks: 208,
                b_size: 4096,
            }),
            3,
            "fault legs 80 512 208 4096\n",
        ),
        (Ended::Refused(Refusal::Length), 2, "fault script long\n"),
        (Ended::Failed(Outer::Disk), 4, "fault disk\n"),
        (Ended::Failed(Outer::Key), 5, "fault key\n"),
        (Ended::Failed(Outer::Script), 5, "fault script\n"),
        (Ended::Failed(Outer::Sink), 6, ""),
        (Ended::Memory, 7, "fault memory\n"),
    ] {
        judge(&rt, rt.alloc(), &ended, status, line)?;
    }
    Ok(())
}

// A tag has 32 bytes at most, and so 64 digits.
#[test]
fn the_longest_tag_is_told_whole(rt: HostRuntime) -> Result<(), Fail> {
    let fault = JournalFault::JournalTag {
        section: 0,
        entry: 0,
        stored: Tag::from_bytes(&[0x5a; 32]),
        computed: Tag::from_bytes(&[0; 32]),
    };
    let ended = Ended::Refused(Refusal::Image(ImageFault::Journal(fault)));
    let mut out = MemSink::new(rt.alloc(), 200)?;
    ended.put_last_line(&mut out)?;
    assert_eq!(rt;
        out.bytes(),
        b"fault image journal tag 0 0 stored \
        5a5a5a5a5a5a5a5a5a5a5a5a5a5a5a5a5a5a5a5a5a5a5a5a5a5a5a5a5a5a5a5a computed \
        0000000000000000000000000000000000000000000000000000000000000000\n"
            .as_slice()
    );
    Ok(())
}

#[test]
fn each_form_fault_has_its_line(rt: HostRuntime) -> Result<(), Fail> {
    for (number, fault, text) in [
        (3, LineFault::WrongWord { word: b"frob" }, "3 word frob"),
        (1, LineFault::WrongNumber { word: b"x" }, "1 number x"),
        (10, LineFault::WrongByte { word: b"zz" }, "10 byte zz"),
        (4, LineFault::WrongRuns { word: b"aa*0" }, "4 runs aa*0"),
        (5, LineFault::MissingWord, "5 missing"),
        (6, LineFault::ExtraWord { word: b"q" }, "6 extra q"),
        (7, LineFault::TooLong, "7 long"),
        (1203, LineFault::NotText, "1203 text"),
    ] {
        let form = FormFault::of(rt.alloc(), fault)?;
        judge_line(&rt, rt.alloc(), number, LineRefusal::Form(form), text)?;
    }
    Ok(())
}

#[test]
fn want_of_memory_is_told_without_memory(rt: HostRuntime) -> Result<(), Fail> {
    for (room, text) in [(13, "fault memory\n"), (7, "fault m")] {
        let mut out = MemSink::new(rt.alloc(), room)?;
        assert_eq!(rt; end_without_memory(&mut out), 7, "{room}");
        assert_eq!(rt; out.bytes(), text.as_bytes(), "{room}");
    }
    Ok(())
}
