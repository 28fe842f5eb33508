use script_text::{Actor, Ask, Line, LineFault, Told, read_line, reply_text};
use std::test::Fail;

const MOST: u64 = 18446744073709551615;

fn fill(first: u64, count: u64, byte: u8, fua: bool) -> Ask<'static> {
    Ask::Fill {
        first,
        count,
        byte,
        fua,
    }
}

fn ask(start: bool, ask: Ask<'static>) -> Line<'static> {
    Line::Ask { start, ask }
}

// Own: the grammar of scripts, each form once, and where spaces may stand.
#[test]
fn each_form_is_a_line(rt: HostRuntime) {
    let read = Ask::Read { first: 4, count: 8 };
    let lines = [
        ("fill 0 8 aa", ask(false, fill(0, 8, 0xaa, false))),
        ("fill 3 1 0c fua", ask(false, fill(3, 1, 0x0c, true))),
        ("start  fill 0 8 ff fua ", ask(true, fill(0, 8, 0xff, true))),
        (" read 4 8", ask(false, read)),
        ("start read 4 8", ask(true, read)),
        ("flush", ask(false, Ask::Flush)),
        ("start flush", ask(true, Ask::Flush)),
        ("serve 0", Line::Serve { ticket: 0 }),
        ("take 18446744073709551615", Line::Take { ticket: MOST }),
        (
            "step commit",
            Line::Step {
                actor: Actor::Commit,
            },
        ),
        (
            "step place",
            Line::Step {
                actor: Actor::Place,
            },
        ),
        (
            "step settle",
            Line::Step {
                actor: Actor::Settle,
            },
        ),
        (
            "step clean",
            Line::Step {
                actor: Actor::Clean,
            },
        ),
        (
            "step recalc",
            Line::Step {
                actor: Actor::Recalc,
            },
        ),
        ("", Line::Skip),
        ("   ", Line::Skip),
        ("#", Line::Skip),
        ("# fill", Line::Skip),
    ];
    for (line, wanted) in lines {
        assert_eq!(rt; read_line(line.as_bytes()), Ok(wanted), "{line}");
    }
}

fn word(word: &'static str) -> LineFault<'static> {
    LineFault::WrongWord {
        word: word.as_bytes(),
    }
}

fn number(word: &'static str) -> LineFault<'static> {
    LineFault::WrongNumber {
        word: word.as_bytes(),
    }
}

fn byte(word: &'static str) -> LineFault<'static> {
    LineFault::WrongByte {
        word: word.as_bytes(),
    }
}

fn runs(word: &'static str) -> LineFault<'static> {
    LineFault::WrongRuns {
        word: word.as_bytes(),
    }
}

fn extra(word: &'static str) -> LineFault<'static> {
    LineFault::ExtraWord {
        word: word.as_bytes(),
    }
}

// Own: the first fault from left to right.
#[test]
fn the_first_fault_is_told(rt: HostRuntime) {
    let missing = LineFault::MissingWord;
    let faults = [
        ("fill x", number("x")),
        ("read 0 x y", number("x")),
        ("fill 00 1 aa", number("00")),
        ("fill +1 1 aa", number("+1")),
        ("take 18446744073709551616", number("18446744073709551616")),
        ("fill 0 1 zz q", byte("zz")),
        ("fill 0 1 AA", byte("AA")),
        ("fill 0 1 aaa", byte("aaa")),
        ("write 0 aa", runs("aa")),
        ("write 0 aa*0", runs("aa*0")),
        ("write 0 aa*1,", runs("aa*1,")),
        ("write 0 aa*01", runs("aa*01")),
        ("write 0 aa*1,BB*1", runs("aa*1,BB*1")),
        (
            "write 0 aa*18446744073709551616",
            runs("aa*18446744073709551616"),
        ),
        ("fill 0 1 aa q", word("q")),
        ("write 0 aa*1 bb*1", word("bb*1")),
        ("start serve 1", word("serve")),
        ("start start", word("start")),
        ("step frob x", word("frob")),
        (" # x", word("#")),
        ("Fill 0 1 aa", word("Fill")),
        ("fill 0 1 aa fua q", extra("q")),
        ("read 0 1 fua", extra("fua")),
        ("flush fua", extra("fua")),
        ("serve 1 2", extra("2")),
        ("start", missing),
        ("step", missing),
        ("take", missing),
        ("write 0", missing),
        ("fill 0 1", missing),
        ("fill\t0 1 aa", LineFault::NotText),
        ("#\t", LineFault::NotText),
        ("read 0 1\r", LineFault::NotText),
    ];
    for (line, wanted) in faults {
        assert_eq!(rt; read_line(line.as_bytes()), Err(wanted), "{line}");
    }
}

// Own: runs, and their sum, which has more than 64 bits.
#[test]
fn runs_are_a_place_in_the_line(rt: HostRuntime) {
    let line = b"write 7 aa*2,00*1 fua";
    if let Ok(
        Line::Ask {
            ask: Ask::Write { first, runs, fua },
            ..
        },
    ) = read_line(line)
    {
        assert_eq!(rt; (first, fua), (7, true));
        assert_eq!(rt; runs.total(), 3);
        let mut bytes = [1; 3];
        runs.fill(&mut bytes);
        assert_eq!(rt; bytes, [0xaa, 0xaa, 0]);
    } else {
        assert!(rt; false, "the line is read");
    }
    let line = b"write 0 aa*18446744073709551615,bb*18446744073709551615";
    if let Ok(
        Line::Ask {
            ask: Ask::Write { runs, .. },
            ..
        },
    ) = read_line(line)
    {
        assert_eq!(rt; runs.total(), 36893488147419103230);
    } else {
        assert!(rt; false, "the line is read");
    }
}

// Own: the printed lines.
#[test]
fn each_reply_has_its_text(rt: HostRuntime) -> Result<(), Fail> {
    let replies = [
        (Told::Write { first: 8, count: 2 }, "ok write 8 2\n"),
        (
            Told::Read {
                first: 4,
                count: 3,
                bytes: &[0xaa, 0xaa, 0xbb, 0xaa],
            },
            "ok read 4 3 aa*2,bb*1,aa*1\n",
        ),
        (Told::Flush, "ok flush\n"),
        (
            Told::Fault {
                block: 5,
                stored: &[0, 0xff],
                computed: &[0x1e],
            },
            "fault block 5 stored 00ff computed 1e\n",
        ),
        (
            Told::Ticket { ticket: MOST },
            "ticket 18446744073709551615\n",
        ),
        (Told::Did, "did\n"),
        (Told::Done, "done\n"),
        (Told::HeldBy { by: 3 }, "held by 3\n"),
        (Told::NoRoom, "no room\n"),
        (Told::NotDone, "not done\n"),
        (Told::Idle, "idle\n"),
        (Told::SlotsFull, "slots full\n"),
        (Told::ReadOnly, "read only\n"),
        (Told::Closed, "closed\n"),
    ];
    for (told, wanted) in replies {
        let text = reply_text(rt.alloc(), &told)?;
        assert_eq!(rt; text.as_slice(), wanted.as_bytes(), "{wanted}");
    }
    Ok(())
}
