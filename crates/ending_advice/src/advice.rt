//! What the last lines of the program mean, and what can be done.

use std::io::ErrorKind;

/// What is said of a last line that begins so.
struct Advice {
    line: &'static str,
    text: &'static str,
}

/// A longer beginning stands before one that it begins with.
static ADVICE: [Advice; 29] = [
    Advice {
        line: "fault words",
        text: "these words are no command. The commands are format, dump, check, salvage, resize, run, nbd, \
            mirror and exercise: `man integrity` has their words, and so has docs/COMMANDS.md",
    },
    Advice {
        line: "fault key empty",
        text: "the key file has no byte; a key has 1 to 4096",
    },
    Advice {
        line: "fault key long",
        text: "the key file has more than 4096 bytes; a key has 1 to 4096",
    },
    Advice {
        line: "fault key",
        text: "the key file can't be read; nothing was done",
    },
    Advice {
        line: "fault script long",
        text: "the script has more than 16777216 bytes. The lines within these were run; the device was not closed, \
            and its next opening recovers it",
    },
    Advice {
        line: "fault script",
        text: "the script can't be read any further. The lines before were run; the device was not closed, and its \
            next opening recovers it",
    },
    Advice {
        line: "fault line ",
        text: "this line of the script is refused; the lines before it were run. `man integrity` has the lines that \
            there are. The device was not closed, and its next opening recovers it",
    },
    Advice {
        line: "fault disk",
        text: "a call of the disk failed. Open the image again only once the system holds nothing of it any more \
            (unmount, `blockdev --flushbufs`, a boot): the next opening recovers it",
    },
    Advice {
        line: "fault legs ",
        text: "the two images differ in how many blocks they have (the first and the third number), or in how many \
            bytes a block has (the second and the fourth): a mirror is of two that are alike",
    },
    Advice {
        line: "fault memory",
        text: "there is not enough memory for this image. A journal in journal mode wants as much memory as it has \
            bytes",
    },
    Advice {
        line: "fault image magic",
        text: "there is no superblock. The file was never formatted, or a format of it was cut: `integrity format` \
            makes a new image of it",
    },
    Advice {
        line: "fault image version ",
        text: "the superblock has a version that is not known; 1 to 5 are",
    },
    Advice {
        line: "fault image journal mac ",
        text: "the journal has a code of its own (integritysetup's --journal-integrity), which is not read here",
    },
    Advice {
        line: "fault image inline ",
        text: "the tags stand in the metadata of the disk's sectors (integritysetup's --integrity-inline), which is \
            not read here",
    },
    Advice {
        line: "fault image flags ",
        text: "the superblock has flags that are not known here",
    },
    Advice {
        line: "fault image interleave ",
        text: "the superblock is damaged: an area has 2^3 to 2^31 sectors of data",
    },
    Advice {
        line: "fault image block size ",
        text: "the superblock is damaged: a block has 1, 2, 4 or 8 sectors",
    },
    Advice {
        line: "fault image tag size ",
        text: "a tag has 1 to 32 bytes here, as SHA-256 and HMAC-SHA-256 make them",
    },
    Advice {
        line: "fault image sections ",
        text: "the superblock is damaged: a journal has a section at least",
    },
    Advice {
        line: "fault image provided ",
        text: "the superblock is damaged: the provided sectors are some whole blocks",
    },
    Advice {
        line: "fault image device too large ",
        text: "the disk has more than 2^48 sectors",
    },
    Advice {
        line: "fault image journal too large ",
        text: "the journal has more than 1048576 sectors; fewer sections would do (--sections)",
    },
    Advice {
        line: "fault image too small ",
        text: "the disk has fewer sectors (the first number) than the image wants (the second): it shrank, or it is \
            too small for this format",
    },
    Advice {
        line: "fault image bitmap too large ",
        text: "the bitmap wants more sectors (the first number) than the journal's place has (the second); larger \
            regions would do (--log2-blocks-per-bit)",
    },
    Advice {
        line: "fault image consent ",
        text: "blocks await new tags under a key, whatever they hold now: whoever changed them meanwhile would not be \
            found out. --integrity-legacy-recalculate consents",
    },
    Advice {
        line: "fault image number ",
        text: "a sector of the journal (its section, and its place there) has no commit number: the journal is \
            damaged. `integrity salvage` reads what stands in its place, and `run --mode R` too",
    },
    Advice {
        line: "fault image four numbers",
        text: "the journal is damaged. `integrity salvage` reads what stands in its place, and `run --mode R` too",
    },
    Advice {
        line: "fault image journal block ",
        text: "an entry of the journal names a sector that is none of a block: the journal is damaged. `integrity \
            salvage` reads what stands in its place, and `run --mode R` too",
    },
    Advice {
        line: "fault image journal tag ",
        text: "an entry of the journal has another tag than its data: another hash or key was meant, or the journal \
            is damaged. `integrity salvage` reads what stands in its place, and `run --mode R` too",
    },
];

/// How a last line begins by which an image is refused. Behind it stands why.
const IMAGE: &str = "fault image ";

/// The same of the second image of a mirror.
const SECOND: &str = "fault second ";

/// Whether a last line begins so, or tells of a second image what such a line tells of an image.
fn begins_so(line: &[u8], beginning: &str) -> bool {
    if line.starts_with(beginning.as_bytes()) {
        return true;
    }
    let Some(cause) = beginning.strip_prefix(IMAGE) else {
        return false;
    };
    match line.get(SECOND.len()..) {
        Some(told) => line.starts_with(SECOND.as_bytes()) && told.starts_with(cause.as_bytes()),
        None => false,
    }
}

/// The sentence for a command whose last line begins with these bytes, if there is one. `error` is what the system has
/// answered to the disk's last call that failed.
pub fn advice_on(line: &[u8], error: Option<ErrorKind>) -> Option<&'static str> {
    if line.starts_with(b"fault disk")
        && let Some(advice) = error.and_then(advice_on_error)
    {
        return Some(advice);
    }
    for advice in &ADVICE {
        if begins_so(line, advice.line) {
            return Some(advice.text);
        }
    }
    None
}

/// The sentence for a session of requests that ended with this status, if there is one: such a session prints no line.
/// `error` is what the system has answered to the disk's last call that failed.
pub fn advice_on_session(status: u8, error: Option<ErrorKind>) -> Option<&'static str> {
    match status {
        2 => Some(
            "the stream has a wrong magic in a request's place, or more than 1099511627776 bytes. The requests before \
                it were answered; the device was not closed, and its next opening recovers it",
        ),
        4 => advice_on(b"fault disk", error),
        5 => Some(
            "the requests can't be read any further. Those before were answered; the device was not closed, and its \
                next opening recovers it",
        ),
        6 => Some(
            "the replies can't be written: whoever reads them is gone. The device was not closed, and its next opening \
                recovers it",
        ),
        7 => Some(
            "there is not enough memory for a request. The device was not closed, and its next opening recovers it",
        ),
        _ => None,
    }
}

/// The sentence for an image that could not be opened, or a disk that can't be written.
fn advice_on_error(error: ErrorKind) -> Option<&'static str> {
    match error {
        ErrorKind::NotFound => Some(
            "there is no such file; `truncate -s SIZE FILE` makes one of a size",
        ),
        ErrorKind::PermissionDenied | ErrorKind::ReadOnlyFilesystem => {
            Some(
                "the image may not be read, or not be written, by this user or on this file system",
            )
        }
        ErrorKind::WouldBlock => {
            Some(
                "another run has the image. Those that only read it can share it; any other has it to itself",
            )
        }
        ErrorKind::ResourceBusy => {
            Some(
                "the block device is in use: it is mounted, swapped to, or another device stands on it",
            )
        }
        ErrorKind::InvalidInput => {
            Some("this is no file and no block device, so it has no sectors")
        }
        ErrorKind::StorageFull => {
            Some(
                "the file system of the image is full. Make room there, and open the image again: it is recovered",
            )
        }
        _ => None,
    }
}
