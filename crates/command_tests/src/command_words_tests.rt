//! Words and the commands that they are.

use command_words::{BlockSize, Interleave, TagSize, WordsFault, parse};
use std::alloc::{AllocError, Global};
use std::test::Fail;

/// Words that are a command, parted by `|`, and a part of what is shown of it.
///
/// Source: what clap 4 makes of such words without settings of its own, and the ends of the values.
static TAKEN: [(&str, &str); 48] = [
    (
        "run|I|--mode|D",
        "Run(Run { image: FileName { name: \"I\" }, mode: Direct, hash: Sha256, consent: Withheld })",
    ),
    ("run|--mode=J|I", "mode: Journal, hash: Sha256, consent"),
    (
        "run|I|--mode|B",
        "mode: Bitmap, hash: Sha256, consent: Withheld })",
    ),
    (
        "run|I|--integrity-legacy-recalculate|--mode|B",
        "mode: Bitmap, hash: Sha256, consent: Given })",
    ),
    (
        "run|I|--mode|J|--integrity-legacy-recalculate",
        "mode: Journal, hash: Sha256, consent: Given })",
    ),
    (
        "run|I|--mode|J|--integrity|hmac-sha256|--integrity-key-file|K",
        "hash: HmacSha256 { key_file: FileName { name: \"K\" } }",
    ),
    (
        "run|I|--mode|J|--integrity=hmac-sha256|--integrity-key-file=",
        "hash: HmacSha256 { key_file: FileName { name: \"\" } }",
    ),
    (
        "run|I|--mode|J|--integrity=hmac-sha256|--integrity-key-file=-K",
        "name: \"-K\"",
    ),
    ("run|I|--mode|J|--integrity|sha256", "hash: Sha256"),
    (
        "nbd|I|--mode|J",
        "Nbd(Nbd { image: FileName { name: \"I\" }, mode: Journal, hash: Sha256, consent: Withheld })",
    ),
    (
        "nbd|--mode=D|I|--integrity|hmac-sha256|--integrity-key-file|K",
        "mode: Direct, hash: HmacSha256 { key_file: FileName { name: \"K\" } }, consent: Withheld })",
    ),
    (
        "nbd|--integrity-legacy-recalculate|I|--mode|B",
        "mode: Bitmap, hash: Sha256, consent: Given })",
    ),
    (
        "nbd|--mode|J|--|-I",
        "Nbd(Nbd { image: FileName { name: \"-I\" }",
    ),
    (
        "mirror|I|S|--mode|J",
        "Mirror(Mirror { image: FileName { name: \"I\" }, second: FileName { name: \"S\" }, hash: Sha256, consent: Withheld })",
    ),
    (
        "mirror|--mode=J|I|--integrity|hmac-sha256|./I|--integrity-key-file|K",
        "second: FileName { name: \"./I\" }, hash: HmacSha256 { key_file: FileName { name: \"K\" } }",
    ),
    (
        "mirror|--integrity-legacy-recalculate|I|S|--mode|J",
        "hash: Sha256, consent: Given })",
    ),
    (
        "mirror|--mode|J|--|-I|-S",
        "image: FileName { name: \"-I\" }, second: FileName { name: \"-S\" }",
    ),
    ("dump|I", "Dump(Dump { image: FileName { name: \"I\" } })"),
    ("dump|-", "name: \"-\""),
    ("dump|", "name: \"\""),
    ("dump|a b\u{1}", "name: \"a b\\u{1}\""),
    ("dump|help", "name: \"help\""),
    ("dump|--|-I", "name: \"-I\""),
    ("dump|--|--", "name: \"--\""),
    ("dump|I|--", "name: \"I\""),
    (
        "check|I",
        "Check(Check { image: FileName { name: \"I\" }, hash: Sha256, checked: Cells })",
    ),
    ("check|--placed|I", "checked: Placed"),
    (
        "salvage|I",
        "Salvage(Salvage { image: FileName { name: \"I\" }, hash: Sha256 })",
    ),
    (
        "salvage|--integrity=hmac-sha256|I|--integrity-key-file|K",
        "hash: HmacSha256 { key_file: FileName { name: \"K\" } } })",
    ),
    (
        "resize|I",
        "Resize(Resize { image: FileName { name: \"I\" }, hash: Sha256 })",
    ),
    (
        "exercise|I|0|0",
        "Exercise(Exercise { image: FileName { name: \"I\" }, seed: 0, count: Within { number: 0 } })",
    ),
    (
        "exercise|I|18446744073709551615|1000000",
        "seed: 18446744073709551615, count: Within { number: 1000000 }",
    ),
    (
        "format|I",
        "tag_size: Within { number: 32 }, block_size: Bytes512",
    ),
    (
        "format|I",
        "interleave: Interleave { sectors: 32768 }, sections: Within { number: 4 }",
    ),
    (
        "format|I",
        "number: 15 }, salt: None, padding: Fixed, mode: Journal, wipe: Wiped })",
    ),
    (
        "format|I|--tag-size|1|--sections|1|--log2-blocks-per-bit|0",
        "tag_size: Within { number: 1 }",
    ),
    (
        "format|I|--tag-size|1|--sections|1|--log2-blocks-per-bit|0",
        "sections: Within { number: 1 }, log2_blocks_per_bit: Within { number: 0 }",
    ),
    (
        "format|I|--tag-size=32|--sections=1048576|--log2-blocks-per-bit=47",
        "sections: Within { number: 1048576 }, log2_blocks_per_bit: Within { number: 47 }",
    ),
    (
        "format|I|--interleave-sectors|8|--sector-size|512",
        "block_size: Bytes512, interleave: Interleave { sectors: 8 }",
    ),
    (
        "format|I|--interleave-sectors|2147483648|--sector-size|1024",
        "block_size: Bytes1024, interleave: Interleave { sectors: 2147483648 }",
    ),
    ("format|--sector-size|2048|I", "block_size: Bytes2048"),
    (
        "format|--sector-size|4096|I|--no-wipe|--integrity-legacy-padding",
        "block_size: Bytes4096",
    ),
    (
        "format|I|--no-wipe|--integrity-legacy-padding",
        "padding: Legacy, mode: Journal, wipe: Kept }",
    ),
    ("format|I|--mode=J", "mode: Journal, wipe: Wiped"),
    ("format|--mode|B|I|--no-wipe", "mode: Bitmap, wipe: Kept"),
    (
        "format|--recalculate|I",
        "mode: Journal, wipe: Recalculated",
    ),
    (
        "format|I|--no-wipe|--recalculate|--mode|B",
        "mode: Bitmap, wipe: Recalculated",
    ),
    (
        "format|I|--salt|000102030405060708090a0b0c0d0eFF",
        "salt: Some([0, 1, 2, 3, 4, 5, 6, 7, 8, 9, 10, 11, 12, 13, 14, 255])",
    ),
];

/// Words that are no command: one beyond each end, and what clap 4 refuses.
static REFUSED: [&str; 87] = [
    "run|I|--mode|X",
    "run|I|--mode|",
    "run|I|--mode",
    "run|I",
    "run|I|--mode|D|--mode|D",
    "run|I|--mode|D|K",
    "run|--mode|D",
    "--mode|D|run|I",
    "RUN|I|--mode|D",
    "ru|I|--mode|D",
    "run|I|--mod|D",
    "run|I|-m|D",
    "run|I|--mode|-D",
    "run|I|--mode|b",
    "run|I|--mode|S",
    "run|I|--integrity-legacy-recalculate",
    "run|I|--mode|B|--integrity-legacy-recalculate=yes",
    "run|I|--mode|B|--integrity-legacy-recalculate|--integrity-legacy-recalculate",
    "run|I|--mode|D|--integrity|sha1",
    "run|I|--mode|D|--integrity|hmac-sha256",
    "run|I|--mode|D|--integrity-key-file|K",
    "run|I|--mode|D|--integrity|sha256|--integrity-key-file|K",
    "run|I|--mode|-h",
    "nbd|I|--mode|R",
    "nbd|I|--mode|j",
    "nbd|I",
    "nbd|--mode|J",
    "nbd|I|--mode|J|10809",
    "nbd|I|--mode|J|--mode|J",
    "nbd|I|--mode|J|--integrity|hmac-sha256",
    "nbd|I|--mode|J|--help",
    "mirror|I|I|--mode|J",
    "mirror|I|--mode|J",
    "mirror|I|S|T|--mode|J",
    "mirror|I|S",
    "mirror|I|S|--mode|D",
    "mirror|I|S|--mode|j",
    "mirror|I|S|--mode|J|--mode|J",
    "mirror|I|S|--mode|J|--integrity|hmac-sha256",
    "dump|--|-h",
    "dump|I|--help",
    "dump|-V",
    "dump|--|--version",
    "dump|-h|I",
    "help",
    "help|dump",
    "dump",
    "dump|-I",
    "dump|I|J",
    "dump|I|--placed",
    "check|I|--placed=1",
    "check|I|--placed|--placed",
    "check|I|--integrity-legacy-recalculate",
    "check|I|--frob",
    "exercise|I|0",
    "exercise|I|0|1|2",
    "exercise|I|01|0",
    "exercise|I|+1|0",
    "exercise|I|-1|0",
    "exercise|I||0",
    "exercise|I|18446744073709551616|0",
    "exercise|I|0|1000001",
    "format|I|--tag-size|0",
    "format|I|--tag-size|33",
    "format|I|--sections|0",
    "format|I|--sections|1048577",
    "format|I|--log2-blocks-per-bit|48",
    "format|I|--sector-size|256",
    "format|I|--sector-size|8192",
    "format|I|--interleave-sectors|4",
    "format|I|--interleave-sectors|24",
    "format|I|--interleave-sectors|4294967296",
    "format|I|--salt|000102030405060708090a0b0c0d0e0",
    "format|I|--salt|000102030405060708090a0b0c0d0e0g",
    "format|I|--salt|",
    "format|I|--mode|D",
    "format|I|--mode|b",
    "format|I|--mode|B|--mode|B",
    "format|I|--recalculate=0",
    "format|I|--recalculate|--recalculate",
    "salvage|I|--placed",
    "salvage",
    "resize",
    "resize|I|512",
    "frob",
    "",
    "-",
];

/// The program's name, and these words.
fn words_of(alloc: Global, words: &str) -> Result<Vec<String>, AllocError> {
    let mut all = Vec::new(alloc);
    all.push(String::from_str(alloc, "integrity")?)?;
    for word in words.split('|') {
        all.push(String::from_str(alloc, word)?)?;
    }
    Ok(all)
}

/// What `Debug` shows of the command that these words are. Nothing where they are none.
fn shown(alloc: Global, words: &str) -> Result<Option<String>, Fail> {
    let words = words_of(alloc, words)?;
    match parse(alloc, words.as_slice()) {
        Ok(command) => Ok(Some(format!(in alloc; "{command:?}")?)),
        Err(WordsFault::Refused) => Ok(None),
        Err(fault) => Err(fault)?,
    }
}

#[test]
fn words_are_their_command(rt: HostRuntime) -> Result<(), Fail> {
    for (words, part) in &TAKEN {
        let shown = shown(rt.alloc(), words)?.ok_or("words of the table are refused")?;
        assert!(rt; shown.as_str().contains(*part), "{words}: {shown}");
    }
    for words in &REFUSED {
        assert!(rt; shown(rt.alloc(), words)?.is_none(), "{words}");
    }
    Ok(())
}

#[test]
fn values_are_what_they_are_made_of(rt: HostRuntime) -> Result<(), Fail> {
    assert!(rt; matches!(TagSize::new(4), Some(size) if size.number() == 4));
    assert!(rt;
        matches!(Interleave::new(16), Some(interleave) if interleave.sectors() == 16 && interleave.log2() == 4)
    );
    assert!(rt; BlockSize::Bytes4096.log2_sectors() == 3);
    assert!(rt; TagSize::new(33).is_none() && Interleave::new(24).is_none());
    Ok(())
}
