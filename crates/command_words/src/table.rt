//! The commands that there are, and the options of each.
ghost use Rattle.std.specs.Prelude.{◌≡◌, map};
ghost use Rattle.command_words.specs.Table.{table};
ghost use Rattle.command_words.specs.Rows.{as_entry};

/// What an option takes.
#[derive(Clone, Copy, Debug, PartialEq, Eq)]
pub(crate) enum Takes {
    /// One value.
    Value,
    /// Nothing: it is a flag.
    Nothing,
}

/// An option.
pub(crate) struct OptionRow {
    /// Its word is this, behind `--`.
    pub(crate) name: &'static str,
    /// What it takes.
    pub(crate) takes: Takes,
}

/// A command.
pub(crate) struct CommandRow {
    /// Its word.
    pub(crate) name: &'static str,
    /// What its words are that are no options, in order.
    pub(crate) places: &'static [&'static str],
    /// Its options, in any order.
    pub(crate) options: &'static [OptionRow],
}

/// The place of the image.
pub(crate) const IMAGE: &str = "IMAGE";

/// The place of the image of a mirror's second leg.
pub(crate) const SECOND: &str = "SECOND";

/// The place of the number that decides an exercise.
pub(crate) const SEED: &str = "SEED";

/// The place of how many requests an exercise makes.
pub(crate) const COUNT: &str = "COUNT";

/// The hash of the tags.
///
/// Source: integritysetup(8), `--integrity`.
pub(crate) const INTEGRITY: &str = "integrity";

/// The file of the hash's key.
///
/// Source: integritysetup(8), `--integrity-key-file`; that the whole file is the key is own.
pub(crate) const KEY_FILE: &str = "integrity-key-file";

/// Where a write goes first; the mode that a new image is made for. Own.
pub(crate) const MODE: &str = "mode";

/// Tags under a key may be made anew of blocks whose bytes no tag vouches for.
///
/// Source: integritysetup(8), `--integrity-legacy-recalculate`.
pub(crate) const LEGACY_RECALCULATE: &str = "integrity-legacy-recalculate";

/// What stands in the places is checked. Own.
pub(crate) const PLACED: &str = "placed";

/// The size of a tag in bytes.
///
/// Source: integritysetup(8), `--tag-size`.
pub(crate) const TAG_SIZE: &str = "tag-size";

/// The size of a block in bytes.
///
/// Source: integritysetup(8), `--sector-size`.
pub(crate) const SECTOR_SIZE: &str = "sector-size";

/// The data of an area in sectors.
///
/// Source: integritysetup(8), `--interleave-sectors`.
pub(crate) const INTERLEAVE: &str = "interleave-sectors";

/// The sections of a journal. Own.
pub(crate) const SECTIONS: &str = "sections";

/// What a bit of a bitmap stands for, as a power of two. Own.
pub(crate) const BLOCKS_PER_BIT: &str = "log2-blocks-per-bit";

/// The salt of the tags. Own.
pub(crate) const SALT: &str = "salt";

/// The padding of tags of old.
///
/// Source: integritysetup(8), `--integrity-legacy-padding`.
pub(crate) const LEGACY_PADDING: &str = "integrity-legacy-padding";

/// The blocks are left as they are.
///
/// Source: integritysetup(8), `--no-wipe`.
pub(crate) const NO_WIPE: &str = "no-wipe";

/// The blocks are left as they are, and their tags are to be recalculated. Own.
pub(crate) const RECALCULATE: &str = "recalculate";

/// The table. Whatever comes to it is one row here, or one option in a row.
static COMMANDS: [CommandRow; 9] = [
    CommandRow {
        name: "format",
        places: &[IMAGE],
        options: &[
            OptionRow {
                name: INTEGRITY,
                takes: Takes::Value,
            },
            OptionRow {
                name: KEY_FILE,
                takes: Takes::Value,
            },
            OptionRow {
                name: TAG_SIZE,
                takes: Takes::Value,
            },
            OptionRow {
                name: SECTOR_SIZE,
                takes: Takes::Value,
            },
            OptionRow {
                name: INTERLEAVE,
                takes: Takes::Value,
            },
            OptionRow {
                name: SECTIONS,
                takes: Takes::Value,
            },
            OptionRow {
                name: BLOCKS_PER_BIT,
                takes: Takes::Value,
            },
            OptionRow {
                name: SALT,
                takes: Takes::Value,
            },
            OptionRow {
                name: LEGACY_PADDING,
                takes: Takes::Nothing,
            },
            OptionRow {
                name: MODE,
                takes: Takes::Value,
            },
            OptionRow {
                name: NO_WIPE,
                takes: Takes::Nothing,
            },
            OptionRow {
                name: RECALCULATE,
                takes: Takes::Nothing,
            },
        ],
    },
    CommandRow {
        name: "run",
        places: &[IMAGE],
        options: &[
            OptionRow {
                name: MODE,
                takes: Takes::Value,
            },
            OptionRow {
                name: INTEGRITY,
                takes: Takes::Value,
            },
            OptionRow {
                name: KEY_FILE,
                takes: Takes::Value,
            },
            OptionRow {
                name: LEGACY_RECALCULATE,
                takes: Takes::Nothing,
            },
        ],
    },
    CommandRow {
        name: "nbd",
        places: &[IMAGE],
        options: &[
            OptionRow {
                name: MODE,
                takes: Takes::Value,
            },
            OptionRow {
                name: INTEGRITY,
                takes: Takes::Value,
            },
            OptionRow {
                name: KEY_FILE,
                takes: Takes::Value,
            },
            OptionRow {
                name: LEGACY_RECALCULATE,
                takes: Takes::Nothing,
            },
        ],
    },
    CommandRow {
        name: "mirror",
        places: &[IMAGE, SECOND],
        options: &[
            OptionRow {
                name: MODE,
                takes: Takes::Value,
            },
            OptionRow {
                name: INTEGRITY,
                takes: Takes::Value,
            },
            OptionRow {
                name: KEY_FILE,
                takes: Takes::Value,
            },
            OptionRow {
                name: LEGACY_RECALCULATE,
                takes: Takes::Nothing,
            },
        ],
    },
    CommandRow {
        name: "dump",
        places: &[IMAGE],
        options: &[],
    },
    CommandRow {
        name: "check",
        places: &[IMAGE],
        options: &[
            OptionRow {
                name: INTEGRITY,
                takes: Takes::Value,
            },
            OptionRow {
                name: KEY_FILE,
                takes: Takes::Value,
            },
            OptionRow {
                name: PLACED,
                takes: Takes::Nothing,
            },
        ],
    },
    CommandRow {
        name: "salvage",
        places: &[IMAGE],
        options: &[
            OptionRow {
                name: INTEGRITY,
                takes: Takes::Value,
            },
            OptionRow {
                name: KEY_FILE,
                takes: Takes::Value,
            },
        ],
    },
    CommandRow {
        name: "resize",
        places: &[IMAGE],
        options: &[
            OptionRow {
                name: INTEGRITY,
                takes: Takes::Value,
            },
            OptionRow {
                name: KEY_FILE,
                takes: Takes::Value,
            },
        ],
    },
    CommandRow {
        name: "exercise",
        places: &[IMAGE, SEED, COUNT],
        options: &[],
    },
];

/// The commands.
pub(crate) fn commands() -> &'static [CommandRow]
    ensures { map as_entry result.now ≡ table }
{
    &COMMANDS
}
