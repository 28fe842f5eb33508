//! Where all lies, by the format's formulas and where the kernel put it.
use image_model::BytePlace;
use layout::{GeomFault, Geometry, best_provided};
use std::process::Abort;
use std::test::Fail;
use superblock::{Super, judge};

/// The fields of the small image: 256 sectors, interleave 8, one section.
const SMALL: Super = Super {
    version: 4,
    log2_interleave: 3,
    tag_size: 32,
    sections: 1,
    provided: 80,
    flags: 0x8,
    log2_spb: 0,
    log2_region: 15,
    recalc_sector: 0,
    salt: [0; 16],
};

/// What lies where on a disk of so many sectors.
#[derive(Clone, Copy)]
struct Row<'a> {
    name: &'a str,
    fields: Super,
    sectors: u64,
    sizes: Sizes,
    initial: u64,
    tag_run: u64,
    places: &'a [Place],
}

/// The bytes of an entry, the entries of a metadata sector and of a section, and a section's sectors.
#[derive(Clone, Copy, Debug, PartialEq)]
struct Sizes {
    entry: u64,
    per_sector: u64,
    entries: u64,
    sectors: u64,
}

/// Where a block lies: the sector where its data begin, and the sector and the byte where its tag does.
#[derive(Clone, Copy)]
struct Place {
    block: u64,
    data_at: u64,
    tag_at: BytePlace,
}

// The last block of each row but the kernel's is the last that the disk has room for.
/// Images of one section of journal and small areas.
const SMALL_IMAGES: [Row<'static>; 4] = [
    Row {
        name: "the small image",
        fields: SMALL,
        sectors: 256,
        sizes: Sizes {
            entry: 48,
            per_sector: 10,
            entries: 80,
            sectors: 88,
        },
        initial: 96,
        tag_run: 8,
        places: &[
            Place {
                block: 0,
                data_at: 104,
                tag_at: BytePlace {
                    sector: 96,
                    byte: 0,
                },
            },
            Place {
                block: 9,
                data_at: 121,
                tag_at: BytePlace {
                    sector: 112,
                    byte: 32,
                },
            },
            Place {
                block: 79,
                data_at: 255,
                tag_at: BytePlace {
                    sector: 240,
                    byte: 224,
                },
            },
        ],
    },
    Row {
        name: "one area, cut short",
        fields: Super {
            log2_interleave: 15,
            provided: 1952,
            ..SMALL
        },
        sectors: 4096,
        sizes: Sizes {
            entry: 48,
            per_sector: 10,
            entries: 80,
            sectors: 88,
        },
        initial: 96,
        tag_run: 2048,
        places: &[
            Place {
                block: 0,
                data_at: 2144,
                tag_at: BytePlace {
                    sector: 96,
                    byte: 0,
                },
            },
            Place {
                block: 1951,
                data_at: 4095,
                tag_at: BytePlace {
                    sector: 217,
                    byte: 480,
                },
            },
        ],
    },
    Row {
        name: "tags of 4 bytes",
        fields: Super {
            tag_size: 4,
            provided: 32,
            ..SMALL
        },
        sectors: 256,
        sizes: Sizes {
            entry: 24,
            per_sector: 21,
            entries: 168,
            sectors: 176,
        },
        initial: 184,
        tag_run: 8,
        places: &[Place {
            block: 31,
            data_at: 247,
            tag_at: BytePlace {
                sector: 232,
                byte: 28,
            },
        }],
    },
    Row {
        name: "blocks of 4096 bytes",
        fields: Super {
            log2_spb: 3,
            provided: 376,
            ..SMALL
        },
        sectors: 1024,
        sizes: Sizes {
            entry: 104,
            per_sector: 4,
            entries: 32,
            sectors: 264,
        },
        initial: 272,
        tag_run: 8,
        places: &[
            Place {
                block: 1,
                data_at: 296,
                tag_at: BytePlace {
                    sector: 288,
                    byte: 0,
                },
            },
            Place {
                block: 46,
                data_at: 1016,
                tag_at: BytePlace {
                    sector: 1008,
                    byte: 0,
                },
            },
        ],
    },
];

/// The largest areas and the longest journal.
const LARGE_IMAGES: [Row<'static>; 2] = [
    Row {
        name: "the largest areas on the largest disk",
        fields: Super {
            log2_interleave: 31,
            log2_region: 255,
            provided: 264_917_609_349_024,
            ..SMALL
        },
        sectors: 1 << 48,
        sizes: Sizes {
            entry: 48,
            per_sector: 10,
            entries: 80,
            sectors: 88,
        },
        initial: 96,
        tag_run: 134_217_728,
        places: &[Place {
            block: 264_917_609_349_023,
            data_at: 281_474_976_710_655,
            tag_at: BytePlace {
                sector: 281_473_080_885_337,
                byte: 480,
            },
        }],
    },
    Row {
        name: "the longest journal",
        fields: Super {
            sections: 11915,
            provided: 524_312,
            ..SMALL
        },
        sectors: 2_097_152,
        sizes: Sizes {
            entry: 48,
            per_sector: 10,
            entries: 80,
            sectors: 88,
        },
        initial: 1_048_528,
        tag_run: 8,
        places: &[Place {
            block: 524_311,
            data_at: 2_097_151,
            tag_at: BytePlace {
                sector: 2_097_136,
                byte: 224,
            },
        }],
    },
];

// These places were found in images that Linux 6.1 wrote, by the data and by the tags that they have.
/// Images of the kernel.
const KERNEL_IMAGES: [Row<'static>; 3] = [
    Row {
        name: "the kernel's, with tags of 20 bytes",
        fields: Super {
            log2_interleave: 5,
            tag_size: 20,
            provided: 320,
            flags: 0x18,
            ..SMALL
        },
        sectors: 512,
        sizes: Sizes {
            entry: 40,
            per_sector: 12,
            entries: 96,
            sectors: 104,
        },
        initial: 112,
        tag_run: 8,
        places: &[
            Place {
                block: 20,
                data_at: 140,
                tag_at: BytePlace {
                    sector: 112,
                    byte: 400,
                },
            },
            Place {
                block: 25,
                data_at: 145,
                tag_at: BytePlace {
                    sector: 112,
                    byte: 500,
                },
            },
            Place {
                block: 121,
                data_at: 265,
                tag_at: BytePlace {
                    sector: 232,
                    byte: 500,
                },
            },
            Place {
                block: 319,
                data_at: 511,
                tag_at: BytePlace {
                    sector: 473,
                    byte: 108,
                },
            },
        ],
    },
    Row {
        name: "the kernel's, with blocks of 2048 bytes",
        fields: Super {
            log2_interleave: 6,
            tag_size: 20,
            provided: 696,
            flags: 0x18,
            log2_spb: 2,
            ..SMALL
        },
        sectors: 1024,
        sizes: Sizes {
            entry: 64,
            per_sector: 7,
            entries: 56,
            sectors: 232,
        },
        initial: 240,
        tag_run: 8,
        places: &[
            Place {
                block: 5,
                data_at: 268,
                tag_at: BytePlace {
                    sector: 240,
                    byte: 100,
                },
            },
            Place {
                block: 20,
                data_at: 336,
                tag_at: BytePlace {
                    sector: 312,
                    byte: 80,
                },
            },
        ],
    },
    Row {
        name: "the kernel's, without a flag",
        fields: Super {
            version: 1,
            log2_interleave: 8,
            sections: 4,
            provided: 768,
            flags: 0,
            ..SMALL
        },
        sectors: 2048,
        sizes: Sizes {
            entry: 48,
            per_sector: 10,
            entries: 80,
            sectors: 88,
        },
        initial: 360,
        tag_run: 256,
        places: &[
            Place {
                block: 0,
                data_at: 616,
                tag_at: BytePlace {
                    sector: 360,
                    byte: 0,
                },
            },
            Place {
                block: 269,
                data_at: 1141,
                tag_at: BytePlace {
                    sector: 872,
                    byte: 416,
                },
            },
        ],
    },
];

#[test]
fn places_are_those_of_the_format(rt: HostRuntime) -> Result<(), Fail> {
    for row in &SMALL_IMAGES {
        lies_as_told(&rt, row)?;
    }
    for row in &LARGE_IMAGES {
        lies_as_told(&rt, row)?;
    }
    Ok(())
}

#[test]
fn places_are_those_of_the_kernel(rt: HostRuntime) -> Result<(), Fail> {
    for row in &KERNEL_IMAGES {
        lies_as_told(&rt, row)?;
    }
    Ok(())
}

/// The geometry of the row's fields is the row's.
fn lies_as_told(rt: &impl Abort, row: &Row) -> Result<(), Fail> {
    let name = row.name;
    judge(&row.fields)?;
    let g = Geometry::new(&row.fields, row.sectors)?;
    let shape = g.shape();
    let told = Sizes {
        entry: shape.entry,
        per_sector: shape.per_sector,
        entries: shape.entries,
        sectors: shape.sectors,
    };
    assert_eq!(rt; told, row.sizes, "{name}");
    assert_eq!(rt; g.sections(), row.fields.sections as u64, "{name}");
    assert_eq!(rt; g.section_at(0), 8, "{name}");
    assert_eq!(rt; g.initial(), row.initial, "{name}");
    assert_eq!(rt; g.tag_run(), row.tag_run, "{name}");
    let best = best_provided(&row.fields, row.sectors);
    assert_eq!(rt; best, Ok(row.fields.provided), "{name}");
    for place in row.places {
        assert!(rt; place.block < g.blocks(), "{name}");
        assert_eq!(rt; g.data_at(place.block), place.data_at, "{name}");
        assert_eq!(rt; g.tag_at(place.block), place.tag_at, "{name}");
    }
    Ok(())
}

#[test]
fn a_disk_without_room_for_eight_sectors_provides_none(rt: HostRuntime) -> Result<(), Fail> {
    let rows = [
        (SMALL, 512, Ok(208)),
        (SMALL, 112, Ok(8)),
        (
            SMALL,
            111,
            Err(GeomFault::TooSmall {
                have: 111,
                need: 112,
            }),
        ),
        (
            Super { flags: 0, ..SMALL },
            256,
            Err(GeomFault::TooSmall {
                have: 256,
                need: 360,
            }),
        ),
        (
            Super {
                sections: 11916,
                ..SMALL
            },
            256,
            Err(GeomFault::JournalTooLarge { sectors: 1_048_608 }),
        ),
        (
            SMALL,
            u64::MAX,
            Err(GeomFault::DeviceTooLarge { have: u64::MAX }),
        ),
    ];
    for (fields, sectors, provided) in rows {
        judge(&fields)?;
        assert_eq!(rt; best_provided(&fields, sectors), provided);
    }
    Ok(())
}

// The kernel has a bit for each region, in groups of 4096 bytes.
#[test]
fn regions_have_a_bitmap_that_fits_the_journal(rt: HostRuntime) -> Result<(), Fail> {
    // The given log2_region, the provided sectors, the region of block 79, the regions, the sectors of
    // their bitmap, the log2_region with which this fits 88 sectors, and the sectors that it takes then.
    let rows = [
        (15, 80, 0, 1, 8, 15, 8),
        (4, 80, 4, 5, 8, 4, 8),
        (255, 80, 0, 1, 8, 255, 8),
        (64, 80, 0, 1, 8, 64, 8),
        (0, 327_680, 79, 327_680, 80, 0, 80),
        (0, 327_688, 79, 327_688, 88, 0, 88),
        (0, 360_448, 79, 360_448, 88, 0, 88),
        (0, 360_456, 79, 360_456, 96, 1, 48),
    ];
    for (log2_region, provided, region, regions, bitmap_sectors, fitting, blanks) in rows {
        let fields = Super {
            log2_region,
            provided,
            ..SMALL
        };
        judge(&fields)?;
        let g = Geometry::new(&fields, 721_008)?;
        assert!(rt; 79 < g.blocks());
        assert_eq!(rt; g.region_of(79), region);
        assert_eq!(rt; g.regions(), regions);
        assert_eq!(rt; g.bitmap_sectors(), bitmap_sectors);
        assert_eq!(rt; g.fitting_log2_region(), fitting);
        assert_eq!(rt; g.blank_bound(), blanks);
    }
    Ok(())
}
