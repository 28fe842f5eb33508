//! What the faults of the crates below are told as, and when consent is asked for.
use commit_id::ScanFault;
use hmac_tag::{Hash, Key};
use image_judging::{Consent, judge_consent};
use image_refusal::{CallFault, HeadFault, JournalFault, OpenFault};
use layout::GeomFault;
use sector_disk::{Failed, Memory};
use std::test::Fail;
use superblock::{Super, SuperFault};

/// A journal whose first section has a number of no commit.
const UNNUMBERED: JournalFault = JournalFault::Scan(ScanFault::NoNumber {
    section: 0,
    sector: 3,
    found: 1,
});

/// A disk of 7 sectors where 8 are wanted.
const TOO_SMALL: GeomFault = GeomFault::TooSmall { have: 7, need: 8 };

/// The fault of the first sector, as an opening tells it.
fn opening(fault: CallFault<HeadFault>) -> CallFault<OpenFault> {
    CallFault::from(fault)
}

#[test]
fn a_fault_from_below_keeps_its_cause(rt: HostRuntime) -> Result<(), Fail> {
    let memory: CallFault<HeadFault> = CallFault::from(Memory);
    let failed: CallFault<HeadFault> = CallFault::from(Failed);
    let magic: CallFault<HeadFault> = CallFault::from(SuperFault::Magic);
    let small: CallFault<HeadFault> = CallFault::from(TOO_SMALL);
    assert!(rt; matches!(opening(memory), CallFault::Memory));
    assert!(rt; matches!(opening(failed), CallFault::Disk));
    assert!(rt;
        matches!(
            opening(magic),
            CallFault::Refused(OpenFault::Head(HeadFault::Super(SuperFault::Magic)))
        )
    );
    assert!(rt;
        matches!(
            opening(small),
            CallFault::Refused(OpenFault::Head(HeadFault::Geom(GeomFault::TooSmall {
                have: 7,
                need: 8
            })))
        )
    );
    let refused: CallFault<JournalFault> = CallFault::from(UNNUMBERED);
    let told: CallFault<OpenFault> = CallFault::from(refused);
    assert!(rt;
        matches!(
            told,
            CallFault::Refused(OpenFault::Journal(JournalFault::Scan(_)))
        )
    );
    Ok(())
}

#[test]
fn consent_is_asked_where_a_block_is_to_be_recalculated_under_a_key(
    rt: HostRuntime,
) -> Result<(), Fail> {
    let keyed = Hash::Hmac(Key::from_bytes(rt.alloc(), b"Jefe")?);
    // The small image has 80 blocks of one sector.
    let rows = [
        (0xa, 0, true),
        (0xa, 79, true),
        (0xa, 80, false),
        (0x8, 0, false),
    ];
    for (flags, recalc_sector, asks) in rows {
        let fields = Super {
            version: 4,
            log2_interleave: 3,
            tag_size: 32,
            sections: 1,
            provided: 80,
            flags,
            log2_spb: 0,
            log2_region: 15,
            recalc_sector,
            salt: [0; 16],
        };
        let told = judge_consent(&fields, &keyed, Consent::Withheld);
        assert_eq!(rt;
            matches!(
                told,
                Err(CallFault::Refused(OpenFault::Consent { flags: 0xa }))
            ),
            asks,
            "from {recalc_sector}"
        );
        assert_eq!(rt; told.is_err(), asks, "from {recalc_sector}");
        assert!(rt; judge_consent(&fields, &keyed, Consent::Given).is_ok());
        assert!(rt; judge_consent(&fields, &Hash::Sha256, Consent::Withheld).is_ok());
    }
    Ok(())
}
