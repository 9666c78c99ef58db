//! The corrupt cases of docs/LAYOUT.md, one by one, on a chip of 64 KiB that was just formatted,
//! and the line that is printed of each: the rule, the address, the bytes and what is allowed.

use norbd_image::formatted_image;
use norbd_survey::Reason;
use sector_survey::{Verdict, survey_image};
use std::process::Abort;
use std::test::*;

/// Bytes that are written over those of a formatted chip, from a place on.
type Patch = (usize, &'static [u8]);

/// The bytes of a formatted chip of 64 KiB with these patches.
pub(crate) fn patched<H>(rt: &H, patches: &[Patch]) -> Result<Vec<u8>, Fail>
where
    H: Abort + AllocGlobal,
{
    let Ok(mut image) = formatted_image(rt.alloc(), 64) else {
        return Err(Fail::from("no image"));
    };
    for (at, bytes) in patches {
        let mut place = *at;
        for byte in *bytes {
            if let Some(here) = image.get_mut(place) {
                *here = *byte;
            }
            place = place.saturating_add(1);
        }
    }
    Ok(image)
}

/// The reason that is printed of a chip with these patches.
fn reason<H>(rt: &H, patches: &[Patch]) -> Result<String, Fail>
where
    H: Abort + AllocGlobal,
{
    let image = patched(rt, patches)?;
    if image.len() != 65_536 {
        return Err(Fail::from("another size"));
    }
    let Ok(report) = survey_image(rt.alloc(), image.as_slice()) else {
        return Err(Fail::from("no report"));
    };
    match report.verdict {
        Verdict::NotFormatted => Ok(String::from_str(rt.alloc(), "not formatted")?),
        Verdict::Mountable(_) => Ok(String::from_str(rt.alloc(), "mountable")?),
        Verdict::Corrupt(finding) => {
            let reason = Reason {
                finding,
                image: image.as_slice(),
            };
            Ok(format!(in rt.alloc(); "{reason}")?)
        }
    }
}

/// A descriptor of a sector in each block: no block is wholly free.
const DEAD: &[u8] = &[0xFE];

/// A region of votes of which all are closed.
const CLOSED: &[u8] = &[0xFC; 1024];

#[test]
fn a_superblock_is_told(rt: HostRuntime) -> Result<(), Fail> {
    let told = reason(&rt, &[])?;
    assert_eq!(rt; told.as_str(), "mountable");
    let told = reason(&rt, &[(0, &[0x00])])?;
    assert_eq!(rt; told.as_str(), "not formatted");
    let told = reason(&rt, &[(14, &[0xFF])])?;
    assert_eq!(rt; told.as_str(), "not formatted");
    let told = reason(&rt, &[(8, &[0x03])])?;
    assert_eq!(rt;
        told.as_str(),
        "Superblock: 03 at 8h, FF at Fh; a layout is 02, or 01 with FF or FE at Fh"
    );
    let told = reason(&rt, &[(9, &[0x11])])?;
    assert_eq!(rt;
        told.as_str(),
        "Superblock: 11 00 0A 00 at 9h; a chip of this size has 10h blocks and Ah groups"
    );
    Ok(())
}

#[test]
fn votes_are_told(rt: HostRuntime) -> Result<(), Fail> {
    let told = reason(&rt, &[(0x2400, &[0x55])])?;
    assert_eq!(rt;
        told.as_str(),
        "Journals: the votes of J1 for the erase of J0 at 2400h: 55 at 2400h; a vote is FF, FE or FC"
    );
    let told = reason(&rt, &[(0x17FF, &[0xF8])])?;
    assert_eq!(rt;
        told.as_str(),
        "Journals: the votes of J0 for the erase of J2 at 1400h: F8 at 17FFh; a vote is FF, FE or FC"
    );
    let told = reason(&rt, &[(0x2401, &[0xFE, 0xFC, 0xFE])])?;
    assert_eq!(rt;
        told.as_str(),
        "Journals: the votes of J1 for the erase of J0 at 2400h: FE at 2401h and at 2403h; one vote is open at a time"
    );
    let told = reason(&rt, &[(0x2000, CLOSED)])?;
    assert_eq!(rt;
        told.as_str(),
        "Journals: the votes of J1 for the erase of J2 at 2000h: 0 of 1024 are unused; maintenance could take the last vote of a region"
    );
    // J0 is doomed, so its own votes don't count: with them alone closed the chip is mounted.
    let doomed: [Patch; 4] = [
        (0x2400, &[0xFE]),
        (0x3000, &[0xFE]),
        (0x1000, CLOSED),
        (0x2000, CLOSED),
    ];
    let told = reason(&rt, &doomed[..3])?;
    assert_eq!(rt; told.as_str(), "mountable");
    let told = reason(&rt, &doomed)?;
    assert_eq!(rt;
        told.as_str(),
        "Journals: the votes of J1 for the erase of J2 at 2000h: 0 of 1024 are unused; maintenance could take the last vote of a region"
    );
    Ok(())
}

#[test]
fn erases_of_journals_are_told(rt: HostRuntime) -> Result<(), Fail> {
    let told = reason(
        &rt,
        &[
            (0x2400, &[0xFE]),
            (0x3000, &[0xFE]),
            (0x3400, &[0xFE]),
            (0x1000, &[0xFE]),
        ],
    )?;
    assert_eq!(rt;
        told.as_str(),
        "Journals: FE at 2400h and at 3000h for the erase of J0, FE at 3400h and at 1000h for the erase of J1; one journal is erased at a time"
    );
    let told = reason(&rt, &[(0x2400, &[0xFE]), (0x3400, &[0xFE])])?;
    assert_eq!(rt;
        told.as_str(),
        "Journals: FE at 2400h for the erase of J0, FE at 3400h for that of J1; one journal is erased at a time"
    );
    let open: &[u8] = &[0xFC, 4, 0, 0xFF];
    let another: &[u8] = &[0xFC, 5, 0, 0xFF];
    let told = reason(&rt, &[(0x1800, open), (0x1804, open), (0x1808, another)])?;
    assert_eq!(rt;
        told.as_str(),
        "Journals: the entries of J0 FC 04 00 FF at 1800h and FC 05 00 FF at 1808h are open; one block is erased at a time"
    );
    let told = reason(&rt, &[(0x1800, open), (0x2400, &[0xFE])])?;
    assert_eq!(rt;
        told.as_str(),
        "Journals: the entry of J0 FC 04 00 FF at 1800h is open beside FE at 2400h for the erase of J0; one of them is open at a time"
    );
    Ok(())
}

#[test]
fn blocks_are_told(rt: HostRuntime) -> Result<(), Fail> {
    let told = reason(&rt, &[(0x4004, &[0xF0])])?;
    assert_eq!(rt;
        told.as_str(),
        "Data blocks: block 4, F0 FF FF FF at 4004h; the state is FF, FE, FC or F8"
    );
    let told = reason(&rt, &[(0xF004, &[0x00])])?;
    assert_eq!(rt;
        told.as_str(),
        "Data blocks: block 15, 00 FF FF FF at F004h; the state is FF, FE, FC or F8"
    );
    let told = reason(&rt, &[(0x4000, &[0xFC, 0xFC, 0, 0])])?;
    assert_eq!(rt;
        told.as_str(),
        "Data blocks: block 4, FC FC 00 00 at 4000h; on a chip of layout 2 a block begins with FF FF FF FF"
    );
    let told = reason(
        &rt,
        &[(0x4004, &[0xFC, 0xFF, 7, 0]), (0x6004, &[0xFC, 0xFF, 5, 0])],
    )?;
    assert_eq!(rt;
        told.as_str(),
        "Data blocks: block 4, FC FF 07 00 at 4004h, and block 6, FC FF 05 00 at 6004h; one block is committed at a time"
    );
    let told = reason(&rt, &[(0x4004, &[0xFC, 0xFF, 3, 0])])?;
    assert_eq!(rt;
        told.as_str(),
        "Data blocks: block 4, FC FF 03 00 at 4004h; block 3, which it names, is no other data block"
    );
    let told = reason(&rt, &[(0x4004, &[0xFC, 0xFF, 4, 0])])?;
    assert_eq!(rt;
        told.as_str(),
        "Data blocks: block 4, FC FF 04 00 at 4004h; block 4, which it names, is no other data block"
    );
    Ok(())
}

#[test]
fn a_chip_without_room_is_told(rt: HostRuntime) -> Result<(), Fail> {
    let full = [
        (0x4010, DEAD),
        (0x5010, DEAD),
        (0x6010, DEAD),
        (0x7010, DEAD),
        (0x8010, DEAD),
        (0x9010, DEAD),
        (0xA010, DEAD),
        (0xB010, DEAD),
        (0xC010, DEAD),
        (0xD010, DEAD),
        (0xE010, DEAD),
        (0xF010, DEAD),
    ];
    let told = reason(&rt, &full)?;
    assert_eq!(rt;
        told.as_str(),
        "Data blocks: no block from 4000h on is wholly free, nor can be made so"
    );
    let told = reason(&rt, &full[..11])?;
    assert_eq!(rt; told.as_str(), "mountable");
    Ok(())
}

#[test]
fn slots_are_told(rt: HostRuntime) -> Result<(), Fail> {
    let told = reason(&rt, &[(0x4010, &[0xFC, 0x00])])?;
    assert_eq!(rt;
        told.as_str(),
        "Data blocks: slot 0 of block 4, FC 00 FF FF at 4010h; the generation of a live slot is FC, FD, FE or FF"
    );
    let told = reason(&rt, &[(0xF028, &[0xFC, 0xFC, 70, 0])])?;
    assert_eq!(rt;
        told.as_str(),
        "Data blocks: slot 6 of block 15, FC FC 46 00 at F028h; the chip has no sector 70"
    );
    let told = reason(
        &rt,
        &[(0x4010, &[0xFC, 0xFC, 1, 0]), (0x5014, &[0xFC, 0xFE, 1, 0])],
    )?;
    assert_eq!(rt;
        told.as_str(),
        "Data blocks: slot 0 of block 4, FC FC 01 00 at 4010h, and slot 1 of block 5, FC FE 01 00 at 5014h; both hold sector 1, and neither generation is the other's next"
    );
    let told = reason(
        &rt,
        &[(0x4010, &[0xFC, 0xFC, 1, 0]), (0x5014, &[0xFC, 0xFD, 1, 0])],
    )?;
    assert_eq!(rt; told.as_str(), "mountable");
    let told = reason(
        &rt,
        &[
            (0x4010, &[0xFC, 0xFC, 1, 0]),
            (0x5014, &[0xFC, 0xFD, 1, 0]),
            (0x6018, &[0xFC, 0xFE, 1, 0]),
        ],
    )?;
    assert_eq!(rt;
        told.as_str(),
        "Data blocks: slot 1 of block 5, FC FD 01 00 at 5014h, slot 0 of block 4, FC FC 01 00 at 4010h, and slot 2 of block 6, FC FE 01 00 at 6018h; three slots hold sector 1"
    );
    Ok(())
}

/// A mixed chip: byte 8 is 01h, byte 15 FEh.
#[test]
fn a_sector_of_both_layouts_is_told(rt: HostRuntime) -> Result<(), Fail> {
    let told = reason(
        &rt,
        &[
            (8, &[0x01]),
            (15, &[0xFE]),
            (0x4000, &[0xFC, 0xFC, 0, 0]),
            (0x5010, &[0xFC, 0xFD, 2, 0]),
        ],
    )?;
    assert_eq!(rt;
        told.as_str(),
        "Layout 1, and mixed chips: slot 0 of block 5, FC FD 02 00 at 5010h, and slot 2 of block 4, FC FC 00 00 at 4000h; sector 2 is live in a slot and in a group"
    );
    Ok(())
}
