//! What is told of images that can be mounted, as text, in JSON and as a picture.

use crate::reasons::patched;
use norbd_survey::{Json, Page, Picture, first_dirty};
use sector_survey::{Cleanness, Verdict, survey_image};
use std::process::Abort;
use std::test::*;

/// The page, the JSON and the picture of a chip with these patches.
fn texts<H>(rt: &H, patches: &[(usize, &'static [u8])]) -> Result<(String, String, String), Fail>
where
    H: Abort + AllocGlobal,
{
    let image = patched(rt, patches)?;
    if image.len() != 65_536 {
        return Err(Fail::from("another size"));
    }
    let Ok(report) = survey_image(rt.alloc(), image.as_slice()) else {
        return Err(Fail::from("no report"));
    };
    let Verdict::Mountable(layout) = report.verdict else {
        return Err(Fail::from("not mountable"));
    };
    let Some(blocks) = &report.blocks else {
        return Err(Fail::from("no blocks"));
    };
    let dirty = first_dirty(image.as_slice(), blocks.as_slice());
    let page = Page {
        layout,
        bytes: image.len(),
        counts: &report.counts,
        blocks: blocks.as_slice(),
    };
    let json = Json {
        report: &report,
        image: image.as_slice(),
        clean: dirty.is_none(),
        dirty,
        mended: false,
        log_bytes: 0,
    };
    let picture = Picture {
        blocks: blocks.as_slice(),
        colours: false,
    };
    Ok((
        format!(in rt.alloc(); "{page}")?,
        format!(in rt.alloc(); "{json}")?,
        format!(in rt.alloc(); "{picture}")?,
    ))
}

#[test]
fn a_formatted_chip_is_told(rt: HostRuntime) -> Result<(), Fail> {
    let (page, json, picture) = texts(&rt, &[])?;
    assert_eq!(rt;
        page.as_str(),
        "layout 2, 64 KiB, 16 blocks
journals: 0 entries used, 512 free; at least 1024 votes left
blocks: 12 plain, of these 12 wholly free, 0 void, 0 committed, 0 settled
blocks with a group: 0 live, 0 dead
slots: 84 free, 0 live, 0 dead
going on: no copying, no erase
"
    );
    assert_eq!(rt;
        json.as_str(),
        "{\"version\":1,\"verdict\":\"clean\",\"mended\":false,\"reason\":null,\"not_erased_at\":null,\"layout\":\"2\",\"bytes\":65536,\"sectors\":70,\"log_bytes\":0,\"free_entries\":512,\"least_votes\":1024,\"erasing\":false,\"blocks\":{\"plain\":12,\"wholly_free\":12,\"void\":0,\"committed\":0,\"settled\":0,\"groups\":0,\"dead_groups\":0,\"wrong\":0},\"slots\":{\"free\":84,\"live\":0,\"dead\":0}}\n"
    );
    assert_eq!(rt;
        picture.as_str(),
        "    0 SJJJ...........R
S superblock, J journal, . wholly free, R the reserve, V void, C committed,
0 to 7 live slots and none dead, a to h as many and some dead,
G a live group, D a dead one, ? corrupt
slots: 84 free, 0 live, 0 dead
0 live |######################################## 12
1 live | 0
2 live | 0
3 live | 0
4 live | 0
5 live | 0
6 live | 0
7 live | 0
"
    );
    Ok(())
}

/// Block 4 has a live slot and a dead one, block 5 two live ones; block 6 is the committed copy of
/// block 4, whose slots don't count; an entry of J0 is closed, and one byte of block 7 isn't
/// erased.
#[test]
fn a_chip_in_use_is_told(rt: HostRuntime) -> Result<(), Fail> {
    let (page, json, picture) = texts(
        &rt,
        &[
            (0x1800, &[0xF8, 9, 0, 0xFF]),
            (0x4010, &[0xFC, 0xFC, 1, 0, 0xF8, 0xFC, 2, 0]),
            (0x5010, &[0xFC, 0xFC, 3, 0, 0xFC, 0xFC, 4, 0]),
            (0x6004, &[0xFC, 0xFF, 4, 0]),
            (0x6010, &[0xFC, 0xFC, 1, 0]),
            (0x7FFF, &[0x7F]),
        ],
    )?;
    assert_eq!(rt;
        page.as_str(),
        "layout 2, 64 KiB, 16 blocks
journals: 1 entries used, 511 free; at least 1024 votes left
blocks: 11 plain, of these 9 wholly free, 0 void, 1 committed, 0 settled
blocks with a group: 0 live, 0 dead
slots: 74 free, 3 live, 0 dead
going on: a copying of block 4 into 6, committed, no erase
"
    );
    assert_eq!(rt;
        json.as_str(),
        "{\"version\":1,\"verdict\":\"not clean\",\"mended\":false,\"reason\":null,\"not_erased_at\":32767,\"layout\":\"2\",\"bytes\":65536,\"sectors\":70,\"log_bytes\":0,\"free_entries\":511,\"least_votes\":1024,\"erasing\":false,\"blocks\":{\"plain\":11,\"wholly_free\":9,\"void\":0,\"committed\":1,\"settled\":0,\"groups\":0,\"dead_groups\":0,\"wrong\":0},\"slots\":{\"free\":74,\"live\":3,\"dead\":0}}\n"
    );
    assert!(rt; picture.as_str().starts_with("    0 SJJJb2C........R\n"));
    Ok(())
}

/// One row: patches of a formatted chip, and what is found of its free slots and blocks.
fn is_found<H>(rt: &H, patches: &[(usize, &'static [u8])], wanted: Cleanness) -> Result<(), Fail>
where
    H: Abort + AllocGlobal,
{
    let image = patched(rt, patches)?;
    if image.len() != 65_536 {
        return Err(Fail::from("another size"));
    }
    let Ok(report) = survey_image(rt.alloc(), image.as_slice()) else {
        return Err(Fail::from("no report"));
    };
    assert_eq!(rt; report.cleanness, Some(wanted));
    Ok(())
}

/// What the rows of layout 2 find.
fn slots(slots: Option<bool>) -> Cleanness {
    Cleanness {
        slots,
        dirty_group: None,
    }
}

/// By layout 2 a wholly free block, and a free slot beside a live one, have to be erased; while
/// block 4 is copied into block 5 it isn't asked.
#[test]
fn free_slots_are_to_be_erased(rt: HostRuntime) -> Result<(), Fail> {
    is_found(&rt, &[], slots(Some(true)))?;
    is_found(&rt, &[(0x7FFF, &[0x7F])], slots(Some(false)))?;
    is_found(&rt, &[(0x4010, &[0xFC, 0xFC, 1, 0])], slots(Some(true)))?;
    is_found(
        &rt,
        &[(0x4010, &[0xFC, 0xFC, 1, 0]), (0x4400, &[0])],
        slots(Some(false)),
    )?;
    is_found(&rt, &[(0x5004, &[0xFE, 0xFF, 4, 0])], slots(None))
}

/// By layout 1 a block that reads as free has to be erased, also where a slot of layout 2 could be
/// read out of it; one that is being erased reads as erased.
#[test]
fn free_blocks_of_layout_1_are_to_be_erased(rt: HostRuntime) -> Result<(), Fail> {
    is_found(&rt, &[(8, &[1])], slots(Some(true)))?;
    is_found(
        &rt,
        &[(8, &[1]), (0x6010, &[0xFC, 0xFC, 1, 0])],
        Cleanness {
            slots: Some(true),
            dirty_group: Some(0x6010),
        },
    )?;
    is_found(
        &rt,
        &[
            (8, &[1]),
            (0x1800, &[0xFC, 6, 0]),
            (0x6010, &[0xFC, 0xFC, 1, 0]),
        ],
        slots(Some(true)),
    )
}

/// The colours of a terminal: cyan for the superblock and the journals, yellow where a slot is
/// dead, green where none is, magenta for a block that goes on, and grey for a free one.
#[test]
fn a_picture_has_colours_where_they_are_asked_for(rt: HostRuntime) -> Result<(), Fail> {
    let image = patched(
        &rt,
        &[
            (0x4010, &[0xFC, 0xFC, 1, 0, 0xF8, 0xFC, 2, 0]),
            (0x5010, &[0xFC, 0xFC, 3, 0, 0xFC, 0xFC, 4, 0]),
            (0x6004, &[0xFC, 0xFF, 4, 0]),
        ],
    )?;
    if image.len() != 65_536 {
        return Err(Fail::from("another size"));
    }
    let Ok(report) = survey_image(rt.alloc(), image.as_slice()) else {
        return Err(Fail::from("no report"));
    };
    let Some(blocks) = &report.blocks else {
        return Err(Fail::from("no blocks"));
    };
    let picture = Picture {
        blocks: blocks.as_slice(),
        colours: true,
    };
    let text = format!(in rt.alloc(); "{picture}")?;
    assert!(rt;
        text.as_str().starts_with(
            "    0 \u{1B}[36mS\u{1B}[0m\u{1B}[36mJ\u{1B}[0m\u{1B}[36mJ\u{1B}[0m\u{1B}[36mJ\u{1B}[0m\u{1B}[33mb\u{1B}[0m\u{1B}[32m2\u{1B}[0m\u{1B}[35mC\u{1B}[0m\u{1B}[90m.\u{1B}[0m"
        )
    );
    Ok(())
}
