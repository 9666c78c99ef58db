//! That no number of writes uses the journals up.

use crate::rows::check_bytes;
use crate::scripts::bytes_of;
use std::test::*;
use test_kit::chips::{count, formatted, set};

#[test]
fn ten_thousand_writes_are_answered(rt: HostRuntime) -> Result<(), Fail> {
    let mut memory = formatted(rt.alloc())?.into_inner();
    // 1,021 closed votes of the second journal for the first.
    set(memory.as_mut_slice(), 0x2400, 1_021, &[0xFC])?;
    let mut script = bytes_of(rt.alloc(), "START")?;
    let mut transcript = bytes_of(rt.alloc(), "STARTED")?;
    let event = bytes_of(rt.alloc(), "WRITE_6 66*512 TIDY")?;
    let answer = bytes_of(rt.alloc(), "WRITTEN ALL_DONE")?;
    for _ in 0..10_000u32 {
        script.extend_from_slice(event.as_slice())?;
        transcript.extend_from_slice(answer.as_slice())?;
    }
    script.extend_from_slice(bytes_of(rt.alloc(), "READ_6")?.as_slice())?;
    transcript.extend_from_slice(bytes_of(rt.alloc(), "DATA 66*512 DONE")?.as_slice())?;
    let left = check_bytes(
        &rt,
        rt.alloc(),
        "ten thousand writes",
        memory,
        script.as_slice(),
        transcript.as_slice(),
        Ok(()),
    )?;
    let places = [
        ("the first journal's votes", 0x1000, 0x1800, 0xFF, 2_048),
        ("its closed entries", 0x1800, 0x2000, 0xF8, 271),
        (
            "the second journal's votes for the third",
            0x2000,
            0x2400,
            0xFF,
            1_024,
        ),
        ("its votes for the first", 0x2400, 0x2800, 0xFC, 19),
        (
            "the third journal's votes for the first",
            0x3000,
            0x3400,
            0xFC,
            19,
        ),
        ("its votes for the second", 0x3400, 0x3800, 0xFC, 1),
    ];
    for (name, from, to, byte, wanted) in places {
        assert_eq!(rt; count(left.as_slice(), from, to, byte), wanted, "{name}");
    }
    Ok(())
}
