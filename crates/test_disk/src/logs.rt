//! Logs that are written here, by the format: cut short at each byte, with a bit wrong in each, and
//! with a checkpoint.

use block_device::{Disk, PlainDisk};
use disk_log::{Found, Refusal, Sum, read_log, replay};
use std::alloc::Global;
use std::test::*;

/// How many sectors the disk has.
const SECTORS: u32 = 8;

/// The bytes of an image, two blocks.
const IMAGE_LEN: usize = 8_192;

/// Commands: the first sector, how many, and the byte that fills them; with 0 they are zeroed.
const COMMANDS: [(u32, u32, u8); 5] = [
    (0, 1, 0x11),
    (3, 2, 0x22),
    (4, 1, 0x33),
    (0, 4, 0x00),
    (7, 1, 0x44),
];

/// Where the record of each ends, behind a head of 16 bytes: a head of 24, and 512 for each sector
/// that isn't zeroed. The first 8 bytes of the first are zeros.
const ENDS: [usize; 5] = [552, 1_600, 2_136, 2_160, 2_696];

/// What each sector is filled with after so many of the commands.
const AFTER: [[u8; 8]; 6] = [
    [0, 0, 0, 0, 0, 0, 0, 0],
    [0x11, 0, 0, 0, 0, 0, 0, 0],
    [0x11, 0, 0, 0x22, 0x22, 0, 0, 0],
    [0x11, 0, 0, 0x22, 0x33, 0, 0, 0],
    [0, 0, 0, 0, 0x33, 0, 0, 0],
    [0, 0, 0, 0, 0x33, 0, 0, 0x44],
];

/// The sum over pairs of words, by the rule of SQLite's file format, section 4.2.
fn summed(start: Sum, bytes: &[u8]) -> Sum {
    let (mut a, mut b) = start;
    for k in 0..bytes.len() / 8 {
        let p = &bytes[8 * k..8 * k + 8];
        a = a
            .wrapping_add(u32::from_le_bytes([p[0], p[1], p[2], p[3]]))
            .wrapping_add(b);
        b = b
            .wrapping_add(u32::from_le_bytes([p[4], p[5], p[6], p[7]]))
            .wrapping_add(a);
    }
    (a, b)
}

/// Appends two numbers.
fn push_pair(log: &mut Vec<u8>, pair: Sum) -> Result<(), Fail> {
    log.extend_from_slice(&pair.0.to_le_bytes())?;
    log.extend_from_slice(&pair.1.to_le_bytes())?;
    Ok(())
}

/// Appends a record to a log whose last one has the sum `before`.
fn push_record(
    alloc: Global,
    log: &mut Vec<u8>,
    front: (u32, u32, u32),
    body: &[u8],
    before: Sum,
) -> Result<Sum, Fail> {
    let mut head = Vec::new(alloc);
    push_pair(&mut head, (front.0, front.1))?;
    push_pair(&mut head, (front.2, 0))?;
    let sum = summed(summed(before, head.as_slice()), body);
    push_pair(&mut head, sum)?;
    log.extend_from_slice(head.as_slice())?;
    log.extend_from_slice(body)?;
    Ok(sum)
}

/// A log on an image with the sum `own`: the records of all commands, and the sum of the last.
fn commands_on(alloc: Global, own: Sum) -> Result<(Vec<u8>, Sum), Fail> {
    let mut log = b"NORBDLOG".to_vec(alloc)?;
    push_pair(&mut log, own)?;
    let mut sum = own;
    for (first, count, fill) in COMMANDS {
        let bytes = [fill; 4_096];
        let len = if fill == 0 { 0 } else { 512 * count as usize };
        let Some(body) = bytes.get(..len) else {
            return Err(Fail::new("more than eight sectors"));
        };
        let kind = if fill == 0 { 1 } else { 0 };
        sum = push_record(alloc, &mut log, (kind, first, count), body, sum)?;
    }
    Ok((log, sum))
}

/// An image that isn't of zeros alone.
fn image_of(alloc: Global) -> Result<Vec<u8>, Fail> {
    let mut image = vec![in alloc; 0u8; IMAGE_LEN]?;
    for (at, byte) in image.iter_mut().enumerate() {
        *byte = (at % 251) as u8;
    }
    Ok(image)
}

/// What fills a sector, all bytes of which are the same.
fn fill_of<D: Disk>(disk: &mut D, sector: u32) -> Result<u8, Fail> {
    let mut bytes = [0u8; 512];
    if sector >= disk.sectors() || disk.read(sector, &mut bytes).is_err() {
        return Err(Fail::new("a sector isn't read"));
    }
    if bytes.iter().any(|&byte| byte != bytes[0]) {
        return Err(Fail::new("a sector is half written"));
    }
    Ok(bytes[0])
}

/// Replays a log on a disk of zeros: the byte of each sector.
fn replayed(alloc: Global, log: &[u8]) -> Result<[u8; 8], Fail> {
    let mut disk = PlainDisk::new(alloc, SECTORS)?;
    if replay(&mut disk, log).is_err() {
        return Err(Fail::new("a disk in memory failed"));
    }
    let mut fills = [0u8; 8];
    for sector in 0..8u32 {
        fills[sector as usize] = fill_of(&mut disk, sector)?;
    }
    Ok(fills)
}

/// How many of the records end within so many bytes, and where the last of them ends.
fn whole_records(len: usize) -> (usize, usize) {
    let mut whole = (0, 16);
    for (k, &end) in ENDS.iter().enumerate() {
        if end <= len {
            whole = (k + 1, end);
        }
    }
    whole
}

/// How many bytes of records are found, where a log has records alone.
fn records_in(found: Result<Found, Refusal>) -> Option<usize> {
    match found {
        Ok(Found::Records { len, .. }) => Some(len),
        _ => None,
    }
}

#[test]
fn a_log_that_ends_at_any_byte_has_its_whole_records(rt: HostRuntime) -> Result<(), Fail> {
    let mut image = image_of(rt.alloc())?;
    let (log, _) = commands_on(rt.alloc(), summed((0, 0), image.as_slice()))?;
    assert_eq!(rt; log.len(), ENDS[4]);
    for most in 0..ENDS[4] + 1 {
        let Some(cut) = log.get(..most) else {
            return Err(Fail::new("a log that ends too early"));
        };
        let found = read_log(SECTORS, image.as_mut_slice(), cut);
        let (whole, end) = whole_records(most);
        if most < 25 {
            assert_eq!(rt; found, Ok(Found::Nothing), "{most}");
        } else {
            assert_eq!(rt; records_in(found), Some(end), "{most}");
        }
        assert_eq!(rt;
            Some(&replayed(rt.alloc(), cut)?),
            AFTER.get(whole),
            "{most}"
        );
    }
    assert_eq!(rt; image.as_slice(), image_of(rt.alloc())?.as_slice());
    Ok(())
}

#[test]
fn a_wrong_bit_ends_a_log_before_its_record(rt: HostRuntime) -> Result<(), Fail> {
    let mut image = image_of(rt.alloc())?;
    let (log, _) = commands_on(rt.alloc(), summed((0, 0), image.as_slice()))?;
    for at in 0..ENDS[4] {
        let mut bytes = log.as_slice().to_vec(rt.alloc())?;
        let Some(byte) = bytes.get_mut(at) else {
            return Err(Fail::new("a log that ends too early"));
        };
        *byte ^= 1 << (at % 8);
        let found = read_log(SECTORS, image.as_mut_slice(), bytes.as_slice());
        if at < 8 {
            assert_eq!(rt; found, Err(Refusal::Foreign), "{at}");
        } else if at < 16 {
            assert_eq!(rt; found, Err(Refusal::Another), "{at}");
        } else {
            let (whole, end) = whole_records(at);
            assert_eq!(rt; records_in(found), Some(end), "{at}");
            assert_eq!(rt;
                Some(&replayed(rt.alloc(), bytes.as_slice())?),
                AFTER.get(whole)
            );
        }
    }
    Ok(())
}

#[test]
fn a_log_of_another_image_is_refused(rt: HostRuntime) -> Result<(), Fail> {
    let mut image = image_of(rt.alloc())?;
    let (log, _) = commands_on(rt.alloc(), summed((0, 0), image.as_slice()))?;
    for at in 0..IMAGE_LEN {
        let Some(byte) = image.get_mut(at) else {
            return Err(Fail::new("a short image"));
        };
        *byte ^= 0x10;
        let found = read_log(SECTORS, image.as_mut_slice(), log.as_slice());
        assert_eq!(rt; found, Err(Refusal::Another), "{at}");
        let Some(byte) = image.get_mut(at) else {
            return Err(Fail::new("a short image"));
        };
        *byte ^= 0x10;
    }
    Ok(())
}

#[test]
fn a_checkpoint_counts_only_when_it_is_whole(rt: HostRuntime) -> Result<(), Fail> {
    let mut image = image_of(rt.alloc())?;
    let (mut log, sum) = commands_on(rt.alloc(), summed((0, 0), image.as_slice()))?;
    let mut meant = image_of(rt.alloc())?;
    for byte in meant.as_mut_slice().iter_mut().skip(4_096) {
        *byte = 0x77;
    }
    let mut body = Vec::new(rt.alloc());
    push_pair(&mut body, summed((0, 0), meant.as_slice()))?;
    push_pair(&mut body, (1, 0))?;
    body.extend_from_slice(&[0x77; 4_096])?;
    push_record(rt.alloc(), &mut log, (2, 0, 1), body.as_slice(), sum)?;
    assert_eq!(rt; log.len(), ENDS[4] + 24 + 8 + 4_104);
    for most in ENDS[4]..log.len() {
        let Some(cut) = log.get(..most) else {
            return Err(Fail::new("a log that ends too early"));
        };
        let found = read_log(SECTORS, image.as_mut_slice(), cut);
        assert_eq!(rt; records_in(found), Some(ENDS[4]), "{most}");
    }
    let found = read_log(SECTORS, image.as_mut_slice(), log.as_slice());
    assert_eq!(rt; found, Ok(Found::Checkpoint { at: ENDS[4] }));
    assert_eq!(rt; image.as_slice(), meant.as_slice());
    // it is found again over what was placed, and refused where another block is wrong
    let again = read_log(SECTORS, image.as_mut_slice(), log.as_slice());
    assert_eq!(rt; again, Ok(Found::Checkpoint { at: ENDS[4] }));
    let Some(byte) = image.get_mut(0) else {
        return Err(Fail::new("a short image"));
    };
    *byte ^= 1;
    let other = read_log(SECTORS, image.as_mut_slice(), log.as_slice());
    assert_eq!(rt; other, Err(Refusal::Another));
    Ok(())
}

/// Two sectors of zeros from sector 3 on, by hand, on an image of 8 zeros: the sums of the words 1,
/// 3, 2 and 0, by the rule of SQLite's file format, section 4.2.
const ZEROED: [u8; 40] = [
    b'N', b'O', b'R', b'B', b'D', b'L', b'O', b'G', 0, 0, 0, 0, 0, 0, 0, 0, 1, 0, 0, 0, 3, 0, 0, 0,
    2, 0, 0, 0, 0, 0, 0, 0, 7, 0, 0, 0, 11, 0, 0, 0,
];

#[test]
fn a_record_is_read_by_the_format(rt: HostRuntime) -> Result<(), Fail> {
    let found = read_log(SECTORS, &mut [0; 8], &ZEROED);
    assert_eq!(rt;
        found,
        Ok(Found::Records {
            len: 40,
            sum: (7, 11)
        })
    );
    // a record behind it goes on from its sum: the same bytes are none
    let mut twice = [0u8; 64];
    twice[..40].copy_from_slice(&ZEROED);
    twice[40..].copy_from_slice(&ZEROED[16..]);
    assert_eq!(rt;
        records_in(read_log(SECTORS, &mut [0; 8], &twice)),
        Some(40)
    );
    // sectors that the disk doesn't have
    let mut far = ZEROED;
    far[20] = 7;
    far[32] = 11;
    far[36] = 19;
    assert_eq!(rt; records_in(read_log(SECTORS, &mut [0; 8], &far)), Some(16));
    Ok(())
}
