//! Chips whose memory is kept in a file: what the file holds, and when.

use chip_model::SpiBus;
use chip_simulator::{ImageBus, SimError};
use norbd_image::{ImageError, hold};
use std::fs;
use std::fs::{File, OpenOptions};
use std::test::*;

/// A frame whose answer doesn't matter.
fn send(bus: &mut impl SpiBus, frame: &[u8]) -> bool {
    bus.transact(frame, &mut [0]).is_ok()
}

/// The chip in a file.
fn chip_in(rt: HostRuntime, path: &str) -> Result<ImageBus<File>, Fail> {
    let bytes = hold(&rt, path)?.bytes(rt.alloc())?;
    let file = OpenOptions::new().read(true).write(true).open(&rt, path)?;
    Ok(ImageBus::over(bytes, file))
}

/// The chip in a new file of so many bytes 77h.
fn image_of(rt: HostRuntime, path: &str, size: usize) -> Result<ImageBus<File>, Fail> {
    let mut bytes = Vec::new(rt.alloc());
    bytes.resize(size, 0x77)?;
    fs::write(&rt, path, bytes.as_slice())?;
    chip_in(rt, path)
}

#[test]
fn the_file_follows_programs_and_erases(rt: HostRuntime) -> Result<(), Fail> {
    let mut bus = image_of(rt, "follows.img", 65_536)?;
    let frames: [&[u8]; 13] = [
        &[0x06],
        &[0x02, 0x00, 0x12, 0xFF, 0x70, 0x07],
        &[0x05],
        &[0x05],
        &[0x06],
        &[0x20, 0x00, 0x20, 0x00],
        &[0x05],
        &[0x05],
        &[0x02, 0x00, 0x00, 0x00, 0x00],
        &[0x06],
        &[0x01, 0x80],
        &[0x05],
        &[0x05],
    ];
    for frame in frames {
        assert!(rt; send(&mut bus, frame));
    }
    let file = fs::read(&rt, "follows.img")?;
    assert_eq!(rt; file.len(), 65_536);
    for (place, byte) in file.iter().enumerate() {
        let expected = if place == 0x12FF {
            0x70
        } else if place == 0x1200 {
            0x07
        } else if place >= 0x2000 && place < 0x3000 {
            0xFF
        } else {
            0x77
        };
        assert_eq!(rt; *byte, expected, "at {place}");
    }
    fs::remove_file(&rt, "follows.img")?;
    Ok(())
}

#[test]
fn the_file_follows_erases_of_64_kib(rt: HostRuntime) -> Result<(), Fail> {
    let mut bus = image_of(rt, "large.img", 196_608)?;
    for frame in [&[0x06][..], &[0xD8, 0x01, 0x80, 0x00], &[0x05], &[0x05]] {
        assert!(rt; send(&mut bus, frame));
    }
    let file = fs::read(&rt, "large.img")?;
    assert_eq!(rt; file.len(), 196_608);
    for (place, byte) in file.iter().enumerate() {
        let erased = place >= 0x10000 && place < 0x20000;
        assert_eq!(rt; *byte, if erased { 0xFF } else { 0x77 }, "at {place}");
    }
    fs::remove_file(&rt, "large.img")?;
    Ok(())
}

#[test]
fn power_that_comes_again_saves_what_completes(rt: HostRuntime) -> Result<(), Fail> {
    let mut bus = image_of(rt, "again.img", 65_536)?;
    assert!(rt; send(&mut bus, &[0x06]));
    assert!(rt; send(&mut bus, &[0x02, 0x00, 0x34, 0x56, 0x70]));
    assert_eq!(rt; fs::read(&rt, "again.img")?.get(0x3456), Some(&0x77));
    bus.power_on();
    assert_eq!(rt; fs::read(&rt, "again.img")?.get(0x3456), Some(&0x70));
    assert!(rt; send(&mut bus, &[0x06]));
    assert!(rt; send(&mut bus, &[0x20, 0x00, 0x30, 0x00]));
    assert!(rt; send(&mut bus, &[0x05]));
    bus.power_on();
    let file = fs::read(&rt, "again.img")?;
    assert_eq!(rt; file.len(), 65_536);
    for (place, byte) in file.iter().enumerate() {
        let erased = place >= 0x3000 && place < 0x4000;
        assert_eq!(rt; *byte, if erased { 0xFF } else { 0x77 }, "at {place}");
    }
    fs::remove_file(&rt, "again.img")?;
    Ok(())
}

#[test]
fn an_image_is_read(rt: HostRuntime) -> Result<(), Fail> {
    let mut bytes = Vec::new(rt.alloc());
    bytes.push(0x12)?;
    bytes.resize(65_535, 0x77)?;
    bytes.push(0x34)?;
    fs::write(&rt, "read.img", bytes.as_slice())?;
    let mut bus = chip_in(rt, "read.img")?;
    let mut ends = [0; 3];
    assert_eq!(rt; bus.transact(&[0x03, 0x00, 0xFF, 0xFE], &mut ends), Ok(()));
    assert_eq!(rt; ends, [0x77, 0x34, 0x12]);
    fs::remove_file(&rt, "read.img")?;
    Ok(())
}

#[test]
fn files_that_are_no_image(rt: HostRuntime) -> Result<(), Fail> {
    for size in [0, 70_000, 16_842_752] {
        let mut bytes = Vec::new(rt.alloc());
        bytes.resize(size, 0xFF)?;
        fs::write(&rt, "refused.img", bytes.as_slice())?;
        let read = hold(&rt, "refused.img")?.bytes(rt.alloc());
        let refused = matches!(read, Err(SimError::BadSize));
        assert!(rt; refused, "{size} bytes");
    }
    fs::remove_file(&rt, "refused.img")?;
    let missing = matches!(hold(&rt, "missing.img"), Err(ImageError::File(_)));
    assert!(rt; missing);
    Ok(())
}
