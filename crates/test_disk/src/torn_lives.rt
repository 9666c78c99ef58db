//! What the next life of a chip finds after a loss of power in its first one.

ghost use Rattle.std.specs.Prelude.{◌≡◌, ◌<◌, true, false};

use crate::first_lives;
use crate::level::read;
use crate::scripts::bytes_of;
use crate::unlucky::Unlucky;
use crate::waverer::Waverer;
use block_device::{FixedIn, FixedOut};
use chip_model::SpiBus;
use chip_simulator::SimChip;
use erase_journal::Firmness;
use flash_disk::{FlashDisk, Provenance, format};
use norbd_script::{RunFault, run_mounted};
use restored_disk::{OneLife, PowerCycle};
use sector_stock::Policy;
use std::alloc::Global;
use std::marker::Brand;
use std::sync::ledger::{Blank, Ledger};
use std::test::*;
use test_kit::chips::{count, filled};

/// How lives ended: with the bus, the answer, and how many bytes of the room the transcript takes.
type End<B> = (B, Result<(), RunFault>, usize);

/// Runs a script in the first lives of a chip; `None` where the format was refused.
fn lived<B: PowerCycle + Drop, L: Provenance + Ledger, O: Ledger>(
    alloc: Global,
    bus: B,
    script: &[u8],
    room: &mut [u8],
    blank: Blank,
    told: Blank,
) -> Option<End<B>>
    requires name { blank.name ≡ L.name }
    requires parts { blank.parts ≡ L.parts }
    requires some { 0 < L.parts }
    requires unknown { L.sound ≡ false }
    requires firm { L.firm ≡ true }
    requires cuts { (L.cuts ≡ 0) × (B.cuts bus ≡ 0) }
    requires slows { L.slows ≡ B.slows bus }
    requires told_name { told.name ≡ O.name }
    requires told_parts { told.parts ≡ O.parts }
    requires told_some { 0 < O.parts }
{
    let mut out = FixedOut::<O>::new(room, told);
    let mut reader = FixedIn::new(script);
    match first_lives::<B, L, _, _>(alloc, bus, blank, &mut reader, &mut out) {
        Some((ended, answer)) => Some((ended.bus, answer, out.bytes().len())),
        None => None,
    }
}

/// The same, of a chip whose bits read at each power-on in the script as before.
fn live(alloc: Global, chip: SimChip, script: &[u8], room: &mut [u8]) -> Option<End<SimChip>> {
    let bus = OneLife::new(chip);
    match lived::<OneLife<SimChip>, Brand, Brand>(
        alloc,
        bus,
        script,
        room,
        Blank::new(1),
        Blank::new(1),
    ) {
        Some((bus, answer, len)) => Some((bus.into_inner(), answer, len)),
        None => None,
    }
}

/// The same, of one whose weak bits are drawn at each power-on in the script.
fn waver(alloc: Global, chip: SimChip, script: &[u8], room: &mut [u8]) -> Option<End<SimChip>> {
    let bus = Waverer::new(chip);
    match lived::<Waverer, Brand, Brand>(alloc, bus, script, room, Blank::new(1), Blank::new(1)) {
        Some((bus, answer, len)) => Some((bus.into_inner(), answer, len)),
        None => None,
    }
}

/// The byte that sector 6 is full of after a power-on at which the weak bits read as those of
/// `draw`.
fn found(alloc: Global, mut chip: SimChip, draw: u8) -> Result<u8, Fail> {
    chip.arm_cut(0, 1, 0);
    chip.power_cycle(&[draw]);
    let mount: Result<FlashDisk<SimChip, Brand>, _> = FlashDisk::mount_as(
        alloc,
        chip,
        Firmness::Firm,
    );
    let Ok(mut disk) = mount else {
        return Err(Fail::new("not mounted"));
    };
    let bytes = read(&mut disk, 6)?;
    if count(&bytes, 0, 512, bytes[0]) != 512 {
        return Err(Fail::new("a torn sector"));
    }
    Ok(bytes[0])
}

/// The first write of a sector is four changes (docs/SECTORS.md): its descriptor, the two pages of
/// its bytes, and its commit; before them a firm disk makes its slot sure. The power goes in each
/// of all these. The power-on after the script finds the sector old or new, however the weak bits
/// read; new, where the write was acknowledged. Answers how often the power went in it.
fn lose_each(alloc: Global, draw: u8, script: &str, done: &str, lost: &str) -> Result<u32, Fail> {
    let script = bytes_of(alloc, script)?;
    let done = bytes_of(alloc, done)?;
    let lost = bytes_of(alloc, lost)?;
    let mut cuts = 0u32;
    for change in 1..400u32 {
        let mut chip = SimChip::wavering(filled(alloc, 0xA5)?, filled(alloc, 0)?)?;
        chip.arm_cut(change, 1, 0x0F);
        let mut room = [0u8; 1_024];
        let Some((chip, Ok(()), len)) = live(alloc, chip, script.as_slice(), &mut room) else {
            continue;
        };
        let byte = found(alloc, chip, draw)?;
        if room.get(..len) == Some(done.as_slice()) {
            if byte != 0x5A {
                return Err(Fail::new("an acknowledged write is lost"));
            }
            return Ok(cuts);
        }
        if room.get(..len) != Some(lost.as_slice()) || (byte != 0x5A && byte != 0x00) {
            return Err(Fail::new("another transcript, or neither old nor new"));
        }
        cuts = cuts.saturating_add(1);
    }
    Err(Fail::new("never done"))
}

#[test]
fn the_next_life_finds_the_sector_old_or_new(rt: HostRuntime) -> Result<(), Fail> {
    for draw in [0x00u8, 0xFF, 0x0F] {
        let script = "START WRITE_6 5A*512";
        let cuts = lose_each(rt.alloc(), draw, script, "STARTED WRITTEN", "STARTED LOST")?;
        assert!(rt; cuts >= 4);
    }
    Ok(())
}

/// A Restore behind the loss begins the next life.
#[test]
fn a_restore_begins_the_next_life(rt: HostRuntime) -> Result<(), Fail> {
    for draw in [0x00u8, 0xFF, 0x0F] {
        let script = "START WRITE_6 5A*512 RESTORE";
        let done = "STARTED WRITTEN ALL_DONE";
        let cuts = lose_each(rt.alloc(), draw, script, done, "STARTED LOST ALL_DONE")?;
        assert!(rt; cuts >= 4);
    }
    Ok(())
}

/// What came of a write of sector 6: the power went before it, or not at all; or in it, and the
/// next life read this byte there.
enum Written {
    NotBegun,
    Done,
    Lost(SimChip, u8),
}

/// Formats a chip, writes sector 6, and reads it in the next life, between which and the first one
/// the weak bits are drawn anew.
fn read_again(alloc: Global, chip: SimChip) -> Result<Written, Fail> {
    let script = bytes_of(alloc, "START WRITE_6 5A*512 RESTORE START READ_6")?;
    let mut room = [0u8; 2_048];
    let Some((chip, Ok(()), len)) = waver(alloc, chip, script.as_slice(), &mut room) else {
        return Ok(Written::NotBegun);
    };
    for (byte, text) in [
        (0x00u8, "STARTED LOST ALL_DONE STARTED DATA 00*512 DONE"),
        (0x5A, "STARTED LOST ALL_DONE STARTED DATA 5A*512 DONE"),
    ] {
        if room.get(..len) == Some(bytes_of(alloc, text)?.as_slice()) {
            return Ok(Written::Lost(chip, byte));
        }
    }
    let done = bytes_of(alloc, "STARTED WRITTEN ALL_DONE")?;
    if room.get(..done.len()) != Some(done.as_slice()) {
        return Err(Fail::new("another transcript"));
    }
    Ok(Written::Done)
}

/// The torn bits read otherwise in the next life (`Waverer`). It chooses between old and new, and
/// each later power-on finds what it chose.
#[test]
fn what_a_next_life_read_stays(rt: HostRuntime) -> Result<(), Fail> {
    for draw in [0x00u8, 0xFF, 0x0F, 0xF0] {
        let mut losses = 0u32;
        let mut is_done = false;
        for change in 1..400u32 {
            let mut chip = SimChip::wavering(filled(rt.alloc(), 0xA5)?, filled(rt.alloc(), 0)?)?;
            chip.arm_cut(change, 1, 0x0F);
            match read_again(rt.alloc(), chip)? {
                Written::NotBegun => {}
                Written::Done => {
                    is_done = true;
                    break;
                }
                Written::Lost(chip, byte) => {
                    assert_eq!(rt; found(rt.alloc(), chip, draw)?, byte);
                    losses = losses.saturating_add(1);
                }
            }
        }
        assert!(rt; is_done);
        assert!(rt; losses >= 4);
    }
    Ok(())
}

/// Runs a script on a chip that was just formatted, of which the mount behind the first loss is cut
/// in its second change; `None` where the format was refused.
fn cut_again<L: Provenance + Ledger, O: Ledger>(
    alloc: Global,
    chip: SimChip,
    script: &[u8],
    room: &mut [u8],
    blank: Blank,
    told: Blank,
) -> Option<(bool, Result<(), RunFault>, usize)>
    requires name { blank.name ≡ L.name }
    requires parts { blank.parts ≡ L.parts }
    requires some { 0 < L.parts }
    requires unknown { L.sound ≡ false }
    requires steady { L.firm ≡ false }
    requires cuts { L.cuts ≡ 0 }
    requires slows { L.slows ≡ ⟦<SimChip as SpiBus>⟧.slows chip }
    requires told_name { told.name ≡ O.name }
    requires told_parts { told.parts ≡ O.parts }
    requires told_some { 0 < O.parts }
{
    let mut out = FixedOut::<O>::new(room, told);
    let mut reader = FixedIn::new(script);
    let (bus, formatted) = format(Unlucky::new(chip, 2));
    match formatted {
        Ok(()) => {
            let (ended, answer) = run_mounted::<Unlucky, L, _, _>(
                alloc,
                bus,
                true,
                blank,
                Policy::Level,
                &mut reader,
                &mut out,
            );
            Some((ended.mounted, answer, out.bytes().len()))
        }
        Err(_) => None,
    }
}

/// The same, of a chip of which nothing is known.
fn cut(
    alloc: Global,
    chip: SimChip,
    script: &[u8],
    room: &mut [u8],
) -> Option<(bool, Result<(), RunFault>, usize)> {
    cut_again::<Brand, Brand>(alloc, chip, script, room, Blank::new(1), Blank::new(1))
}

/// Where the power goes in the mount of a Restore, the Restore is lost, and the next one mounts the
/// chip again: of a chip that reads as before nothing is lost.
#[test]
fn a_mount_that_was_cut_is_tried_again(rt: HostRuntime) -> Result<(), Fail> {
    let text = "START WRITE_6 5A*512 RESTORE RESTORE START READ_6";
    let script = bytes_of(rt.alloc(), text)?;
    let old = "STARTED LOST ALL_LOST ALL_DONE STARTED DATA 00*512 DONE";
    let old = bytes_of(rt.alloc(), old)?;
    let new = "STARTED LOST ALL_LOST ALL_DONE STARTED DATA 5A*512 DONE";
    let new = bytes_of(rt.alloc(), new)?;
    let done = bytes_of(rt.alloc(), "STARTED WRITTEN ALL_DONE ALL_DONE")?;
    let mut losses = 0u32;
    let mut is_done = false;
    for change in 1..400u32 {
        let mut chip = SimChip::new(filled(rt.alloc(), 0xA5)?)?;
        chip.arm_cut(change, 1, 0x0F);
        let mut room = [0u8; 2_048];
        let Some((mounted, Ok(()), len)) = cut(rt.alloc(), chip, script.as_slice(), &mut room)
        else {
            continue;
        };
        assert!(rt; mounted);
        if room.get(..done.len()) == Some(done.as_slice()) {
            is_done = true;
            break;
        }
        let told = room.get(..len);
        assert!(rt; told == Some(old.as_slice()) || told == Some(new.as_slice()));
        losses = losses.saturating_add(1);
    }
    assert!(rt; is_done);
    assert!(rt; losses >= 4);
    Ok(())
}
