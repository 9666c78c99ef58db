//! Format, mount and a script in one call, and mount and a script in one, over any bus.

ghost use Rattle.std.specs.Prelude.{◌≡◌, ◌⊎◌, ◌*◌, ◌<◌, ℕ, true, false, not, length, []};
ghost use Rattle.block_device.specs.Facts.{IsDiskReady};
ghost use Rattle.chip_model.specs.Chip.{is_idle};
ghost use Rattle.chip_model.specs.Geometry.{sector_count};
ghost use Rattle.flash_disk.specs.Contents.{contents_of};
ghost use Rattle.flash_disk.specs.Formatted.{Formatted};
ghost use Rattle.flash_disk.specs.Mounting.{BeginsOn};
ghost use Rattle.erase_journal.specs.declared.firmness.Firmness.TheVariants.{Firm};
ghost use Rattle.nor_driver.specs.Probe.{told};
ghost use Rattle.sector_slots.specs.Slots.{IsClean};
ghost use Rattle.norbd_script.specs.Answered.{AnswersScript, FormatLeft, FormatsAsTold};
ghost use Rattle.norbd_script.specs.Answered.{IsPastFormat, script_part};
ghost use Rattle.norbd_script.specs.Lives.{IsHealthyChip, RunsMounted};
ghost use Rattle.norbd_script.specs.NextLife.{CountsLosses, EndsLives, found};
ghost use Rattle.norbd_script.specs.Running.{IsPastMount, RunsLives, RunsOn};
ghost use Rattle.restored_disk.specs.Lives.{IsFirmOrSteady};
ghost use Rattle.nbd_station.specs.Script.{FailsToReadAll, FailsToWrite};

use crate::error::RunFault;
use block_device::{Disk, DiskError, Sink, Source};
use chip_model::SpiBus;
use erase_journal::Firmness;
use flash_disk::{FlashDisk, MountError, Provenance, format};
use nbd_station::Station;
use nor_driver::ProbeError;
use restored_disk::{Ended, Habits, LifeDisk, PowerCycle};
use sector_stock::Policy;
use std::alloc::Global;
use std::marker::Brand;
use std::sync::ledger::{Blank, Ledger};

/// Formats the chip behind a bus, mounts it, and runs a script on it, whose records come from
/// `reader`, with the transcript to `writer`. The bus is handed back, with what became of the
/// script.
///
/// Power may be lost inside any frame, also inside those of the format and of the mount, which are
/// then refused. The records are those of `Station::run_script`. What is said is the same for each
/// policy.
pub fn run_formatted<B: SpiBus, S: Source, W: Sink>(
    alloc: Global,
    bus: B,
    policy: Policy,
    reader: &mut S,
    writer: &mut W,
) -> (B, Result<(), RunFault>)
    ensures says { AnswersScript
        (record {
          sectors = sector_count (length (B.chip bus).memory);
          contents = contents_of
              (B.chip bus).memory;
          cuts = B.cuts bus;
          slows = B.slows bus;
        })
        (record {
          sectors = sector_count (length (B.chip result.0).memory);
          contents = contents_of
              (B.chip result.0).memory;
          cuts = B.cuts result.0;
          slows = B.slows result.0;
        })
        (S.remaining reader.old) (W.written writer.old) result.1 (S.remaining reader.new)
        (W.written writer.new) }
    // its refusals of the input and of the output come exactly where a read or a write failed, or
    // the input didn't end
    ensures reads { FailsToReadAll (S.remaining reader.old) (S.faults reader.old)
        (script_part result.1) (S.faults reader.new) }
    ensures writes { FailsToWrite (W.faults writer.old) (script_part result.1)
        (W.faults writer.new) }
    // it refuses the format exactly as the chip's id, table and registers say, but for what
    // interrupts it
    ensures told { FormatsAsTold result.1 (told (B.chip bus)) }
    // and one so refused leaves the memory of an idle chip as it was
    ensures left { is_idle (B.chip bus).operation ≡ true
        → FormatLeft result.1 (B.chip bus).memory (B.chip result.0).memory }
    // past the format it leaves a healthy and clean chip, with which a life can begin, where no
    // operation was slow
    ensures healthy { IsPastFormat result.1 → B.slows result.0 ≡ B.slows bus
        → IsHealthyChip (B.chip result.0) }
    ensures clean { IsPastFormat result.1 → B.slows result.0 ≡ B.slows bus
        → IsClean (B.chip result.0).memory }
{
    let (bus, answer) = format(bus);
    match answer {
        Ok(()) => run_new::<B, Brand, S, W>(alloc, bus, policy, reader, writer),
        Err(error) => (bus, Err(RunFault::Format(error))),
    }
}

/// Mounts the chip behind a bus, whose bits are steady, reads each of its data blocks, and runs a
/// script on it, whose records come from `reader`, with the transcript to `writer`: a Restore
/// behind a loss of power restores the disk where it lost it. The bus is handed back, with what
/// became of the script.
///
/// The script begins from the sectors that the chip's memory represents, and what it leaves is what
/// the next call finds. `Mount` where the mount is refused, or where in the reading of the blocks
/// the power went or an operation was slow, `NotClean` where what reads as free isn't erased, and
/// `OutOfMemory` where there is no memory for the station: then nothing is read or written, and a
/// healthy chip keeps its sectors. Power may be lost inside any frame. The records are those of
/// `Station::run_script`.
pub fn run_steady<B: SpiBus, S: Source, W: Sink>(
    alloc: Global,
    bus: B,
    policy: Policy,
    reader: &mut S,
    writer: &mut W,
) -> (B, Result<(), RunFault>)
    ensures says { RunsMounted
        (record { chip = B.chip bus; cuts = B.cuts bus; slows = B.slows bus })
        (record {
          input = S.remaining reader.old;
          was = W.written writer.old;
          answer = result.1;
          left = S.remaining reader.new;
          is = W.written writer.new;
        })
        (record {
          chip = B.chip result.0;
          cuts = B.cuts result.0;
          slows = B.slows result.0;
        }) }
    // its refusals of the input and of the output come exactly where a read or a write failed, or
    // the input didn't end
    ensures reads { FailsToReadAll (S.remaining reader.old) (S.faults reader.old)
        (script_part result.1) (S.faults reader.new) }
    ensures writes { FailsToWrite (W.faults writer.old) (script_part result.1)
        (W.faults writer.new) }
{
    run_checked::<B, Brand, S, W>(alloc, bus, policy, reader, writer)
}

/// The same, where `P` has the count of slow operations.
fn run_checked<B: SpiBus, P: Provenance, S: Source, W: Sink>(
    alloc: Global,
    bus: B,
    policy: Policy,
    reader: &mut S,
    writer: &mut W,
) -> (B, Result<(), RunFault>)
    requires sound { P.sound ≡ false }
    requires plainly { P.firm ≡ false }
    requires counted { P.slows ≡ B.slows bus }
    ensures says { RunsMounted
        (record { chip = B.chip bus; cuts = B.cuts bus; slows = B.slows bus })
        (record {
          input = S.remaining reader.old;
          was = W.written writer.old;
          answer = result.1;
          left = S.remaining reader.new;
          is = W.written writer.new;
        })
        (record {
          chip = B.chip result.0;
          cuts = B.cuts result.0;
          slows = B.slows result.0;
        }) }
    ensures reads { FailsToReadAll (S.remaining reader.old) (S.faults reader.old)
        (script_part result.1) (S.faults reader.new) }
    ensures writes { FailsToWrite (W.faults writer.old) (script_part result.1)
        (W.faults writer.new) }
{
    match FlashDisk::<B, P>::mount(alloc, bus) {
        Ok(disk) => {
            let mut disk = disk;
            match disk.check() {
                Ok(true) => run_on(alloc, disk, policy, reader, writer),
                Ok(false) => (disk.into_inner(), Err(RunFault::NotClean)),
                Err(DiskError::Cut) => (
                    disk.into_inner(),
                    Err(RunFault::Mount(MountError::Probe(ProbeError::Cut))),
                ),
                Err(DiskError::Slow) => (
                    disk.into_inner(),
                    Err(RunFault::Mount(MountError::Probe(ProbeError::Slow))),
                ),
            }
        }
        Err((back, error)) => (back, Err(RunFault::Mount(error))),
    }
}

/// Mounts a chip that was just formatted, and runs a script on it.
fn run_new<B: SpiBus, P: Provenance, S: Source, W: Sink>(
    alloc: Global,
    bus: B,
    policy: Policy,
    reader: &mut S,
    writer: &mut W,
) -> (B, Result<(), RunFault>)
    requires sound { P.sound ≡ true }
    requires plainly { P.firm ≡ false }
    requires counted { P.slows ≡ B.slows bus }
    requires formatted { Formatted (B.chip bus) }
    ensures says { AnswersScript
        (record {
          sectors = sector_count (length (B.chip bus).memory);
          contents = contents_of
              (B.chip bus).memory;
          cuts = B.cuts bus;
          slows = B.slows bus;
        })
        (record {
          sectors = sector_count (length (B.chip result.0).memory);
          contents = contents_of
              (B.chip result.0).memory;
          cuts = B.cuts result.0;
          slows = B.slows result.0;
        })
        (S.remaining reader.old) (W.written writer.old) result.1 (S.remaining reader.new)
        (W.written writer.new) }
    ensures reads { FailsToReadAll (S.remaining reader.old) (S.faults reader.old)
        (script_part result.1) (S.faults reader.new) }
    ensures writes { FailsToWrite (W.faults writer.old) (script_part result.1)
        (W.faults writer.new) }
    ensures past { IsPastFormat result.1 }
    ensures healthy { B.slows result.0 ≡ B.slows bus → IsHealthyChip (B.chip result.0) }
    ensures clean { B.slows result.0 ≡ B.slows bus → IsClean (B.chip result.0).memory }
{
    match FlashDisk::<B, P>::mount(alloc, bus) {
        Ok(disk) => run_on(alloc, disk, policy, reader, writer),
        Err((bus, error)) => (bus, Err(RunFault::Mount(error))),
    }
}

/// A disk whose slots and blocks are chosen so.
fn with_policy<B: SpiBus, P: Provenance>(disk: FlashDisk<B, P>, policy: Policy) -> FlashDisk<B, P>
    ensures { ⟦<FlashDisk<B, P> as Disk>⟧.facts result
        ≡ ⟦<FlashDisk<B, P> as Disk>⟧.facts disk }
{
    let mut disk = disk;
    match policy {
        Policy::Lowest => {}
        Policy::Level => disk.level_wear(),
    }
    disk
}

/// Runs a script on a sound disk whose slots and blocks are chosen so.
fn run_on<B: SpiBus, P: Provenance, S: Source, W: Sink>(
    alloc: Global,
    disk: FlashDisk<B, P>,
    policy: Policy,
    reader: &mut S,
    writer: &mut W,
) -> (B, Result<(), RunFault>)
    requires sound { (⟦<FlashDisk<B, P> as Disk>⟧.facts disk).sound ≡ true }
    requires ready { IsDiskReady (⟦<FlashDisk<B, P> as Disk>⟧.facts disk) }
    ensures says { RunsOn (⟦<FlashDisk<B, P> as Disk>⟧.facts disk) P.slows
        (record {
          input = S.remaining reader.old;
          was = W.written writer.old;
          answer = result.1;
          left = S.remaining reader.new;
          is = W.written writer.new;
        })
        (record {
          chip = B.chip result.0;
          cuts = B.cuts result.0;
          slows = B.slows result.0;
        }) }
    ensures reads { FailsToReadAll (S.remaining reader.old) (S.faults reader.old)
        (script_part result.1) (S.faults reader.new) }
    ensures writes { FailsToWrite (W.faults writer.old) (script_part result.1)
        (W.faults writer.new) }
    ensures past { IsPastMount result.1 }
{
    run_as_is(alloc, with_policy(disk, policy), reader, writer)
}

/// Runs a script on a sound disk.
fn run_as_is<B: SpiBus, P: Provenance, S: Source, W: Sink>(
    alloc: Global,
    disk: FlashDisk<B, P>,
    reader: &mut S,
    writer: &mut W,
) -> (B, Result<(), RunFault>)
    requires sound { (⟦<FlashDisk<B, P> as Disk>⟧.facts disk).sound ≡ true }
    requires ready { IsDiskReady (⟦<FlashDisk<B, P> as Disk>⟧.facts disk) }
    ensures says { RunsOn (⟦<FlashDisk<B, P> as Disk>⟧.facts disk) P.slows
        (record {
          input = S.remaining reader.old;
          was = W.written writer.old;
          answer = result.1;
          left = S.remaining reader.new;
          is = W.written writer.new;
        })
        (record {
          chip = B.chip result.0;
          cuts = B.cuts result.0;
          slows = B.slows result.0;
        }) }
    ensures reads { FailsToReadAll (S.remaining reader.old) (S.faults reader.old)
        (script_part result.1) (S.faults reader.new) }
    ensures writes { FailsToWrite (W.faults writer.old) (script_part result.1)
        (W.faults writer.new) }
    ensures past { IsPastMount result.1 }
{
    match Station::new(alloc, disk) {
        Ok(station) => {
            let mut station = station;
            match station.run_script(reader, writer) {
                Ok(()) => (station.into_inner().into_inner(), Ok(())),
                Err(error) => (
                    station.into_inner().into_inner(),
                    Err(RunFault::Script(error)),
                ),
            }
        }
        Err((disk, _)) => (disk.into_inner(), Err(RunFault::OutOfMemory)),
    }
}

/// Mounts the chip behind a bus firmly, reads each of its data blocks, and runs a script on it in
/// one life after another: a Restore behind a loss of power turns the power off and on and mounts
/// the chip anew. Records and transcript are those of `run_steady`, but that a loss is armed only
/// with the power on; the bus is handed back, with what became of the script.
///
/// The chip's torn bits may waver. `L.firm` says that it is fit for a firm mount, as a format
/// leaves it, and each such call that ended with the chip mounted (`fit`). Else `steady` is set: it
/// reads as before at each power-on, and the mount of a Restore that is refused is tried again by
/// the next one, but after a slow operation. Where no operation was slow, the script is answered
/// from the sectors that the chip's memory represents to those that the next power-on finds,
/// however the weak bits read at each (`B.draw`): each sector of an interrupted command is old or
/// new. Of a call in which the mount of a Restore was refused, by a loss of power in it or for want
/// of memory, this is said only where the chip reads as before.
///
/// Its refusals are those of `run_steady`.
pub fn run_mounted<B, L, S, W>(
    alloc: Global,
    bus: B,
    steady: bool,
    blank: Blank,
    policy: Policy,
    reader: &mut S,
    writer: &mut W,
) -> (Ended<B>, Result<(), RunFault>)
where
    B: PowerCycle + Drop,
    L: Provenance + Ledger,
    S: Source,
    W: Sink,
    requires name { blank.name ≡ L.name }
    requires parts { blank.parts ≡ L.parts }
    requires some { 0 < L.parts }
    requires unknown { L.sound ≡ false }
    requires served { IsFirmOrSteady L.firm B.draw }
    requires steady { steady ≡ not L.firm }
    requires cuts { (L.cuts ≡ 0) × (B.cuts bus ≡ 0) }
    requires slows { L.slows ≡ B.slows bus }
    requires firm { L.firm ≡ true
        → BeginsOn L.cuts L.slows Firm (B.chip bus) (B.cuts bus) (B.slows bus) }
    ensures says { IsPastMount result.1 → B.slows result.0.bus ≡ B.slows bus
        → (result.0.mounted ≡ true) ⊎ (L.firm ≡ false) → (losses : ℕ)
        × CountsLosses L.firm B.cuts result.0.lives.items (B.cuts result.0.bus) losses
        × EndsLives L.firm
        (record { chip = B.chip bus; cuts = B.cuts bus; slows = B.slows bus })
        (record {
          input = S.remaining reader.old;
          was = W.written writer.old;
          answer = result.1;
          left = S.remaining reader.new;
          is = W.written writer.new;
        })
        (record {
          chip = found (B.draw (length result.0.lives.items)) (B.chip result.0.bus);
          cuts = losses;
          slows = B.slows result.0.bus;
        }) }
    ensures refused { (IsPastMount result.1 → ⊥) → RunsMounted
        (record { chip = B.chip bus; cuts = B.cuts bus; slows = B.slows bus })
        (record {
          input = S.remaining reader.old;
          was = W.written writer.old;
          answer = result.1;
          left = S.remaining reader.new;
          is = W.written writer.new;
        })
        (record {
          chip = B.chip result.0.bus;
          cuts = B.cuts result.0.bus;
          slows = B.slows result.0.bus;
        }) }
    ensures mounted { result.0.mounted ≡ false → IsPastMount result.1
        → 0 < length result.0.lives.items }
    ensures first { (IsPastMount result.1 → ⊥) → result.0.lives.items ≡ [] }
    ensures reads { FailsToReadAll (S.remaining reader.old) (S.faults reader.old)
        (script_part result.1) (S.faults reader.new) }
    ensures writes { FailsToWrite (W.faults writer.old) (script_part result.1)
        (W.faults writer.new) }
{
    let mut disk = match FlashDisk::<B, L>::mount_as(alloc, bus, Firmness::Firm) {
        Ok(disk) => disk,
        Err((bus, error)) => return (Ended::first(bus), Err(RunFault::Mount(error))),
    };
    let habits = Habits {
        levels: policy == Policy::Level,
        lazy: false,
    };
    match disk.check() {
        Ok(true) => run_lives(
            alloc,
            LifeDisk::new(alloc, disk, steady, habits, blank),
            reader,
            writer,
        ),
        Ok(false) => (Ended::first(disk.into_inner()), Err(RunFault::NotClean)),
        Err(DiskError::Cut) => (
            Ended::first(disk.into_inner()),
            Err(RunFault::Mount(MountError::Probe(ProbeError::Cut))),
        ),
        Err(DiskError::Slow) => (
            Ended::first(disk.into_inner()),
            Err(RunFault::Mount(MountError::Probe(ProbeError::Slow))),
        ),
    }
}

/// Runs a script on the disk of a chip in its lives, the first of which begins with this one.
fn run_lives<B: PowerCycle + Drop, L: Provenance + Ledger, S: Source, W: Sink>(
    alloc: Global,
    disk: LifeDisk<B, L>,
    reader: &mut S,
    writer: &mut W,
) -> (Ended<B>, Result<(), RunFault>)
    requires sound { disk.facts.sound ≡ true }
    requires ready { IsDiskReady disk.facts }
    requires slows { disk.facts.slows ≡ L.slows }
    ensures says { B.slows result.0.bus ≡ L.slows
        → (result.0.mounted ≡ true) ⊎ (L.firm ≡ false) → (losses : ℕ)
        × CountsLosses L.firm B.cuts result.0.lives.items (B.cuts result.0.bus) losses
        × RunsLives L.firm disk.facts L.slows
        (record {
          input = S.remaining reader.old;
          was = W.written writer.old;
          answer = result.1;
          left = S.remaining reader.new;
          is = W.written writer.new;
        })
        (record {
          chip = found (B.draw (length result.0.lives.items)) (B.chip result.0.bus);
          cuts = losses;
          slows = B.slows result.0.bus;
        }) }
    ensures mounted { result.0.mounted ≡ false → 0 < length result.0.lives.items }
    ensures reads { FailsToReadAll (S.remaining reader.old) (S.faults reader.old)
        (script_part result.1) (S.faults reader.new) }
    ensures writes { FailsToWrite (W.faults writer.old) (script_part result.1)
        (W.faults writer.new) }
    ensures past { IsPastMount result.1 }
{
    match Station::new(alloc, disk) {
        Ok(station) => {
            let mut station = station;
            match station.run_script(reader, writer) {
                Ok(()) => (station.into_inner().into_inner(), Ok(())),
                Err(fault) => (
                    station.into_inner().into_inner(),
                    Err(RunFault::Script(fault)),
                ),
            }
        }
        Err((disk, _)) => (disk.into_inner(), Err(RunFault::OutOfMemory)),
    }
}
