//! What a line finds: nothing, a chip, one of the layers on it, or a session alone.

use crate::came::Came;
use crate::chip::{self, Loss};
use crate::connections::{self, OnStation};
use crate::disk::{self, OnDisk};
use crate::driver::{self, OnDriver};
use crate::fault::Fault;
use crate::journal::{self, OnJournal};
use crate::map::{self, OnMap};
use crate::names::Names;
use crate::recorder::Recorder;
use crate::refusals::{of_map, of_mount, of_probe, of_recovery};
use crate::sessions::Pair;
use crate::slots::{self, OnSlots};
use crate::words::Words;
use crate::{layout, memory, table};
use block_device::Disk;
use chip_model::SpiBus;
use erase_journal::{Firmness, Journal};
use flash_disk::{FlashDisk, format};
use journal_slots::SectorSlots;
use nbd_station::Station;
use nor_driver::{Driver, Nor};
use sector_map::SectorMap;
use sector_slots::SlotCalls;
use std::alloc::Global;

/// A chip, one of the layers on it, or what needs none.
#[derive(Drop)]
enum Layer {
    Empty,
    Chip(Recorder),
    Driver(OnDriver),
    Journal(OnJournal),
    Slots(OnSlots),
    Map(OnMap),
    Disk(OnDisk),
    Station(OnStation),
    /// A table of parameters alone.
    Table(Vec<u8>),
    /// A session alone.
    Session(Pair),
}

/// How many bytes the records of an event find room for, where `room` says nothing else.
const ROOM: usize = 262_144;

/// What a line finds.
#[derive(Drop)]
pub(crate) struct Bench {
    layer: Layer,
    /// The memory that `keep` keeps.
    kept: Vec<u8>,
    room: usize,
}

impl Bench {
    /// Nothing.
    pub(crate) fn new(alloc: Global) -> Bench {
        Bench {
            layer: Layer::Empty,
            kept: Vec::new(alloc),
            room: ROOM,
        }
    }

    /// The chip, of which all layers are taken.
    fn take_chip(&mut self) -> Result<Recorder, Fault> {
        match std::mem::replace(&mut self.layer, Layer::Empty) {
            Layer::Empty => Err(Fault::NotUnderstood),
            Layer::Table(_) => Err(Fault::NotUnderstood),
            Layer::Session(_) => Err(Fault::NotUnderstood),
            Layer::Chip(chip) => Ok(chip),
            Layer::Driver(driver) => Ok(driver.into_inner()),
            Layer::Journal(journal) => Ok(journal.into_inner().into_inner()),
            Layer::Slots(slots) => Ok(slots.into_inner().into_inner().into_inner()),
            Layer::Map(map) => Ok(map.into_inner().into_inner()),
            Layer::Disk(disk) => Ok(disk.into_inner()),
            Layer::Station(station) => Ok(station.into_inner().into_inner()),
        }
    }

    /// Formats the chip.
    fn format(&mut self) -> Result<Came, Fault> {
        let (chip, answer) = format(self.take_chip()?);
        self.layer = Layer::Chip(chip);
        Ok(Came::Said(of_probe(answer)))
    }

    /// Puts a driver onto the chip.
    fn probe(&mut self) -> Result<Came, Fault> {
        match Driver::probe(self.take_chip()?) {
            Ok(driver) => {
                self.layer = Layer::Driver(driver);
                Ok(Came::Said("ok"))
            }
            Err((chip, error)) => {
                self.layer = Layer::Chip(chip);
                Ok(Came::Said(of_probe(Err(error))))
            }
        }
    }

    /// Recovers the journals of a chip that is probed; `slots` are put onto them.
    fn recover(&mut self, has_slots: bool) -> Result<Came, Fault> {
        let probed = self.probe()?;
        let Layer::Driver(driver) = std::mem::replace(&mut self.layer, Layer::Empty) else {
            return Ok(probed);
        };
        match Journal::recover(driver) {
            Ok(journal) => {
                self.layer = if has_slots {
                    Layer::Slots(SectorSlots::new(journal))
                } else {
                    Layer::Journal(journal)
                };
                Ok(Came::Said("ok"))
            }
            Err((driver, error)) => {
                self.layer = Layer::Driver(driver);
                Ok(Came::Said(of_recovery(error)))
            }
        }
    }

    /// Mounts the map of the sectors of a chip that is probed.
    fn map(&mut self, alloc: Global) -> Result<Came, Fault> {
        let probed = self.probe()?;
        let Layer::Driver(driver) = std::mem::replace(&mut self.layer, Layer::Empty) else {
            return Ok(probed);
        };
        match SectorMap::mount(alloc, driver) {
            Ok(map) => {
                self.layer = Layer::Map(map);
                Ok(Came::Said("ok"))
            }
            Err((driver, error)) => {
                self.layer = Layer::Driver(driver);
                Ok(Came::Said(of_map(error)))
            }
        }
    }

    /// Puts a disk onto the chip.
    fn mount(&mut self, alloc: Global, firmness: Firmness) -> Result<Came, Fault> {
        let chip = self.take_chip()?;
        let answer: Result<OnDisk, _> = FlashDisk::mount_as(alloc, chip, firmness);
        match answer {
            Ok(disk) => {
                self.layer = Layer::Disk(disk);
                Ok(Came::Said("ok"))
            }
            Err((chip, error)) => {
                self.layer = Layer::Chip(chip);
                Ok(Came::Said(of_mount(error)))
            }
        }
    }

    /// Puts a station onto the disk.
    fn start(&mut self, alloc: Global) -> Result<Came, Fault> {
        let Layer::Disk(disk) = std::mem::replace(&mut self.layer, Layer::Empty) else {
            return Err(Fault::NotUnderstood);
        };
        match Station::new(alloc, disk) {
            Ok(station) => {
                self.layer = Layer::Station(station);
                Ok(Came::Said("ok"))
            }
            Err(_) => Err(Fault::NoMemory),
        }
    }

    /// A line about the bytes of the chip, or its frames; all layers are taken off it.
    fn look(
        &mut self,
        alloc: Global,
        names: &Names,
        verb: &str,
        words: Words,
        wanted: &str,
    ) -> Result<Came, Fault> {
        let chip = self.take_chip()?;
        let came = match verb {
            "bytes" => memory::look(alloc, names, chip.bytes(), words, wanted)?,
            "count" => memory::count(chip.bytes(), words)?,
            "weak" => memory::look(alloc, names, chip.weak(), words, wanted)?,
            "same" => memory::same(alloc, names, self.kept.as_slice(), chip.bytes(), words)?,
            "frames" => {
                words.end()?;
                Came::Number(chip.frames())
            }
            "codes" => {
                words.end()?;
                chip::codes(alloc, &chip)?
            }
            _ => {
                words.end()?;
                self.kept.clear();
                self.kept.extend_from_slice(chip.bytes())?;
                Came::Said("ok")
            }
        };
        self.layer = Layer::Chip(chip);
        Ok(came)
    }

    /// Sets bytes of the chip, of which all layers are taken.
    fn set(&mut self, alloc: Global, names: &Names, words: Words) -> Result<Came, Fault> {
        let chip = self.take_chip()?;
        let weak = chip.weak().to_vec(alloc)?;
        let mut bytes = chip.into_memory();
        let came = memory::set(alloc, names, bytes.as_mut_slice(), words)?;
        self.layer = Layer::Chip(chip::chip_of(bytes, weak)?);
        Ok(came)
    }

    /// A power cycle with a draw of the weak bits; all layers are taken off the chip.
    fn draw(&mut self, alloc: Global, names: &Names, words: Words) -> Result<Came, Fault> {
        let mut chip = self.take_chip()?;
        let came = chip::draw(alloc, names, &mut chip, words)?;
        self.layer = Layer::Chip(chip);
        Ok(came)
    }

    /// The chip's bits waver from now on.
    fn waver(&mut self, alloc: Global) -> Result<Came, Fault> {
        let chip = self.take_chip()?;
        self.layer = Layer::Chip(chip::wavering(alloc, chip)?);
        Ok(Came::Said("ok"))
    }

    /// A new chip: of so many KiB, and of another byte than FFh where one is named.
    fn chip(&mut self, alloc: Global, mut words: Words) -> Result<Came, Fault> {
        let kib = words.number()?;
        let mut byte = 0xFF;
        if !words.is_empty() {
            words.expect("of")?;
            byte = words.byte()?;
        }
        words.end()?;
        self.layer = Layer::Chip(chip::filled(alloc, kib, byte)?);
        Ok(Came::Said("ok"))
    }

    /// A line of the layer that is there.
    fn on_layer(
        &mut self,
        alloc: Global,
        names: &Names,
        verb: &str,
        words: Words,
        wanted: &str,
    ) -> Result<Came, Fault> {
        match &mut self.layer {
            Layer::Empty => Err(Fault::NotUnderstood),
            Layer::Chip(chip) => chip::run(alloc, names, chip, verb, words, wanted),
            Layer::Driver(driver) => driver::run(alloc, names, driver, verb, words, wanted),
            Layer::Journal(journal) => journal::run(journal, verb, words),
            Layer::Slots(slots) => slots::run(alloc, names, slots, verb, words),
            Layer::Map(map) => map::run(alloc, names, map, verb, words),
            Layer::Table(bytes) => table::run(alloc, names, bytes, verb, words),
            Layer::Session(pair) => pair.run(alloc, names, verb, words),
            Layer::Disk(disk) => disk::run(alloc, disk, verb, words),
            Layer::Station(station) => connections::run(
                alloc, names, station, verb, words, self.room,
            ),
        }
    }

    /// Arms a loss of power in the layer that is there.
    pub(crate) fn arm(&mut self, alloc: Global, loss: Loss) -> Result<(), Fault> {
        match &mut self.layer {
            Layer::Empty | Layer::Table(_) | Layer::Session(_) => {
                return Err(Fault::NotUnderstood);
            }
            Layer::Journal(journal) => journal.arm(loss.count, loss.kind, loss.mask),
            Layer::Slots(slots) => slots.arm(loss.count, loss.kind, loss.mask),
            Layer::Map(map) => map.arm(loss.count, loss.kind, loss.mask),
            Layer::Chip(chip) => chip.arm(loss.count, loss.kind, loss.mask),
            Layer::Driver(driver) => driver.arm(loss.count, loss.kind, loss.mask),
            Layer::Disk(disk) => disk.arm(loss.count, loss.kind, loss.mask),
            Layer::Station(station) => connections::arm(alloc, station, loss)?,
        }
        Ok(())
    }

    /// A new table of parameters, of 256 bytes FFh.
    fn table(&mut self, alloc: Global) -> Result<Came, Fault> {
        let mut bytes = Vec::new(alloc);
        bytes.resize(256, 0xFF)?;
        self.layer = Layer::Table(bytes);
        Ok(Came::Said("ok"))
    }

    /// The table of parameters of the chip.
    fn own_table(&mut self, alloc: Global) -> Result<Came, Fault> {
        let mut chip = self.take_chip()?;
        self.layer = Layer::Table(chip::table_of(alloc, &mut chip)?);
        Ok(Came::Said("ok"))
    }

    /// A session without a chip, and what it says first.
    fn session(&mut self, alloc: Global, requests: bool, words: Words) -> Result<Came, Fault> {
        let Some(pair) = Pair::open(alloc, requests, words)? else {
            return Ok(Came::Said("no memory"));
        };
        let came = pair.greeting(alloc)?;
        self.layer = Layer::Session(pair);
        Ok(came)
    }

    /// A line that takes a chip, or the table of one, from layer to layer.
    fn climb(&mut self, alloc: Global, verb: &str) -> Result<Came, Fault> {
        match verb {
            "waver" => self.waver(alloc),
            "format" => self.format(),
            "probe" => self.probe(),
            "recover" => self.recover(false),
            "slots" => self.recover(true),
            "map" => self.map(alloc),
            "mount" => self.mount(alloc, Firmness::Steady),
            "mount-firmly" => self.mount(alloc, Firmness::Firm),
            "station" => self.start(alloc),
            "table" => self.table(alloc),
            "own-table" => self.own_table(alloc),
            _ => Err(Fault::NotUnderstood),
        }
    }

    /// A line that needs no layer: `chip`, `chip-of`, `session`, `requesting`, `room`, `sent`,
    /// `layout`. None where it is another.
    fn on_nothing(
        &mut self,
        alloc: Global,
        names: &Names,
        verb: &str,
        mut words: Words,
    ) -> Result<Option<Came>, Fault> {
        Ok(Some(match verb {
            "chip" => self.chip(alloc, words)?,
            "chip-of" => {
                let size = words.number()?;
                words.end()?;
                chip::of_size(alloc, size)?
            }
            "room" => {
                self.room = words.number()? as usize;
                words.end()?;
                Came::Said("ok")
            }
            "session" => self.session(alloc, false, words)?,
            "requesting" => self.session(alloc, true, words)?,
            "sent" => table::sent(alloc, names, words)?,
            "layout" => {
                let verb = words.word()?;
                layout::run(alloc, names, verb, words)?
            }
            _ => return Ok(None),
        }))
    }

    /// Runs a line: what came of it.
    pub(crate) fn run(
        &mut self,
        alloc: Global,
        names: &Names,
        line: &str,
        wanted: &str,
    ) -> Result<Came, Fault> {
        let mut words = Words::new(line);
        let verb = words.word()?;
        if let Some(came) = self.on_nothing(alloc, names, verb, words)? {
            return Ok(came);
        }
        match verb {
            "bytes" | "weak" | "count" | "same" | "keep" | "frames" | "codes" => {
                self.look(alloc, names, verb, words, wanted)
            }
            "set" => self.set(alloc, names, words),
            "draw" => self.draw(alloc, names, words),
            "waver"
            | "format"
            | "probe"
            | "recover"
            | "slots"
            | "map"
            | "mount"
            | "mount-firmly"
            | "station"
            | "table"
            | "own-table" => {
                words.end()?;
                self.climb(alloc, verb)
            }
            _ => self.on_layer(alloc, names, verb, words, wanted),
        }
    }
}
