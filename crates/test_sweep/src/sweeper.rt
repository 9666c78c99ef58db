//! The sweep of a chip: the fixed script with a loss of power, and what comes after it.

use crate::chip::{Chip, OnSim, started, told};
use crate::failure::Failure;
use nbd_station::Station;
use std::alloc::Global;
use std::io;
use test_judge::{Event, Judge, Request, SECTORS, Seen, print_script};

/// How many restores in a row may be lost before one that is not.
const MOST_RESTORES: u32 = 1_000;

/// The room of what is told of an event: of some READs of all sectors.
const ROOM_BYTES: usize = 1_048_576;

/// A READ of all sectors by the client of connection 0.
const READ_ALL: Event = Event::Ask(0, Request::Read(0, SECTORS), 0);

/// The fixed script: all sectors are written, sector 0 eight times more, two others once more, the
/// first three are zeroed, the disk is tidied, and all is read.
const SCRIPT: [Event; 15] = [
    Event::Open(0),
    Event::Rest(0),
    Event::Ask(0, Request::Write(0, SECTORS, 1), 0),
    Event::Ask(0, Request::Write(0, 1, 2), 0),
    Event::Ask(0, Request::Write(0, 1, 3), 0),
    Event::Ask(0, Request::Write(0, 1, 4), 0),
    Event::Ask(0, Request::Write(0, 1, 5), 0),
    Event::Ask(0, Request::Write(0, 1, 6), 0),
    Event::Ask(0, Request::Write(0, 1, 7), 0),
    Event::Ask(0, Request::Write(0, 1, 8), 0),
    Event::Ask(0, Request::Write(0, 1, 9), 0),
    Event::Ask(0, Request::Write(6, 2, 10), 0),
    Event::Ask(0, Request::Trim(0, 4), 0),
    Event::Tidy,
    READ_ALL,
];

/// What is read once the power is back, twice with a restore between.
const REREAD: [Event; 4] = [Event::Open(0), READ_ALL, Event::Restore, READ_ALL];

/// A loss of power: in which frame of those that count, which count (0: all, 1: those that begin a
/// change), and the mask.
#[derive(Clone, Copy)]
pub struct Loss {
    pub count: u32,
    pub kind: u8,
    pub mask: u8,
}

/// How the power comes back after a loss.
#[derive(Clone, Copy)]
pub enum Return {
    /// By one restore.
    Whole,
    /// By a restore that is lost in its change of this number, if it has so many, and then a whole
    /// one.
    Second(u32),
    /// By restores, of which the first is lost in its first change, the next in its second, and so
    /// on, until one isn't.
    Staircase,
}

#[derive(Drop)]
pub struct Sweeper {
    alloc: Global,
    chip: Chip,
    pub memory: Vec<u8>,
    room: Vec<u8>,
    judge: Judge,
    /// The events of the last run, up to the first that was answered wrongly, and their records.
    events: Vec<Event>,
    script: Vec<u8>,
}

impl Sweeper {
    pub fn new(alloc: Global, chip: Chip) -> Result<Sweeper, Failure> {
        Ok(Sweeper {
            alloc,
            chip,
            memory: chip.memory(alloc)?,
            room: vec![in alloc; 0u8; ROOM_BYTES]?,
            judge: Judge::new(alloc)?,
            events: Vec::new(alloc),
            script: Vec::new(alloc),
        })
    }

    /// The events of the last run, up to the first that was answered wrongly.
    pub fn events(&self) -> &[Event] {
        self.events.as_slice()
    }

    /// Prints them as lines of bash.
    pub fn print(&self, rt: &impl Print) -> io::Result<()> {
        let name = self.chip.name();
        println!(rt; "# on the {name} chip")?;
        print_script(rt, self.events.as_slice(), self.script.as_slice())
    }

    /// A new station, of which nothing is told yet.
    fn begin(&mut self) -> Result<Station<OnSim>, Failure> {
        self.events.clear();
        self.script.clear();
        self.judge = Judge::new(self.alloc)?;
        started(self.alloc, self.chip, self.memory.as_slice())
    }

    /// Runs the fixed script on a new station, with a loss armed before its first event. Where that
    /// came, the power comes back, and all sectors are read, restored, and read again.
    pub fn run(&mut self, loss: Loss, back: Return) -> Result<Seen, Failure> {
        let mut station = self.begin()?;
        let Loss { count, kind, mask } = loss;
        self.play(&mut station, &[Event::Arm(count, kind, mask)])?;
        self.play(&mut station, &SCRIPT)?;
        if !self.judge.has_power {
            self.bring_back(&mut station, mask, back)?;
            self.play(&mut station, &REREAD)?;
        }
        Ok(self.judge.seen)
    }

    /// The first count of a kind that comes to no loss, found by halving. A wrong answer is passed
    /// over.
    pub fn first_without(&mut self, kind: u8) -> Result<u32, Failure> {
        let mut lost = 0u32;
        let mut first = 65_536u32;
        for _ in 0..16 {
            let count = lost.midpoint(first);
            let loss = Loss {
                count,
                kind,
                mask: 0,
            };
            match self.run(loss, Return::Whole) {
                Ok(seen) if seen.losses == 0 => first = count,
                Ok(_) => lost = count,
                Err(Failure::Told(_)) => lost = count,
                Err(failure) => return Err(failure),
            }
        }
        Ok(first)
    }

    /// The power comes back.
    fn bring_back(
        &mut self,
        station: &mut Station<OnSim>,
        mask: u8,
        back: Return,
    ) -> Result<(), Failure> {
        match back {
            Return::Whole => self.play(station, &[Event::Restore]),
            Return::Second(count) => {
                self.restore(station, count, mask)?;
                self.disarm(station, mask)?;
                if self.judge.has_power {
                    return Ok(());
                }
                self.play(station, &[Event::Restore])
            }
            Return::Staircase => self.climb(station, mask),
        }
    }

    fn climb(&mut self, station: &mut Station<OnSim>, mask: u8) -> Result<(), Failure> {
        for count in 1..MOST_RESTORES {
            self.restore(station, count, mask)?;
            if self.judge.has_power {
                return self.disarm(station, mask);
            }
        }
        Err(Failure::Endless)
    }

    /// A restore with a loss in its change of this number.
    fn restore(
        &mut self,
        station: &mut Station<OnSim>,
        count: u32,
        mask: u8,
    ) -> Result<(), Failure> {
        self.play(station, &[Event::Arm(count, 1, mask), Event::Restore])
    }

    fn disarm(&mut self, station: &mut Station<OnSim>, mask: u8) -> Result<(), Failure> {
        self.play(station, &[Event::Arm(0, 1, mask)])
    }

    /// Runs a script on a new station.
    pub fn run_all(&mut self, events: &[Event]) -> Result<Seen, Failure> {
        let mut station = self.begin()?;
        self.play(&mut station, events)?;
        Ok(self.judge.seen)
    }

    /// Runs events on a station, and judges what is told of them.
    fn play(&mut self, station: &mut Station<OnSim>, events: &[Event]) -> Result<(), Failure> {
        for event in events {
            self.step(station, *event)?;
        }
        Ok(())
    }

    /// Runs an event.
    fn step(&mut self, station: &mut Station<OnSim>, event: Event) -> Result<(), Failure> {
        let mut record = Vec::new(self.alloc);
        self.judge.record(event, &mut record)?;
        self.script.extend_from_slice(record.as_slice())?;
        if self.events.push(event).is_err() {
            return Err(Failure::NoMemory);
        }
        let told = told(station, record.as_slice(), self.room.as_mut_slice())?;
        match self.judge.judge(event, told) {
            Ok(()) => Ok(()),
            Err(wrong) => Err(Failure::Told(wrong)),
        }
    }
}
