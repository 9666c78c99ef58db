//! Losses of power inside frames that look random, under a server whose clients write: what was
//! acknowledged is there at each start, and what wasn't is old or new.

ghost use Rattle.std.specs.Prelude.{◌≡◌, ◌*◌, None, IsFalse};
ghost use Rattle.std.specs.Thread.{IsSend, IsSync};
ghost use Rattle.nbd_wire.specs.Commands.{default_export};

use crate::bench::{Bench, Dice, Flaw};
use crate::cuts::formatted;
use block_device::Disk;
use chip_model::{NoAnswer, Programmer};
use chip_watch::WatchedBus;
use flash_disk::FlashDisk;
use nbd_durable::{Durable, Policy};
use nbd_history::Opened;
use nbd_share::{Chronicle, Gate, NoRecord, OneServer, Point, Row, Server, Shared};
use nbd_wire::Export;
use norbd_serve::{Connections, Listener, Log, OpenGate, ServeFault, Served, listen, serve};
use std::alloc::Global;
use std::fs::{Metadata, OpenFile};
use std::io::{Read, Write};
use std::marker::Brand;
use std::net::{Net, SocketAddr, TcpListener, TcpStream};
use std::process::Abort;
use std::sync::ledger::Blank;
use std::sync::{Mutex, Wait};
use std::test::*;
use std::thread::Threads;
use std::time::{Clock, Duration};
use std::{io, thread};

/// The losses of a run that end a server.
const LOSSES: u32 = 100;

/// The clients of a server, and the sectors that each of them writes.
const CLIENTS: usize = 2;

const OWN: u32 = 35;

/// The commands of a client before it goes.
const COMMANDS: u32 = 1_000;

/// The chip on the bench, which outlives its servers.
#[derive(Drop)]
struct Borrowed<'b, H> {
    rt: &'b H,
    bench: &'b Mutex<Bench>,
}

impl<H: Wait> Programmer for Borrowed<'_, H> {
    ghost exchanged = { λ _. None };

    fn exchange(&mut self, send: &[u8], recv: &mut [u8]) -> Result<(), NoAnswer> {
        self.bench.lock(self.rt).exchange(send, recv)
    }

    fn reopen(&mut self) -> bool {
        self.bench.lock(self.rt).reopen()
    }
}

type OnBench<'b, H> = FlashDisk<WatchedBus<Borrowed<'b, H>>, Brand>;

/// What a client wrote last and hasn't seen acknowledged.
#[derive(Clone, Copy, Drop)]
struct Asked {
    sector: u32,
    byte: u8,
}

/// What was acknowledged of each sector, all of whose bytes are the same; what wasn't; and counts.
#[derive(Drop)]
struct Told {
    bytes: Vec<u8>,
    asked: [Option<Asked>; CLIENTS],
    dice: Dice,
    acknowledged: u32,
    losses: u32,
}

/// A gate at which each passing takes a millisecond.
#[derive(Clone, Copy, Drop)]
struct Brief<'r, R: Clock> {
    clock: &'r R,
}

impl<'r, R: Clock> Gate for Brief<'r, R> {
    ghost passes = { λ gate after points. Unit {0} };

    fn pass(&mut self, _point: Point) {
        thread::sleep(self.clock, Duration::from_millis(1));
    }

    ghost none = { λ gate. tt };
}

/// A chip has no file to be synced.
#[derive(Drop)]
struct NoFile;

impl OpenFile for NoFile {
    fn metadata(&self) -> io::Result<Metadata> {
        Err(io::Error::from(io::ErrorKind::Unsupported))
    }

    fn set_len(&self, _size: u64) -> io::Result<()> {
        Err(io::Error::from(io::ErrorKind::Unsupported))
    }

    fn sync_all(&self) -> io::Result<()> {
        Err(io::Error::from(io::ErrorKind::Unsupported))
    }

    fn sync_data(&self) -> io::Result<()> {
        Err(io::Error::from(io::ErrorKind::Unsupported))
    }
}

/// The client flags, and GO `flash`.
const NEGOTIATION: [u8; 31] = [
    0, 0, 0, 3, 0x49, 0x48, 0x41, 0x56, 0x45, 0x4f, 0x50, 0x54, 0, 0, 0, 7, 0, 0, 0, 11, 0, 0, 0,
    5, 0x66, 0x6c, 0x61, 0x73, 0x68, 0, 0,
];

/// How long a client waits for what a server sends. One that connects while the listening socket is
/// shut down may seem connected for ever: Linux then sends it no RST.
const PATIENCE: u64 = 5;

/// Connects and negotiates: the greeting of 18 bytes and 86 bytes of replies come back.
fn begin<H: Net<Stream = TcpStream>>(rt: &H, addr: SocketAddr) -> io::Result<TcpStream> {
    let mut stream = TcpStream::connect(rt, addr)?;
    stream.set_read_timeout(Some(Duration::from_secs(PATIENCE)))?;
    let mut greeting = [0u8; 18];
    stream.read_exact(&mut greeting)?;
    stream.write_all(&NEGOTIATION)?;
    let mut replies = [0u8; 86];
    stream.read_exact(&mut replies)?;
    Ok(stream)
}

/// The head of a WRITE of 512 bytes without flags. Source: NBD proto.md.
fn write_head(cookie: u64, offset: u64) -> [u8; 28] {
    let mut head = [
        0x25, 0x60, 0x95, 0x13, 0, 0, 0, 1, 0, 0, 0, 0, 0, 0, 0, 0, 0, 0, 0, 0, 0, 0, 0, 0, 0, 0,
        2, 0,
    ];
    let cookie = cookie.to_be_bytes();
    let offset = offset.to_be_bytes();
    for k in 0..8usize {
        head[8 + k] = cookie[k];
        head[16 + k] = offset[k];
    }
    head
}

/// Sends a WRITE of one sector.
fn send(stream: &mut TcpStream, cookie: u64, asked: Asked) -> io::Result<()> {
    let offset = 512 * asked.sector as u64;
    stream.write_all(&write_head(cookie, offset))?;
    stream.write_all(&[asked.byte; 512])
}

/// Whether the next reply is that to this cookie, without an error.
fn is_answered(stream: &mut TcpStream, cookie: u64) -> bool {
    let mut head = [0u8; 16];
    if stream.read_exact(&mut head).is_err() {
        return false;
    }
    let mut wanted = [0x67, 0x44, 0x66, 0x98, 0, 0, 0, 0, 0, 0, 0, 0, 0, 0, 0, 0];
    wanted[8..].copy_from_slice(&cookie.to_be_bytes());
    head == wanted
}

impl Told {
    /// Draws what a client writes next, and sends it; false where the connection has ended.
    fn ask(&mut self, client: usize, stream: &mut TcpStream, cookie: u64) -> bool {
        let first = if client == 0 { 0 } else { OWN };
        let asked = Asked {
            sector: first + self.dice.below(OWN).min(OWN - 1),
            byte: (self.dice.below(256) % 256) as u8,
        };
        if let Some(place) = self.asked.get_mut(client) {
            *place = Some(asked);
        }
        send(stream, cookie, asked).is_ok()
    }

    /// Reads the reply to what a client wrote; false where there is none without an error.
    fn hear(&mut self, client: usize, stream: &mut TcpStream, cookie: u64) -> bool {
        let Some(Some(asked)) = self.asked.get(client).copied() else {
            return false;
        };
        if !is_answered(stream, cookie) {
            return false;
        }
        if let Some(place) = self.bytes.get_mut(asked.sector as usize) {
            *place = asked.byte;
        }
        if let Some(place) = self.asked.get_mut(client) {
            *place = None;
        }
        self.acknowledged = self.acknowledged.saturating_add(1);
        true
    }
}

/// Two clients write, each its own sectors, both at once, until a connection ends.
fn work<H: Net<Stream = TcpStream>>(rt: &H, addr: SocketAddr, told: &mut Told) {
    let Ok(mut one) = begin(rt, addr) else {
        return;
    };
    let Ok(mut other) = begin(rt, addr) else {
        return;
    };
    for number in 0..COMMANDS {
        let cookie = u64::from(number);
        let first = told.ask(0, &mut one, cookie);
        let second = told.ask(1, &mut other, cookie);
        let first = first && told.hear(0, &mut one, cookie);
        let second = second && told.hear(1, &mut other, cookie);
        if !first || !second {
            return;
        }
    }
}

/// The disk on the chip, after its power was turned on; None where it was lost again.
fn start<'b, H: Wait>(
    rt: &'b H,
    alloc: Global,
    bench: &'b Mutex<Bench>,
) -> Result<Option<OnBench<'b, H>>, Fail> {
    let mut programmer = Borrowed { rt, bench };
    programmer.reopen();
    let Ok(bus) = WatchedBus::open(alloc, programmer) else {
        return Ok(None);
    };
    let Ok(mut disk) = OnBench::<H>::mount(alloc, bus) else {
        return Ok(None);
    };
    match disk.check() {
        Ok(true) => Ok(Some(disk)),
        Ok(false) => Err(Fail::new("what reads as free isn't erased")),
        Err(_) => Ok(None),
    }
}

/// A sector's byte, where all of them are the same; None after a loss.
fn byte_of<D: Disk>(disk: &mut D, sector: u32) -> Result<Option<u8>, Fail> {
    let mut bytes = [0u8; 512];
    if sector >= disk.sectors() {
        return Err(Fail::new("no such sector"));
    }
    if disk.read(sector, &mut bytes).is_err() {
        return Ok(None);
    }
    if bytes == [bytes[0]; 512] {
        Ok(Some(bytes[0]))
    } else {
        Err(Fail::new("a sector of two writes"))
    }
}

/// What wasn't acknowledged is old or new, and stays what it is. False after a loss.
fn settle<D: Disk>(disk: &mut D, told: &mut Told) -> Result<bool, Fail> {
    for client in 0..CLIENTS {
        let Some(Some(asked)) = told.asked.get(client).copied() else {
            continue;
        };
        let Some(found) = byte_of(disk, asked.sector)? else {
            return Ok(false);
        };
        if let Some(place) = told.bytes.get_mut(asked.sector as usize) {
            if found != asked.byte && found != *place {
                return Err(Fail::new("neither old nor new"));
            }
            *place = found;
        }
        if let Some(place) = told.asked.get_mut(client) {
            *place = None;
        }
    }
    Ok(true)
}

/// Compares all sectors with what was acknowledged. False after a loss.
fn compare<D: Disk>(disk: &mut D, told: &Told) -> Result<bool, Fail> {
    for sector in 0..2 * OWN {
        let Some(found) = byte_of(disk, sector)? else {
            return Ok(false);
        };
        if told.bytes.get(sector as usize) != Some(&found) {
            return Err(Fail::new("an acknowledged write is lost"));
        }
    }
    Ok(true)
}

/// Serves the chip until the clients go or its power is lost, and tells whether it was.
fn serve_clients<L, H>(
    rt: &H,
    alloc: Global,
    disk: OnBench<'_, H>,
    sectors: u32,
    told: &mut Told,
    blank: Blank,
    opened: Opened<Row>,
) -> Result<bool, Fail>
where
    L: OneServer + Send + Sync,
    H: Abort
        + Threads
        + Wait
        + Sync
        + Clock
        + Log
        + Net<Listener = TcpListener, Stream = TcpStream>,
    H: 'static,
    requires sectors { L.export ≡ default_export sectors }
    requires name { blank.name ≡ L.name }
    requires parts { blank.parts ≡ L.parts }
    requires all { blank.parts ≡ 65537 }
    requires history { opened ≡ L.book }
    requires unsaid { IsFalse L.sound }
{
    if disk.sectors() != sectors {
        return Err(Fail::new("another size"));
    }
    let (keeping, hands) = opened.named::<L>();
    let shared = Shared::<_, NoRecord, L>::new(disk, Export::default_for(sectors), blank);
    let server = Server::new(Chronicle::new(shared, keeping));
    let listener = listen(rt, 0).expect(rt, "a port");
    let addr = listener.local_addr()?;
    let listener = Listener::Port(listener);
    let gates = vec![in alloc; OpenGate; CLIENTS]?;
    let connections = Connections::new(
        alloc,
        gates,
        hands,
        Some(CLIENTS as u32),
        Duration::from_secs(10),
    )?;
    let seen = &server;
    let durable = Durable::new(NoFile, Policy::Never);
    let durable = &durable;
    let served = thread::scope(
        thread::scope_env(),
        rt,
        move |scope| -> Result<Served<L>, ServeFault>
            requires send { IsSend L.row × IsSync L.row × IsSync H.row }
        {
            let Ok(clients) = scope.spawn(move || work(rt, addr, told)) else {
                return Err(ServeFault::NoThread);
            };
            let resting = Brief { clock: rt };
            let served = serve(
                rt,
                alloc,
                seen,
                durable,
                listener,
                connections,
                resting,
                None,
            );
            let _ = clients.join(rt);
            served
        },
    );
    match served {
        Ok(_) => Ok(false),
        Err(ServeFault::Lost) => Ok(true),
        Err(_) => Err(Fail::new("not served")),
    }
}

/// Serves the chip again and again, until so many servers have met a loss: with a keeper that
/// tidies whenever there is something to tidy, or lazily.
fn serve_lives<H>(rt: &H, seed: u64, lazy: bool) -> Result<(), Fail>
where
    H: Abort
        + AllocGlobal
        + Threads
        + Wait
        + Sync
        + Clock
        + Log
        + Net<Listener = TcpListener, Stream = TcpStream>,
    H: 'static,
{
    let alloc = rt.alloc();
    let bench = Mutex::new(Bench::new(formatted(alloc)?, Flaw::Cuts(Dice(seed))));
    let mut told = Told {
        bytes: vec![in alloc; 0u8; 2 * OWN as usize]?,
        asked: [None; CLIENTS],
        dice: Dice(seed.wrapping_add(100)),
        acknowledged: 0,
        losses: 0,
    };
    for _ in 0..1_000_000u32 {
        let Some(mut disk) = start(rt, alloc, &bench)? else {
            continue;
        };
        if !settle(&mut disk, &mut told)? {
            continue;
        }
        let is_last = told.losses >= LOSSES;
        if (is_last || told.losses % 16 == 0) && !compare(&mut disk, &told)? {
            continue;
        }
        if is_last {
            assert!(rt; told.acknowledged > LOSSES / 2);
            return Ok(());
        }
        if lazy {
            disk.tidy_lazily();
        }
        bench.lock(rt).arm();
        let sectors = disk.sectors();
        let lost = serve_clients::<Brand, _>(
            rt,
            alloc,
            disk,
            sectors,
            &mut told,
            Blank::new(65537),
            Opened::new(rt),
        )?;
        if lost {
            told.losses = told.losses.saturating_add(1);
        }
    }
    Err(Fail::new("fewer losses"))
}

#[test]
fn losses_under_an_eager_server_take_nothing(rt: HostRuntime) -> Result<(), Fail> {
    serve_lives(&rt, 1, false)
}

#[test]
fn losses_under_a_lazy_server_take_nothing(rt: HostRuntime) -> Result<(), Fail> {
    serve_lives(&rt, 2, true)
}
