//! Runs of `serve` on image files whose n-th write or sync fails, and which count their syncs, with
//! clients in another thread that send bytes written out by hand from NBD proto.md.
ghost use Rattle.norbd_line.specs.Line.{IsConns, IsPlace};

use block_device::{Failed, Sink};
use nbd_wire::MAX_LEN;
use norbd_image::{ImageFile, formatted_image};
use norbd_line::{Cause, Fault, Place, SyncPolicy, TidyPolicy};
use norbd_run::{Asked, Host, run_serve};
use norbd_serve::{Log, Notice};
use std::alloc::{Allocator, Global};
use std::fs::{Metadata, OpenFile, OpenOptions};
use std::io::{Read, Seek, SeekFrom, Write};
use std::net::{Ipv4Addr, Net, SocketAddr, TcpListener, TcpStream};
use std::os::unix::fs::FileExt;
use std::path::PathBuf;
use std::process::Abort;
use std::rt::Files;
use std::sync::Wait;
use std::sync::atomic::{AtomicU32, Ordering};
use std::test::*;
use std::thread::Threads;
use std::time::{Clock, Duration};
use std::{fs, io, thread};

/// The client flags, and GO `flash`.
const NEGOTIATION: [u8; 31] = [
    0, 0, 0, 3, 0x49, 0x48, 0x41, 0x56, 0x45, 0x4f, 0x50, 0x54, 0, 0, 0, 7, 0, 0, 0, 11, 0, 0, 0,
    5, 0x66, 0x6c, 0x61, 0x73, 0x68, 0, 0,
];

/// A text that a run tells.
#[derive(Drop)]
pub(crate) struct Told {
    pub(crate) text: Vec<u8>,
}

impl Sink for Told {
    ghost use Rattle.std.specs.Prelude.{None};

    ghost written = { λ told. None };

    ghost faults = { λ told. 0 };

    fn write(&mut self, bytes: &[u8]) -> Result<usize, Failed> {
        let _ = self.text.extend_from_slice(bytes);
        Ok(bytes.len())
    }
}

/// A file of which so many positioned writes and so many syncs are good; each later one fails.
#[derive(Drop)]
struct Worn<'r, F> {
    file: F,
    good_writes: &'r AtomicU32,
    good_syncs: &'r AtomicU32,
}

/// Counts one down, and whether there was one left.
fn takes_one(left: &AtomicU32) -> bool {
    let number = left.load(Ordering::SeqCst);
    if number == 0 {
        return false;
    }
    left.store(number - 1, Ordering::SeqCst);
    true
}

impl<F: Read> Read for Worn<'_, F> {
    fn read(&mut self, into: &mut [u8]) -> io::Result<usize> {
        self.file.read(into)
    }
}

impl<F: Write> Write for Worn<'_, F> {
    fn write(&mut self, bytes: &[u8]) -> io::Result<usize> {
        self.file.write(bytes)
    }

    fn flush(&mut self) -> io::Result<()> {
        self.file.flush()
    }
}

impl<F: Seek> Seek for Worn<'_, F> {
    fn seek(&mut self, to: SeekFrom) -> io::Result<u64> {
        self.file.seek(to)
    }
}

impl<F: OpenFile> OpenFile for Worn<'_, F> {
    fn metadata(&self) -> io::Result<Metadata> {
        self.file.metadata()
    }

    fn set_len(&self, size: u64) -> io::Result<()> {
        self.file.set_len(size)
    }

    fn sync_all(&self) -> io::Result<()> {
        self.file.sync_all()
    }

    fn sync_data(&self) -> io::Result<()> {
        if !takes_one(self.good_syncs) {
            return Err(io::Error::from(io::ErrorKind::Other));
        }
        self.file.sync_data()
    }

    fn try_clone(&self) -> io::Result<Self> {
        Ok(Worn {
            file: self.file.try_clone()?,
            good_writes: self.good_writes,
            good_syncs: self.good_syncs,
        })
    }
}

impl<F: ImageFile> ImageFile for Worn<'_, F> {
    fn claim(&self) -> io::Result<bool> {
        self.file.claim()
    }
}

impl<F: FileExt> FileExt for Worn<'_, F> {
    fn read_at(&self, into: &mut [u8], offset: u64) -> io::Result<usize> {
        self.file.read_at(into, offset)
    }

    fn write_at(&self, bytes: &[u8], offset: u64) -> io::Result<usize> {
        if !takes_one(self.good_writes) {
            return Err(io::Error::from(io::ErrorKind::StorageFull));
        }
        self.file.write_at(bytes, offset)
    }
}

/// A system whose files are worn.
#[derive(Drop)]
struct Wearing<'r, R> {
    rt: &'r R,
    good_writes: &'r AtomicU32,
    good_syncs: &'r AtomicU32,
}

impl<'r, R> Wearing<'r, R> {
    fn new(rt: &'r R, good_writes: &'r AtomicU32, good_syncs: &'r AtomicU32) -> Wearing<'r, R> {
        Wearing {
            rt,
            good_writes,
            good_syncs,
        }
    }
}

impl<R> Log for Wearing<'_, R> {
    fn tell(&self, _notice: &Notice) {}
}

impl<'r, R: Files> Files for Wearing<'r, R> {
    type File = Worn<'r, R::File>;

    type Dir = R::Dir;

    fn open_file(&self, how: &OpenOptions, path: &str) -> io::Result<Worn<'r, R::File>> {
        let file = self.rt.open_file(how, path)?;
        Ok(Worn {
            file,
            good_writes: self.good_writes,
            good_syncs: self.good_syncs,
        })
    }

    fn open_dir(&self, path: &str) -> io::Result<R::Dir> {
        self.rt.open_dir(path)
    }

    fn metadata(&self, path: &str) -> io::Result<Metadata> {
        self.rt.metadata(path)
    }

    fn symlink_metadata(&self, path: &str) -> io::Result<Metadata> {
        self.rt.symlink_metadata(path)
    }

    fn copy(&self, from: &str, to: &str) -> io::Result<u64> {
        self.rt.copy(from, to)
    }

    fn rename(&self, from: &str, to: &str) -> io::Result<()> {
        self.rt.rename(from, to)
    }

    fn remove_file(&self, path: &str) -> io::Result<()> {
        self.rt.remove_file(path)
    }

    fn create_dir(&self, path: &str) -> io::Result<()> {
        self.rt.create_dir(path)
    }

    fn remove_dir(&self, path: &str) -> io::Result<()> {
        self.rt.remove_dir(path)
    }

    fn remove_dir_all<B: Allocator>(&self, alloc: B, path: &str) -> io::Result<()> {
        self.rt.remove_dir_all(alloc, path)
    }

    fn canonicalize<B: Allocator>(&self, alloc: B, path: &str) -> io::Result<PathBuf<B>> {
        self.rt.canonicalize(alloc, path)
    }
}

impl<R: AllocGlobal> Alloc for Wearing<'_, R> {
    type A = Global;

    fn alloc(&self) -> Global {
        self.rt.alloc()
    }
}

impl<R: Threads> Threads for Wearing<'_, R> {}

impl<R: Wait> Wait for Wearing<'_, R> {}

impl<R: Clock> Clock for Wearing<'_, R> {
    fn monotonic(&self) -> io::Result<Duration> {
        self.rt.monotonic()
    }

    fn since_1970(&self) -> io::Result<Duration> {
        self.rt.since_1970()
    }

    fn sleep(&self, duration: Duration) {
        self.rt.sleep(duration)
    }
}

impl<R: Net<Listener = TcpListener, Stream = TcpStream>> Net for Wearing<'_, R> {
    type Stream = TcpStream;

    type Listener = TcpListener;

    fn bind(&self, addr: SocketAddr) -> io::Result<TcpListener> {
        self.rt.bind(addr)
    }

    fn connect(&self, addr: SocketAddr) -> io::Result<TcpStream> {
        self.rt.connect(addr)
    }
}

/// What a client asks for: of a sector, or a FLUSH.
#[derive(Clone, Copy)]
enum Asks {
    Read(u8),
    Write(u8),
    WriteWithFua(u8),
    Flush,
}

/// What a client asks for, and how many of these are answered. At one that isn't the connection
/// ends.
#[derive(Clone, Copy)]
struct Client<'a> {
    requests: &'a [Asks],
    answered: usize,
}

/// The head of a request of so many times 256 bytes at a sector; its cookie is 7.
fn request(flags: u8, kind: u8, sector: u8, pages: u8) -> [u8; 28] {
    let mut head = [0; 28];
    head[..4].copy_from_slice(&[0x25, 0x60, 0x95, 0x13]);
    head[5] = flags;
    head[7] = kind;
    head[15] = 7;
    head[22] = sector.wrapping_mul(2);
    head[26] = pages;
    head
}

/// The head of its reply without an error.
const REPLY: [u8; 16] = [0x67, 0x44, 0x66, 0x98, 0, 0, 0, 0, 0, 0, 0, 0, 0, 0, 0, 7];

/// Connects once the server listens: 500 tries, 10 ms apart.
fn connect<H: Net<Stream = TcpStream> + Clock>(rt: &H, addr: SocketAddr) -> io::Result<TcpStream> {
    for _try in 0..500u32 {
        if let Ok(stream) = TcpStream::connect(rt, addr) {
            return Ok(stream);
        }
        thread::sleep(rt, Duration::from_millis(10));
    }
    TcpStream::connect(rt, addr)
}

/// The bytes of a sector, each 30h and its number.
fn sector_bytes(sector: u8) -> [u8; 512] {
    [0x30u8.wrapping_add(sector); 512]
}

/// Sends a request.
fn send_request(stream: &mut TcpStream, asks: Asks) -> io::Result<()> {
    match asks {
        Asks::Read(sector) => stream.write_all(&request(0, 0, sector, 2)),
        Asks::Write(sector) => {
            stream.write_all(&request(0, 1, sector, 2))?;
            stream.write_all(&sector_bytes(sector))
        }
        Asks::WriteWithFua(sector) => {
            stream.write_all(&request(1, 1, sector, 2))?;
            stream.write_all(&sector_bytes(sector))
        }
        Asks::Flush => stream.write_all(&request(0, 3, 0, 0)),
    }
}

/// Sends a request, and reads its reply where it is to be answered, and else the end of the
/// connection: whether that came.
fn ask(stream: &mut TcpStream, asks: Asks, is_answered: bool) -> io::Result<bool> {
    send_request(stream, asks)?;
    let mut reply = [0u8; 16];
    if !is_answered {
        return Ok(stream.read(&mut reply)? == 0);
    }
    stream.read_exact(&mut reply)?;
    if let Asks::Read(sector) = asks {
        let mut data = [0u8; 512];
        stream.read_exact(&mut data)?;
        return Ok(reply == REPLY && data == sector_bytes(sector));
    }
    Ok(reply == REPLY)
}

/// A whole connection, which ends by DISC where all is answered. Whether all replies were right.
fn work<H: Net<Stream = TcpStream> + Clock>(
    rt: &H,
    addr: SocketAddr,
    client: Client<'_>,
) -> io::Result<bool> {
    let mut stream = connect(rt, addr)?;
    let mut greeting = [0u8; 18];
    stream.read_exact(&mut greeting)?;
    stream.write_all(&NEGOTIATION)?;
    let mut replies = [0u8; 86];
    stream.read_exact(&mut replies)?;
    for (number, asks) in client.requests.iter().enumerate() {
        let is_answered = number < client.answered;
        if !ask(&mut stream, *asks, is_answered)? {
            return Ok(false);
        }
        if !is_answered {
            return Ok(true);
        }
    }
    stream.write_all(&request(0, 2, 0, 0))?;
    Ok(true)
}

/// Whether nobody listens any more: 500 tries, 10 ms apart.
fn is_refused<H: Net<Stream = TcpStream> + Clock>(rt: &H, addr: SocketAddr) -> bool {
    for _try in 0..500u32 {
        if TcpStream::connect(rt, addr).is_err() {
            return true;
        }
        thread::sleep(rt, Duration::from_millis(10));
    }
    false
}

/// Two clients, one after the other. Where a request of the first isn't to be answered, the second
/// has to find no server.
fn work_both<H: Net<Stream = TcpStream> + Clock>(
    rt: &H,
    addr: SocketAddr,
    clients: [Client<'_>; 2],
) -> io::Result<bool> {
    let [one, two] = clients;
    let ends = one.answered < one.requests.len();
    let first = work(rt, addr, one)?;
    let second = if ends {
        is_refused(rt, addr)
    } else {
        work(rt, addr, two)?
    };
    Ok(first && second)
}

/// A port that nobody listens on: the one that the system gave for port 0.
pub(crate) fn free_port<H: Net<Listener = TcpListener, Stream = TcpStream>>(
    rt: &H,
) -> io::Result<u16> {
    let listener = TcpListener::bind(rt, SocketAddr::from((Ipv4Addr::LOCALHOST, 0)))?;
    Ok(listener.local_addr()?.port())
}

/// What came of a run.
#[derive(Drop)]
struct Outcome {
    port: u16,
    told: Vec<u8>,
    done: Result<(), Fault>,
}

/// No socket. The prover wants to see the types of a system's sockets where a `Host` is a known
/// type.
type NoSocket = Option<(TcpListener, TcpStream)>;

/// How two clients are served: whether no more are, and when the file is synced.
#[derive(Clone, Copy)]
struct Manner {
    ends: bool,
    sync: SyncPolicy,
}

/// Two clients, with a sync at each FLUSH.
const PLAINLY: Manner = Manner {
    ends: true,
    sync: SyncPolicy::AtFlush,
};

/// Serves an image of 64 KiB to two clients, whose replies have to be right.
fn serve_two<R>(rt: &R, manner: Manner, clients: [Client<'_>; 2]) -> Result<Outcome, Fail>
where
    R: Host,
    R::File: ImageFile + Send + Sync,
{
    let port = free_port(rt)?;
    let addr = SocketAddr::from((Ipv4Addr::LOCALHOST, port));
    if port == 0 {
        return Err(Fail::from("no port"));
    }
    let asked = Asked {
        image: "served.img",
        place: Place::Port {
            port: u32::from(port),
            bind: None,
        },
        conns: 2,
        ends: manner.ends,
        record: false,
        sync: manner.sync,
        tidy: TidyPolicy::Eagerly,
        firm: false,
        told_len: MAX_LEN,
        max_len: MAX_LEN,
        read_only: false,
        verbose: false,
        status: None,
    };
    let mut told = Told {
        text: Vec::new(rt.alloc()),
    };
    let hears = &mut told;
    let (met, done) = thread::join(
        rt,
        move || work_both(rt, addr, clients),
        move || -> Result<(), Fault>
            requires { IsPlace asked.place × IsConns asked.conns }
        { run_serve(rt, "served.img", asked, hears) },
    );
    if !met? {
        return Err(Fail::from("another reply"));
    }
    Ok(Outcome {
        port,
        told: told.text,
        done,
    })
}

/// Compares what was told after the first line, and the fault, whose status is 1.
fn compare<H: Abort + AllocGlobal>(
    rt: &H,
    outcome: Outcome,
    last: &str,
    fault: &str,
) -> Result<(), Fail> {
    let port = outcome.port;
    let lines = format!(in rt.alloc(); "serving 70 sectors on 127.0.0.1:{port}\n{last}")?;
    assert_eq!(rt; outcome.told.as_slice(), lines.as_bytes());
    let text = text_of(rt, outcome.done)?;
    assert_eq!(rt; text.as_str(), fault);
    Ok(())
}

/// The text of a fault with status 1, or none.
pub(crate) fn text_of<H: Abort + AllocGlobal>(
    rt: &H,
    done: Result<(), Fault>,
) -> Result<String, Fail> {
    match done {
        Ok(()) => Ok(String::new(rt.alloc())),
        Err(fault) => {
            assert_eq!(rt; fault.status(), 1);
            Ok(format!(in rt.alloc(); "{fault}")?)
        }
    }
}

/// Makes the file the image of a formatted chip of 64 KiB, without a log.
pub(crate) fn make<H: Files + AllocGlobal>(rt: &H) -> Result<(), Fail> {
    let Ok(image) = formatted_image(rt.alloc(), 64) else {
        return Err(Fail::from("no image"));
    };
    // a log that an earlier server left is gone, too
    let _ = fs::remove_file(rt, "served.img.log");
    Ok(fs::write(rt, "served.img", image.as_slice())?)
}

/// A WRITE of a sector makes one write of the log, behind that of the log's own head. The write
/// that fails ends the server.
#[test]
fn a_failed_write_of_the_image_ends_the_server(rt: HostRuntime) -> Result<(), Fail> {
    let _socket: NoSocket = None;
    for good in 0..2u32 {
        make(&rt)?;
        let good_writes = AtomicU32::new(good + 1);
        let good_syncs = AtomicU32::new(100);
        let wearing = Wearing::new(&rt, &good_writes, &good_syncs);
        let clients = [
            Client {
                requests: &[Asks::Write(1), Asks::Write(2)],
                answered: good as usize,
            },
            Client {
                requests: &[Asks::Read(1)],
                answered: 0,
            },
        ];
        let manner = Manner {
            sync: SyncPolicy::Never,
            ..PLAINLY
        };
        let outcome = serve_two(&wearing, manner, clients)?;
        compare(&rt, outcome, "", "image failed")?;
        assert_eq!(rt; good_writes.load(Ordering::SeqCst), 0);
    }
    Ok(fs::remove_file(&rt, "served.img")?)
}

/// By NBD proto.md a FLUSH and a command with FUA are answered once what was written is durable.
/// Besides come the syncs of a start and of the end; with `never` there is none at all.
#[test]
fn replies_that_owe_it_wait_for_a_sync(rt: HostRuntime) -> Result<(), Fail> {
    let _socket: NoSocket = None;
    let clients = [
        Client {
            requests: &[Asks::Write(1), Asks::Flush, Asks::WriteWithFua(2)],
            answered: 3,
        },
        Client {
            requests: &[Asks::Read(1), Asks::Read(2), Asks::Write(3)],
            answered: 3,
        },
    ];
    let mut all = [0u32; 3];
    for (number, sync) in [SyncPolicy::Never, SyncPolicy::AtFlush, SyncPolicy::Always]
        .iter()
        .enumerate()
    {
        let sync = *sync;
        make(&rt)?;
        let good_writes = AtomicU32::new(100);
        let good_syncs = AtomicU32::new(100);
        let wearing = Wearing::new(&rt, &good_writes, &good_syncs);
        let manner = Manner { sync, ..PLAINLY };
        let outcome = serve_two(&wearing, manner, clients)?;
        compare(&rt, outcome, "served 2 connections\n", "")?;
        all[number] = 100u32.saturating_sub(good_syncs.load(Ordering::SeqCst));
    }
    // `always` waits for two more, of the first WRITE and of the last
    let [never, flush, always] = all;
    assert_eq!(rt; never, 0);
    assert!(rt; flush >= 3, "{flush}");
    assert_eq!(rt; always, flush.saturating_add(2));
    Ok(fs::remove_file(&rt, "served.img")?)
}

/// The sync of a FLUSH fails. The reply isn't sent, and the server ends, also one without end: the
/// second client finds none.
#[test]
fn a_sync_that_fails_ends_the_server(rt: HostRuntime) -> Result<(), Fail> {
    let _socket: NoSocket = None;
    // the syncs of a start: those of a server of two clients who ask for nothing, without the last
    make(&rt)?;
    let writes = AtomicU32::new(100);
    let syncs = AtomicU32::new(100);
    let counting = Wearing::new(&rt, &writes, &syncs);
    let silent = Client {
        requests: &[],
        answered: 0,
    };
    let _outcome = serve_two(&counting, PLAINLY, [silent, silent])?;
    let start = 99u32.saturating_sub(syncs.load(Ordering::SeqCst));
    for ends in [true, false] {
        make(&rt)?;
        let good_writes = AtomicU32::new(100);
        let good_syncs = AtomicU32::new(start);
        let wearing = Wearing::new(&rt, &good_writes, &good_syncs);
        let clients = [
            Client {
                requests: &[Asks::Write(1), Asks::Flush],
                answered: 1,
            },
            Client {
                requests: &[Asks::Read(1)],
                answered: 0,
            },
        ];
        let manner = Manner { ends, ..PLAINLY };
        let outcome = serve_two(&wearing, manner, clients)?;
        let is_told = matches!(outcome.done, Err(Fault::ImageFailed(Cause::Sync)));
        assert!(rt; is_told, "{ends}");
        compare(&rt, outcome, "", "image failed")?;
    }
    Ok(fs::remove_file(&rt, "served.img")?)
}
