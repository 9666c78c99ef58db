//! Lines that find no memory: each says so, and has written nothing, or does all of its work.
ghost use Rattle.std.specs.Prelude.{IfSome};
ghost use Rattle.norbd_run.specs.Lines.{HasNumbers};

use crate::serving::{Told, free_port, make, text_of};
use block_device::FixedIn;
use norbd_image::ImageFile;
use norbd_line::{Fault, Line, Place, ReadLine, ServeLine, SyncPolicy, TidyPolicy, read_line};
use norbd_run::{Screen, run_line};
use norbd_serve::Log;
use std::alloc::Global;
use std::fs;
use std::net::{Net, TcpListener, TcpStream};
use std::process::Abort;
use std::rt::Files;
use std::sync::Wait;
use std::test::*;
use std::thread::Threads;
use std::time::Clock;
use test_kit::spend;

/// What a line is to write where there is memory, or where a row has none, and its fault.
#[derive(Clone, Copy)]
struct Expected<'a> {
    output: &'a [u8],
    without_rows: &'a [u8],
    fault: &'a str,
}

/// Sizes that memory is left for: so many, from one on, with a step between them. A step finds each
/// block that is at least as long: with one size less it is refused.
type Window = (usize, usize, usize);

/// The sizes of windows.
fn sizes_of(alloc: Global, windows: &[Window]) -> Result<Vec<usize>, Fail> {
    let mut sizes = Vec::new(alloc);
    for (from, step, count) in windows {
        for number in 0..*count {
            sizes.push(from.saturating_add(step.saturating_mul(number)))?;
        }
    }
    Ok(sizes)
}

/// Runs a line with memory for each of these sizes: the first is too little, and the last enough.
fn sweep<R>(
    rt: &R,
    line: Line<'_>,
    input: &[u8],
    windows: &[Window],
    expected: Expected<'_>,
) -> Result<(), Fail>
where
    R: Abort
        + Files
        + AllocGlobal
        + Threads
        + Wait
        + Sync
        + Clock
        + Log
        + Screen
        + Net<Listener = TcpListener, Stream = TcpStream>,
    R::File: ImageFile + Send + Sync,
    R::Dir: Send,
    R: 'static,
    requires numbers { HasNumbers line }
{
    let sizes = sizes_of(rt.alloc(), windows)?;
    let mut refused = 0usize;
    let mut whole = 0usize;
    for size in sizes.iter() {
        let mut told = Told {
            text: Vec::with_capacity(rt.alloc(), 4_096)?,
        };
        let held = spend(rt.alloc(), *size)?;
        let done = run_line(rt, line, None, false, &mut FixedIn::new(input), &mut told);
        drop(held);
        let text = text_of(rt, done)?;
        if text.as_str() == "no memory" {
            assert!(rt; told.text.is_empty(), "{size} bytes");
            refused = refused.saturating_add(1);
            whole = 0;
        } else {
            assert_eq!(rt; text.as_str(), expected.fault, "{size} bytes");
            let is_whole = told.text.as_slice() == expected.output;
            let is_without = told.text.as_slice() == expected.without_rows;
            assert!(rt; is_whole || is_without, "{size} bytes");
            whole = if is_whole { whole.saturating_add(1) } else { 0 };
        }
    }
    assert!(rt; refused > 0 && whole > 0, "{line:?}: {refused} and {whole}");
    Ok(())
}

/// READ of sector 0, and its reply, whose 512 zeros follow; the same with ENOMEM, which is 12.
const READ: [u8; 28] = [
    0x25, 0x60, 0x95, 0x13, 0, 0, 0, 0, 0, 0, 0, 0, 0, 0, 0, 7, 0, 0, 0, 0, 0, 0, 0, 0, 0, 0, 2, 0,
];

const REPLY: [u8; 16] = [0x67, 0x44, 0x66, 0x98, 0, 0, 0, 0, 0, 0, 0, 0, 0, 0, 0, 7];

const NO_ROW: [u8; 16] = [0x67, 0x44, 0x66, 0x98, 0, 0, 0, 12, 0, 0, 0, 0, 0, 0, 0, 7];

/// An open connection, and its answer: the greeting, and its end.
const OPEN: [u8; 6] = [0x4f, 0, 0, 0, 0, 0];

const OPENED: [u8; 30] = [
    0, 0x44, 0, 0, 0, 18, 0x4e, 0x42, 0x44, 0x4d, 0x41, 0x47, 0x49, 0x43, 0x49, 0x48, 0x41, 0x56,
    0x45, 0x4f, 0x50, 0x54, 0, 3, 0, 0x41, 0, 0, 0, 0,
];

#[test]
fn plain_without_memory_says_so(rt: HostRuntime) -> Result<(), Fail> {
    let mut reply = [0u8; 528];
    reply[..16].copy_from_slice(&REPLY);
    let replied = Expected {
        output: &reply,
        without_rows: &NO_ROW,
        fault: "",
    };
    let line = Line::Plain {
        sectors: 70,
        record: true,
    };
    // disk, record, and the buffers of replies and of pieces; then the list of rows and a row's
    // bytes
    let windows = [(0, 32_768, 7), (202_752, 32, 32), (262_144, 16, 1)];
    sweep(&rt, line, &READ, &windows, replied)
}

#[test]
fn a_script_without_memory_says_so(rt: HostRuntime) -> Result<(), Fail> {
    let opened = Expected {
        output: &OPENED,
        without_rows: &OPENED,
        fault: "",
    };
    // the chip; what a mount takes; the station
    let windows = [(0, 32_768, 3), (65_536, 32, 30), (98_304, 65_536, 14)];
    sweep(&rt, Line::Script { kib: 64 }, &OPEN, &windows, opened)
}

#[test]
fn a_format_without_memory_says_so(rt: HostRuntime) -> Result<(), Fail> {
    let text = b"formatted 70 sectors\n".as_slice();
    let formatted = Expected {
        output: text,
        without_rows: text,
        fault: "",
    };
    let line = Line::Format {
        image: "short.img",
        kib: 64,
        force: true,
        sure: false,
    };
    // the chip; the line and the names
    let windows = [(0, 32_768, 3), (65_536, 16, 32), (81_920, 16, 1)];
    sweep(&rt, line, &[], &windows, formatted)?;
    Ok(fs::remove_file(&rt, "short.img")?)
}

/// With its lists made and its line told, serving finds no room for a thread's stack.
#[test]
fn serving_without_memory_says_so(rt: HostRuntime) -> Result<(), Fail> {
    make(&rt)?;
    let port = free_port(&rt)?;
    if port == 0 {
        return Err(Fail::from("no port"));
    }
    let text = format!(in rt.alloc(); "serving 70 sectors on 127.0.0.1:{port}\n")?;
    let serving = Expected {
        output: text.as_bytes(),
        without_rows: text.as_bytes(),
        fault: "no thread",
    };
    let line = Line::Serve(ServeLine {
        image: "served.img",
        place: Place::Port {
            port: u32::from(port),
            bind: None,
        },
        conns: Some(2),
        record: true,
        sync: SyncPolicy::AtFlush,
        tidy: TidyPolicy::Lazily,
        max_request: None,
        read_only: false,
        verbose: true,
        trust: false,
        status: None,
        firm: false,
    });
    // the chip, and its copies: that of the file, and the one that is looked at; then what is taken
    // for the disk, its lists and its log; and the log's file, of 1 MiB, where an earlier start
    // left it
    let windows = [
        (0, 264, 3),
        (32_768, 32_768, 2),
        (66_064, 32, 2),
        (98_304, 32_768, 2),
        (131_600, 32, 20),
        (163_840, 32, 20),
        (167_936, 32, 20),
        (196_608, 32_768, 8),
        (1_048_576, 1_048_576, 8),
    ];
    sweep(&rt, line, &[], &windows, serving)?;
    Ok(fs::remove_file(&rt, "served.img")?)
}

/// What is read of words that ask for an image of 64 KiB at `x.img`: that line, want of memory, a
/// fault of the words, or something else.
fn reading(alloc: Global, words: &[String]) -> &'static str {
    match read_line(alloc, words) {
        Ok(
            ReadLine {
                line: Line::Format { image, kib, .. },
                ..
            },
        ) => if image == "x.img" && kib == 64 {
            "the line"
        } else {
            "another line"
        },
        Ok(_) => "another line",
        Err(Fault::NoMemory) => "no memory",
        Err(Fault::Words(_)) => "a fault of the words",
        Err(_) => "another fault",
    }
}

#[test]
fn words_without_memory_say_so(rt: HostRuntime) -> Result<(), Fail> {
    let alloc = rt.alloc();
    for (number, expected) in [("64", "the line"), ("many", "a fault of the words")] {
        let mut words = Vec::new(alloc);
        for word in ["norbd", "format", "x.img", "--kib", number] {
            words.push(format!(in alloc; "{word}")?)?;
        }
        let mut refused = 0usize;
        let mut whole = 0usize;
        for step in 0..64usize {
            let held = spend(alloc, 4_096 * step)?;
            let read = reading(alloc, words.as_slice());
            drop(held);
            if read == "no memory" {
                refused = refused.saturating_add(1);
                whole = 0;
            } else {
                assert_eq!(rt; read, expected, "step {step}");
                whole = whole.saturating_add(1);
            }
        }
        assert!(rt; refused > 0 && whole > 0, "{refused} and {whole}");
    }
    Ok(())
}
