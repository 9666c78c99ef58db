//! The program `norbd`, a disk on a flash chip behind the Network Block Device protocol (NBD), in
//! twelve lines: `plain` serves a disk in memory over standard input and output, in the
//! transmission phase; `format` makes an image of a formatted chip; `script` runs events, losses
//! of power too, on a chip in memory; `serve` serves the chip in an image to connections on a port
//! or a Unix socket, and `status` says what such a server does; `check` says whether an image
//! would be served, and if not, why, and mends one; `settle` erases all of it once and keeps its
//! disk; `show` draws it; `read` and `write` take its disk out and put it in; `rescue` takes out
//! what can still be told of it; `chip` answers the serprog protocol for the chip in an image.
//!
//! Here are the words of the command line, the standard streams, what is printed of a fault, and
//! the exit status: 0 where the line is done, 2 for a bad line, 1 for each other fault. `norbd_run`
//! does what a line asks; its reader and writer are standard input and output, unbuffered, so that
//! each reply is out before the next request is looked at. `norbd_line` reads the words and has the
//! texts of faults. Source: own.
#![tactic(auto)]

ghost use Rattle.std.specs.Prelude.{◌≡◌, ◌<◌};
ghost use Rattle.std.specs.Process.{exit_status};
ghost use Rattle.norbd_run.specs.Outcomes.{EndsWith};
ghost use Rattle.norbd_run.specs.Lines.{HasNumbers};
ghost use Rattle.norbd_line.specs.Line.{IsLineInRange};

use block_device::Io;
use norbd_image::ImageFile;
use norbd_line::{Fault, Line, ReadLine, read_line};
use norbd_run::{Failure, Null, Output, Screen, Telling, hold_standard, reason_of, run_line};
use norbd_serve::Log;
use std::alloc::Global;
use std::io::{ErrorKind, IsTerminal, Read, Write};
use std::marker::Brand;
use std::net::{Net, TcpListener, TcpStream};
use std::process::ExitCode;
use std::rt::Files;
use std::sync::Wait;
use std::sync::ledger::{Blank, Ledger};
use std::thread::Threads;
use std::time::Clock;

/// The program's words. `NotText` where one isn't text (UTF-8), `NoMemory` where memory ran out.
fn words_of(rt: &HostRuntime, alloc: Global) -> Result<Vec<String>, Fault> {
    match std::env::args(rt) {
        Ok(words) => words
            .collect::<Vec<String>>(alloc)
            .map_err(|_| Fault::NoMemory),
        Err(error) if error.kind() == ErrorKind::OutOfMemory => Err(Fault::NoMemory),
        Err(_) => Err(Fault::NotText),
    }
}

/// Does a line over a reader and a writer of bytes, whose failures the ledgers `I` and `O` count.
///
/// What a `Host` is stands written out here and below: the prover can't follow a call for the
/// system itself where the types of its sockets are named by that trait alone.
fn run_streams<R, A, B, I, O>(
    rt: &R,
    line: Line<'_>,
    clock: Option<u32>,
    colours: bool,
    stdin: A,
    stdout: B,
    input: Blank,
    output: Blank,
) -> Result<(), Fault>
where
    R: Files
        + AllocGlobal
        + Threads
        + Wait
        + Sync
        + Clock
        + Log
        + Screen
        + Net<Listener = TcpListener, Stream = TcpStream>,
    R::File: ImageFile + Send + Sync,
    R::Dir: Send,
    R: 'static,
    A: Read + Drop,
    B: Write + Drop,
    I: Ledger,
    O: Ledger,
    requires input { (input.name ≡ I.name) × (input.parts ≡ I.parts) × (0 < I.parts) }
    requires output { (output.name ≡ O.name) × (output.parts ≡ O.parts) × (0 < O.parts) }
    requires numbers { HasNumbers line }
{
    let mut reader = Io::<_, I>::new(stdin, input);
    let mut writer = Io::<_, O>::new(stdout, output);
    run_line(rt, line, clock, colours, &mut reader, &mut writer)
}

/// Prints a line about a fault on standard error, with why standard output failed. A failure to
/// print it is passed over.
fn tell(rt: &HostRuntime, fault: &Fault, line: Option<Line<'_>>, output: Option<Failure>) {
    let reason = match line {
        Some(line) => reason_of(rt, fault, line),
        None => None,
    };
    let telling = Telling {
        fault,
        line,
        reason,
        output,
    };
    let _ = eprintln!(rt; "norbd: {telling}");
}

/// Prints `clap`'s own text of a fault of the words, and a line of every other one. Where the text
/// is help or the version, which standard output has, it tells why that failed.
fn print_fault(rt: &HostRuntime, fault: &Fault, closed: bool) -> Option<Failure> {
    let Fault::Words(error) = fault else {
        tell(rt, fault, None, None);
        return None;
    };
    let asked = !error.use_stderr();
    if asked && closed {
        return Some(Failure::Closed);
    }
    match error.print(rt) {
        Err(error) if asked => Some(Failure::Answered(error.kind())),
        _ => None,
    }
}

/// The exit status of what became of a line.
fn exit_code(done: &Result<(), Fault>) -> ExitCode
    ensures { EndsWith done.now (exit_status result) }
{
    match done {
        Ok(()) => ExitCode::SUCCESS,
        Err(fault) => ExitCode::from(fault.status()),
    }
}

/// Does the line of the program's words.
#[tactic(auto, using(crate::proofs::Sizes::numbers_of_line))]
fn do_line<R, A, B>(
    rt: &R,
    words: ReadLine<'_>,
    colours: bool,
    stdin: A,
    stdout: B,
) -> Result<(), Fault>
where
    R: Files
        + AllocGlobal
        + Threads
        + Wait
        + Sync
        + Clock
        + Log
        + Screen
        + Net<Listener = TcpListener, Stream = TcpStream>,
    R::File: ImageFile + Send + Sync,
    R::Dir: Send,
    R: 'static,
    A: Read + Drop,
    B: Write + Drop,
    requires { IsLineInRange words.line }
{
    let (input, output) = (Blank::new(1), Blank::new(1));
    let ReadLine { line, clock } = words;
    run_streams::<_, _, _, Brand, Brand>(rt, line, clock, colours, stdin, stdout, input, output)
}

/// Whether pictures have colours: standard output is a terminal, and the environment has no
/// `NO_COLOR`.
fn has_colours(rt: &HostRuntime) -> bool {
    rt.stdout().is_terminal() && std::env::var(rt, "NO_COLOR").is_err()
}

/// Whether a line is done for what it writes to standard output, and for nothing else.
fn is_for_output(line: Line<'_>) -> bool {
    match line {
        Line::Plain { .. } => true,
        Line::Script { .. } => true,
        Line::Check { .. } => true,
        Line::Status { .. } => true,
        Line::Show { .. } => true,
        Line::Read { .. } => true,
        Line::Rescue { .. } => true,
        _ => false,
    }
}

/// Prints a fault of the words, and tells its exit status; help that can't be printed is a fault of
/// the output.
fn refuse(rt: &HostRuntime, fault: Fault, closed: bool) -> ExitCode {
    let failure = print_fault(rt, &fault, closed);
    if failure.is_some() {
        tell(rt, &Fault::OutputFailed, None, failure);
        return exit_code(&Err(Fault::OutputFailed));
    }
    exit_code(&Err(fault))
}

/// Tells what is meant by a command `version`, which other programs have.
fn advise(rt: &HostRuntime, words: &[String]) {
    if let Some(word) = words.get(1) {
        if word.as_str() == "version" {
            let _ = eprintln!(rt; "norbd: --version tells it");
        }
    }
}

fn main(rt: HostRuntime) -> ExitCode {
    let Ok(standard) = hold_standard(&mut Null { rt: &rt }) else {
        return refuse(&rt, Fault::OutputFailed, false);
    };
    let words = match words_of(&rt, rt.alloc()) {
        Ok(words) => words,
        Err(fault) => return refuse(&rt, fault, standard.lacks_output()),
    };
    let read = match read_line(rt.alloc(), words.as_slice()) {
        Ok(read) => read,
        Err(fault) => {
            let code = refuse(&rt, fault, standard.lacks_output());
            advise(&rt, words.as_slice());
            return code;
        }
    };
    let closed = standard.lacks_output() && is_for_output(read.line);
    let mut output = Output::new(rt.stdout(), closed);
    let done = do_line(&rt, read, has_colours(&rt), rt.stdin(), &mut output);
    if let Err(fault) = &done {
        tell(&rt, fault, Some(read.line), output.failure());
    }
    exit_code(&done)
}
