//! The line: what the program is asked to do.
ghost use Rattle.std.specs.Prelude.{◌≡◌, ◌≢◌, ◌⊎◌, ◌≤◌, [], codes, IfErr, IfOk, IfSome, IsErrAnd};
ghost use Rattle.std.specs.Prelude.{MatchBool, ℕ};
ghost use Rattle.clap.specs.Words.{found_of, rows_of};
ghost use Rattle.norbd_line.specs.CommandLine.{texts_of};
ghost use Rattle.norbd_line.specs.Fault.{ComesFromMatches, ComesFromWords};
ghost use Rattle.norbd_line.specs.Line.{HasOddSize, IsLineInRange, IsLineIn, IsLineOf, HasNoPlace};
ghost use Rattle.norbd_line.specs.Line.{IsNamed, IsPlace, IsPlaceIn, IsServeNamed, IsClockOf};
ghost use Rattle.norbd_line.specs.Line.{number_in};

use crate::Fault;
use crate::chip::{ChipLine, chip_line};
use crate::commands::{fault_from, parse};
use crate::options::{
    LEAST_REQUEST, LEAST_SECTORS, MOST_CONNS, MOST_REQUEST, MOST_SECTORS, chip_size, flag, number,
    number_if_there, port_of, sync_of, text_of, tidy_of,
};
use clap::ArgMatches;
use std::alloc::Global;

/// What the program is asked to do. The text of a path is borrowed from the words.
#[derive(Debug, Clone, Copy, PartialEq, Eq)]
pub enum Line<'a> {
    /// `chip IMAGE --port P [--conns C]`: answer serprog for the chip in an image.
    Chip(ChipLine<'a>),
    /// `plain --sectors S [--no-record]`: serve one client, from standard input to standard output,
    /// a disk of `sectors` sectors of 512 bytes in memory, from 1 to 65,536 of them, all zeros at
    /// first; `record` unless `--no-record` is set.
    Plain {
        sectors: u32,
        record: bool,
    },
    /// `format IMAGE --kib K [--force] [--yes]`: make the file at the path `image` a formatted chip
    /// of `kib` KiB, a multiple of 64 from 64 to 16,384, one that holds something only if `force`
    /// is set; or format the chip of `kib` KiB behind a programmer, if `sure` is set.
    Format {
        image: &'a str,
        kib: u32,
        force: bool,
        sure: bool,
    },
    /// `script --kib K`: run a script of events, from standard input, on a formatted chip in memory
    /// of `kib` KiB, a multiple of 64 from 64 to 16,384, and tell what came of them on standard
    /// output.
    Script {
        kib: u32,
    },
    /// `serve IMAGE --port P [--bind ADDR]`, or with `--unix PATH` in their place, and `[--conns C]
    /// [--record] [--sync WHEN] [--tidy WHEN] [--max-request KIB] [--read-only] [-v] [--status
    /// PATH] [--firm]`: serve the chip in an image.
    Serve(ServeLine<'a>),
    /// `status PATH [--json]`: say what the server does whose Unix socket for that is at the path
    /// `path`; tell it in JSON where `json` is set.
    Status {
        path: &'a str,
        json: bool,
    },
    /// `check IMAGE [--mend] [--json] [--against DUMP]`: say whether the image in the file at the
    /// path `image` would be served, and if not, why; mend it where `mend` is set; tell in JSON
    /// where `json` is; say which sectors differ from those of the image in the file at the path
    /// `against`, where there is one.
    Check {
        image: &'a str,
        mend: bool,
        json: bool,
        against: Option<&'a str>,
    },
    /// `unprotect IMAGE [--yes]`: end the protection of the chip behind the programmer that `image`
    /// names, where `sure` is set.
    Unprotect {
        image: &'a str,
        sure: bool,
    },
    /// `settle IMAGE`: erase each byte but the superblock of the chip in the file at the path
    /// `image`, or behind a programmer, and keep its disk.
    Settle {
        image: &'a str,
    },
    /// `show IMAGE`: draw the blocks of the image in the file at the path `image`.
    Show {
        image: &'a str,
    },
    /// `read IMAGE [--sectors A:B]`: write the sectors of the image in the file at the path `image`
    /// to standard output, of all its disk or of the part that the text `sectors` writes.
    Read {
        image: &'a str,
        sectors: Option<&'a str>,
    },
    /// `write IMAGE [--sectors A:B] [--firm]`: replace these sectors by standard input. Bits of an
    /// image that a loss of power tore are taken to waver where `firm` is set.
    Write {
        image: &'a str,
        sectors: Option<&'a str>,
        firm: bool,
    },
    /// `rescue IMAGE`: write the sectors to standard output that can still be told of the image in
    /// the file at the path `image`, whatever is wrong with it.
    Rescue {
        image: &'a str,
    },
}

/// What the words say: the line, and the clock in Hz, above 0, that the programmer of its chip is
/// to set, where they say one (`--spi-hz N`).
#[derive(Debug, Clone, Copy, PartialEq, Eq)]
pub struct ReadLine<'a> {
    pub line: Line<'a>,
    pub clock: Option<u32>,
}

/// What a line `serve` asks: to serve the chip in the file at the path `image` at a place, to
/// `conns` clients in all, from 1 to 64, or without end where it is `None`; to keep a row of each
/// command where `record` is set; when the file is synced, and when the disk is tidied; with READs
/// and WRITEs of `max_request` KiB at most, from 64 to 32,768, or of 1,024 where it is `None`, of
/// which clients are told 64; without
/// changing anything where `read_only` is set; to tell of each connection and each refused request
/// where `verbose` is; to believe a chip behind a programmer its changes where `trust` is; to say
/// what it does at the Unix socket `status`, where there is one; and where `firm` is set to take
/// bits of an image that a loss of power tore to waver, as those of a chip behind a programmer.
#[derive(Debug, Clone, Copy, PartialEq, Eq)]
pub struct ServeLine<'a> {
    pub image: &'a str,
    pub place: Place<'a>,
    pub conns: Option<u32>,
    pub record: bool,
    pub sync: SyncPolicy,
    pub tidy: TidyPolicy,
    pub max_request: Option<u32>,
    pub read_only: bool,
    pub verbose: bool,
    pub trust: bool,
    pub status: Option<&'a str>,
    pub firm: bool,
}

/// Where clients connect to.
#[derive(Debug, Clone, Copy, PartialEq, Eq)]
pub enum Place<'a> {
    /// The port `port`, from 1 to 65,535, of the address that `bind` writes, or of 127.0.0.1.
    Port { port: u32, bind: Option<&'a str> },
    /// The Unix socket at a path.
    Unix(&'a str),
}

/// When what a server has written to its image is handed on to the disk of this machine.
#[derive(Debug, Clone, Copy, PartialEq, Eq, Drop)]
pub enum SyncPolicy {
    /// `--sync flush`, and without `--sync`: at each FLUSH, and at the end.
    AtFlush,
    /// `--sync never`: when the system likes.
    Never,
    /// `--sync always`: with each command that changes sectors too.
    Always,
}

/// When a server tidies its disk, which copies and erases a block.
#[derive(Debug, Clone, Copy, PartialEq, Eq, Drop)]
pub enum TidyPolicy {
    /// `--tidy lazy`, and without `--tidy`: while few slots are free.
    Lazily,
    /// `--tidy eager`: while a slot is dead.
    Eagerly,
}

/// The line of `plain`. The parse refuses words without a number in its range, so the arm `None`
/// isn't reached; it needs some fault, and answers `NoMemory`.
fn plain_line<'a>(matches: &ArgMatches<'a>) -> Result<Line<'a>, Fault>
    ensures range { IfOk result IsLineInRange }
    ensures line { IfOk result (IsLineIn (codes "plain") (rows_of (found_of matches.now))) }
    ensures fault { IfErr result (λ e. e ≡ Fault.NoMemory) }
{
    match number(matches, "sectors", LEAST_SECTORS, MOST_SECTORS) {
        Some(sectors) => {
            let record = !flag(matches, "no-record");
            Ok(Line::Plain { sectors, record })
        }
        None => Err(Fault::NoMemory),
    }
}

/// The line of `format`; its faults are those of `chip_size`. The parse refuses words without a
/// path, so the arm for them answers `NoMemory`.
fn format_line<'a>(matches: &ArgMatches<'a>) -> Result<Line<'a>, Fault>
    ensures range { IfOk result IsLineInRange }
    ensures line { IfOk result (IsLineIn (codes "format") (rows_of (found_of matches.now))) }
    ensures fault { IfErr result (ComesFromMatches (codes "format")
        (rows_of (found_of matches.now))) }
{
    let kib = chip_size(matches)?;
    match matches.get_str("IMAGE") {
        Some(image) => Ok(Line::Format {
            image,
            kib,
            force: flag(matches, "force"),
            sure: flag(matches, "yes"),
        }),
        None => Err(Fault::NoMemory),
    }
}

/// The line of `script`; its faults are those of `chip_size`.
fn script_line<'a>(matches: &ArgMatches<'a>) -> Result<Line<'a>, Fault>
    ensures range { IfOk result IsLineInRange }
    ensures line { IfOk result (IsLineIn (codes "script") (rows_of (found_of matches.now))) }
    ensures fault { IfErr result (ComesFromMatches (codes "script")
        (rows_of (found_of matches.now))) }
{
    Ok(Line::Script {
        kib: chip_size(matches)?,
    })
}

/// Where a line `serve` listens: a port with or without an address, or a Unix socket. `BadAddress`
/// where the words say none of the two, or both, or an empty path.
fn place_of<'a>(matches: &ArgMatches<'a>) -> Result<Place<'a>, Fault>
    ensures range { IfOk result IsPlace }
    ensures place { IfOk result (IsPlaceIn (rows_of (found_of matches.now))) }
    ensures fault { IfErr result (λ e. (e ≡ Fault.NoMemory)
        ⊎ ((e ≡ Fault.BadAddress) × HasNoPlace (rows_of (found_of matches.now)))) }
{
    let port = port_of(matches)?;
    let bind = text_of(matches, "bind");
    let unix = text_of(matches, "unix");
    match unix {
        None => match port {
            Some(port) => Ok(Place::Port { port, bind }),
            None => Err(Fault::BadAddress),
        },
        Some(path) => match port {
            Some(_) => Err(Fault::BadAddress),
            None => match bind {
                Some(_) => Err(Fault::BadAddress),
                None => if path.is_empty() {
                    Err(Fault::BadAddress)
                } else {
                    Ok(Place::Unix(path))
                },
            },
        },
    }
}

/// The line of `serve`; `BadAddress` where the words say no place or two, `BadSync` where the word
/// after `--sync` says nothing, and `BadTidy` where that after `--tidy` does. The parse refuses
/// words without a path or with a number out of its range, so the arms for them answer `NoMemory`.
fn serve_line<'a>(matches: &ArgMatches<'a>) -> Result<Line<'a>, Fault>
    ensures range { IfOk result IsLineInRange }
    ensures line { IfOk result (IsLineIn (codes "serve") (rows_of (found_of matches.now))) }
    ensures fault { IfErr result (ComesFromMatches (codes "serve")
        (rows_of (found_of matches.now))) }
{
    let place = place_of(matches)?;
    let Ok(conns) = number_if_there(matches, "conns", 1, MOST_CONNS) else {
        return Err(Fault::NoMemory);
    };
    let Ok(max_request) = number_if_there(matches, "max-request", LEAST_REQUEST, MOST_REQUEST)
    else {
        return Err(Fault::NoMemory);
    };
    let Some(sync) = sync_of(matches) else {
        return Err(Fault::BadSync);
    };
    let Some(tidy) = tidy_of(matches) else {
        return Err(Fault::BadTidy);
    };
    let Some(image) = matches.get_str("IMAGE") else {
        return Err(Fault::NoMemory);
    };
    Ok(Line::Serve(ServeLine {
        image,
        place,
        conns,
        record: flag(matches, "record"),
        sync,
        tidy,
        max_request,
        read_only: flag(matches, "read-only"),
        verbose: flag(matches, "verbose"),
        trust: flag(matches, "trust"),
        status: text_of(matches, "status"),
        firm: flag(matches, "firm"),
    }))
}

/// The line of `status`. The parse refuses words without a path, so the arm for them answers
/// `NoMemory`.
fn status_line<'a>(matches: &ArgMatches<'a>) -> Result<Line<'a>, Fault>
    ensures range { IfOk result IsLineInRange }
    ensures line { IfOk result (IsLineIn (codes "status") (rows_of (found_of matches.now))) }
    ensures fault { IfErr result (λ e. e ≡ Fault.NoMemory) }
{
    match matches.get_str("PATH") {
        Some(path) => Ok(Line::Status {
            path,
            json: flag(matches, "json"),
        }),
        None => Err(Fault::NoMemory),
    }
}

/// The line of `check`. The parse refuses words without a path, so the arm for them answers
/// `NoMemory`.
fn check_line<'a>(matches: &ArgMatches<'a>) -> Result<Line<'a>, Fault>
    ensures range { IfOk result IsLineInRange }
    ensures line { IfOk result (IsLineIn (codes "check") (rows_of (found_of matches.now))) }
    ensures fault { IfErr result (λ e. e ≡ Fault.NoMemory) }
{
    match matches.get_str("IMAGE") {
        Some(image) => Ok(Line::Check {
            image,
            mend: flag(matches, "mend"),
            json: flag(matches, "json"),
            against: text_of(matches, "against"),
        }),
        None => Err(Fault::NoMemory),
    }
}

/// The line of `unprotect`; likewise.
fn unprotect_line<'a>(matches: &ArgMatches<'a>) -> Result<Line<'a>, Fault>
    ensures range { IfOk result IsLineInRange }
    ensures line { IfOk result (IsLineIn (codes "unprotect") (rows_of (found_of matches.now))) }
    ensures fault { IfErr result (λ e. e ≡ Fault.NoMemory) }
{
    match matches.get_str("IMAGE") {
        Some(image) => Ok(Line::Unprotect {
            image,
            sure: flag(matches, "yes"),
        }),
        None => Err(Fault::NoMemory),
    }
}

/// The line of `settle`; likewise.
fn settle_line<'a>(matches: &ArgMatches<'a>) -> Result<Line<'a>, Fault>
    ensures range { IfOk result IsLineInRange }
    ensures line { IfOk result (IsLineIn (codes "settle") (rows_of (found_of matches.now))) }
    ensures fault { IfErr result (λ e. e ≡ Fault.NoMemory) }
{
    match matches.get_str("IMAGE") {
        Some(image) => Ok(Line::Settle { image }),
        None => Err(Fault::NoMemory),
    }
}

/// The line of `show`. The parse refuses words without a path, so the arm for them answers
/// `NoMemory`.
fn show_line<'a>(matches: &ArgMatches<'a>) -> Result<Line<'a>, Fault>
    ensures range { IfOk result IsLineInRange }
    ensures line { IfOk result (IsLineIn (codes "show") (rows_of (found_of matches.now))) }
    ensures fault { IfErr result (λ e. e ≡ Fault.NoMemory) }
{
    match matches.get_str("IMAGE") {
        Some(image) => Ok(Line::Show { image }),
        None => Err(Fault::NoMemory),
    }
}

/// The line of `read`; likewise.
fn read_disk_line<'a>(matches: &ArgMatches<'a>) -> Result<Line<'a>, Fault>
    ensures range { IfOk result IsLineInRange }
    ensures line { IfOk result (IsLineIn (codes "read") (rows_of (found_of matches.now))) }
    ensures fault { IfErr result (λ e. e ≡ Fault.NoMemory) }
{
    match matches.get_str("IMAGE") {
        Some(image) => Ok(Line::Read {
            image,
            sectors: text_of(matches, "sectors"),
        }),
        None => Err(Fault::NoMemory),
    }
}

/// The line of `write`; likewise.
fn write_disk_line<'a>(matches: &ArgMatches<'a>) -> Result<Line<'a>, Fault>
    ensures range { IfOk result IsLineInRange }
    ensures line { IfOk result (IsLineIn (codes "write") (rows_of (found_of matches.now))) }
    ensures fault { IfErr result (λ e. e ≡ Fault.NoMemory) }
{
    match matches.get_str("IMAGE") {
        Some(image) => Ok(Line::Write {
            image,
            sectors: text_of(matches, "sectors"),
            firm: flag(matches, "firm"),
        }),
        None => Err(Fault::NoMemory),
    }
}

/// The line of `rescue`; likewise.
fn rescue_line<'a>(matches: &ArgMatches<'a>) -> Result<Line<'a>, Fault>
    ensures range { IfOk result IsLineInRange }
    ensures line { IfOk result (IsLineIn (codes "rescue") (rows_of (found_of matches.now))) }
    ensures fault { IfErr result (λ e. e ≡ Fault.NoMemory) }
{
    match matches.get_str("IMAGE") {
        Some(image) => Ok(Line::Rescue { image }),
        None => Err(Fault::NoMemory),
    }
}

/// The line of the command of this name. The parse refuses every other name, so the last arm isn't
/// reached.
fn line_of<'a>(name: &str, matches: &ArgMatches<'a>) -> Result<Line<'a>, Fault>
    ensures range { IfOk result IsLineInRange }
    ensures line { IfOk result (IsLineIn name.now (rows_of (found_of matches.now))) }
    ensures fault { IfErr result (ComesFromMatches name.now (rows_of (found_of matches.now))) }
{
    if name == "chip" {
        chip_line(matches)
    } else if name == "plain" {
        plain_line(matches)
    } else if name == "format" {
        format_line(matches)
    } else if name == "script" {
        script_line(matches)
    } else if name == "serve" {
        serve_line(matches)
    } else if name == "check" {
        check_line(matches)
    } else if name == "status" {
        status_line(matches)
    } else {
        image_line(name, matches)
    }
}

/// The line of a command of this name about an image alone: `unprotect`, `settle`, `show`, `read`,
/// `write` or `rescue`. The parse refuses every other name.
fn image_line<'a>(name: &str, matches: &ArgMatches<'a>) -> Result<Line<'a>, Fault>
    ensures range { IfOk result IsLineInRange }
    ensures line { IfOk result (IsLineIn name.now (rows_of (found_of matches.now))) }
    ensures fault { IfErr result (λ e. e ≡ Fault.NoMemory) }
{
    if name == "unprotect" {
        unprotect_line(matches)
    } else if name == "settle" {
        settle_line(matches)
    } else if name == "show" {
        show_line(matches)
    } else if name == "read" {
        read_disk_line(matches)
    } else if name == "write" {
        write_disk_line(matches)
    } else if name == "rescue" {
        rescue_line(matches)
    } else {
        Err(Fault::NoMemory)
    }
}

/// Whether the image of a line `serve`, or the socket at which it says what it does, has an empty
/// name.
fn is_serve_nameless(asked: ServeLine<'_>) -> bool
    ensures { MatchBool result (IsServeNamed asked.entry → ⊥) (IsServeNamed asked.entry) }
{
    if asked.image.is_empty() {
        return true;
    }
    match asked.status {
        Some(path) => path.is_empty(),
        None => false,
    }
}

/// Whether a path is empty, or a second one is where there is one.
fn is_path_nameless(image: &str, second: Option<&str>) -> bool
    ensures { MatchBool result
        (((image.now ≢ []) × IfSome second.entry (λ path. path.now ≢ [])) → ⊥)
        ((image.now ≢ []) × IfSome second.entry (λ path. path.now ≢ [])) }
{
    if image.is_empty() {
        return true;
    }
    match second {
        Some(path) => path.is_empty(),
        None => false,
    }
}

/// Whether the image or the socket of a line has an empty name.
fn is_nameless(line: Line<'_>) -> bool
    ensures { MatchBool result (IsNamed line.entry → ⊥) (IsNamed line.entry) }
{
    match line {
        Line::Chip(asked) => asked.image.is_empty(),
        Line::Plain { .. } => false,
        Line::Format { image, .. } => image.is_empty(),
        Line::Script { .. } => false,
        Line::Serve(asked) => is_serve_nameless(asked),
        Line::Status { path, .. } => path.is_empty(),
        Line::Check { image, against, .. } => is_path_nameless(image, against),
        Line::Unprotect { image, .. } => image.is_empty(),
        Line::Settle { image } => image.is_empty(),
        Line::Show { image } => image.is_empty(),
        Line::Read { image, .. } => image.is_empty(),
        Line::Write { image, .. } => image.is_empty(),
        Line::Rescue { image } => image.is_empty(),
    }
}

/// A line whose image and socket have names, where it has them.
fn named(line: Line<'_>) -> Result<Line<'_>, Fault>
    ensures named { IfOk result (λ it. (it ≡ line.entry) × IsNamed line.entry) }
    ensures fault { IfErr result (λ e. (e ≡ Fault.EmptyName) × (IsNamed line.entry → ⊥)) }
{
    if is_nameless(line) {
        return Err(Fault::EmptyName);
    }
    Ok(line)
}

/// A line of the command of this name, and the clock. The parse refuses a clock that is 0, so the
/// arm for it answers `NoMemory`.
fn clocked<'a>(line: Line<'a>, matches: &ArgMatches<'_>) -> Result<ReadLine<'a>, Fault>
    ensures line { IfOk result (λ it. it.line ≡ line.entry) }
    ensures clock { IfOk result (λ it. number_in (codes "spi-hz") (rows_of (found_of matches.now))
        ≡ it.clock) }
    ensures positive { IfOk result (λ it. IfSome it.clock (λ hz. 1 ≤ hz)) }
    ensures fault { IfErr result (λ e. e ≡ Fault.NoMemory) }
{
    match number_if_there(matches, "spi-hz", 1, u32::MAX) {
        Ok(clock) => Ok(ReadLine { line, clock }),
        Err(_) => Err(Fault::NoMemory),
    }
}

/// What the words make: a line and a clock, or a fault that has its cause.
fn line_or_fault<'a>(alloc: Global, words: &'a [String]) -> Result<ReadLine<'a>, Fault>
    ensures range { IfOk result (λ it. IsLineInRange it.line) }
    ensures line { IfOk result (λ it. IsLineOf (texts_of words.now) it.line) }
    ensures named { IfOk result (λ it. IsNamed it.line) }
    ensures clock { IfOk result (λ it. IsClockOf (texts_of words.now) it.clock) }
    ensures positive { IfOk result (λ it. IfSome it.clock (λ hz. 1 ≤ hz)) }
    ensures fault { IfErr result (ComesFromWords (texts_of words.now)) }
{
    let matches = match parse(alloc, words) {
        Ok(matches) => matches,
        Err(error) => return Err(fault_from(error)),
    };
    match matches.subcommand() {
        Some((name, of_name)) => match line_of(name, of_name) {
            Ok(line) => match named(line) {
                Ok(line) => clocked(line, of_name),
                Err(fault) => Err(fault),
            },
            Err(fault) => Err(fault),
        },
        None => Err(Fault::NoMemory),
    }
}

/// Reads the program's words, of which the first is its name.
///
/// `Words` where they are no line of the program or ask for help or the version, `BadSize` where
/// the number after `--kib` is from 64 to 16,384 and no multiple of 64, `BadAddress` where `serve`
/// has neither a port nor a Unix socket, or both, or an empty path, `BadSync` where the word after
/// `--sync` is none that says when, `BadTidy` likewise after `--tidy`, `EmptyName` where the path
/// of the image or of a server's status is empty, `NoMemory` where memory ran out. The parse
/// refuses words without a command, a path or a number in its range, so what comes then isn't
/// reached; it needs some fault, and answers `NoMemory`.
pub fn read_line<'a>(alloc: Global, words: &'a [String]) -> Result<ReadLine<'a>, Fault>
    ensures range { IfOk result (λ it. IsLineInRange it.line) }
    ensures line { IfOk result (λ it. IsLineOf (texts_of words.now) it.line) }
    ensures named { IfOk result (λ it. IsNamed it.line) }
    ensures clock { IfOk result (λ it. IsClockOf (texts_of words.now) it.clock) }
    ensures positive { IfOk result (λ it. IfSome it.clock (λ hz. 1 ≤ hz)) }
    ensures fault { IfErr result (ComesFromWords (texts_of words.now)) }
    ensures odd { (kib : ℕ) → HasOddSize (texts_of words.now) kib
        → IsErrAnd result (λ e. (e ≡ Fault.BadSize kib) ⊎ (e ≡ Fault.NoMemory)) }
{
    line_or_fault(alloc, words)
}
