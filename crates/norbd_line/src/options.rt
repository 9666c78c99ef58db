//! The options: each as an argument of the command line, and what is read of it.
ghost use Rattle.std.specs.Prelude.{◌≡◌, ◌≤◌, IfErr, IfOk, IfSome, Some, codes, false, option_map};
ghost use Rattle.clap.specs.Words.{Text, found_of, one_text, first_of, rows_of, rule_of};
ghost use Rattle.norbd_line.specs.CommandLine.{conns_rule, flag_rule, image_rule, kib_rule};
ghost use Rattle.norbd_line.specs.CommandLine.{port_rule, sectors_rule, max_request_rule};
ghost use Rattle.norbd_line.specs.CommandLine.{spi_hz_rule};
ghost use Rattle.norbd_line.specs.CommandLine.{status_path_rule, text_rule, verbose_rule};
ghost use Rattle.norbd_line.specs.Fault.{ComesFromMatches};
ghost use Rattle.norbd_line.specs.Line.{IsPort, IsSet, IsSize, TakesSize, number_in, number_of};
ghost use Rattle.norbd_line.specs.Line.{sync_in, tidy_in};

use crate::Fault;
use crate::line::{SyncPolicy, TidyPolicy};
use clap::{Arg, ArgAction, ArgMatches, value_parser};
use std::alloc::Global;

/// The least number of sectors of a plain disk.
pub(crate) const LEAST_SECTORS: u32 = 1;

/// The largest number of sectors of a plain disk.
pub(crate) const MOST_SECTORS: u32 = 65_536;

/// The largest number of a port; the least is 1.
pub(crate) const MOST_PORT: u32 = 65_535;

/// The largest number of connections; the least is 1.
pub const MOST_CONNS: u32 = 64;

/// The least length in KiB that may be the largest of a READ or WRITE.
pub(crate) const LEAST_REQUEST: u32 = 64;

/// The largest one, in KiB: what an NBD client may send at most where no sizes are told.
pub(crate) const MOST_REQUEST: u32 = 32_768;

/// The least size of a chip, in KiB.
const LEAST_KIB: u32 = 64;

/// The largest size of a chip, in KiB.
const MOST_KIB: u32 = 16_384;

/// The size of a chip is a multiple of this, in KiB.
const UNIT_KIB: u32 = 64;

/// `--sectors S`.
pub(crate) fn sectors_arg<'a>(alloc: Global) -> Arg<'a>
    ensures rule { rule_of result ≡ sectors_rule }
    ensures local { result.global ≡ false }
{
    Arg::new(alloc, "sectors")
        .long("sectors")
        .value_name("S")
        .help("Sectors of 512 bytes, from 1 to 65536")
        .required(true)
        .action(ArgAction::Set)
        .value_parser(value_parser!(u32).range(1..=65536))
}

/// `--kib K`.
pub(crate) fn kib_arg<'a>(alloc: Global) -> Arg<'a>
    ensures rule { rule_of result ≡ kib_rule }
    ensures local { result.global ≡ false }
{
    Arg::new(alloc, "kib")
        .long("kib")
        .value_name("K")
        .help("The chip's size in KiB, a multiple of 64 from 64 to 16384")
        .required(true)
        .action(ArgAction::Set)
        .value_parser(value_parser!(u32).range(64..=16384))
}

/// `--port P`.
pub(crate) fn port_arg<'a>(alloc: Global) -> Arg<'a>
    ensures rule { rule_of result ≡ port_rule }
    ensures local { result.global ≡ false }
{
    Arg::new(alloc, "port")
        .long("port")
        .value_name("P")
        .help("The port, from 1 to 65535")
        .action(ArgAction::Set)
        .value_parser(value_parser!(u32).range(1..=65535))
}

/// `--conns C`.
pub(crate) fn conns_arg<'a>(alloc: Global) -> Arg<'a>
    ensures rule { rule_of result ≡ conns_rule }
    ensures local { result.global ≡ false }
{
    Arg::new(alloc, "conns")
        .long("conns")
        .value_name("C")
        .help("How many connections are served in all, from 1 to 64;\nwithout it, any number")
        .action(ArgAction::Set)
        .value_parser(value_parser!(u32).range(1..=64))
}

/// `--max-request KIB`.
pub(crate) fn max_request_arg<'a>(alloc: Global) -> Arg<'a>
    ensures rule { rule_of result ≡ max_request_rule }
    ensures local { result.global ≡ false }
{
    Arg::new(alloc, "max-request")
        .long("max-request")
        .value_name("KIB")
        .help(
            "The longest READ or WRITE in KiB, from 64 to 32768;\nwithout it, 64 are told, 1024 taken",
        )
        .action(ArgAction::Set)
        .value_parser(value_parser!(u32).range(64..=32768))
}

/// `--spi-hz N`.
pub(crate) fn spi_hz_arg<'a>(alloc: Global) -> Arg<'a>
    ensures rule { rule_of result ≡ spi_hz_rule }
    ensures local { result.global ≡ false }
{
    Arg::new(alloc, "spi-hz")
        .long("spi-hz")
        .value_name("N")
        .help(
            "The clock in Hz that a programmer is to set for its\nchip; without it, the programmer's own",
        )
        .action(ArgAction::Set)
        .value_parser(value_parser!(u32).range(1..=4294967295))
}

/// `--firm`.
pub(crate) fn firm_arg<'a>(alloc: Global) -> Arg<'a>
    ensures rule { rule_of result ≡ flag_rule (codes "firm") }
    ensures local { result.global ≡ false }
{
    Arg::new(alloc, "firm")
        .long("firm")
        .help(
            "Mounts an image as a chip behind a programmer always\nis: bits that a loss of power tore may waver, so they\nare programmed again before they count",
        )
        .action(ArgAction::SetTrue)
}

/// `--read-only`.
pub(crate) fn read_only_arg<'a>(alloc: Global) -> Arg<'a>
    ensures rule { rule_of result ≡ flag_rule (codes "read-only") }
    ensures local { result.global ≡ false }
{
    Arg::new(alloc, "read-only")
        .long("read-only")
        .help("Refuses whatever would change the disk, and changes\nnothing of the file")
        .action(ArgAction::SetTrue)
}

/// `--bind ADDR`.
pub(crate) fn bind_arg<'a>(alloc: Global) -> Arg<'a>
    ensures rule { rule_of result ≡ text_rule (codes "bind") }
    ensures local { result.global ≡ false }
{
    Arg::new(alloc, "bind")
        .long("bind")
        .value_name("ADDR")
        .help(
            "The IP address of the port, 127.0.0.1 without it;\nwhoever reaches it can read and write",
        )
        .action(ArgAction::Set)
}

/// `--unix PATH`.
pub(crate) fn unix_arg<'a>(alloc: Global) -> Arg<'a>
    ensures rule { rule_of result ≡ text_rule (codes "unix") }
    ensures local { result.global ≡ false }
{
    Arg::new(alloc, "unix")
        .long("unix")
        .value_name("PATH")
        .help("The Unix socket that is made for clients, in the\nplace of a port")
        .action(ArgAction::Set)
}

/// `--sync WHEN`.
pub(crate) fn sync_arg<'a>(alloc: Global) -> Arg<'a>
    ensures rule { rule_of result ≡ text_rule (codes "sync") }
    ensures local { result.global ≡ false }
{
    Arg::new(alloc, "sync")
        .long("sync")
        .value_name("WHEN")
        .help(
            "When the image is synced to this machine's disk:\nflush (as without it), never or always",
        )
        .action(ArgAction::Set)
}

/// `--tidy WHEN`.
pub(crate) fn tidy_arg<'a>(alloc: Global) -> Arg<'a>
    ensures rule { rule_of result ≡ text_rule (codes "tidy") }
    ensures local { result.global ≡ false }
{
    Arg::new(alloc, "tidy")
        .long("tidy")
        .value_name("WHEN")
        .help(
            "When blocks are tidied: lazy (as without it), while\nfew slots are free, or eager, while any is dead",
        )
        .action(ArgAction::Set)
}

/// `--force`.
pub(crate) fn force_arg<'a>(alloc: Global) -> Arg<'a>
    ensures rule { rule_of result ≡ flag_rule (codes "force") }
    ensures local { result.global ≡ false }
{
    Arg::new(alloc, "force")
        .long("force")
        .help("Replaces a file that holds something, too")
        .action(ArgAction::SetTrue)
}

/// `--record`.
pub(crate) fn record_arg<'a>(alloc: Global) -> Arg<'a>
    ensures rule { rule_of result ≡ flag_rule (codes "record") }
    ensures local { result.global ≡ false }
{
    Arg::new(alloc, "record")
        .long("record")
        .help(
            "Keeps a row of each command in memory, its reply's\nbytes too, and tells how many they are",
        )
        .action(ArgAction::SetTrue)
}

/// `-v`.
pub(crate) fn verbose_arg<'a>(alloc: Global) -> Arg<'a>
    ensures rule { rule_of result ≡ verbose_rule }
    ensures local { result.global ≡ false }
{
    Arg::new(alloc, "verbose")
        .short('v')
        .long("verbose")
        .help(
            "Tells on standard error of each connection's begin\nand end, and of each refused request",
        )
        .action(ArgAction::SetTrue)
}

/// `--status PATH`.
pub(crate) fn status_arg<'a>(alloc: Global) -> Arg<'a>
    ensures rule { rule_of result ≡ text_rule (codes "status") }
    ensures local { result.global ≡ false }
{
    Arg::new(alloc, "status")
        .long("status")
        .value_name("PATH")
        .help("Makes a Unix socket for norbd status to ask at")
        .action(ArgAction::Set)
}

/// `--against DUMP`.
pub(crate) fn against_arg<'a>(alloc: Global) -> Arg<'a>
    ensures rule { rule_of result ≡ text_rule (codes "against") }
    ensures local { result.global ≡ false }
{
    Arg::new(alloc, "against")
        .long("against")
        .value_name("DUMP")
        .help(
            "Says which sectors differ from those in an older copy\nof the chip, as flashrom reads one into a file",
        )
        .action(ArgAction::Set)
}

/// `PATH`, of a server's status.
pub(crate) fn status_path_arg<'a>(alloc: Global) -> Arg<'a>
    ensures rule { rule_of result ≡ status_path_rule }
    ensures local { result.global ≡ false }
{
    Arg::new(alloc, "PATH")
        .help("The path that the server was given after --status")
        .required(true)
        .action(ArgAction::Set)
}

/// `--no-record`.
pub(crate) fn no_record_arg<'a>(alloc: Global) -> Arg<'a>
    ensures rule { rule_of result ≡ flag_rule (codes "no-record") }
    ensures local { result.global ≡ false }
{
    Arg::new(alloc, "no-record")
        .long("no-record")
        .help("Keeps no row of a command, so that the memory\nstays the same")
        .action(ArgAction::SetTrue)
}

/// `--mend`.
pub(crate) fn mend_arg<'a>(alloc: Global) -> Arg<'a>
    ensures rule { rule_of result ≡ flag_rule (codes "mend") }
    ensures local { result.global ≡ false }
{
    Arg::new(alloc, "mend")
        .long("mend")
        .help("Replaces an image that isn't clean by a clean one of\nthe same sectors")
        .action(ArgAction::SetTrue)
}

/// `--json`.
pub(crate) fn json_arg<'a>(alloc: Global) -> Arg<'a>
    ensures rule { rule_of result ≡ flag_rule (codes "json") }
    ensures local { result.global ≡ false }
{
    Arg::new(alloc, "json")
        .long("json")
        .help("Tells it in JSON, for programs")
        .action(ArgAction::SetTrue)
}

/// `--sectors A:B`.
pub(crate) fn range_arg<'a>(alloc: Global) -> Arg<'a>
    ensures rule { rule_of result ≡ text_rule (codes "sectors") }
    ensures local { result.global ≡ false }
{
    Arg::new(alloc, "sectors")
        .long("sectors")
        .value_name("A:B")
        .help("From sector A on and before sector B, counted from 0;\nwithout it, the whole disk")
        .action(ArgAction::Set)
}

/// `IMAGE`.
pub(crate) fn image_arg<'a>(alloc: Global, help: &'a str) -> Arg<'a>
    ensures rule { rule_of result ≡ image_rule }
    ensures local { result.global ≡ false }
{
    Arg::new(alloc, "IMAGE")
        .help(help)
        .required(true)
        .action(ArgAction::Set)
}

/// A number of the line, if it is there and from `least` to `most`.
pub(crate) fn number(matches: &ArgMatches<'_>, id: &str, least: u32, most: u32) -> Option<u32>
    ensures range { IfSome result (λ n. (least ≤ n) × (n ≤ most)) }
    ensures text { IfSome result (λ n. option_map number_of (one_text (found_of matches.now) id.now)
        ≡ Some n) }
{
    match matches.get_one::<u32>(id) {
        Some(n) => if least <= n && n <= most {
            Some(n)
        } else {
            None
        },
        None => None,
    }
}

/// Whether a flag is among the words.
pub(crate) fn flag(matches: &ArgMatches<'_>, id: &str) -> bool
    ensures { IsSet id.now (rows_of (found_of matches.now)) result }
{
    let Some(text) = matches.get_str(id) else {
        return false;
    };
    if text == "true" {
        return true;
    }
    false
}

/// The number after `--kib`: the size of a chip in KiB, a multiple of 64 from 64 to 16,384.
/// `BadSize` where it is in this range and no multiple of 64. The parse refuses words without a
/// number in the range, so the arm for them answers `NoMemory`.
pub(crate) fn chip_size(matches: &ArgMatches<'_>) -> Result<u32, Fault>
    ensures size { IfOk result IsSize }
    ensures number { IfOk result (λ kib. number_in (codes "kib") (rows_of (found_of matches.now))
        ≡ Some kib) }
    ensures fault { (name : Text) → TakesSize name
        → IfErr result (ComesFromMatches name (rows_of (found_of matches.now))) }
{
    let Some(kib) = number(matches, "kib", LEAST_KIB, MOST_KIB) else {
        return Err(Fault::NoMemory);
    };
    if kib % UNIT_KIB != 0 {
        return Err(Fault::BadSize(kib));
    }
    Ok(kib)
}

/// The number after an option that may be left out, or `None` where it is. The parse refuses one
/// that isn't from `least` to `most`, so the arm for it answers `NoMemory`.
pub(crate) fn number_if_there(
    matches: &ArgMatches<'_>,
    id: &str,
    least: u32,
    most: u32,
) -> Result<Option<u32>, Fault>
    ensures range { IfOk result (λ there. IfSome there (λ n. (least ≤ n) × (n ≤ most))) }
    ensures number { IfOk result (λ there.
        number_in id.now (rows_of (found_of matches.now)) ≡ there) }
{
    let Some(_) = matches.get_str(id) else {
        return Ok(None);
    };
    match number(matches, id, least, most) {
        Some(n) => Ok(Some(n)),
        None => Err(Fault::NoMemory),
    }
}

/// What the word after `--sync` says, if it says something.
pub(crate) fn sync_of(matches: &ArgMatches<'_>) -> Option<SyncPolicy>
    ensures { sync_in (rows_of (found_of matches.now)) ≡ result }
{
    let Some(word) = matches.get_str("sync") else {
        return Some(SyncPolicy::AtFlush);
    };
    if word == "flush" {
        Some(SyncPolicy::AtFlush)
    } else if word == "never" {
        Some(SyncPolicy::Never)
    } else if word == "always" {
        Some(SyncPolicy::Always)
    } else {
        None
    }
}

/// What the word after `--tidy` says, if it says something.
pub(crate) fn tidy_of(matches: &ArgMatches<'_>) -> Option<TidyPolicy>
    ensures { tidy_in (rows_of (found_of matches.now)) ≡ result }
{
    let Some(word) = matches.get_str("tidy") else {
        return Some(TidyPolicy::Lazily);
    };
    if word == "lazy" {
        Some(TidyPolicy::Lazily)
    } else if word == "eager" {
        Some(TidyPolicy::Eagerly)
    } else {
        None
    }
}

/// The number after `--port`, or `None` where there is none. The parse refuses one out of its
/// range, so the arm for it answers `NoMemory`.
pub(crate) fn port_of(matches: &ArgMatches<'_>) -> Result<Option<u32>, Fault>
    ensures range { IfOk result (λ port. IfSome port IsPort) }
    ensures number { IfOk result (λ port.
        number_in (codes "port") (rows_of (found_of matches.now)) ≡ port) }
    ensures fault { IfErr result (λ e. e ≡ Fault.NoMemory) }
{
    let Some(_) = matches.get_str("port") else {
        return Ok(None);
    };
    match number(matches, "port", 1, MOST_PORT) {
        Some(port) => Ok(Some(port)),
        None => Err(Fault::NoMemory),
    }
}

/// The text of an option, if it is there.
pub(crate) fn text_of<'a>(matches: &ArgMatches<'a>, id: &str) -> Option<&'a str>
    ensures { first_of id.now (rows_of (found_of matches.now))
        ≡ option_map (λ text. text.now) result }
{
    matches.get_str(id)
}
