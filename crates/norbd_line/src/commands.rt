//! The command line: its commands, and what it makes of the words.
ghost use Rattle.std.specs.Prelude.{◌≡◌, ◌≢◌, IfErr, IfOk};
ghost use Rattle.clap.specs.Words.{FailsBy, app_of, fault_of, kind_of, subcommand_of};
ghost use Rattle.clap.specs.Words.{subcommand_rows_of, with_subcommand};
ghost use Rattle.norbd_line.specs.CommandLine.{norbd_app, check_app, format_app, plain_app};
ghost use Rattle.norbd_line.specs.CommandLine.{script_app, read_app, show_app, with_image_apps};
ghost use Rattle.norbd_line.specs.CommandLine.{write_app, rescue_app, begun_app, serve_app};
ghost use Rattle.norbd_line.specs.CommandLine.{settle_app, status_app, texts_of, unprotect_app};

use crate::Fault;
use crate::chip::{clear_arg, trust_arg, with_chip, yes_arg};
use crate::options::{
    against_arg, bind_arg, conns_arg, firm_arg, force_arg, image_arg, json_arg, kib_arg,
    max_request_arg, mend_arg, no_record_arg, port_arg, range_arg, read_only_arg, record_arg,
    sectors_arg, spi_hz_arg, status_arg, status_path_arg, sync_arg, tidy_arg, unix_arg,
    verbose_arg,
};
use clap::error::ErrorKind;
use clap::{ArgMatches, Command};
use std::alloc::Global;

/// What `IMAGE` is where it may name a programmer too.
const IMAGE_OR_PROGRAMMER: &str =
    "The file of the chip's bytes, or the chip behind a programmer:\ntcp:HOST:PORT or serial:PATH";

/// What an image is, and what the exit statuses mean.
pub(crate) const AFTER_HELP: &str =
    "An image is a file of a flash chip's bytes, 64 KiB to 16 MiB.\nExit status: 0 done, 1 a fault, which is printed, 2 a bad line.";

/// A command line with `plain` and its arguments.
fn with_plain<'a>(alloc: Global, norbd: Command<'a>) -> Result<Command<'a>, clap::Error>
    ensures app { IfOk result (λ c. app_of c ≡ with_subcommand (app_of norbd.entry) plain_app.top) }
    ensures memory { IfErr result (λ e. kind_of e ≡ ErrorKind.OutOfMemory) }
{
    let plain = Command::new(alloc, "plain")
        .about(
            "Serves a disk in memory over standard input and output.\nExample: norbd plain --sectors 70 < requests.bin > replies.bin",
        )
        .after_help(AFTER_HELP)
        .arg(sectors_arg(alloc))?
        .arg(no_record_arg(alloc))?;
    Ok(norbd.subcommand(plain)?)
}

/// A command line with `format` and its arguments.
fn with_format<'a>(alloc: Global, norbd: Command<'a>) -> Result<Command<'a>, clap::Error>
    ensures app { IfOk result (λ c. app_of c
        ≡ with_subcommand (app_of norbd.entry) format_app.top) }
    ensures memory { IfErr result (λ e. kind_of e ≡ ErrorKind.OutOfMemory) }
{
    let format = Command::new(alloc, "format")
        .about("Makes the file of a formatted chip.\nExample: norbd format chip.img --kib 1024")
        .after_help(AFTER_HELP)
        .arg(image_arg(
            alloc,
            "The file of the chip's bytes, where one that is there is replaced; or\nthe chip behind a programmer: tcp:HOST:PORT or serial:PATH",
        ))?
        .arg(kib_arg(alloc))?
        .arg(force_arg(alloc))?
        .arg(yes_arg(alloc))?
        .arg(spi_hz_arg(alloc))?;
    Ok(norbd.subcommand(format)?)
}

/// A command line with `script` and its arguments.
fn with_script<'a>(alloc: Global, norbd: Command<'a>) -> Result<Command<'a>, clap::Error>
    ensures app { IfOk result (λ c. app_of c
        ≡ with_subcommand (app_of norbd.entry) script_app.top) }
    ensures memory { IfErr result (λ e. kind_of e ≡ ErrorKind.OutOfMemory) }
{
    let script = Command::new(alloc, "script")
        .about(
            "Runs a script of events on a formatted chip in memory, from\nstandard input to standard output.\nExample: norbd script --kib 64 < events.bin",
        )
        .after_help(AFTER_HELP)
        .arg(kib_arg(alloc))?;
    Ok(norbd.subcommand(script)?)
}

/// A command line with `serve` and its arguments.
fn with_serve<'a>(alloc: Global, norbd: Command<'a>) -> Result<Command<'a>, clap::Error>
    ensures app { IfOk result (λ c. app_of c ≡ with_subcommand (app_of norbd.entry) serve_app.top) }
    ensures memory { IfErr result (λ e. kind_of e ≡ ErrorKind.OutOfMemory) }
{
    let serve = Command::new(alloc, "serve")
        .about(
            "Serves the chip in an image file to NBD clients, on a port\nor a Unix socket.\nExample: norbd serve chip.img --port 10809",
        )
        .after_help(AFTER_HELP)
        .arg(image_arg(alloc, IMAGE_OR_PROGRAMMER))?
        .arg(port_arg(alloc))?
        .arg(bind_arg(alloc))?
        .arg(unix_arg(alloc))?
        .arg(conns_arg(alloc))?
        .arg(record_arg(alloc))?
        .arg(sync_arg(alloc))?
        .arg(tidy_arg(alloc))?
        .arg(max_request_arg(alloc))?
        .arg(read_only_arg(alloc))?
        .arg(verbose_arg(alloc))?
        .arg(trust_arg(alloc))?
        .arg(status_arg(alloc))?
        .arg(spi_hz_arg(alloc))?
        .arg(firm_arg(alloc))?;
    Ok(norbd.subcommand(serve)?)
}

/// A command line with `status` and its arguments.
fn with_status<'a>(alloc: Global, norbd: Command<'a>) -> Result<Command<'a>, clap::Error>
    ensures app { IfOk result (λ c. app_of c
        ≡ with_subcommand (app_of norbd.entry) status_app.top) }
    ensures memory { IfErr result (λ e. kind_of e ≡ ErrorKind.OutOfMemory) }
{
    let status = Command::new(alloc, "status")
        .about(
            "Says what a server does that was started with --status PATH.\nExample: norbd status chip.status",
        )
        .after_help(AFTER_HELP)
        .arg(status_path_arg(alloc))?
        .arg(json_arg(alloc))?;
    Ok(norbd.subcommand(status)?)
}

/// A command line with `check` and its arguments.
fn with_check<'a>(alloc: Global, norbd: Command<'a>) -> Result<Command<'a>, clap::Error>
    ensures app { IfOk result (λ c. app_of c ≡ with_subcommand (app_of norbd.entry) check_app.top) }
    ensures memory { IfErr result (λ e. kind_of e ≡ ErrorKind.OutOfMemory) }
{
    let check = Command::new(alloc, "check")
        .about(
            "Says whether an image would be served, and if not, why; mends one\nthat isn't clean.\nExample: norbd check chip.img --mend",
        )
        .after_help(AFTER_HELP)
        .arg(image_arg(alloc, IMAGE_OR_PROGRAMMER))?
        .arg(mend_arg(alloc))?
        .arg(json_arg(alloc))?
        .arg(against_arg(alloc))?
        .arg(spi_hz_arg(alloc))?;
    Ok(norbd.subcommand(check)?)
}

/// A command line with `unprotect` and its arguments.
fn with_unprotect<'a>(alloc: Global, norbd: Command<'a>) -> Result<Command<'a>, clap::Error>
    ensures app { IfOk result (λ c. app_of c
        ≡ with_subcommand (app_of norbd.entry) unprotect_app.top) }
    ensures memory { IfErr result (λ e. kind_of e ≡ ErrorKind.OutOfMemory) }
{
    let unprotect = Command::new(alloc, "unprotect")
        .about(
            "Ends the protection of a chip behind a programmer, and keeps what\nis on it.\nExample: norbd unprotect tcp:127.0.0.1:5000 --yes",
        )
        .after_help(AFTER_HELP)
        .arg(image_arg(
            alloc,
            "The chip behind a programmer: tcp:HOST:PORT or serial:PATH",
        ))?
        .arg(clear_arg(alloc))?
        .arg(spi_hz_arg(alloc))?;
    Ok(norbd.subcommand(unprotect)?)
}

/// A command line with `settle` and its arguments.
fn with_settle<'a>(alloc: Global, norbd: Command<'a>) -> Result<Command<'a>, clap::Error>
    ensures app { IfOk result (λ c. app_of c
        ≡ with_subcommand (app_of norbd.entry) settle_app.top) }
    ensures memory { IfErr result (λ e. kind_of e ≡ ErrorKind.OutOfMemory) }
{
    let settle = Command::new(alloc, "settle")
        .about(
            "Erases all of a chip once and keeps its disk, where the chip lost\nits power under an older program.\nExample: norbd settle tcp:127.0.0.1:5000",
        )
        .after_help(AFTER_HELP)
        .arg(image_arg(alloc, IMAGE_OR_PROGRAMMER))?
        .arg(spi_hz_arg(alloc))?;
    Ok(norbd.subcommand(settle)?)
}

/// A command line with `show` and its arguments.
fn with_show<'a>(alloc: Global, norbd: Command<'a>) -> Result<Command<'a>, clap::Error>
    ensures app { IfOk result (λ c. app_of c ≡ with_subcommand (app_of norbd.entry) show_app.top) }
    ensures memory { IfErr result (λ e. kind_of e ≡ ErrorKind.OutOfMemory) }
{
    let show = Command::new(alloc, "show")
        .about("Draws the blocks of an image, a character for each.\nExample: norbd show chip.img")
        .after_help(AFTER_HELP)
        .arg(image_arg(alloc, IMAGE_OR_PROGRAMMER))?
        .arg(spi_hz_arg(alloc))?;
    Ok(norbd.subcommand(show)?)
}

/// A command line with `read` and its arguments.
fn with_read<'a>(alloc: Global, norbd: Command<'a>) -> Result<Command<'a>, clap::Error>
    ensures app { IfOk result (λ c. app_of c ≡ with_subcommand (app_of norbd.entry) read_app.top) }
    ensures memory { IfErr result (λ e. kind_of e ≡ ErrorKind.OutOfMemory) }
{
    let read = Command::new(alloc, "read")
        .about(
            "Writes the disk in an image to standard output, without a server.\nExample: norbd read chip.img > disk.img",
        )
        .after_help(AFTER_HELP)
        .arg(image_arg(alloc, IMAGE_OR_PROGRAMMER))?
        .arg(range_arg(alloc))?
        .arg(spi_hz_arg(alloc))?;
    Ok(norbd.subcommand(read)?)
}

/// A command line with `write` and its arguments.
fn with_write<'a>(alloc: Global, norbd: Command<'a>) -> Result<Command<'a>, clap::Error>
    ensures app { IfOk result (λ c. app_of c ≡ with_subcommand (app_of norbd.entry) write_app.top) }
    ensures memory { IfErr result (λ e. kind_of e ≡ ErrorKind.OutOfMemory) }
{
    let write = Command::new(alloc, "write")
        .about(
            "Replaces the disk in an image by standard input, which has\nto be as long.\nExample: norbd write chip.img < disk.img",
        )
        .after_help(AFTER_HELP)
        .arg(image_arg(alloc, IMAGE_OR_PROGRAMMER))?
        .arg(range_arg(alloc))?
        .arg(spi_hz_arg(alloc))?
        .arg(firm_arg(alloc))?;
    Ok(norbd.subcommand(write)?)
}

/// A command line with `rescue` and its argument.
fn with_rescue<'a>(alloc: Global, norbd: Command<'a>) -> Result<Command<'a>, clap::Error>
    ensures app { IfOk result (λ c. app_of c
        ≡ with_subcommand (app_of norbd.entry) rescue_app.top) }
    ensures memory { IfErr result (λ e. kind_of e ≡ ErrorKind.OutOfMemory) }
{
    let rescue = Command::new(alloc, "rescue")
        .about(
            "Writes what can be told of the disk in a damaged image to standard\noutput, and the rest to standard error.\nExample: norbd rescue chip.img > disk.img",
        )
        .after_help(AFTER_HELP)
        .arg(image_arg(alloc, "The file of the chip's bytes"))?;
    Ok(norbd.subcommand(rescue)?)
}

/// A command line with the commands about an image without a server: `check`, `unprotect`,
/// `settle`, `show`, `read`, `write` and `rescue`.
fn with_image_lines<'a>(alloc: Global, norbd: Command<'a>) -> Result<Command<'a>, clap::Error>
    ensures app { IfOk result (λ c. app_of c ≡ with_image_apps (app_of norbd.entry)) }
    ensures memory { IfErr result (λ e. kind_of e ≡ ErrorKind.OutOfMemory) }
{
    let norbd = with_check(alloc, norbd)?;
    let norbd = with_unprotect(alloc, norbd)?;
    let norbd = with_settle(alloc, norbd)?;
    let norbd = with_show(alloc, norbd)?;
    let norbd = with_read(alloc, norbd)?;
    let norbd = with_write(alloc, norbd)?;
    with_rescue(alloc, norbd)
}

/// What `--version` says after the name: the version, and the toolchain that proved and built it.
const VERSION: &str = "0.1.0, proved by rattle-kit-13b logic dac8208d650f15bf";

/// The program's command line with its first command.
fn begun_command<'a>(alloc: Global) -> Result<Command<'a>, clap::Error>
    ensures app { IfOk result (λ c. app_of c ≡ begun_app) }
    ensures memory { IfErr result (λ e. kind_of e ≡ ErrorKind.OutOfMemory) }
{
    let norbd = Command::new(alloc, "norbd")
        .bin_name("norbd")?
        .version(VERSION)
        .subcommand_required(true);
    with_chip(alloc, norbd)
}

/// The program's whole command line.
fn whole_command<'a>(alloc: Global) -> Result<Command<'a>, clap::Error>
    ensures app { IfOk result (λ c. app_of c ≡ norbd_app) }
    ensures memory { IfErr result (λ e. kind_of e ≡ ErrorKind.OutOfMemory) }
{
    let norbd = begun_command(alloc)?;
    let norbd = with_plain(alloc, norbd)?;
    let norbd = with_format(alloc, norbd)?;
    let norbd = with_script(alloc, norbd)?;
    let norbd = with_serve(alloc, norbd)?;
    let norbd = with_status(alloc, norbd)?;
    with_image_lines(alloc, norbd)
}

/// What the command line makes of the words.
pub(crate) fn parse<'a>(alloc: Global, words: &'a [String]) -> Result<ArgMatches<'a>, clap::Error>
    ensures matches { IfOk result (λ m. subcommand_rows_of m
        ≡ subcommand_of norbd_app (texts_of words.now)) }
    ensures kinds { FailsBy (fault_of norbd_app (texts_of words.now)) result }
{
    whole_command(alloc)?.try_get_matches_from(words)
}

/// The fault that a failed parse is.
pub(crate) fn fault_from(error: clap::Error) -> Fault
    ensures memory { kind_of error ≡ ErrorKind.OutOfMemory → result ≡ Fault.NoMemory }
    ensures words { kind_of error ≢ ErrorKind.OutOfMemory → result ≡ Fault.Words error }
{
    if error.kind() == ErrorKind::OutOfMemory {
        Fault::NoMemory
    } else {
        Fault::Words(error)
    }
}
