//! The words about chips behind programmers, and about the one that is served as such.
ghost use Rattle.std.specs.Prelude.{◌≡◌, IfErr, IfOk, codes, false};
ghost use Rattle.clap.specs.Words.{app_of, found_of, kind_of, rows_of, rule_of, with_subcommand};
ghost use Rattle.norbd_line.specs.CommandLine.{chip_app, chip_port_rule, flag_rule};
ghost use Rattle.norbd_line.specs.Line.{IsLineIn, IsLineInRange};

use crate::Fault;
use crate::commands::AFTER_HELP;
use crate::line::Line;
use crate::options::{MOST_CONNS, MOST_PORT, conns_arg, image_arg, number, number_if_there};
use clap::error::ErrorKind;
use clap::{Arg, ArgAction, ArgMatches, Command, value_parser};
use std::alloc::Global;

/// What a line `chip` asks: to answer the serprog protocol for the chip in the file at the path
/// `image`, on a port of 127.0.0.1, from 1 to 65,535, to `conns` connections, from 1 to 64, one
/// after another, or without end where it is `None`.
#[derive(Debug, Clone, Copy, PartialEq, Eq)]
pub struct ChipLine<'a> {
    pub image: &'a str,
    pub port: u32,
    pub conns: Option<u32>,
}

/// `--port P`, which `chip` needs.
fn chip_port_arg<'a>(alloc: Global) -> Arg<'a>
    ensures rule { rule_of result ≡ chip_port_rule }
    ensures local { result.global ≡ false }
{
    Arg::new(alloc, "port")
        .long("port")
        .value_name("P")
        .help("The port of 127.0.0.1, from 1 to 65535")
        .required(true)
        .action(ArgAction::Set)
        .value_parser(value_parser!(u32).range(1..=65535))
}

/// `--yes`.
pub(crate) fn yes_arg<'a>(alloc: Global) -> Arg<'a>
    ensures rule { rule_of result ≡ flag_rule (codes "yes") }
    ensures local { result.global ≡ false }
{
    Arg::new(alloc, "yes")
        .long("yes")
        .help("Erases the chip behind a programmer, which isn't done\nwithout it")
        .action(ArgAction::SetTrue)
}

/// `--yes` of `unprotect`.
pub(crate) fn clear_arg<'a>(alloc: Global) -> Arg<'a>
    ensures rule { rule_of result ≡ flag_rule (codes "yes") }
    ensures local { result.global ≡ false }
{
    Arg::new(alloc, "yes")
        .long("yes")
        .help("Clears bits 2 to 7 of status register 1, which isn't done\nwithout it")
        .action(ArgAction::SetTrue)
}

/// `--trust`.
pub(crate) fn trust_arg<'a>(alloc: Global) -> Arg<'a>
    ensures rule { rule_of result ≡ flag_rule (codes "trust") }
    ensures local { result.global ≡ false }
{
    Arg::new(alloc, "trust")
        .long("trust")
        .help(
            "Doesn't read back what a chip behind a programmer has\nwritten: faster, and a program that the chip forgot\nis found later or never",
        )
        .action(ArgAction::SetTrue)
}

/// A command line with `chip` and its arguments.
pub(crate) fn with_chip<'a>(alloc: Global, norbd: Command<'a>) -> Result<Command<'a>, clap::Error>
    ensures app { IfOk result (λ c. app_of c ≡ with_subcommand (app_of norbd.entry) chip_app.top) }
    ensures memory { IfErr result (λ e. kind_of e ≡ ErrorKind.OutOfMemory) }
{
    let chip = Command::new(alloc, "chip")
        .about(
            "Answers the serprog protocol for the chip in an image, as a\nprogrammer with a chip behind it.\nExample: norbd chip chip.img --port 5000, and then\nflashrom -p serprog:ip=127.0.0.1:5000 -r copy.img",
        )
        .after_help(AFTER_HELP)
        .arg(image_arg(alloc, "The file of the chip's bytes"))?
        .arg(chip_port_arg(alloc))?
        .arg(conns_arg(alloc))?;
    Ok(norbd.subcommand(chip)?)
}

/// The line of `chip`. The parse refuses words without a path or with a number out of its range, so
/// the arms for them answer `NoMemory`.
pub(crate) fn chip_line<'a>(matches: &ArgMatches<'a>) -> Result<Line<'a>, Fault>
    ensures range { IfOk result IsLineInRange }
    ensures line { IfOk result (IsLineIn (codes "chip") (rows_of (found_of matches.now))) }
    ensures fault { IfErr result (λ e. e ≡ Fault.NoMemory) }
{
    let Some(port) = number(matches, "port", 1, MOST_PORT) else {
        return Err(Fault::NoMemory);
    };
    let Ok(conns) = number_if_there(matches, "conns", 1, MOST_CONNS) else {
        return Err(Fault::NoMemory);
    };
    match matches.get_str("IMAGE") {
        Some(image) => Ok(Line::Chip(ChipLine { image, port, conns })),
        None => Err(Fault::NoMemory),
    }
}
