//! What is printed of a fault: its text, the file or the place that it is about, and the cause.

use crate::check::report_about;
use crate::image_log::looked_through;
use norbd_image::{ImageFile, Joined, hold_to_read, log_path};
use norbd_line::{Answer, Cause, Fault, Line, Place};
use norbd_survey::Reason;
use sector_survey::Verdict;
use serprog_link::programmer_of;
use std::fmt;
use std::io::ErrorKind;
use std::net::Ipv6Addr;
use std::rt::Files;

/// Why standard output failed: it was closed before the start, or the system's answer.
#[derive(Clone, Copy, Debug, PartialEq, Eq, Drop)]
pub enum Failure {
    Closed,
    Answered(ErrorKind),
}

/// A fault, the line in which it came, where there was one, and where they are known which rule a
/// corrupt image breaks and why standard output failed. Its text is the fault's, a colon and the
/// file or the place, and a colon and the cause where it is known.
#[derive(Drop)]
pub struct Telling<'f, 'l> {
    pub fault: &'f Fault,
    pub line: Option<Line<'l>>,
    pub reason: Option<String>,
    pub output: Option<Failure>,
}

/// Which rule the corrupt image of a line breaks, and where, as `check` tells it, which has told it
/// then. The image is looked at once more, and left as it is; a chip behind a programmer is not. Of
/// a log that is refused it is the log's path.
pub fn reason_of<R>(rt: &R, fault: &Fault, line: Line<'_>) -> Option<String>
where
    R: Files + AllocGlobal,
    R::File: ImageFile,
{
    match (fault, line) {
        (Fault::Corrupt, Line::Check { .. }) => None,
        (Fault::Corrupt, line) => match image_of(Some(line)) {
            Subject::Path(path) if programmer_of(path, None).is_none() => reason_in(rt, path),
            _ => None,
        },
        (Fault::ImageFailed(Cause::Log(_)), line) => log_in(rt, image_of(Some(line))),
        (Fault::ImageFailed(Cause::NoLog), line) => log_in(rt, image_of(Some(line))),
        (Fault::ImageFailed(Cause::OtherLog), line) => log_in(rt, image_of(Some(line))),
        _ => None,
    }
}

/// The path of the log beside an image.
fn log_in<R>(rt: &R, image: Subject<'_>) -> Option<String>
where
    R: Files + AllocGlobal,
{
    match image {
        Subject::Path(path) => log_path(rt, path).ok(),
        _ => None,
    }
}

/// Which rule the image in a file breaks.
fn reason_in<R>(rt: &R, path: &str) -> Option<String>
where
    R: Files + AllocGlobal,
    R::File: ImageFile,
{
    let Ok(held) = hold_to_read(rt, path) else {
        return None;
    };
    let Ok(Joined { bytes, .. }) = looked_through(rt, path, &held) else {
        return None;
    };
    let image = bytes.as_slice();
    let Ok(report) = report_about(rt.alloc(), image) else {
        return None;
    };
    let Verdict::Corrupt(finding) = report.verdict else {
        return None;
    };
    let reason = Reason { finding, image };
    match format!(in rt.alloc(); "{reason}") {
        Ok(text) => Some(text),
        Err(_) => None,
    }
}

/// What is done with a device that a command would have written.
const DEVICE: &str =
    "a device is only read, flashrom or mtd-utils write one, a programmer serves it";

/// What tells of a chip's protection, and what ends it.
const UNPROTECT: &str = ": norbd check says by what, norbd unprotect --yes ends that";

/// What a fault is about.
#[derive(Clone, Copy)]
enum Subject<'l> {
    Nothing,
    Path(&'l str),
    Port(u32),
}

/// What the faults of a line's image are about.
fn image_of(line: Option<Line<'_>>) -> Subject<'_> {
    match line {
        Some(Line::Chip(asked)) => Subject::Path(asked.image),
        Some(Line::Format { image, .. }) => Subject::Path(image),
        Some(Line::Serve(asked)) => Subject::Path(asked.image),
        Some(Line::Check { image, .. }) => Subject::Path(image),
        Some(Line::Unprotect { image, .. }) => Subject::Path(image),
        Some(Line::Settle { image }) => Subject::Path(image),
        Some(Line::Show { image }) => Subject::Path(image),
        Some(Line::Read { image, .. }) => Subject::Path(image),
        Some(Line::Write { image, .. }) => Subject::Path(image),
        Some(Line::Rescue { image }) => Subject::Path(image),
        _ => Subject::Nothing,
    }
}

/// What helps where an image, or the chip in its place, isn't clean.
fn mending_of(line: Option<Line<'_>>) -> &'static str {
    match image_of(line) {
        Subject::Path(path) if programmer_of(path, None).is_some() =>
            "flashrom reads it into a file, norbd check --mend mends that, flashrom writes it",
        _ => "norbd check --mend mends it",
    }
}

/// What helps where a chip that a line would change is protected; `check` has told it before.
fn unprotecting_of(line: Option<Line<'_>>) -> &'static str {
    match line {
        Some(Line::Serve(_)) => UNPROTECT,
        Some(Line::Write { .. }) => UNPROTECT,
        Some(Line::Settle { .. }) => UNPROTECT,
        _ => "",
    }
}

/// What the faults of a line's place are about.
fn place_of(line: Option<Line<'_>>) -> Subject<'_> {
    match line {
        Some(Line::Chip(asked)) => Subject::Port(asked.port),
        Some(Line::Serve(asked)) => match asked.place {
            Place::Port { port, .. } => Subject::Port(port),
            Place::Unix(path) => Subject::Path(path),
        },
        _ => Subject::Nothing,
    }
}

/// What the faults of a status are about: the path of its socket.
fn status_of(line: Option<Line<'_>>) -> Subject<'_> {
    match line {
        Some(Line::Status { path, .. }) => Subject::Path(path),
        Some(Line::Serve(asked)) => match asked.status {
            Some(path) => Subject::Path(path),
            None => Subject::Nothing,
        },
        _ => Subject::Nothing,
    }
}

/// What a fault is about, in its line.
fn subject_of<'l>(fault: &Fault, line: Option<Line<'l>>) -> Subject<'l> {
    match fault {
        Fault::ImageFailed(_) => image_of(line),
        Fault::InUse => image_of(line),
        Fault::Formatted => image_of(line),
        Fault::NotEmpty => image_of(line),
        Fault::WrongId => image_of(line),
        Fault::BadSfdp => image_of(line),
        Fault::Protected => image_of(line),
        Fault::Slow => image_of(line),
        Fault::NotFormatted => image_of(line),
        Fault::Corrupt => image_of(line),
        Fault::NotClean => image_of(line),
        Fault::BadImageSize(_) => image_of(line),
        Fault::BadRange(_) => image_of(line),
        Fault::NoSocket(Cause::Status(_)) => status_of(line),
        Fault::NoSocket(_) => place_of(line),
        _ => Subject::Nothing,
    }
}

/// The address after `--bind` of a line.
fn bind_of<'l>(line: Option<Line<'l>>) -> Option<&'l str> {
    match line {
        Some(Line::Serve(asked)) => match asked.place {
            Place::Port { bind, .. } => bind,
            Place::Unix(_) => None,
        },
        _ => None,
    }
}

/// Whether a text is a link-local address of IPv6, which is one of a zone. Source: RFC 4007, 6.
fn is_link_local(text: Option<&str>) -> bool {
    let Some(text) = text else {
        return false;
    };
    match text.parse::<Ipv6Addr>() {
        Ok(address) => address.is_unicast_link_local(),
        Err(_) => false,
    }
}

/// The text after `--sectors` of a line.
fn range_of<'l>(line: Option<Line<'l>>) -> Option<&'l str> {
    match line {
        Some(Line::Read { sectors, .. }) => sectors,
        Some(Line::Write { sectors, .. }) => sectors,
        _ => None,
    }
}

/// The number behind the colon of a text, if there is one.
fn end_in(text: Option<&str>) -> Option<u64> {
    let Some(text) = text else {
        return None;
    };
    let Some((_, end)) = text.split_once(':') else {
        return None;
    };
    match end.parse::<u64>() {
        Ok(end) => Some(end),
        Err(_) => None,
    }
}

/// Why a text is no range of sectors of a disk that has so many.
fn write_range<W: fmt::Write>(
    f: &mut fmt::Formatter<W>,
    text: Option<&str>,
    sectors: u32,
) -> fmt::Result {
    match end_in(text) {
        Some(end) if end > sectors as u64 => write!(f, ": {end} is above {sectors}"),
        _ => f.write_str(": A:B, with A below B, of the disk's sectors"),
    }
}

/// Why a programmer of this name isn't reached, by the system's answer.
fn write_unreached<W: fmt::Write>(
    f: &mut fmt::Formatter<W>,
    name: &str,
    kind: ErrorKind,
) -> fmt::Result {
    let is_host = name.starts_with("tcp:");
    match kind {
        ErrorKind::Uncategorized if is_host => f.write_str(": unknown host"),
        ErrorKind::InvalidInput if is_host => f.write_str(": tcp:HOST:PORT is wanted"),
        ErrorKind::InvalidInput => f.write_str(": not a character device"),
        kind => write!(f, ": {}", Answer(kind)),
    }
}

impl Telling<'_, '_> {
    /// The file or the place that the fault is about.
    fn write_subject<W: fmt::Write>(&self, f: &mut fmt::Formatter<W>) -> fmt::Result {
        match subject_of(self.fault, self.line) {
            Subject::Nothing => Ok(()),
            Subject::Path(path) => write!(f, ": {path}"),
            Subject::Port(port) => match bind_of(self.line) {
                Some(bind) => write!(f, ": {bind} port {port}"),
                None => write!(f, ": port {port}"),
            },
        }
    }

    /// Which rule a corrupt image breaks; `check` has told it before.
    fn write_reason<W: fmt::Write>(&self, f: &mut fmt::Formatter<W>) -> fmt::Result {
        match (&self.reason, self.line) {
            (Some(reason), _) => write!(f, ": {reason}"),
            (None, Some(Line::Check { .. })) => Ok(()),
            (None, _) => f.write_str(": norbd check says why"),
        }
    }

    /// Why an image, or a chip in its place, failed.
    fn write_cause<W: fmt::Write>(&self, f: &mut fmt::Formatter<W>, cause: Cause) -> fmt::Result {
        let unreached = match cause {
            Cause::Chip(cause) => cause.unreached(),
            _ => None,
        };
        match (unreached, image_of(self.line)) {
            (Some(kind), Subject::Path(name)) => write_unreached(f, name, kind),
            (None, Subject::Path(name)) if cause == Cause::NotAFile && name.starts_with("/dev/") =>
                { write!(f, ": {cause}: {DEVICE}") }
            _ => self.write_known(f, cause),
        }
    }

    /// What is known of why an image failed, with the path of its log where that is the cause.
    fn write_known<W: fmt::Write>(&self, f: &mut fmt::Formatter<W>, cause: Cause) -> fmt::Result {
        let Some(log) = &self.reason else {
            return write!(f, ": {cause}");
        };
        match cause {
            Cause::Log(kind) => write!(f, ": {log}: {}", Answer(kind)),
            Cause::NoLog => write!(f, ": {log} is no log: move it away"),
            Cause::OtherLog => write!(
                f,
                ": {log} is another image's log: put that image back, or remove the log"
            ),
            cause => write!(f, ": {cause}"),
        }
    }

    /// Why the place can't be had.
    fn write_refusal<W: fmt::Write>(&self, f: &mut fmt::Formatter<W>, cause: Cause) -> fmt::Result {
        if cause == Cause::System(ErrorKind::InvalidInput) && is_link_local(bind_of(self.line)) {
            return f.write_str(": a link-local address needs a zone, and none can be given");
        }
        write!(f, ": {cause}")
    }

    /// Why standard output failed.
    fn write_output<W: fmt::Write>(&self, f: &mut fmt::Formatter<W>) -> fmt::Result {
        match self.output {
            Some(Failure::Closed) => f.write_str(": standard output is closed"),
            Some(Failure::Answered(kind)) => write!(f, ": {}", Answer(kind)),
            None => Ok(()),
        }
    }
}

impl fmt::Display for Telling<'_, '_> {
    fn fmt<W: fmt::Write>(&self, f: &mut fmt::Formatter<W>) -> fmt::Result {
        match self.fault {
            Fault::ImageFailed(Cause::Chip(_)) => f.write_str("chip failed")?,
            fault => write!(f, "{fault}")?,
        }
        self.write_subject(f)?;
        match self.fault {
            Fault::ImageFailed(cause) => self.write_cause(f, *cause),
            Fault::NoSocket(cause) => self.write_refusal(f, *cause),
            Fault::BadImageSize(length) => write!(f, ": {length} bytes"),
            Fault::BadSync => f.write_str(": flush, never or always"),
            Fault::BadTidy => f.write_str(": lazy or eager"),
            Fault::BadAddress => match bind_of(self.line) {
                Some(bind) => write!(f, ": '{bind}' is no IP address"),
                None => f.write_str(": --port P [--bind IP], or --unix PATH"),
            },
            Fault::InUse => f.write_str(": norbd status looks at one that is served with --status"),
            Fault::Formatted => f.write_str(": --force replaces it"),
            Fault::NotEmpty => f.write_str(": --force replaces it"),
            Fault::NotClean => write!(f, ": {}", mending_of(self.line)),
            Fault::Protected => f.write_str(unprotecting_of(self.line)),
            Fault::Corrupt => self.write_reason(f),
            Fault::BadRange(sectors) => write_range(f, range_of(self.line), *sectors),
            Fault::OutputFailed => self.write_output(f),
            _ => Ok(()),
        }
    }
}
