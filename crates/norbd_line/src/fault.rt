//! The faults of the program.
ghost use Rattle.norbd_line.specs.Fault.{HasStatus};

use crate::answer::Answer;
use crate::cause::ChipCause;
use std::fmt;
use std::io::ErrorKind;
use thiserror::Error;

/// Why a Unix socket can't be had, or isn't a server's status.
#[derive(Clone, Copy, Debug, PartialEq, Eq, Drop, Error)]
pub enum SocketCause {
    /// The system's answer to making it or connecting to it.
    #[error("{}", Answer(*.0))]
    System(ErrorKind),
    /// Its path is too long. Source: unix(7), `sun_path`.
    #[error("a socket's path has at most 107 bytes")]
    LongPath,
    /// Something that is no socket is at the path.
    #[error("what is there is no socket")]
    NotASocket,
    /// What answers there doesn't tell what a server of this version does.
    #[error("what answers there tells no status")]
    NotAStatus,
}

/// What is known of why a file or a socket failed. Its text stands behind that of the fault.
#[derive(Clone, Copy, Debug, PartialEq, Eq, Drop, Error)]
pub enum Cause {
    /// The system's answer to opening, locking, making or binding it.
    #[error("{}", Answer(*.0))]
    System(ErrorKind),
    /// The Unix socket for clients can't be had.
    #[error("{0}")]
    Socket(SocketCause),
    /// The one at which a server says what it does can't be had.
    #[error("{0}")]
    Status(SocketCause),
    /// What is at the path is no regular file.
    #[error("not a regular file")]
    NotAFile,
    /// Accepting a connection failed.
    #[error("accepting failed")]
    Accept,
    /// A read of the image failed.
    #[error("a read failed")]
    Read,
    /// A write of the image failed.
    #[error("a write failed")]
    Write,
    /// Handing the image to its disk failed.
    #[error("a sync failed")]
    Sync,
    /// The log beside the image can't be had, made or read: the system's answer.
    #[error("its log: {}", Answer(*.0))]
    Log(ErrorKind),
    /// What has the name of the image's log is none.
    #[error("what has the name of its log is none")]
    NoLog,
    /// The log beside the image is another image's.
    #[error("the log beside it is another image's")]
    OtherLog,
    /// So many sectors differ from those of an older copy.
    #[error("{0} of its sectors differ")]
    Differs(u32),
    /// The older copy with which it is compared can't be read, or isn't one that would be served.
    #[error("the older copy can't be read or isn't clean: norbd check says why")]
    Dump,
    /// That copy has another size.
    #[error("the older copy has another size")]
    DumpSize,
    /// `--firm` is set, which programs it, and `--read-only`.
    #[error("--firm programs it, --read-only leaves it as it is")]
    FirmCopy,
    /// The chip is behind a programmer, and this is why it failed.
    #[error("{0}")]
    Chip(ChipCause),
}

/// Why the program ends without having done its line. The text is the `Display`; of the variants
/// but `Words` it is shown after `norbd: `.
#[derive(Debug, Drop, Error)]
pub enum Fault {
    /// The words are no line of the program, or ask for help or the version: `clap`'s text.
    #[error(transparent)]
    Words(clap::Error),
    /// The chip's size, which is so many KiB, is in its range and no multiple of 64.
    #[error("bad size: {0} is no multiple of 64")]
    BadSize(u32),
    /// The word after `--sync` is none of `flush`, `never` and `always`.
    #[error("bad sync")]
    BadSync,
    /// The word after `--tidy` is neither `lazy` nor `eager`.
    #[error("bad tidy")]
    BadTidy,
    /// The words say no place to listen at, or two, or an empty one, or the word after `--bind` is
    /// no IP address.
    #[error("bad address")]
    BadAddress,
    /// A word, as the name of a file, isn't text (UTF-8).
    #[error("a word is not UTF-8")]
    NotText,
    /// The name of the image, or of the socket of a server's status, is empty.
    #[error("a file's name is empty")]
    EmptyName,
    /// Memory ran out.
    #[error("no memory")]
    NoMemory,
    /// Standard input failed.
    #[error("input failed")]
    InputFailed,
    /// Standard output failed.
    #[error("output failed")]
    OutputFailed,
    /// The image can't be opened, read or written.
    #[error("image failed")]
    ImageFailed(Cause),
    /// Another process serves or formats the image.
    #[error("image in use")]
    InUse,
    /// The file holds a formatted chip, and `--force` isn't set.
    #[error("image is formatted")]
    Formatted,
    /// The file holds something else than a formatted chip, and `--force` isn't set.
    #[error("file isn't empty")]
    NotEmpty,
    /// The chip's id is another.
    #[error("wrong id")]
    WrongId,
    /// The table in which the chip describes itself is refused.
    #[error("bad sfdp")]
    BadSfdp,
    /// The chip's protection can't be ended.
    #[error("protected")]
    Protected,
    /// An operation of the chip didn't end.
    #[error("slow")]
    Slow,
    /// A record of the script is none, or the script ends inside one.
    #[error("bad record")]
    BadRecord,
    /// The chip can't be mounted: it isn't formatted.
    #[error("not formatted")]
    NotFormatted,
    /// The chip can't be mounted: what is stored on it is corrupt.
    #[error("corrupt")]
    Corrupt,
    /// What reads as free on the chip isn't erased: it was written by something else, or an
    /// operation of it didn't end.
    #[error("not clean")]
    NotClean,
    /// The image's length in bytes, which is this one, is no chip's.
    #[error("bad image size")]
    BadImageSize(u64),
    /// Listening at the place or accepting a connection failed.
    #[error("no socket")]
    NoSocket(Cause),
    /// A thread could not be started.
    #[error("no thread")]
    NoThread,
    /// The text after `--sectors` is no range of sectors of the disk, which has so many: `A:B`,
    /// from sector A on and before sector B, with A below B.
    #[error("bad range of sectors")]
    BadRange(u32),
    /// Standard input hasn't as many bytes as the sectors that it would replace.
    #[error("standard input {0}")]
    BadInput(InputLength),
}

/// How many bytes standard input has, or None where it has more than are taken; and how many the
/// sectors take that it would replace, from the first to the last.
#[derive(Clone, Copy, Debug, PartialEq, Eq, Drop)]
pub struct InputLength {
    pub had: Option<u64>,
    pub taken: u64,
    pub first: u32,
    pub last: u32,
}

impl fmt::Display for InputLength {
    fn fmt<W: fmt::Write>(&self, f: &mut fmt::Formatter<W>) -> fmt::Result {
        let InputLength {
            had,
            taken,
            first,
            last,
        } = *self;
        match had {
            Some(had) => write!(f, "has {had} bytes")?,
            None => write!(f, "has more than {taken} bytes")?,
        }
        write!(f, ", sectors {first} to {last} take {taken}")
    }
}

impl Fault {
    /// The exit status: 2 for a bad line, 0 for help and the version, which were asked for, and 1
    /// for each other fault.
    pub fn status(&self) -> u8
        ensures { HasStatus self.now result }
    {
        match self {
            Fault::Words(error) => if error.use_stderr() { 2 } else { 0 },
            Fault::BadSize(_) => 2,
            Fault::BadSync => 2,
            Fault::BadTidy => 2,
            Fault::BadAddress => 2,
            Fault::NotText => 2,
            Fault::EmptyName => 2,
            Fault::NoMemory => 1,
            Fault::InputFailed => 1,
            Fault::OutputFailed => 1,
            Fault::ImageFailed(_) => 1,
            Fault::InUse => 1,
            Fault::Formatted => 1,
            Fault::NotEmpty => 1,
            Fault::WrongId => 1,
            Fault::BadSfdp => 1,
            Fault::Protected => 1,
            Fault::Slow => 1,
            Fault::BadRecord => 1,
            Fault::NotFormatted => 1,
            Fault::Corrupt => 1,
            Fault::NotClean => 1,
            Fault::BadImageSize(_) => 1,
            Fault::NoSocket(_) => 1,
            Fault::NoThread => 1,
            Fault::BadRange(_) => 2,
            Fault::BadInput(_) => 1,
        }
    }
}
