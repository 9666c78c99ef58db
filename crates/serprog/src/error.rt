//! Why a programmer isn't used.

use std::io::ErrorKind;
use thiserror::Error;

/// Why a programmer isn't used. Its text is what follows the programmer's name.
#[derive(Clone, Copy, Debug, PartialEq, Eq, Drop, Error)]
pub enum SerprogError {
    /// No streams to it are begun: the system's answer.
    #[error("{0}")]
    Unreached(ErrorKind),
    /// A call of a stream failed, or the stream ended before an answer was whole.
    #[error("the connection ended")]
    Lost,
    /// Nothing came while an answer was waited for.
    #[error("nothing came for 10 seconds")]
    Silent,
    /// Nothing came though SYNCNOP (10h) was sent eight times.
    #[error("nothing came in 8 tries: is it a serprog programmer, does another client use it?")]
    Mute,
    /// SYNCNOP (10h), sent eight times, wasn't answered by NAK and ACK alone.
    #[error("no serprog programmer answers")]
    NoSync,
    /// A command that has to be answered by ACK (06h) is answered by another byte: its code.
    #[error("command {0:#04x} is refused")]
    Refused(u8),
    /// Q_IFACE (01h) tells another version of the protocol than 1.
    #[error("version {0} of serprog")]
    Version(u16),
    /// A command that is needed isn't offered by Q_CMDMAP (02h): its code.
    #[error("command {0:#04x} is not offered")]
    NotOffered(u8),
    /// A clock is asked for, and S_SPI_FREQ (14h) isn't offered by Q_CMDMAP.
    #[error("its clock can't be set: command 0x14 is not offered")]
    NoClock,
    /// Q_BUSTYPE (05h) doesn't offer SPI: the buses that it offers.
    #[error("no SPI among its buses {0:#04x}")]
    NoSpi(u8),
    /// Q_WRNMAXLEN (08h) tells that less than 260 bytes can be sent in a frame, which a page
    /// program has: how many can.
    #[error("sends {0} bytes in a frame, 260 are needed")]
    ShortWrites(u32),
    /// Q_RDNMAXLEN (11h) tells that less than 4,096 bytes can be received in a frame: how many can.
    #[error("receives {0} bytes in a frame, 4096 are needed")]
    ShortReads(u32),
}

/// Why a frame wasn't exchanged.
#[derive(Clone, Copy, Debug, PartialEq, Eq, Drop, Error)]
pub enum Trouble {
    /// Nothing came while its answer was waited for.
    #[error("nothing came for 10 seconds")]
    Silent,
    /// A call of a stream failed, or the stream ended.
    #[error("the connection ended")]
    Ended,
    /// The programmer answered NAK (15h).
    #[error("the programmer refused it")]
    Refused,
    /// This byte came in the place of ACK (06h).
    #[error("{0:#04x} came in the place of ACK: the programmer is out of step")]
    OutOfStep(u8),
    /// The programmer takes no frame of this length.
    #[error("the programmer takes no frame of this length")]
    TooLong,
}
