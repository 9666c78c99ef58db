//! What begins connections to a programmer, of either kind.

use crate::halves::{ProgrammerIn, ProgrammerOut};
use crate::place::{ProgrammerPlace, Way};
use crate::serial::SerialDialer;
use crate::tcp::TcpDialer;
use serprog::Dialer;
use std::io::ErrorKind;
use std::net::{Net, TcpStream};
use std::rt::Files;
use std::time::{Clock, Duration};

/// What begins connections to the programmer at a place.
#[derive(Drop)]
pub enum ProgrammerDialer<'r, 'p, R> {
    /// Over TCP.
    Tcp(TcpDialer<'r, 'p, R>),
    /// By a serial device.
    Serial(SerialDialer<'r, 'p, R>),
}

impl<'r, 'p, R> ProgrammerDialer<'r, 'p, R> {
    /// A dialer that has begun nothing yet. The patience, which is above 0, is how long a TCP
    /// connection may take to begin, and each of its writes, and a read of either kind until
    /// `wait_at_most` says something else.
    pub fn new(
        rt: &'r R,
        place: ProgrammerPlace<'p>,
        patience: Duration,
    ) -> ProgrammerDialer<'r, 'p, R> {
        match place.way {
            Way::Tcp(place) => ProgrammerDialer::Tcp(TcpDialer::new(rt, place, patience)),
            Way::Serial(path) => ProgrammerDialer::Serial(SerialDialer::new(rt, path, patience)),
        }
    }
}

impl<'r, R> Dialer<ProgrammerIn<'r, R, R::File>, ProgrammerOut<R::File>>
    for ProgrammerDialer<'r, '_, R>
where
    R: Files + Net<Stream = TcpStream> + Clock,
{
    fn dial(
        &mut self,
    ) -> Result<(ProgrammerIn<'r, R, R::File>, ProgrammerOut<R::File>), ErrorKind> {
        match self {
            ProgrammerDialer::Tcp(dialer) => match dialer.dial() {
                Ok((source, sink)) => Ok((ProgrammerIn::Tcp(source), ProgrammerOut::Tcp(sink))),
                Err(kind) => Err(kind),
            },
            ProgrammerDialer::Serial(dialer) => match dialer.dial() {
                Ok((source, sink)) => {
                    Ok((ProgrammerIn::Serial(source), ProgrammerOut::Serial(sink)))
                }
                Err(kind) => Err(kind),
            },
        }
    }
}
