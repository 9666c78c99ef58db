//! What a programmer says of itself.

ghost use Rattle.std.specs.Prelude.{◌≡◌, length};
ghost use Rattle.serprog.specs.Protocol.{is_offered};

/// What a programmer says of itself.
#[derive(Clone, Copy, Debug, PartialEq, Eq)]
pub struct Identity {
    /// Its name (Q_PGMNAME, 03h): ASCII, filled up with zeros; all zeros where it tells none.
    pub name: [u8; 16],
    /// How many bytes can be sent in a frame (Q_WRNMAXLEN, 08h), from 260 to 16,777,215.
    pub sends: u32,
    /// How many bytes can be received in a frame (Q_RDNMAXLEN, 11h), from 4,096 to 16,777,215.
    pub receives: u32,
    /// How many bytes of commands may be on the way to it (Q_SERBUF, 04h), from 0 to 65,535; 65,535
    /// is any number of them. Where it doesn't tell, 16, as flashrom takes it.
    pub buffers: u16,
    /// The clock in Hz that it set, where one was asked for (S_SPI_FREQ, 14h).
    pub clock: Option<u32>,
    /// Whether it has pin drivers (S_PIN_STATE, 15h): they are on, and to be turned off at the end.
    pub drives_pins: bool,
}

/// Whether a command is offered in the answer to Q_CMDMAP (02h).
pub fn is_offered(map: &[u8; 32], command: u8) -> bool
    ensures { result ≡ is_offered map.now command }
{
    map[command as usize / 8] / (1 << (command % 8)) % 2 == 1
}
