//! What names a programmer.

ghost use Rattle.std.specs.Prelude.{◌≡◌, IfSome, option_map};
ghost use Rattle.serprog_link.specs.Place.{NamesProgrammer};

/// How a programmer is reached.
#[derive(Clone, Copy, Debug, PartialEq, Eq)]
pub enum Way<'a> {
    /// `HOST:PORT`, where it listens. HOST is an IP address or a name.
    Tcp(&'a str),
    /// The path of the serial device that it is.
    Serial(&'a str),
}

/// A programmer: how it is reached, and the clock in Hz that it is to set, or its own.
#[derive(Clone, Copy, Debug, PartialEq, Eq)]
pub struct ProgrammerPlace<'a> {
    pub way: Way<'a>,
    pub clock: Option<u32>,
}

/// The programmer that a word `tcp:HOST:PORT` or `serial:PATH` names, with this clock; `None` of
/// another word.
pub fn programmer_of(word: &str, clock: Option<u32>) -> Option<ProgrammerPlace<'_>>
    ensures way { NamesProgrammer word.now (option_map (λ place. place.way) result) }
    ensures clock { IfSome result (λ place. place.clock ≡ clock) }
{
    if let Some(place) = word.strip_prefix("tcp:") {
        let way = Way::Tcp(place);
        return Some(ProgrammerPlace { way, clock });
    }
    match word.strip_prefix("serial:") {
        Some(path) => {
            let way = Way::Serial(path);
            Some(ProgrammerPlace { way, clock })
        }
        None => None,
    }
}
