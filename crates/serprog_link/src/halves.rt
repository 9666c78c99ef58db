//! The two halves of a connection to a programmer, of either kind.

ghost use Rattle.std.specs.Prelude.{None};
ghost use Rattle.serprog_link.specs.Halves.{of_source, of_sink};

use crate::serial::{SerialIn, SerialOut};
use crate::tcp::{TcpIn, TcpOut};
use block_device::{Failed, Sink, Source};
use serprog::Incoming;
use std::io::{Read, Write};
use std::time::Clock;

/// The half that is read; `F` is a device's file.
#[derive(Drop)]
pub enum ProgrammerIn<'r, R, F> {
    /// Of a TCP connection.
    Tcp(TcpIn),
    /// Of a serial device.
    Serial(SerialIn<'r, R, F>),
}

/// The half that is written; `F` is a device's file.
#[derive(Drop)]
pub enum ProgrammerOut<F> {
    /// Of a TCP connection.
    Tcp(TcpOut),
    /// Of a serial device.
    Serial(SerialOut<F>),
}

impl<'r, R: Clock, F: Read> Source for ProgrammerIn<'r, R, F> {
    ghost remaining = { λ _. None };

    ghost faults = { of_source ⟦<TcpIn as Source>⟧.faults ⟦<SerialIn<'r, R, F> as Source>⟧.faults };

    fn read(&mut self, into: &mut [u8]) -> Result<usize, Failed> {
        match self {
            ProgrammerIn::Tcp(half) => half.read(into),
            ProgrammerIn::Serial(half) => half.read(into),
        }
    }
}

impl<R: Clock, F: Read> Incoming for ProgrammerIn<'_, R, F> {
    fn wait_at_most(&mut self, millis: u32) {
        match self {
            ProgrammerIn::Tcp(half) => half.wait_at_most(millis),
            ProgrammerIn::Serial(half) => half.wait_at_most(millis),
        }
    }

    fn is_silent(&self) -> bool {
        match self {
            ProgrammerIn::Tcp(half) => half.is_silent(),
            ProgrammerIn::Serial(half) => half.is_silent(),
        }
    }
}

impl<F: Write> Sink for ProgrammerOut<F> {
    ghost written = { λ _. None };

    ghost faults = { of_sink ⟦<TcpOut as Sink>⟧.faults ⟦<SerialOut<F> as Sink>⟧.faults };

    fn write(&mut self, bytes: &[u8]) -> Result<usize, Failed> {
        match self {
            ProgrammerOut::Tcp(half) => half.write(bytes),
            ProgrammerOut::Serial(half) => half.write(bytes),
        }
    }

    fn write_both(&mut self, head: &[u8], rest: &[u8]) -> Result<usize, Failed> {
        match self {
            ProgrammerOut::Tcp(half) => half.write_both(head, rest),
            ProgrammerOut::Serial(half) => half.write_both(head, rest),
        }
    }
}
