//! A chip on a bus behind the serprog protocol of flashrom: the programmer's side of it.
//!
//! `read_request` takes one command off a stream, `answer` does it on any `SpiBus` and gives the
//! bytes of its answer, and `serve_command` joins the two: `Serves` says which bytes are taken and
//! which are written, and what becomes of the chip, for each command. `attend` does so until a
//! stream ends. Each frame of O_SPIOP (13h) is one frame of the bus, but for those that flashrom
//! sends and the chip's model ignores: erases of 32 KiB (52h) and of the whole chip (C7h, 60h) are
//! done as erases of 4 KiB, and answered when they have completed; the SFDP table (5Ah) is told
//! with or without the dummy byte, and says that pages can be programmed. `AnswersFrame` has them.
//! No other command reaches the bus.
//!
//! Left to the crate above: the streams, and what a loss of the chip's power means.
//!
//! Source: flashrom, serprog-protocol.txt, version 1; datasheet of the W25Q128JV for the frames.
//! Own: the name, the limits that are told, and that S_SPI_FREQ and S_PIN_STATE change nothing.

#![tactic(auto)]

mod answering;
mod beyond;
mod erasing;
mod request;
mod serving;

pub use answering::{Trouble, answer};
pub use request::{Request, read_request};
pub use serving::{Room, attend, serve_command};
