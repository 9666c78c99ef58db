//! The two sides of a connection are brought into step.

use crate::error::SerprogError;
use crate::streams::{Incoming, receive};
use block_device::{Sink, send};

/// How long nothing has to come until a line counts as empty, in milliseconds.
const SILENCE: u32 = 100;

/// How long an answer to SYNCNOP is waited for, in milliseconds: so a programmer that starts anew
/// where its device is opened has eight seconds for that.
const SYNC_PATIENCE: u32 = 1_000;

/// How long every other answer is waited for, in milliseconds.
const ANSWER_PATIENCE: u32 = 10_000;

/// How many reads of 4,096 bytes an old answer has at most: 16 MiB, a whole chip.
const MOST_OLD_READS: u32 = 4_096;

/// What a try to come into step found.
#[derive(Clone, Copy, PartialEq, Eq)]
enum Step {
    /// Both sides are in step.
    In,
    /// Something else came than the answer to SYNCNOP.
    Out,
    /// Nothing came.
    Silent,
}

/// What ended a stream whose read failed.
pub(crate) fn ended<I: Incoming>(source: &I) -> SerprogError {
    if source.is_silent() {
        SerprogError::Silent
    } else {
        SerprogError::Lost
    }
}

/// Brings both sides into step, in at most eight tries; from then on an answer is waited for ten
/// seconds. `Mute` where nothing came in any of them, `NoSync` where something else came, `Lost`.
///
/// Source: flashrom's serprog.c, which tries as often.
pub(crate) fn sync<I: Incoming, O: Sink>(source: &mut I, sink: &mut O) -> Result<(), SerprogError> {
    let mut came = false;
    for _ in 0..8u32 {
        match come_into_step(source, sink)? {
            Step::In => {
                source.wait_at_most(ANSWER_PATIENCE);
                return Ok(());
            }
            Step::Out => came = true,
            Step::Silent => {}
        }
    }
    if came {
        Err(SerprogError::NoSync)
    } else {
        Err(SerprogError::Mute)
    }
}

/// Eight NOPs (00h), which end a command that was sent in part; then what is left of old answers is
/// passed over; and SYNCNOP (10h), whose answer is looked for, and a second one, whose answer has
/// to be the next bytes.
fn come_into_step<I: Incoming, O: Sink>(
    source: &mut I,
    sink: &mut O,
) -> Result<Step, SerprogError> {
    if send(sink, &[0u8; 8]).is_err() {
        return Err(SerprogError::Lost);
    }
    source.wait_at_most(SILENCE);
    pass_over(source)?;
    source.wait_at_most(SYNC_PATIENCE);
    if send(sink, &[0x10]).is_err() {
        return Err(SerprogError::Lost);
    }
    match find_answer(source)? {
        Step::In => {}
        step => return Ok(step),
    }
    if send(sink, &[0x10]).is_err() {
        return Err(SerprogError::Lost);
    }
    let mut answer = [0u8; 2];
    if receive(source, &mut answer).is_err() {
        return if source.is_silent() {
            Ok(Step::Out)
        } else {
            Err(SerprogError::Lost)
        };
    }
    Ok(if answer == [0x15, 0x06] {
        Step::In
    } else {
        Step::Out
    })
}

/// Reads until nothing comes. `Lost` where the stream ended.
fn pass_over<I: Incoming>(source: &mut I) -> Result<(), SerprogError> {
    let mut old = [0u8; 4_096];
    for _ in 0..MOST_OLD_READS {
        match source.read(&mut old) {
            Ok(0) => return Err(SerprogError::Lost),
            Ok(_) => {}
            Err(_) => return if source.is_silent() {
                Ok(())
            } else {
                Err(SerprogError::Lost)
            },
        }
    }
    Ok(())
}

/// Reads to NAK (15h) and ACK (06h), which answer SYNCNOP, among the next 256 bytes: the answers to
/// the NOPs may come before them. `Lost` where the stream ended.
fn find_answer<I: Incoming>(source: &mut I) -> Result<Step, SerprogError> {
    let mut last = None;
    for _ in 0..256u32 {
        let mut byte = [0u8; 1];
        if receive(source, &mut byte).is_err() {
            if !source.is_silent() {
                return Err(SerprogError::Lost);
            }
            return Ok(if last.is_some() {
                Step::Out
            } else {
                Step::Silent
            });
        }
        if last == Some(0x15) && byte[0] == 0x06 {
            return Ok(Step::In);
        }
        last = Some(byte[0]);
    }
    Ok(Step::Out)
}
