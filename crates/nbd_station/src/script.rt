//! Records of a script.

ghost use Rattle.std.specs.Int.{to_be_bytes, w32};
ghost use Rattle.std.specs.Prelude.{◌≡◌, ◌≢◌, ◌<◌, ◌++◌, ◌∷◌, [], None, false, length, replicate};
ghost use Rattle.std.specs.Prelude.{IfSome, IsErrOf};
ghost use Rattle.nbd_station.specs.Running.{FailsOnly};
ghost use Rattle.block_device.specs.Facts.{CountsNeverFall};
ghost use Rattle.nbd_station.specs.StationState.{memories};
ghost use Rattle.nbd_station.specs.declared.script.Form.{Form};
ghost use Rattle.nbd_station.specs.Script.{FailsToReadAll, FailsToWrite};
ghost use Rattle.nbd_station.specs.ScriptSteps.{ArmDoes, ArmsNothing, FailsToRead, Fills, FormDoes};
ghost use Rattle.nbd_station.specs.ScriptSteps.{IsForm};
ghost use Rattle.nbd_station.specs.Script.{ScriptSays, script_state};
ghost use Rattle.nbd_station.specs.ScriptSteps.{PieceDoes, ReadsForm, record_head};

use crate::entries::NO_ONE;
use crate::event::{Event, ScriptError};
use crate::hub::{CONNECTIONS, Hub};
use crate::station::PIECE_LEN;
use block_device::{Disk, Failed, Sink, Source};

/// The length of a record's head in bytes.
pub(crate) const SCRIPT_HEAD_LEN: usize = 6;

/// The length of what arms a loss of power.
const ARM_LEN: usize = 6;

/// What the head of a record announces.
#[derive(Clone, Copy, Debug, PartialEq, Eq, Drop)]
pub(crate) enum Form {
    Open(u8),
    /// A piece of so many bytes, which follow.
    Piece(u8, usize),
    Gone(u8),
    Tidy,
    Restore,
    /// Arming, with six bytes that follow.
    Arm,
}

/// Reads until the room is full or the input ends, and says how many bytes came.
pub(crate) fn fill<S: Source>(reader: &mut S, into: &mut [u8]) -> Result<usize, Failed>
    ensures bytes { Fills (S.remaining reader.old) result into.new (S.remaining reader.new) }
    ensures faults { FailsOnly (S.faults reader.old) result (S.faults reader.new) }
{
    let mut used = 0;
    while used < into.len() {
        let n = reader.read(&mut into[used..])?;
        if n == 0 {
            return Ok(used);
        }
        used += n;
    }
    Ok(used)
}

/// The form of a record with this head, if there is one.
pub(crate) fn form_of(head: [u8; SCRIPT_HEAD_LEN]) -> Option<Form>
    ensures form { IfSome result (λ form. IsForm form) }
    ensures head { IfSome result (λ form. head ≡ record_head form) }
    ensures none { result ≡ None → (form : Form) → IsForm form → head ≢ record_head form }
{
    let [kind, who, a, b, c, d] = head;
    let len = u32::from_be_bytes([a, b, c, d]) as usize;
    let is_line = (who as usize) < CONNECTIONS;
    let is_alone = who == NO_ONE;
    if kind == b'O' && is_line && len == 0 {
        return Some(Form::Open(who));
    }
    if kind == b'P' && is_line && len <= PIECE_LEN {
        return Some(Form::Piece(who, len));
    }
    if kind == b'G' && is_line && len == 0 {
        return Some(Form::Gone(who));
    }
    if kind == b'T' && is_alone && len == 0 {
        return Some(Form::Tidy);
    }
    if kind == b'R' && is_alone && len == 0 {
        return Some(Form::Restore);
    }
    if kind == b'C' && is_alone && len == ARM_LEN {
        return Some(Form::Arm);
    }
    None
}

/// Reads the head of a record; None at the end of the script.
pub(crate) fn read_form<S: Source>(reader: &mut S) -> Result<Option<Form>, ScriptError>
    ensures form { ReadsForm (S.remaining reader.old) result (S.remaining reader.new) }
    ensures reads { FailsToRead (S.faults reader.old) result (S.faults reader.new) }
{
    let mut head = [0; SCRIPT_HEAD_LEN];
    match fill(reader, &mut head) {
        Err(_) => Err(ScriptError::Input),
        Ok(n) => {
            if n == 0 {
                return Ok(None);
            }
            if n < SCRIPT_HEAD_LEN {
                return Err(ScriptError::BadRecord);
            }
            match form_of(head) {
                Some(form) => Ok(Some(form)),
                None => Err(ScriptError::BadRecord),
            }
        }
    }
}

/// Reads what follows a head, and does what the record asks for.
pub(crate) fn run_form<D: Disk, S: Source, W: Sink>(
    hub: &mut Hub<D>,
    form: Form,
    piece: &mut [u8],
    reader: &mut S,
    out: &mut W,
) -> Result<(), ScriptError>
    requires form { IsForm form }
    requires piece { length piece.old ≡ PIECE_LEN }
    ensures goes { CountsNeverFall hub.old.disk hub.new.disk }
    ensures memory { memories hub.new ≡ memories hub.old }
    ensures does { FormDoes form hub.old hub.new (S.remaining reader.old) (W.written out.old) result
        (S.remaining reader.new) (W.written out.new) }
    ensures reads { FailsToRead (S.faults reader.old) result (S.faults reader.new) }
    ensures writes { FailsToWrite (W.faults out.old) result (W.faults out.new) }
    ensures closed { IsErrOf result ScriptError.Output → hub.new.is_open ≡ replicate 8 false }
{
    match form {
        Form::Open(who) => match hub.step(Event::Open(who), out) {
            Ok(()) => Ok(()),
            Err(_) => Err(ScriptError::Output),
        },
        Form::Piece(who, len) => run_piece(hub, who, &mut piece[..len], reader, out),
        Form::Gone(who) => match hub.step(Event::Gone(who), out) {
            Ok(()) => Ok(()),
            Err(_) => Err(ScriptError::Output),
        },
        Form::Tidy => match hub.step(Event::Tidy, out) {
            Ok(()) => Ok(()),
            Err(_) => Err(ScriptError::Output),
        },
        Form::Restore => match hub.step(Event::Restore, out) {
            Ok(()) => Ok(()),
            Err(_) => Err(ScriptError::Output),
        },
        Form::Arm => run_arm(hub, reader),
    }
}

/// Reads a piece's bytes, and takes them.
fn run_piece<D: Disk, S: Source, W: Sink>(
    hub: &mut Hub<D>,
    who: u8,
    bytes: &mut [u8],
    reader: &mut S,
    out: &mut W,
) -> Result<(), ScriptError>
    ensures goes { CountsNeverFall hub.old.disk hub.new.disk }
    ensures memory { memories hub.new ≡ memories hub.old }
    ensures does { PieceDoes who (length bytes.old)
        (script_state hub.old (S.remaining reader.old) (W.written out.old)) result
        (script_state hub.new (S.remaining reader.new) (W.written out.new)) }
    ensures reads { FailsToRead (S.faults reader.old) result (S.faults reader.new) }
    ensures writes { FailsToWrite (W.faults out.old) result (W.faults out.new) }
    ensures closed { IsErrOf result ScriptError.Output → hub.new.is_open ≡ replicate 8 false }
{
    match fill(reader, bytes) {
        Err(_) => Err(ScriptError::Input),
        Ok(n) => {
            if n < bytes.len() {
                return Err(ScriptError::BadRecord);
            }
            match hub.step(Event::Piece(who, bytes), out) {
                Ok(()) => Ok(()),
                Err(_) => Err(ScriptError::Output),
            }
        }
    }
}

/// Reads what arms a loss of power, and arms it.
fn run_arm<D: Disk, S: Source>(hub: &mut Hub<D>, reader: &mut S) -> Result<(), ScriptError>
    ensures same { hub.new ≡ hub.old }
    ensures does { ArmDoes (S.remaining reader.old) result (S.remaining reader.new) }
    ensures reads { FailsToRead (S.faults reader.old) result (S.faults reader.new) }
{
    let mut six = [0; ARM_LEN];
    match fill(reader, &mut six) {
        Err(_) => Err(ScriptError::Input),
        Ok(n) => {
            if n < ARM_LEN {
                return Err(ScriptError::BadRecord);
            }
            match arming_of(six) {
                Some((count, kind, mask)) => {
                    hub.arm(count, kind, mask);
                    Ok(())
                }
                None => Err(ScriptError::BadRecord),
            }
        }
    }
}

/// What is to be armed: which loss from now, what counts, and the mask.
fn arming_of(six: [u8; ARM_LEN]) -> Option<(u32, u8, u8)>
    ensures kind { IfSome result (λ r. r.1 < 2) }
    ensures bytes { IfSome result (λ r. six ≡ to_be_bytes w32 r.0 ++ r.1 ∷ r.2 ∷ []) }
    ensures none { result ≡ None → ArmsNothing six }
{
    let [a, b, c, d, kind, mask] = six;
    if kind > 1 {
        return None;
    }
    Some((u32::from_be_bytes([a, b, c, d]), kind, mask))
}

/// Runs a script to its end.
pub(crate) fn run_lines<D: Disk, S: Source, W: Sink>(
    hub: &mut Hub<D>,
    piece: &mut [u8],
    reader: &mut S,
    out: &mut W,
) -> Result<(), ScriptError>
    requires piece { length piece.old ≡ PIECE_LEN }
    ensures goes { CountsNeverFall hub.old.disk hub.new.disk }
    ensures memory { memories hub.new ≡ memories hub.old }
    ensures says { ScriptSays hub.old hub.new (S.remaining reader.old) (W.written out.old) result
        (S.remaining reader.new) (W.written out.new) }
    ensures reads { FailsToReadAll (S.remaining reader.old) (S.faults reader.old) result
        (S.faults reader.new) }
    ensures writes { FailsToWrite (W.faults out.old) result (W.faults out.new) }
    ensures closed { IsErrOf result ScriptError.Output → hub.new.is_open ≡ replicate 8 false }
{
    for _ in 0..u64::MAX {
        match read_form(reader) {
            Ok(None) => return Ok(()),
            Ok(Some(form)) => match run_form(hub, form, piece, reader, out) {
                Ok(()) => {}
                Err(e) => return Err(e),
            },
            Err(e) => return Err(e),
        }
    }
    Err(ScriptError::Input)
}
