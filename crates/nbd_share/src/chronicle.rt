//! A server with its history, which exists in proofs alone, so that a server that keeps no rows has
//! one too.

ghost use Rattle.std.specs.Prelude.{◌≡◌, ◌+◌, ◌<◌, ℕ, [], length, None, true, false, IfSome};
ghost use Rattle.std.specs.Prelude.{if◌then◌else◌};
ghost use mathlib.Core.List.{IsPrefix};
ghost use Rattle.nbd_wire.specs.Commands.{judge_of};
ghost use Rattle.nbd_wire.specs.Lent.{lent_len};
ghost use Rattle.nbd_history.specs.Notes.{entries_by};
ghost use Rattle.nbd_share.specs.Doing.{Executes, IfReplied, NotesLost, OnLost, Tidied};
ghost use Rattle.nbd_share.specs.History.{IsLegal};
ghost use Rattle.nbd_share.specs.Locking.{AddsRow, AreMet, IsChronicled, IsHistoryOf};
ghost use Rattle.nbd_share.specs.Locking.{connection_of, start_of};

use crate::pass::{OneServer, Pass};
use crate::recorder::{Interrupted, Recorder, Row};
use crate::shared::{Done, Shared};
use block_device::{Disk, DiskError};
use nbd_history::{Hand, Hands, Keeper, Noted, Says, SaysAll, stop};
use nbd_wire::{Command, ENOMEM};
use std::marker::Model;
use std::sync::Wait;

/// The parts of a row that are lent.
#[derive(Drop)]
pub struct RowParts<'a> {
    connection: u64,
    command: Command,
    error: u32,
    bytes: &'a [u8],
}

/// Names the row of these parts.
pub struct RowSaid;

impl<'a> Says<RowParts<'a>, Row> for RowSaid {
    ghost use Rattle.nbd_share.specs.History.{row_of};

    ghost says = { λ p. row_of p.connection p.command p.error p.bytes.now };
}

/// A command with the bytes that are lent to it.
#[derive(Drop)]
pub struct CommandParts<'a> {
    command: Command,
    bytes: &'a [u8],
}

/// Names the interrupted command of these parts.
pub struct InterruptedSaid;

impl<'a> SaysAll<CommandParts<'a>, Interrupted> for InterruptedSaid {
    ghost use Rattle.std.specs.Prelude.{[], ◌∷◌};
    ghost use Rattle.nbd_share.specs.History.{interrupted_of};

    ghost says_all = { λ p. interrupted_of p.command p.bytes.now ∷ [] };
}

/// Notes a command that is lost, unless one was lost before.
fn note_lost(
    noted: &mut Noted<Interrupted>,
    was_lost: bool,
    command: Noted<Interrupted>,
    done: &Done<'_>,
)
    ensures replied { IfReplied done.now (λ _. noted.new ≡ noted.old) }
    ensures lost { OnLost done.now (noted.new ≡ (if was_lost then noted.old else command)) }
{
    if let Done::Lost = done {
        if !was_lost {
            *noted = command;
        }
    }
}

/// Adds the row of a command that is answered, but where there was no memory for a row.
fn add_row<L: OneServer, W: Wait>(
    wait: &W,
    keeper: &mut Keeper<Row, L>,
    hand: &mut Hand<Row, L>,
    command: &Command,
    done: &Done<'_>,
)
    ensures { AddsRow keeper.old keeper.new hand.old hand.new command.now done.now }
{
    if let Done::Replied(answer) = done {
        let error = answer.error();
        if error != ENOMEM {
            let parts = RowParts {
                connection: hand.by(),
                command: *command,
                error,
                bytes: answer.data(),
            };
            keeper.add::<RowParts<'_>, RowSaid, W>(wait, hand, &parts);
        }
    }
}

/// A server with its history. Its rows are a legal history of what the disk held at its start, and
/// while neither a Cut nor a Slow is latched the disk is their replay.
#[derive(Drop)]
pub struct Chronicle<D: Disk, R: Recorder, L: OneServer> {
    shared: Shared<D, R, L>,
    keeper: Keeper<Row, L>,
    noted: Noted<Interrupted>,
}

impl<D: Disk, R: Recorder, L: OneServer> Model for Chronicle<D, R, L> {
    ghost use Rattle.std.specs.Prelude.{◌≡◌, true};
    ghost use Rattle.nbd_history.specs.Notes.{first_noted};
    ghost use Rattle.nbd_share.specs.Locking.{Chronicled, IsHistoryOf};

    ghost Value = { Chronicled };

    ghost view = { λ c. record {
      served = c.shared;
      rows = c.keeper;
      interrupted = first_noted c.noted;
    } };

    ghost invariant = { λ c. record {
      latched : L.sound ≡ true → c.shared.disk.cut ≡ true → c.shared.lost ≡ true;
      recorded : R.KEEPS ≡ true → c.shared.rows ≡ c.keeper;
      history : L.sound ≡ true
          → IsHistoryOf L.export c.shared.disk L.base c.keeper (first_noted c.noted);
    } };
}

impl<D: Disk, R: Recorder, L: OneServer> Chronicle<D, R, L> {
    /// A server whose history has no row. In a sound disk no Cut is latched.
    pub fn new(shared: Shared<D, R, L>, keeper: Keeper<Row, L>) -> Chronicle<D, R, L>
        requires none { (keeper ≡ []) × (shared.rows ≡ []) }
        requires whole { L.sound ≡ true → shared.disk.cut ≡ false }
        requires base { L.sound ≡ true → shared.disk.contents ≡ L.base }
        ensures served { result.served ≡ shared }
        ensures rows { result.rows ≡ [] }
        ensures interrupted { result.interrupted ≡ None }
    {
        Chronicle {
            shared,
            keeper,
            noted: Noted::none(),
        }
    }

    /// What `Shared::execute` does, with its row in the history. The first command that is lost is
    /// noted.
    pub fn execute<'a, W: Wait>(
        &mut self,
        wait: &W,
        hand: &mut Hand<Row, L>,
        pass: &mut Pass<L>,
        command: &Command,
        data: &'a mut [u8],
    ) -> Done<'a>
        requires accepted { judge_of command.now L.export ≡ None }
        requires lent { length «data».old ≡ lent_len command.now }
        ensures executes { Executes R.KEEPS self.old.served self.new.served pass.old pass.new
            command.now «data».old result }
        ensures adds { AddsRow self.old.rows self.new.rows hand.old hand.new command.now result }
        ensures notes { NotesLost self.old.served.lost self.old.interrupted self.new.interrupted
            command.now «data».old result }
        ensures by { hand.old.by ≡ pass.old.connection }
        ensures history { L.sound ≡ true
            → IsHistoryOf L.export self.new.served.disk L.base self.new.rows self.new.interrupted }
    {
        if pass.connection() != hand.by() {
            stop(wait);
            unreachable!()
        }
        let was_lost = self.shared.is_lost();
        let parts = CommandParts {
            command: *command,
            bytes: data,
        };
        let noted = Noted::of::<CommandParts<'_>, InterruptedSaid>(&parts);
        let done = self.shared.execute(pass, command, data);
        add_row(wait, &mut self.keeper, hand, command, &done);
        note_lost(&mut self.noted, was_lost, noted, &done);
        done
    }

    /// The next pass with its hand. None also where their numbers differ.
    pub fn pass<W: Wait>(
        &mut self,
        wait: &W,
        hands: &mut Hands<Row, L>,
    ) -> Option<(Pass<L>, Hand<Row, L>)>
        ensures same { IfSome result (λ r. r.0.connection ≡ r.1.by) }
        ensures none { IfSome result (λ r. entries_by connection_of r.1.by r.1.seen ≡ []) }
        ensures legal { L.sound ≡ true
            → IfSome result (λ r. IsLegal L.export L.base false r.1.seen) }
    {
        self.known();
        if hands.given() >= 1 << 62 {
            return None;
        }
        let pass = self.shared.pass()?;
        let hand = hands.hand(wait, &mut self.keeper);
        if hand.by() != pass.connection() {
            return None;
        }
        Some((pass, hand))
    }

    /// The history that a hand knows is a beginning of this one, which has no other rows of it.
    pub fn meet<W: Wait>(&mut self, wait: &W, hand: &Hand<Row, L>)
        ensures same { self.new ≡ self.old }
        ensures before { IsPrefix hand.now.seen self.old.rows }
        ensures own { entries_by connection_of hand.now.by self.old.rows
            ≡ entries_by connection_of hand.now.by hand.now.seen }
    {
        self.keeper.meet(wait, hand);
    }

    /// The same of each of these hands.
    pub fn meet_all<W: Wait>(&mut self, wait: &W, hands: &[Hand<Row, L>])
        ensures same { self.new ≡ self.old }
        ensures met { AreMet self.old.rows hands.now }
    {
        for hand in hands {
            self.meet(wait, hand);
        }
    }

    /// A connection ends: its pass comes back, and its hand is met for the last time. Waits for
    /// good where their numbers differ.
    pub fn end<W: Wait>(&mut self, wait: &W, pass: Pass<L>, hand: Hand<Row, L>)
        ensures by { hand.by ≡ pass.connection }
        ensures rows { self.new.rows ≡ self.old.rows }
        ensures interrupted { self.new.interrupted ≡ self.old.interrupted }
        ensures served { self.new.served ≡ record self.old.served {
          returned = self.old.served.returned + 1;
          counted = self.old.served.counted + pass.count;
        } }
        ensures before { IsPrefix hand.seen self.old.rows }
        ensures own { entries_by connection_of hand.by self.old.rows
            ≡ entries_by connection_of hand.by hand.seen }
    {
        if pass.connection() != hand.by() {
            stop(wait);
            unreachable!()
        }
        self.keeper.meet(wait, &hand);
        self.shared.take_back(pass);
    }

    /// One step of tidying.
    pub fn tidy(&mut self) -> Result<bool, DiskError>
        ensures tidied { Tidied self.old.served self.new.served result }
        ensures rows { self.new.rows ≡ self.old.rows }
        ensures interrupted { self.new.interrupted ≡ self.old.interrupted }
    {
        self.shared.tidy()
    }

    /// Does nothing: what is known of a server with its history, whenever it is got.
    pub fn known(&self)
        ensures { IsChronicled (start_of R.KEEPS L.sound L.export L.base) self.now }
    {
        self.shared.known();
    }

    /// The server alone.
    pub fn into_shared(self) -> Shared<D, R, L>
        ensures { result ≡ self.served }
    {
        let Chronicle {
            shared,
            keeper: _keeper,
            noted: _noted,
        } = self;
        shared
    }
}
