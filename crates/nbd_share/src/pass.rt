//! The passes of a server: one for each connection, with a count of its commands.

ghost use Rattle.std.specs.Prelude.{◌≡◌, ℕ, ◌+◌, ◌<◌, ◌≤◌, ◌^◌, ◌↔◌, false, true, IfSome, IfNone};
ghost use Rattle.std.specs.Prelude.{IsSome, OnSome, sum_by, vec_len};

use nbd_history::Naming;
use nbd_wire::Export;
use std::marker::{Brand, Model};
use std::sync::ledger::{Blank, Book, Ledger, Share};

/// The parts of a server's ledger: one for each pass that may be out, and one that stays.
pub const LEDGER_PARTS: u64 = MOST_OUT + 1;

/// How many passes are out at once at most.
const MOST_OUT: u64 = 65_536;

/// How many passes a server gives at most in its life.
const MOST_PASSES: u64 = 1 << 62;

/// A name for one server and its export, for contracts alone: a type that represents it.
pub trait OneServer: Ledger + Naming {
    ghost use Rattle.std.specs.Prelude.{ℕ, List, Bool};
    ghost use Rattle.nbd_wire.specs.declared.export.Export.{Export};

    /// What it serves.
    ghost export: { Export };

    /// Whether its disk was sound when it was made, and what it held then.
    ghost sound: { Bool };

    ghost base: { List ℕ };
}

// No server has this export by this: where a function over an `L: OneServer` is called with
// `Brand`, the call picks the export (as `run_line` of `norbd` does), and its contract speaks of
// that.
impl OneServer for Brand {
    ghost use Rattle.std.specs.Prelude.{List, [], false};

    ghost export = { record { sectors = 0; told_len = 0; max_len = 0; read_only = false } };

    ghost sound = { false };

    ghost base = { [] };
}

/// The right to run commands as one connection of the server `L`.
///
/// Passes come from `Shared::pass` alone. A pass of another server has another type:
///
/// ```text
/// fn mixed<D: Disk, R: Recorder, L: OneServer, M: OneServer>(
///     server: &mut Shared<D, R, L>,
///     pass: &mut Pass<M>,
///     command: &Command,
/// ) {
///     // mismatched types: expected `Pass<L>`, found `Pass<M>`
///     server.execute(pass, command, &mut []);
/// }
/// ```
#[derive(Drop)]
pub struct Pass<L: OneServer> {
    connection: u64,
    export: Export,
    count: u64,
    share: Share<L>,
}

impl<L: OneServer> Model for Pass<L> {
    ghost use Rattle.std.specs.Prelude.{◌≡◌};
    ghost use Rattle.nbd_share.specs.PassState.{PassState};

    ghost Value = { PassState };

    ghost view = { λ p. record { connection = p.connection; count = p.count } };

    ghost invariant = { λ p. record {
      one_part : p.share.parts ≡ 1;
      counted : p.share.amount ≡ p.count;
      same_disk : p.export ≡ L.export;
    } };
}

impl<L: OneServer> Pass<L> {
    /// The connection's number, from 0 on.
    pub fn connection(&self) -> u64
        ensures { result ≡ self.now.connection }
    {
        self.connection
    }

    /// The server's export.
    pub fn export(&self) -> Export
        ensures { result ≡ L.export }
    {
        self.export
    }

    /// How many rows this pass added.
    pub fn count(&self) -> u64
        ensures { result ≡ self.now.count }
    {
        self.count
    }
}

/// The passes that a server gave, how many of them came back with how many rows, and the ledger of
/// their counts: 65,537 parts, one for each pass that is out and the others here.
#[derive(Drop)]
pub(crate) struct Counts<L: OneServer> {
    book: Book<L>,
    rest: Share<L>,
    export: Export,
    given: u64,
    returned: u64,
    counted: u64,
    closed: bool,
    ghost same_export: { export ≡ L.export },
    ghost parts: { rest.parts + given ≡ 65537 + returned },
    ghost here: { rest.amount ≡ counted },
    ghost out: { returned ≤ given },
    ghost at_most: { given ≤ returned + 65536 },
    ghost numbers: { given ≤ 2 ^ 62 },
}

impl<L: OneServer> Counts<L> {
    pub(crate) fn new(blank: Blank, export: Export) -> Counts<L>
        requires export { export ≡ L.export }
        requires name { blank.name ≡ L.name }
        requires parts { blank.parts ≡ L.parts }
        requires all { blank.parts ≡ 65537 }
        ensures total { result.book.total ≡ 0 }
        ensures given { (result.given ≡ 0) × (result.returned ≡ 0) × (result.counted ≡ 0) }
        ensures closed { result.closed ≡ false }
    {
        let (book, rest) = blank.open::<L>();
        Counts {
            book,
            rest,
            export,
            given: 0,
            returned: 0,
            counted: 0,
            closed: false,
        }
    }

    /// The pass with the next number, until the counts are closed, while fewer than 65,536 are out.
    pub(crate) fn pass(&mut self) -> Option<Pass<L>>
        ensures next { IfSome result (λ p. (p.connection ≡ self.old.given) × (p.count ≡ 0)) }
        ensures some { IsSome result ↔ ((self.old.closed ≡ false)
            × (self.old.given < self.old.returned + 65536) × (self.old.given < 2 ^ 62)) }
        ensures given { OnSome result (self.new.given ≡ self.old.given + 1) }
        ensures none { IfNone result (self.new.given ≡ self.old.given) }
        ensures returned { (self.new.returned ≡ self.old.returned)
            × (self.new.counted ≡ self.old.counted) }
        ensures closed { self.new.closed ≡ self.old.closed }
        ensures total { self.new.book.total ≡ self.old.book.total }
    {
        if self.closed || self.given - self.returned >= MOST_OUT || self.given >= MOST_PASSES {
            return None;
        }
        let share = self.rest.split_off(1, 0);
        let connection = self.given;
        self.given += 1;
        Some(Pass {
            connection,
            export: self.export,
            count: 0,
            share,
        })
    }

    /// One row more.
    pub(crate) fn add(&mut self, pass: &mut Pass<L>)
        requires { self.old.book.total + 1 < 2 ^ 64 }
        ensures count { pass.new.count ≡ pass.old.count + 1 }
        ensures connection { pass.new.connection ≡ pass.old.connection }
        ensures total { self.new.book.total ≡ self.old.book.total + 1 }
        ensures given { self.new.given ≡ self.old.given }
        ensures returned { (self.new.returned ≡ self.old.returned)
            × (self.new.counted ≡ self.old.counted) }
        ensures closed { self.new.closed ≡ self.old.closed }
    {
        self.book.audit(&mut pass.share);
        self.book.add(&mut pass.share, 1);
        pass.count += 1;
    }

    /// A pass comes back: its part of the ledger may be given again, and its count is kept.
    pub(crate) fn take_back(&mut self, pass: Pass<L>)
        requires parts { L.parts ≡ 65537 }
        requires fits { self.old.book.total < 2 ^ 64 }
        ensures given { self.new.given ≡ self.old.given }
        ensures returned { self.new.returned ≡ self.old.returned + 1 }
        ensures counted { self.new.counted ≡ self.old.counted + pass.count }
        ensures closed { self.new.closed ≡ self.old.closed }
        ensures total { self.new.book.total ≡ self.old.book.total }
    {
        let Pass { count, share, .. } = pass;
        let Counts {
            book,
            rest,
            returned,
            counted,
            ..
        } = self;
        rest.merge(share);
        book.audit(rest);
        *returned += 1;
        *counted += count;
    }

    /// The sum of the counts, exactly where every pass that is out is handed in and the counts are
    /// open: it is all that the ledger counted, and the counts are closed then.
    pub(crate) fn total(&mut self, passes: Vec<Pass<L>>) -> Option<u64>
        requires parts { L.parts ≡ 65537 }
        requires fits { self.old.book.total < 2 ^ 64 }
        ensures some { IsSome result ↔ ((self.old.closed ≡ false)
            × (self.old.returned + vec_len passes ≡ self.old.given)) }
        ensures sum { IfSome result
            (λ n. n ≡ self.old.counted + sum_by (λ p. p.count) passes.items) }
        ensures all { IfSome result (λ n. n ≡ self.old.book.total) }
        ensures closed { OnSome result (self.new.closed ≡ true) }
        ensures none { IfNone result (self.new.closed ≡ self.old.closed) }
        ensures given { self.new.given ≡ self.old.given }
        ensures returned { (self.new.returned ≡ self.old.returned)
            × (self.new.counted ≡ self.old.counted) }
        ensures total { self.new.book.total ≡ self.old.book.total }
    {
        if self.closed || passes.len() as u64 != self.given - self.returned {
            return None;
        }
        let mut passes = passes;
        let Counts {
            book,
            rest,
            given,
            returned,
            counted,
            closed,
            ..
        } = self;
        let kept = LEDGER_PARTS - (*given - *returned);
        let mut all = rest.split_off(kept, *counted);
        book.audit(&mut all);
        let mut sum = *counted;
        while let Some(pass) = passes.pop() {
            let Pass { count, share, .. } = pass;
            all.merge(share);
            book.audit(&mut all);
            sum += count;
        }
        book.audit(&mut all);
        all.give(rest, kept, *counted);
        *closed = true;
        Some(sum)
    }
}
