//! The journals of erases on a chip.

use crate::came::Came;
use crate::chip::loss_of;
use crate::driver::OnDriver;
use crate::fault::Fault;
use crate::refusals::{of_nor, of_recovery};
use crate::words::Words;
use erase_journal::Journal;

/// The journals of a simulated chip.
pub(crate) type OnJournal = Journal<OnDriver>;

/// A line of the journals.
pub(crate) fn run(journal: &mut OnJournal, verb: &str, mut words: Words) -> Result<Came, Fault> {
    let came = match verb {
        "erase" => {
            let block = words.short()?;
            if block < 4 || block >= journal.blocks() {
                return Err(Fault::NotUnderstood);
            }
            Came::Said(of_nor(journal.erase(block)))
        }
        "cut" => {
            let loss = loss_of(&mut words)?;
            journal.arm(loss.count, loss.kind, loss.mask);
            Came::Said("ok")
        }
        "blocks" => Came::Number(u32::from(journal.blocks())),
        "restore" => match journal.restore() {
            Ok(()) => Came::Said("ok"),
            Err(error) => Came::Said(of_recovery(error)),
        },
        _ => return Err(Fault::NotUnderstood),
    };
    words.end()?;
    Ok(came)
}
