//! Bytes are programmed again as they read. A bit that reads 0 is firm from then on; nothing else
//! changes, and no bit becomes weak, whatever is answered.

ghost use Rattle.std.specs.Prelude.{◌≡◌, ◌+◌, ◌*◌, ◌%◌, ◌<◌, ◌≤◌, length, slice_range, OnOk};
ghost use Rattle.std.specs.Prelude.{IfErr};
ghost use Rattle.nor_driver.specs.State.{IsNorReady, OnlyMemoryChanges, Refuses, EndsReady};
ghost use Rattle.nor_driver.specs.State.{bits_in, IsFirmer};
ghost use Rattle.erase_journal.specs.Weak.{AreVotesBelieved, AreZerosFirm};
ghost use Rattle.erase_journal.specs.Torn.{SameData};

use crate::scan::is_blank;
use nor_driver::{Nor, NorError};
use nor_layout::{JOURNALS_END, JournalId, PAGE_LEN};

/// How many pages of a journal are votes; as many are behind them.
const VOTE_PAGES: u32 = 8;

/// Programs bytes of one page as they are.
pub(crate) fn program_again<N: Nor>(nor: &mut N, at: u32, bytes: &[u8]) -> Result<(), NorError>
    requires some { 0 < length bytes.now }
    requires page { at % 256 + length bytes.now ≤ 256 }
    requires range { at + length bytes.now ≤ length (N.state nor.old).memory }
    requires read { bytes.now
        ≡ slice_range (N.state nor.old).memory at (at + length bytes.now) }
    ensures same { (N.state nor.new).memory ≡ (N.state nor.old).memory }
    ensures firm { OnOk result (AreZerosFirm (bits_in (N.state nor.new)) at (length bytes.now)) }
    ensures firmer { IsFirmer (bits_in (N.state nor.old)) (bits_in (N.state nor.new)) }
    ensures data { at + length bytes.now ≤ JOURNALS_END → SameData (bits_in (N.state nor.old))
        (bits_in (N.state nor.new)) }
    ensures ends { EndsReady result (N.state nor.old) (N.state nor.new) }
{
    nor.program(at, bytes)
}

/// Programs a page as it reads, unless it is erased.
fn program_page_again<N: Nor>(nor: &mut N, at: u32) -> Result<(), NorError>
    requires page { at % 256 ≡ 0 }
    requires range { at + 256 ≤ length (N.state nor.old).memory }
    ensures same { (N.state nor.new).memory ≡ (N.state nor.old).memory }
    ensures firm { OnOk result (AreZerosFirm (bits_in (N.state nor.new)) at 256) }
    ensures firmer { IsFirmer (bits_in (N.state nor.old)) (bits_in (N.state nor.new)) }
    ensures data { at + 256 ≤ JOURNALS_END → SameData (bits_in (N.state nor.old))
        (bits_in (N.state nor.new)) }
    ensures ends { EndsReady result (N.state nor.old) (N.state nor.new) }
{
    let mut bytes = [0; PAGE_LEN];
    nor.read(at, &mut bytes)?;
    if is_blank(&bytes) {
        return Ok(());
    }
    program_again(nor, at, &bytes)
}

/// Programs eight pages as they read, those that aren't erased.
pub(crate) fn program_pages_again<N: Nor>(nor: &mut N, from: u32) -> Result<(), NorError>
    requires ready { IsNorReady (N.state nor.old) }
    requires page { from % 256 ≡ 0 }
    requires range { from + 2048 ≤ length (N.state nor.old).memory }
    requires fits { from < 65536 }
    ensures same { (N.state nor.new).memory ≡ (N.state nor.old).memory }
    ensures firm { OnOk result (AreZerosFirm (bits_in (N.state nor.new)) from 2048) }
    ensures firmer { IsFirmer (bits_in (N.state nor.old)) (bits_in (N.state nor.new)) }
    ensures data { from + 2048 ≤ JOURNALS_END → SameData (bits_in (N.state nor.old))
        (bits_in (N.state nor.new)) }
    ensures kept { OnOk result (OnlyMemoryChanges (N.state nor.old) (N.state nor.new)) }
    ensures fails { IfErr result (λ e. Refuses e (N.state nor.old) (N.state nor.new)) }
{
    for page in 0..VOTE_PAGES {
        program_page_again(nor, from + PAGE_LEN as u32 * page)?;
    }
    Ok(())
}

/// Programs all votes as they read.
pub(crate) fn program_votes_again<N: Nor>(nor: &mut N) -> Result<(), NorError>
    requires ready { IsNorReady (N.state nor.old) }
    requires size { JOURNALS_END ≤ length (N.state nor.old).memory }
    ensures same { (N.state nor.new).memory ≡ (N.state nor.old).memory }
    ensures firm { OnOk result (AreVotesBelieved (bits_in (N.state nor.new))) }
    ensures firmer { IsFirmer (bits_in (N.state nor.old)) (bits_in (N.state nor.new)) }
    ensures kept { OnOk result (OnlyMemoryChanges (N.state nor.old) (N.state nor.new)) }
    ensures fails { IfErr result (λ e. Refuses e (N.state nor.old) (N.state nor.new)) }
{
    program_pages_again(nor, JournalId::J0.place())?;
    program_pages_again(nor, JournalId::J1.place())?;
    program_pages_again(nor, JournalId::J2.place())
}
