//! The same for programs.

use crate::page::{fewest_votes, is_erasing, name_of, sectors_of};
use crate::reason::Reason;
use crate::totals::{Totals, total};
use sector_survey::{Report, Verdict};
use std::fmt;

/// The version of what is told: another where a key goes away or means something else.
const JSON_VERSION: u32 = 1;

/// What is told of an image in JSON: one object in one line, with the same keys whatever the
/// verdict is, of which what isn't known is null. `clean` says whether it would be served, `dirty`
/// where it isn't clean, `mended` whether it was mended for that, and `log_bytes` how many bytes of
/// a log are for it.
#[derive(Clone, Copy)]
pub struct Json<'r> {
    pub report: &'r Report,
    pub image: &'r [u8],
    pub clean: bool,
    pub dirty: Option<u32>,
    pub mended: bool,
    pub log_bytes: usize,
}

/// The totals of the blocks.
fn write_totals<W: fmt::Write>(f: &mut fmt::Formatter<W>, totals: Totals) -> fmt::Result {
    let Totals {
        plain,
        void,
        committed,
        settled,
        groups,
        dead_groups,
        wrong,
        spare,
        free,
        live,
        dead,
        ..
    } = totals;
    write!(
        f,
        ",\"blocks\":{{\"plain\":{plain},\"wholly_free\":{spare},\"void\":{void}"
    )?;
    write!(
        f,
        ",\"committed\":{committed},\"settled\":{settled},\"groups\":{groups}"
    )?;
    write!(f, ",\"dead_groups\":{dead_groups},\"wrong\":{wrong}}}")?;
    write!(
        f,
        ",\"slots\":{{\"free\":{free},\"live\":{live},\"dead\":{dead}}}"
    )
}

/// The verdict, whether the image was mended, and the reason.
fn write_verdict<W: fmt::Write>(f: &mut fmt::Formatter<W>, json: &Json<'_>) -> fmt::Result {
    let verdict = match json.report.verdict {
        Verdict::NotFormatted => "not formatted",
        Verdict::Corrupt(_) => "corrupt",
        Verdict::Mountable(_) => if json.clean { "clean" } else { "not clean" },
    };
    let mended = json.mended;
    write!(
        f,
        "{{\"version\":{JSON_VERSION},\"verdict\":\"{verdict}\",\"mended\":{mended}"
    )?;
    match json.report.verdict {
        Verdict::Corrupt(finding) => {
            let reason = Reason {
                finding,
                image: json.image,
            };
            write!(f, ",\"reason\":\"{reason}\"")
        }
        _ => f.write_str(",\"reason\":null"),
    }
}

/// Where the image isn't clean, its layout and its size.
fn write_size<W: fmt::Write>(f: &mut fmt::Formatter<W>, json: &Json<'_>) -> fmt::Result {
    match json.dirty {
        Some(at) => write!(f, ",\"not_erased_at\":{at}")?,
        None => f.write_str(",\"not_erased_at\":null")?,
    }
    match json.report.verdict {
        Verdict::Mountable(layout) => write!(f, ",\"layout\":\"{}\"", name_of(layout))?,
        _ => f.write_str(",\"layout\":null")?,
    }
    let (bytes, log) = (json.image.len(), json.log_bytes);
    let sectors = sectors_of(bytes);
    write!(
        f,
        ",\"bytes\":{bytes},\"sectors\":{sectors},\"log_bytes\":{log}"
    )
}

/// What the journals say; null of an image that isn't formatted.
fn write_journals<W: fmt::Write>(f: &mut fmt::Formatter<W>, report: &Report) -> fmt::Result {
    if report.verdict == Verdict::NotFormatted {
        return f.write_str(",\"free_entries\":null,\"least_votes\":null,\"erasing\":null");
    }
    let counts = &report.counts;
    let (free, votes) = (counts.free, fewest_votes(counts));
    let erasing = is_erasing(counts);
    write!(
        f,
        ",\"free_entries\":{free},\"least_votes\":{votes},\"erasing\":{erasing}"
    )
}

impl fmt::Display for Json<'_> {
    fn fmt<W: fmt::Write>(&self, f: &mut fmt::Formatter<W>) -> fmt::Result {
        write_verdict(f, self)?;
        write_size(f, self)?;
        write_journals(f, self.report)?;
        match &self.report.blocks {
            Some(blocks) if self.report.verdict != Verdict::NotFormatted => {
                write_totals(f, total(blocks.as_slice()))?
            }
            _ => f.write_str(",\"blocks\":null,\"slots\":null")?,
        }
        f.write_str("}\n")
    }
}
