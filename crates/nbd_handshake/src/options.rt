//! The rules that options meet.

ghost use Rattle.std.specs.Prelude.{◌≡◌, ◌≤◌, length, if◌then◌else◌};
ghost use Rattle.nbd_wire.specs.Options.{is_known, adds_up, name_of, case_of, phase_after};
ghost use Rattle.nbd_handshake.specs.Asked.{unknown_in, TellsUnknown};

use crate::asked::AskedName;
use byteorder::{BigEndian, ByteOrder};
use nbd_wire::{
    EXPORT_NAME, MAX_OPTION_LEN, OPT_ABORT, OPT_EXPORT_NAME, OPT_GO, OPT_INFO, OPT_LIST,
    OptionCase, OptionHead, Phase,
};

/// The case of an option, by its head and its content. The length's limit is looked at first.
pub(crate) fn case_of(head: OptionHead, content: &[u8]) -> OptionCase
    requires { length content.now ≤ MAX_OPTION_LEN }
    ensures { result ≡ case_of head content.now }
{
    if head.length > MAX_OPTION_LEN {
        return if head.option == OPT_EXPORT_NAME {
            OptionCase::NoExport
        } else {
            OptionCase::TooBig
        };
    }
    match head.option {
        OPT_EXPORT_NAME => {
            if is_known(content) {
                OptionCase::Export
            } else {
                OptionCase::NoExport
            }
        }
        OPT_ABORT => OptionCase::Abort,
        OPT_LIST => {
            if head.length == 0 {
                OptionCase::Listed
            } else {
                OptionCase::Invalid
            }
        }
        OPT_INFO => description_case(content),
        OPT_GO => description_case(content),
        _ => OptionCase::Unsupported,
    }
}

/// The case of INFO and GO, by their content.
fn description_case(content: &[u8]) -> OptionCase
    requires { length content.now ≤ MAX_OPTION_LEN }
    ensures { result ≡ (if adds_up content.now
        then (if is_known (name_of content.now) then OptionCase.Described
        else OptionCase.UnknownName) else OptionCase.Invalid) }
{
    if !adds_up(content) {
        return OptionCase::Invalid;
    }
    let name_len = BigEndian::read_u32(content) as usize;
    if is_known(&content[4..4 + name_len]) {
        OptionCase::Described
    } else {
        OptionCase::UnknownName
    }
}

/// Whether the lengths in the content of INFO and GO add up to all of it.
fn adds_up(content: &[u8]) -> bool
    requires { length content.now ≤ MAX_OPTION_LEN }
    ensures { result ≡ adds_up content.now }
{
    if content.len() < 6 {
        return false;
    }
    let name_len = BigEndian::read_u32(content) as usize;
    if name_len > content.len() - 6 {
        return false;
    }
    let count = usize::from(BigEndian::read_u16(&content[4 + name_len..]));
    content.len() == 4 + name_len + 2 + 2 * count
}

/// The name in the content of INFO and GO; empty where the content is too short for its length.
fn name_of(content: &[u8]) -> &[u8]
    ensures { result.now ≡ name_of content.now }
{
    if content.len() < 4 {
        return &[];
    }
    let behind = &content[4..];
    &behind[..(BigEndian::read_u32(content) as usize).min(behind.len())]
}

/// The name that an option of this case asks for, where no export has it.
pub(crate) fn unknown_in(case: OptionCase, content: &[u8]) -> Option<AskedName>
    ensures { TellsUnknown result (unknown_in case content.now) }
{
    match case {
        OptionCase::Export => None,
        OptionCase::NoExport => None,
        OptionCase::Abort => None,
        OptionCase::Listed => None,
        OptionCase::Described => None,
        OptionCase::TooBig => None,
        OptionCase::Invalid => None,
        OptionCase::UnknownName => Some(AskedName::of(name_of(content))),
        OptionCase::Unsupported => None,
    }
}

/// Whether a name is one of the export's: `flash` or the empty name.
fn is_known(name: &[u8]) -> bool
    ensures { result ≡ is_known name.now }
{
    name.is_empty() || name == EXPORT_NAME
}

/// The phase after an option.
pub(crate) fn phase_after(case: OptionCase, option: u32, no_zeroes: bool) -> Phase
    ensures { result ≡ phase_after case option no_zeroes }
{
    match case {
        OptionCase::Export => Phase::Transmitting,
        OptionCase::NoExport => Phase::Closed,
        OptionCase::Abort => Phase::Closed,
        OptionCase::Described if option == OPT_GO => Phase::Transmitting,
        OptionCase::Described => Phase::Negotiating(no_zeroes),
        OptionCase::TooBig => Phase::Negotiating(no_zeroes),
        OptionCase::Listed => Phase::Negotiating(no_zeroes),
        OptionCase::Invalid => Phase::Negotiating(no_zeroes),
        OptionCase::UnknownName => Phase::Negotiating(no_zeroes),
        OptionCase::Unsupported => Phase::Negotiating(no_zeroes),
    }
}
