//! One text of a connection in pieces.

use crate::rows::check_bytes;
use crate::scripts::bytes_of;
use std::alloc::Global;
use std::process::Abort;
use std::test::*;
use test_kit::chips::formatted;
use test_kit::push_record;

/// The flags, a GO and a READ of the last sector.
const TEXT: &str =
    "00000003 49484156454F5054 00000007 0000000B 00000005 666C617368 0000 25609513 0000 0000 0102030405060708 0000000000008A00 00000200";

/// Where each of them ends.
const FLAGS_END: usize = 4;

const GO_END: usize = 31;

const READ_END: usize = 59;

/// Sends the text in pieces that end at these places, and compares all that is answered.
fn check_pieces(rt: &impl Abort, alloc: Global, ends: &[usize]) -> Result<(), Fail> {
    let text = bytes_of(alloc, TEXT)?;
    let mut script = bytes_of(alloc, "OPEN")?;
    let mut transcript = bytes_of(alloc, "GREETED")?;
    let mut start = 0usize;
    for end in ends {
        let Some(piece) = text.as_slice().get(start..*end) else {
            return Err(Fail::new("no piece"));
        };
        push_record(&mut script, b'P', 0, piece)?;
        if start < GO_END && *end >= GO_END {
            transcript.extend_from_slice(bytes_of(alloc, "GO_ANSWER")?.as_slice())?;
        }
        if start < READ_END && *end >= READ_END {
            transcript.extend_from_slice(bytes_of(alloc, "DATA 00*512")?.as_slice())?;
        }
        transcript.extend_from_slice(bytes_of(alloc, "DONE")?.as_slice())?;
        start = *end;
    }
    let name = format!(in alloc; "pieces that end at {ends:?}")?;
    let memory = formatted(alloc)?.into_inner();
    let _left = check_bytes(
        rt,
        alloc,
        name.as_str(),
        memory,
        script.as_slice(),
        transcript.as_slice(),
        Ok(()),
    )?;
    Ok(())
}

#[test]
fn a_text_is_answered_alike_wherever_it_is_cut(rt: HostRuntime) -> Result<(), Fail> {
    for at in 0..READ_END + 1 {
        check_pieces(&rt, rt.alloc(), &[at, READ_END])?;
        check_pieces(
            &rt,
            rt.alloc(),
            &[FLAGS_END, at.clamp(FLAGS_END, GO_END), GO_END, READ_END],
        )?;
        check_pieces(
            &rt,
            rt.alloc(),
            &[FLAGS_END, GO_END, at.max(GO_END), READ_END],
        )?;
    }
    // each byte of the request alone: 27 times nothing but the end of the event, and then the data
    let mut ends = [FLAGS_END; 30];
    for k in 1..30usize {
        ends[k] = GO_END + k - 1;
    }
    check_pieces(&rt, rt.alloc(), &ends)
}
