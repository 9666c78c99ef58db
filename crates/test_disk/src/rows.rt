//! A script, its transcript, and what it leaves of the chip.

use chip_simulator::SimChip;
use nbd_station::ScriptError;
use std::alloc::Global;
use std::process::Abort;
use std::test::*;
use test_kit::chips::{started, told};

/// Runs a script over a chip, compares its end and its transcript, and gives the chip's memory
/// afterwards.
pub(crate) fn check_bytes(
    rt: &impl Abort,
    alloc: Global,
    name: &str,
    memory: Vec<u8>,
    script: &[u8],
    transcript: &[u8],
    end: Result<(), ScriptError>,
) -> Result<Vec<u8>, Fail> {
    let mut station = started(alloc, SimChip::new(memory)?)?;
    let mut room = vec![in alloc; 0u8; transcript.len().saturating_add(100)]?;
    let (told_end, len) = told(&mut station, script, room.as_mut_slice());
    assert_eq!(rt; told_end, end, "{name}");
    assert_eq!(rt; room.get(..len), Some(transcript), "{name}");
    Ok(station.into_inner().into_inner().into_inner())
}
