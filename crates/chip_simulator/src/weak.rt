//! Which bits of a chip in memory waver, and how they are drawn.

ghost use Rattle.std.specs.Prelude.{◌≡◌, ◌+◌, ◌*◌, ◌/◌, ◌%◌, ◌<◌, ◌≤◌, ◌||◌, ◌==◌, bit_and, length};
ghost use Rattle.std.specs.Prelude.{true};
ghost use Rattle.chip_model.specs.Chip.{Programming, firmed, page_place};
ghost use Rattle.chip_model.specs.Cut.{weakened};
ghost use Rattle.chip_model.specs.Wavering.{Drawn};
ghost use Rattle.chip_simulator.specs.Fits.{fits_in, operation_of};
ghost use Rattle.chip_simulator.specs.Weak.{drawn_by};

use crate::frame::{Latch, Operation, fill_unit, program_page};

/// The bits that an operation makes firm when it completes are weak no more.
pub(crate) fn firm(weak: &mut [u8], operation: Operation, latched: &Latch)
    requires fits { ((length weak.old == 0) || fits_in operation (length weak.old)) ≡ true }
    ensures firmed { weak.new ≡ firmed (operation_of latched.now.bytes operation) weak.old }
    ensures length { length weak.new ≡ length weak.old }
{
    if weak.is_empty() {
        return;
    }
    match operation {
        Operation::Programming(at, count) => program_page(weak, at, latched.first(count)),
        Operation::Erasing(at, size) => fill_unit(weak, at, size, 0),
        Operation::Idle | Operation::Setting(_) => {}
    }
}

/// The bits that a loss of power leaves weak of an operation in progress are weak, too.
pub(crate) fn weaken(weak: &mut [u8], memory: &[u8], operation: Operation, latched: &Latch)
    requires fits { ((length weak.old == 0) || fits_in operation (length weak.old)) ≡ true }
    requires sizes { ((length weak.old == 0) || (length weak.old == length memory.now)) ≡ true }
    ensures weakened { weak.new
        ≡ weakened (operation_of latched.now.bytes operation) memory.now weak.old }
    ensures length { length weak.new ≡ length weak.old }
{
    if weak.is_empty() {
        return;
    }
    match operation {
        Operation::Programming(at, count) => weaken_page(weak, memory, at, latched.first(count)),
        Operation::Erasing(at, size) => fill_unit(weak, at, size, 0xFF),
        Operation::Idle | Operation::Setting(_) => {}
    }
}

/// What a page program makes of the byte at a place.
fn programmed_byte(old: u8, place: usize, at: u32, bytes: &[u8]) -> u8
    ensures { result ≡ page_place bit_and at bytes.now place old }
{
    let offset = (place % 256 + 256 - at as usize % 256) % 256;
    if place / 256 == at as usize / 256 && offset < bytes.len() {
        old & bytes[offset]
    } else {
        old
    }
}

/// Each bit that a page program is to change is weak.
fn weaken_page(weak: &mut [u8], memory: &[u8], at: u32, bytes: &[u8])
    requires page { at / 256 * 256 + 256 ≤ length weak.old }
    requires sizes { length weak.old ≡ length memory.now }
    ensures { weak.new ≡ weakened (Programming at bytes.now) memory.now weak.old }
{
    let from = at as usize / 256 * 256;
    for k in 0..256usize {
        let old = memory[from + k];
        weak[from + k] |= old ^ programmed_byte(old, from + k, at, bytes);
    }
}

/// Each weak bit reads as that of `draw`, whose bytes count for the memory's from the first on,
/// again and again.
pub(crate) fn redraw(memory: &mut [u8], weak: &[u8], draw: &[u8])
    requires sizes { ((length weak.now == 0) || (length weak.now == length memory.old)) ≡ true }
    requires some { 0 < length draw.now }
    ensures exact { memory.new ≡ drawn_by draw.now weak.now memory.old }
    ensures drawn { Drawn weak.now memory.old memory.new }
{
    for place in 0..weak.len() {
        let bits = weak[place];
        memory[place] = (memory[place] & (0xFF - bits)) | (draw[place % draw.len()] & bits);
    }
}
