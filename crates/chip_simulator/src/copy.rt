//! Bytes of the memory, in as few copies as there are.

ghost use Rattle.std.specs.Prelude.{◌≡◌, ◌+◌, ◌%◌, ◌<◌, length, EachIndex};
ghost use Rattle.chip_model.specs.Memory.{byte};

/// Bytes from a place on, past the end from the first on, run by run.
fn fill_round(recv: &mut [u8], memory: &[u8], at: u32)
    requires { 0 < length memory.now }
    ensures { EachIndex recv.new (λ k. byte recv.new k
        ≡ byte memory.now ((at + k) % length memory.now)) }
{
    let mut done = 0;
    while done < recv.len() {
        let place = (at as usize + done) % memory.len();
        let count = (recv.len() - done).min(memory.len() - place);
        recv[done..done + count].copy_from_slice(&memory[place..place + count]);
        done += count;
    }
}

/// Bytes from a place on, past the end from the first on. Where the end isn't passed they are one
/// run.
pub(crate) fn fill_from(recv: &mut [u8], memory: &[u8], at: u32)
    requires { 0 < length memory.now }
    ensures { EachIndex recv.new (λ k. byte recv.new k
        ≡ byte memory.now ((at + k) % length memory.now)) }
{
    let from = at as usize;
    if from < memory.len() && recv.len() <= memory.len() - from {
        recv.copy_from_slice(&memory[from..from + recv.len()]);
        return;
    }
    fill_round(recv, memory, at);
}
