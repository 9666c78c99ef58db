//! Bytes of a stream, of which there have to be exactly so many.

ghost use Rattle.std.specs.Prelude.{◌≡◌, ◌+◌, ◌<◌, length, IfOk, OnOk};
ghost use Rattle.std.specs.Io.KnownBytes.{Consumes, IsAtEnd};

use block_device::Source;
use std::alloc::Global;
use thiserror::Error;

/// Why the bytes weren't taken. Source: own.
#[derive(Clone, Copy, Debug, PartialEq, Eq, Drop, Error)]
pub enum InputError {
    /// There is no memory for them.
    #[error("no memory for the bytes")]
    OutOfMemory,
    /// A read failed.
    #[error("a read failed")]
    Failed,
    /// The stream has this many bytes, which are fewer.
    #[error("the stream has {0} bytes")]
    Shorter(usize),
    /// The stream has more bytes.
    #[error("the stream has more bytes")]
    Longer,
}

/// All bytes of a stream, of which there have to be exactly `count`: `Shorter` where there are
/// fewer, `Longer` where there are more.
pub fn receive_exactly<S: Source>(
    alloc: Global,
    source: &mut S,
    count: usize,
) -> Result<Vec<u8>, InputError>
    ensures size { IfOk result (λ bytes. length bytes.items ≡ count) }
    ensures all { IfOk result (λ bytes. Consumes (S.remaining source.old) (S.remaining source.new)
        bytes.items) }
    ensures end { OnOk result (IsAtEnd (S.remaining source.new)) }
{
    let Ok(mut bytes) = vec![in alloc; 0u8; count] else {
        return Err(InputError::OutOfMemory);
    };
    receive(source, bytes.as_mut_slice())?;
    let mut more = [0u8; 1];
    match source.read(&mut more) {
        Ok(0) => Ok(bytes),
        Ok(_) => Err(InputError::Longer),
        Err(_) => Err(InputError::Failed),
    }
}

/// Fills `into` with the next bytes of a stream: `Shorter` where it ends before.
fn receive<S: Source>(source: &mut S, into: &mut [u8]) -> Result<(), InputError>
    ensures bytes { OnOk result (Consumes (S.remaining source.old) (S.remaining source.new)
        into.new) }
    ensures size { length into.new ≡ length into.old }
{
    let mut done = 0;
    while done < into.len() {
        let Ok(n) = source.read(&mut into[done..]) else {
            return Err(InputError::Failed);
        };
        if n == 0 {
            return Err(InputError::Shorter(done));
        }
        done += n;
    }
    Ok(())
}
