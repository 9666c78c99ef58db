//! The records of a script.

ghost use Rattle.std.specs.Int.{to_be_bytes, w32};
ghost use Rattle.std.specs.Prelude.{◌≡◌, ◌++◌, ◌∷◌, IfOk, length};

use std::test::Fail;

/// The head of a record of a script: the event, the connection, and how many bytes follow.
pub fn record_head(event: u8, who: u8, len: u32) -> [u8; 6]
    ensures { result ≡ event ∷ who ∷ to_be_bytes w32 len }
{
    let [a, b, c, d] = len.to_be_bytes();
    [event, who, a, b, c, d]
}

/// Appends a record: an event of a connection, and its bytes. Fails where they are 4 GiB or more.
pub fn push_record(script: &mut Vec<u8>, event: u8, who: u8, bytes: &[u8]) -> Result<(), Fail>
    ensures { IfOk result (λ _. script.new.items ≡
        script.old.items ++ event ∷ who ∷ to_be_bytes w32 (length bytes.now) ++ bytes.now) }
{
    let Ok(len) = u32::try_from(bytes.len()) else {
        return Err(Fail::new("a record too long"));
    };
    script.extend_from_slice(&record_head(event, who, len))?;
    script.extend_from_slice(bytes)?;
    Ok(())
}
