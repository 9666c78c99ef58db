//! What a caller does with the buffer of a session, for a disk of 70 sectors; bytes are written out
//! by hand from NBD proto.md.

use nbd_session::{ReplyTo, Session};
use nbd_wire::{Export, Next};
use std::alloc::Global;
use std::test::Fail;

/// A session that begins with requests.
fn requesting(alloc: Global) -> Result<Session, Fail> {
    match Session::requesting(alloc, Export::default_for(70)) {
        Ok(session) => Ok(session),
        Err(_) => Err(Fail::from("no memory")),
    }
}

/// The name of an answer.
fn name(next: Next<ReplyTo>) -> &'static str {
    match next {
        Next::More => "More",
        Next::Reply(_) => "Reply",
        Next::Run(_) => "Run",
        Next::Close => "Close",
    }
}

/// A READ of the first sector.
const READ_REQUEST: [u8; 28] = [
    0x25, 0x60, 0x95, 0x13, 0, 0, 0, 0, 1, 2, 3, 4, 5, 6, 7, 8, 0, 0, 0, 0, 0, 0, 0, 0, 0, 0, 2, 0,
];

#[test]
fn a_command_is_forgotten_at_the_next_take(rt: HostRuntime) -> Result<(), Fail> {
    let mut session = requesting(rt.alloc())?;
    assert!(&rt; session.buffer().is_empty());
    assert_eq!(&rt; name(session.take(&READ_REQUEST).next), "Run");
    assert_eq!(&rt; session.buffer().len(), 512);
    assert!(&rt; session.reply().is_empty());
    assert_eq!(&rt; name(session.take(&READ_REQUEST[..27]).next), "More");
    assert!(&rt; session.buffer().is_empty());
    assert_eq!(&rt; name(session.take(&READ_REQUEST[27..]).next), "Run");
    Ok(())
}
