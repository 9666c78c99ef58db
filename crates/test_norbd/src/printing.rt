//! What is printed of faults that no line of the built program can be brought to.

use norbd_line::{Cause, Fault, Line, Place, ServeLine, SyncPolicy, TidyPolicy};
use norbd_run::Telling;
use std::test::*;

#[test]
fn faults_tell_which_file_and_why(rt: HostRuntime) -> Result<(), Fail> {
    let serve = Line::Serve(ServeLine {
        image: "a.img",
        place: Place::Unix("a.sock"),
        conns: None,
        record: false,
        sync: SyncPolicy::AtFlush,
        tidy: TidyPolicy::Lazily,
        max_request: None,
        read_only: false,
        verbose: false,
        trust: false,
        status: None,
        firm: false,
    });
    for (fault, line, text) in [
        (Fault::NoMemory, serve, "no memory"),
        (Fault::Slow, Line::Script { kib: 64 }, "slow"),
        (Fault::WrongId, serve, "wrong id: a.img"),
        (
            Fault::Protected,
            Line::Show { image: "a.img" },
            "protected: a.img",
        ),
        (
            Fault::Protected,
            serve,
            "protected: a.img: norbd check says by what, norbd unprotect --yes ends that",
        ),
        (
            Fault::NoSocket(Cause::Accept),
            serve,
            "no socket: a.sock: accepting failed",
        ),
        (
            Fault::ImageFailed(Cause::Read),
            serve,
            "image failed: a.img: a read failed",
        ),
    ] {
        let telling = Telling {
            fault: &fault,
            line: Some(line),
            reason: None,
            output: None,
        };
        assert_eq!(rt; format!(in rt.alloc(); "{telling}")?.as_str(), text);
    }
    Ok(())
}
