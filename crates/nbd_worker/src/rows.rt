//! The rows of a connection in the history of its server.

ghost use Rattle.nbd_worker.specs.ToldRows.{PartsAreTold};

/// The parts of a connection that go through a locked door stand in the server's history.
pub fn told_rows()
    ensures { PartsAreTold }
{}
