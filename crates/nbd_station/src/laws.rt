//! The law of transcripts.

ghost use Rattle.nbd_station.specs.Transcript.{OnePlain, PlainWithoutLoss};

/// Where no loss of power was counted, a transcript has the steps of a plain array alone, and its
/// bytes are a function of the world and the events.
pub fn transcripts_without_losses()
    ensures plain { PlainWithoutLoss }
    ensures one { OnePlain }
{}
