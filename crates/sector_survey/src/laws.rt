//! What follows from the definitions, with no work at run time. Source: own.

ghost use Rattle.sector_survey.specs.Findings.{FindingsAreRefused};

/// A memory of which a finding is true is not mountable: a mount refuses it as corrupt.
pub fn findings_are_refused()
    ensures { FindingsAreRefused }
{}
