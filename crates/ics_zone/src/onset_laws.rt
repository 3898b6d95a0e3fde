//! A law of the onsets of observances.
ghost use Rattle.ics_zone.specs.OnsetLaws.{OnsetsByUntil};

/// Under a rule with an UNTIL in UTC an observance begins at its DTSTART, at its RDATEs and, of the instants
/// at which it would begin by the rule without UNTIL, at those that are not after UNTIL (RFC 5545, section
/// 3.3.10).
pub fn onsets_by_until()
    ensures { OnsetsByUntil }
{}
