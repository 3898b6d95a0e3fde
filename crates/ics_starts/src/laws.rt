//! Laws of the starts of one event. Each is the contract of a function that has no other purpose.
ghost use Rattle.ics_starts.specs.StartLaws.{EachStart, StartsByUntil, RawCounted, MostInDays, OneStart, NoneExcluded};

/// Each DTSTART, each local that a rule keeps and each RDATE starts an occurrence. If several sources
/// give one instant, the first wins. A UTC UNTIL removes the kept locals past it, and EXDATEs remove
/// starts.
pub fn each_start()
    ensures { EachStart }
{}

/// UNTIL in UTC bounds a rule in an inclusive manner (RFC 5545, section 3.3.10): of an event with date-times
/// the starts by the rule are, but for DTSTART, exactly those by the same rule without UNTIL that are not
/// after that instant.
pub fn starts_by_until()
    ensures { StartsByUntil }
{}

/// The starts of an event in five UTC days are counted as by `held_most`: each local and each RDATE, by
/// its place, that gives a start counts once.
pub fn raw_counted()
    ensures { RawCounted }
{}

/// No five UTC days in a row have more starts of an event than `held_most` counts for it, and some
/// have as many.
pub fn most_in_days()
    ensures { MostInDays }
{}

/// An event without a rule and without RDATEs occurs at its DTSTART alone.
pub fn one_start()
    ensures { OneStart }
{}

/// No occurrence starts where an EXDATE removes a start.
pub fn none_excluded()
    ensures { NoneExcluded }
{}
