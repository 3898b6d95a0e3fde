//! A version of an event.
ghost use Rattle.std.specs.Prelude.{◌≡◌};
ghost use Rattle.ics_series.specs.Inner.Beginnings.{beginning_of};

use crate::spot::Spot;
use ics_values::Moment;

/// What the versions of an event share: its UID, and the instant of the instance that they override.
/// Those of a master override none (RFC 5545, section 3.8.4.4).
#[derive(Clone, Copy, PartialEq, Eq, PartialOrd, Ord)]
pub(crate) struct Subject<'a> {
    pub(crate) uid: &'a [u8],
    pub(crate) recurrence: Option<Moment>,
}

/// An event as a version of its subject.
#[derive(Clone, Copy)]
pub(crate) struct Version<'a> {
    pub(crate) subject: Subject<'a>,
    pub(crate) sequence: u32,
    pub(crate) spot: Spot,
    // The first bytes of the UID, which tell most UIDs apart at once.
    pub(crate) beginning: u64,
    ghost begins: { beginning ≡ beginning_of subject.uid.now },
}
