//! The checks of the second round. They need all time zones of the file, which may stand after their use.
ghost use Rattle.std.specs.Prelude.{◌≡◌, IfOk};
ghost use Rattle.ics_components.specs.SecondRound.{zone_named};

use crate::tzid::Tzid;
use ics_values::Local;
use std::alloc::AllocError;

/// The TZID of a time zone (RFC 5545, section 3.8.3.1), and the number of the BEGIN line of the calendar that it belongs to.
#[derive(Drop, PartialEq, Eq, PartialOrd, Ord)]
pub struct ZoneName {
    pub calendar: u64,
    pub name: Tzid,
}

/// A stamp that is an instant: one in UTC, or one in the time zone of that name.
#[derive(Drop)]
pub enum Instant {
    Utc(Local),
    Zoned(Local, ZoneName),
}

/// A check of the second round: an end in UTC that is out of reach of its start, a time zone that is to be known (RFC 5545, section 3.2.19), or a start and
/// an end that compare as instants (RFC 5545, section 3.8.2.2).
#[derive(Drop)]
pub enum DeferredCheck {
    End,
    Zone(ZoneName),
    Ends(Instant, Instant),
}

impl ZoneName {
    /// The zone of that calendar with the name that a TZID gives, or with the empty name where there is none.
    pub fn of(calendar: u64, zone: Option<Tzid>) -> ZoneName
        ensures { result ≡ zone_named calendar zone }
    {
        let name = match zone {
            Some(name) => name,
            None => Tzid::empty(),
        };
        ZoneName { calendar, name }
    }

    /// The same of a TZID that is kept.
    pub(crate) fn shared(calendar: u64, zone: &Option<Tzid>) -> Result<ZoneName, AllocError>
        ensures { IfOk result (λ name. name ≡ zone_named calendar zone.now) }
    {
        let zone = match zone {
            Some(name) => Some(name.shared()?),
            None => None,
        };
        Ok(ZoneName::of(calendar, zone))
    }
}
