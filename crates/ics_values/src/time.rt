//! Times and lengths, with the zones of their stamps (RFC 5545, sections 3.2.19 and 3.3.5).
ghost use Rattle.std.specs.Prelude.{◌≡◌};
ghost use Rattle.ics_values.specs.Times.{time_in};

use crate::duration::Duration;
use crate::stamp::Stamp;
use crate::zoned::is_zoned;

/// A stamp and, for a local one with a TZID, its zone. A file that is being read has the name of the zone there, and one that has been read its index.
#[derive(Clone, Copy, Drop)]
pub struct Time<Z> {
    pub stamp: Stamp,
    pub zone: Option<Z>,
}

/// The length of an event (RFC 5545, section 3.6.1): given by no property, by DTEND or by DURATION.
#[derive(Clone, Copy, Drop)]
pub enum Length<Z> {
    Open,
    Until(Time<Z>),
    Lasting(Duration),
}

/// A further start of an event, given by a value of an RDATE (RFC 5545, section 3.8.5.2): a stamp, or a PERIOD with its own
/// length.
#[derive(Clone, Copy, Drop)]
pub enum Rdate<Z> {
    At(Time<Z>),
    Span(Time<Z>, Length<Z>),
}

impl<Z: Drop> Time<Z> {
    /// The time of a stamp, where its TZID names that zone.
    pub fn of_stamp(stamp: Stamp, zone: Option<Z>) -> Time<Z>
        ensures { result ≡ time_in zone stamp }
    {
        Time {
            stamp,
            zone: if is_zoned(stamp) { zone } else { None },
        }
    }
}
