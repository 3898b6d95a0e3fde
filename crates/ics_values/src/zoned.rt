//! Whether a stamp is in a time zone (RFC 5545, section 3.3.5).
ghost use Rattle.std.specs.Prelude.{◌≡◌};
ghost use Rattle.ics_values.specs.Zoned.{is_zoned};

use crate::stamp::Stamp;

/// Whether it is a local stamp beside a TZID.
pub fn is_zoned(stamp: Stamp) -> bool
    ensures { result ≡ is_zoned stamp }
{
    matches!(stamp, Stamp::Zoned(_))
}
