//! The kind of an event that recurs.
ghost use Rattle.std.specs.Prelude.{◌≡◌};
ghost use Rattle.ics_starts.specs.Starts.{kind_of};

use ics_rule::Kind;
use ics_values::Stamp;

/// The kind of an event that starts at a stamp.
pub(crate) fn kind_of(stamp: Stamp) -> Kind
    ensures { result ≡ kind_of stamp }
{
    match stamp {
        Stamp::Date(_) => Kind::Date,
        Stamp::Floating(_) | Stamp::Utc(_) | Stamp::Zoned(_) => Kind::DateTime,
    }
}
