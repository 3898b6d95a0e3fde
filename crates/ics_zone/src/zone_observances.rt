//! The observances of a zone.
ghost use Rattle.ics_zone.specs.Observances.{IsZone, zone-prop};

use ics_values::Observance;

/// The observances of a zone, each within its bounds: in the years 0001 to 9899, and with offsets of less than a day either way.
#[derive(Drop)]
pub(crate) struct ZoneObservances {
    pub said: Vec<Observance>,
    pub ghost in_bounds: { IsZone said.items } by { zone-prop said.items },
}
