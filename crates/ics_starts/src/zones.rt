//! The zones by which the times of a file are read.
ghost use Rattle.std.specs.Prelude.{◌≡◌, length, IsSome};
ghost use Rattle.ics_event.specs.Event.{TimeBelow};
ghost use Rattle.ics_starts.specs.Clocks.{clock_at, zone_clock};
ghost use Rattle.ics_zone.specs.ZoneSaid.{zone_said};
ghost use Rattle.ics_starts.specs.FileZones.{clocks_in};

use ics_event::Time;
use ics_zone::{Display, Zone};

/// The display zone, and the zones of a file.
#[derive(Clone, Copy)]
pub struct FileZones<'a> {
    /// The zone in which dates and floating times are read.
    pub display: &'a Display,
    /// The zones of the file, each at the index that its times have.
    pub zones: &'a [Zone],
}

impl<'a> FileZones<'a> {
    /// The zone of a time, if it has one of the file's.
    pub(crate) fn zone_of(self, time: Time) -> &'a Zone
        requires some { IsSome time.zone }
        requires within { TimeBelow (length self.zones.now) time }
        ensures { zone_clock (zone_said result.now) ≡ clock_at (clocks_in self.entry).zones time.zone }
    {
        &self.zones[time.zone.unwrap() as usize]
    }
}
