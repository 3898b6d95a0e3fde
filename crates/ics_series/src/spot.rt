//! The place of an event in a folder.
ghost use Rattle.std.specs.Prelude.{◌≡◌, Some, IsSome, map};
ghost use Rattle.ics_file.specs.File.{said_by, IsEventOf};

use ics_event::Event;
use ics_file::FileEvents;
use ics_starts::FileZones;
use ics_zone::Display;

/// The number of an event's file, and the event's place in that file.
#[derive(Clone, Copy)]
pub(crate) struct Spot {
    pub(crate) file: usize,
    pub(crate) place: usize,
}

impl Spot {
    ghost use Rattle.ics_starts.specs.Clocks.{display_clock};
    ghost use Rattle.ics_series.specs.PlacedEvents.{clocks_at, zones_in};
    ghost use Rattle.ics_series.specs.Spots.{event_at};
    ghost use Rattle.ics_starts.specs.FileZones.{clocks_in};
    ghost use Rattle.ics_zone.specs.ZoneSaid.{zone_said};

    /// The event at this place.
    pub(crate) fn event<'a>(self, files: &'a [FileEvents]) -> &'a Event
        requires { IsSome (event_at (map said_by files.now) self) }
        ensures event { event_at (map said_by files.entry.now) self ≡ Some result.now }
        ensures own { IsEventOf (zones_in (map said_by files.entry.now) self.file) result.now }
    {
        let file = &files[self.file];
        &file.events[self.place]
    }

    /// The zones by which the times of the event are read.
    pub(crate) fn zones<'a>(self, files: &'a [FileEvents], display: &'a Display) -> FileZones<'a>
        requires { IsSome (event_at (map said_by files.now) self) }
        ensures zones { map zone_said result.zones.now ≡ zones_in (map said_by files.entry.now) self.file }
        ensures clocks { clocks_in result
            ≡ clocks_at (map said_by files.entry.now) (display_clock display.entry.now) self.file }
    {
        let file = &files[self.file];
        FileZones {
            display,
            zones: &file.zones,
        }
    }
}
