//! The occurrence of an event that starts once.
ghost use Rattle.std.specs.Prelude.{◌≡◌, ◌<ℤ◌};
ghost use Rattle.ics_starts.specs.Clocks.{instant};
ghost use Rattle.ics_starts.specs.EventLaws.{own-event-prop};
ghost use Rattle.ics_starts.specs.FileZones.{clocks_in, IsOwnEvent};
ghost use Rattle.ics_listing.specs.WindowBounds.{window_last};

use crate::finish::finish;
use crate::instants::instant;
use crate::zones::FileZones;
use ics_event::{Event, Rdate};
use ics_listing::{Keyed, Occurrence, Start, StartSource, Window, local_of, order_of_keys};
use ics_values::Moment;
use std::cmp::Ordering;

/// The occurrence of an event at its DTSTART, without its finish, which is found when the occurrence is
/// given.
#[derive(Clone, Copy)]
pub struct Single<'a> {
    start: Moment,
    recurrence: Moment,
    zones: FileZones<'a>,
    event: &'a Event,
    ghost own: { IsOwnEvent zones event.now } by { own-event-prop zones event.now },
    ghost first: { start ≡ instant (clocks_in zones) event.now.start },
    ghost early: { start <ℤ window_last },
}

impl<'a> Single<'a> {
    ghost use Rattle.std.specs.Prelude.{map};
    ghost use Rattle.std.specs.Option.{option_map};
    ghost use Rattle.ics_file.specs.File.{IsEventOf};
    ghost use Rattle.ics_zone.specs.ZoneSaid.{zone_said};
    ghost use Rattle.ics_listing.specs.Entry.{entry_cmp, entry_of};
    ghost use Rattle.ics_starts.specs.SingleEvents.{begun_first, single_entry};

    /// The occurrence of an event at its DTSTART, if that is before the window's end. Its recurrence is
    /// `recurrence` or, without that, its start.
    pub fn begun(
        zones: FileZones<'a>,
        event: &'a Event,
        recurrence: Option<Moment>,
        window: &Window,
    ) -> Option<Single<'a>>
        requires { IsEventOf (map zone_said zones.zones.now) event.now }
        ensures { option_map single_entry result ≡ begun_first (clocks_in zones.entry) window.now event.entry.now recurrence }
    {
        let start = instant(zones, event.start);
        if start >= window.to {
            return None;
        }
        Some(Single {
            start,
            recurrence: recurrence.unwrap_or(start),
            zones,
            event,
        })
    }

    /// The occurrence, with its finish.
    pub fn occurrence(&self) -> Occurrence<'a>
        ensures { entry_of result ≡ single_entry self.now }
    {
        let event = self.event;
        let first = Start {
            moment: self.start,
            source: StartSource::Kept(local_of(event.start.stamp)),
            given: Rdate::At(event.start),
        };
        Occurrence {
            start: self.start,
            finish: finish(self.zones, event, first),
            recurrence: self.recurrence,
            event,
        }
    }

    /// By start, then by the bytes of the UID, then by recurrence.
    pub fn compare(a: &Single<'_>, b: &Single<'_>) -> Ordering
        ensures { result ≡ entry_cmp (single_entry a.now) (single_entry b.now) }
    {
        order_of_keys(a, b, None)
    }
}

impl<'a> Keyed for Single<'a> {
    ghost use Rattle.ics_listing.specs.Entry.{rank_of};
    ghost use Rattle.ics_starts.specs.SingleEvents.{single_entry};

    ghost rank = { λ a. rank_of (single_entry a) };

    fn start(&self) -> Moment {
        self.start
    }

    fn uid(&self) -> &[u8] {
        let event = self.event;
        event.uid.as_slice()
    }

    fn recurrence(&self) -> Moment {
        self.recurrence
    }
}
