//! The occurrence that a start gives.
ghost use Rattle.std.specs.Prelude.{◌≡◌, ◌<ℤ◌, ◌≤ℤ◌, ◌+ℤ◌, IfSome};
ghost use Rattle.std.specs.Option.{option_map};
ghost use Rattle.ics_listing.specs.Entry.{entry_of};
ghost use Rattle.ics_listing.specs.WindowBounds.{lasts_most, window_last};
ghost use Rattle.ics_starts.specs.Found.{met_by, IsFinish, IsStartIn};
ghost use Rattle.ics_starts.specs.FileZones.{clocks_in, IsOwnEvent};
ghost use Rattle.ics_starts.specs.Finish.{finish};

use crate::finish::finish;
use crate::zones::FileZones;
use ics_event::Event;
use ics_listing::{Occurrence, Start, Window};
use ics_values::Moment;

/// The end of the occurrence with a start. It may have been told.
fn finish_by(zones: FileZones<'_>, event: &Event, start: Start, told: Option<Moment>) -> Moment
    requires event { IsOwnEvent zones event.now }
    requires start { IsStartIn zones start }
    requires early { start.moment <ℤ window_last }
    requires told { IfSome told (IsFinish (clocks_in zones) event.now start) }
    ensures value { result ≡ finish (clocks_in zones.entry) event.now start.given }
    ensures forward { start.moment ≤ℤ result }
    ensures early { result <ℤ (window_last +ℤ lasts_most) }
{
    match told {
        None => finish(zones, event, start),
        Some(end) => end,
    }
}

/// The occurrence with a start, if it meets the window. Its end may have been told.
pub(crate) fn met_by<'a>(
    zones: FileZones<'_>,
    event: &'a Event,
    start: Start,
    window: &Window,
    told: Option<Moment>,
) -> Option<Occurrence<'a>>
    requires event { IsOwnEvent zones event.now }
    requires start { IsStartIn zones start }
    requires told { IfSome told (IsFinish (clocks_in zones) event.now start) }
    ensures { option_map entry_of result ≡ met_by (clocks_in zones.entry) window.now event.entry.now start }
{
    if start.moment >= window.to {
        return None;
    }
    let occurrence = Occurrence {
        start: start.moment,
        finish: finish_by(zones, event, start, told),
        recurrence: start.moment,
        event,
    };
    if window.is_met(&occurrence) {
        Some(occurrence)
    } else {
        None
    }
}
