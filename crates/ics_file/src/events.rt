ghost use Rattle.std.specs.Prelude.{◌≡◌, map};
ghost use Rattle.ics_event.specs.Kept.{kept_event};
ghost use Rattle.ics_file.specs.Kept.{kept_seen};

use ics_event::Event;
use ics_values::KeptTexts;
use ics_zone::Zone;
use std::alloc::Global;
use std::marker::Model;

/// The time zones and the events of a file, each in the order of their BEGIN lines.
///
/// The zone of each time is one of these. If a start or an end has a zone, the event ends at most 36,525 days after its
/// start: compared as locals if both are of one zone, and else as instants.
#[derive(Drop)]
pub struct FileEvents {
    pub zones: Vec<Zone>,
    pub events: Vec<Event>,
}

impl Model for FileEvents {
    ghost use Rattle.std.specs.Prelude.{map};
    ghost use Rattle.ics_zone.specs.ZoneSaid.{zone_said};
    ghost use Rattle.ics_file.specs.File.{FileSeen, AreEventsOf};

    ghost Value = { FileSeen };

    ghost view = { λ a. record { zones = a.zones.items; events = a.events.items } };

    ghost invariant = { λ a. AreEventsOf (map zone_said a.zones.items) a.events.items };
}

/// Empties the texts of events that are not kept.
fn keep_texts(alloc: Global, keep: KeptTexts, events: &mut [Event])
    ensures { events.new ≡ map (kept_event keep) events.old }
{
    for event in events.iter_mut() {
        event.keep_texts(alloc, keep);
    }
}

/// The same events with these texts alone.
fn events_kept(alloc: Global, keep: KeptTexts, mut events: Vec<Event>) -> Vec<Event>
    ensures { result.items ≡ map (kept_event keep) events.items }
{
    keep_texts(alloc, keep, events.as_mut_slice());
    events
}

impl FileEvents {
    /// The same file, whose events have these texts alone.
    pub fn kept(self, alloc: Global, keep: KeptTexts) -> FileEvents
        ensures { result ≡ kept_seen keep self }
    {
        let FileEvents { zones, events } = self;
        FileEvents {
            zones,
            events: events_kept(alloc, keep, events),
        }
    }
}
