//! From when to when an occurrence is that lasts.
ghost use Rattle.std.specs.Prelude.{◌≤ℤ◌, ◌<ℤ◌};
ghost use Rattle.ics_listing.specs.WindowBounds.{occurrence_end, occurrence_first};

use ics_event::Event;
use ics_listing::Occurrence;
use ics_values::Moment;

/// From when to when an occurrence of an event is. It is identified by its start.
#[derive(Clone, Copy)]
pub(crate) struct Lasting {
    start: Moment,
    finish: Moment,
    ghost not_early: { occurrence_first ≤ℤ start },
    ghost forward: { start ≤ℤ finish },
    ghost not_late: { finish <ℤ occurrence_end },
}

impl Lasting {
    ghost use Rattle.std.specs.Prelude.{◌≡◌};
    ghost use Rattle.ics_continued.specs.Lasting.{lasting_entry};
    ghost use Rattle.ics_listing.specs.Entry.{entry_of};

    /// From when to when an occurrence is.
    pub(crate) fn of(occurrence: &Occurrence<'_>) -> Lasting
        ensures start { result.start ≡ occurrence.now.start }
        ensures finish { result.finish ≡ occurrence.now.finish }
    {
        Lasting {
            start: occurrence.start,
            finish: occurrence.finish,
        }
    }

    /// When it begins.
    pub(crate) fn start(self) -> Moment
        ensures { result ≡ self.start }
    {
        self.start
    }

    /// The occurrence of an event that is then.
    pub(crate) fn occurrence<'a>(self, event: &'a Event) -> Occurrence<'a>
        ensures { entry_of result ≡ lasting_entry event.entry.now self }
    {
        Occurrence {
            start: self.start,
            finish: self.finish,
            recurrence: self.start,
            event,
        }
    }
}
