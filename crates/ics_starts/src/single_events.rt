//! Which events start once.
ghost use Rattle.std.specs.Prelude.{◌≡◌};
ghost use Rattle.ics_starts.specs.SingleEvents.{is_single};

use ics_event::Event;

/// Whether an event starts once. An override starts at its DTSTART alone.
pub fn is_single(event: &Event) -> bool
    ensures { result ≡ is_single event.now }
{
    event.recurrence.is_some()
        || (event.rule.is_none() && event.rdates().is_empty() && event.exdates().is_empty())
}
