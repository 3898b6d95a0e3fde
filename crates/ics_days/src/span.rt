//! From when to when events are.
ghost use Rattle.std.specs.Prelude.{◌≡◌};
ghost use Rattle.ics_days.specs.Spans.{can_meet, first_at};

use ics_listing::Window;
use ics_values::Moment;

/// From when to when an event is. One that recurs may be at any time, until it is known from when on it is.
#[derive(Clone, Copy)]
pub struct Span {
    pub first: Moment,
    pub last: Moment,
}

impl Span {
    /// Whether what lies in it can meet a window.
    pub fn can_meet(self, window: &Window) -> bool
        ensures { result ≡ can_meet self window.now }
    {
        let begun = self.first < window.to;
        let lasting = window.from <= self.last;
        begun & lasting
    }
}

/// The instant with which the span at a place begins, if there is one there, and else the first of all.
pub fn first_at(spans: &[Span], place: usize) -> Moment
    ensures { result ≡ first_at spans.now place }
{
    match spans.get(place) {
        None => Moment::MIN,
        Some(span) => span.first,
    }
}
