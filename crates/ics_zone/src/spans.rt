//! Spans of a clock near locals, kept from one question to the next.
ghost use Rattle.std.specs.Prelude.{◌≡◌, ℤ, IfSome};
ghost use Rattle.std.specs.List.{Contains};
ghost use Rattle.ics_zone.specs.Moments.{moment_by};
ghost use Rattle.ics_zone.specs.Seconds.{IsMoment};
ghost use Rattle.ics_zone.specs.Spans.{AreSpans};
ghost use Rattle.ics_zone.specs.Stretches.{IsStretch};
ghost use Rattle.ics_zone.specs.Inner.Walks.{IsShort};
ghost use Rattle.ics_zone.specs.Inner.ZoneOnsets.{AreSteady};

use crate::Stretch;
use crate::gap_stretch::told_gap;
use crate::latest::Steady;
use crate::stretches::{NO_OFFSET, all_from, begun_by, last_over, narrowed};
use ics_fields::Moment;
use std::alloc::Global;

/// Spans with one offset each, in order, for the locals before one, given by its seconds.
#[derive(Drop)]
pub(crate) struct SpanList {
    pub until: Moment,
    /// Every offset that the clock has at some instant, the greatest first.
    pub offsets: Vec<i32>,
    pub steady: Vec<Steady>,
}

/// Spans of a clock near locals that are asked for in order.
#[derive(Drop)]
pub struct Spans {
    list: Box<SpanList>,
}

impl Spans {
    /// The spans of a list. None if an allocation fails.
    pub(crate) fn of(alloc: Global, list: SpanList) -> Option<Spans>
        ensures { IfSome result (λ spans. spans.list.value ≡ list) }
    {
        let list = Box::new(alloc, list).ok()?;
        Some(Spans { list })
    }

    /// Whether the spans were made for a local, given by its seconds. There may be none near it all the same.
    pub fn are_near(&self, local: Moment) -> bool {
        local < self.list.until
    }

    /// A stretch of locals from one on, given by its seconds, that the clock shows, or skips, by one offset. It may be empty.
    pub fn stretch(&self, local: Moment) -> Stretch
        requires { IsMoment local }
        ensures { (offset moment : ℤ → ℤ) → AreSpans offset moment self.now → IsStretch offset moment result }
    {
        let offsets = self.list.offsets.as_slice();
        let spans = self.list.steady.as_slice();
        match told_stretch(offsets, spans, local) {
            Some(stretch) => stretch,
            None => Stretch::none(),
        }
    }
}

/// A stretch from a local on, given by its seconds, by spans of a clock that has no offset but these. An instant that shows one of its locals is the
/// local less one of the offsets. If none does, the clock skips the local. None if the spans do not tell so much.
pub(crate) fn told_stretch(offsets: &[i32], spans: &[Steady], seconds: i64) -> Option<Stretch>
    requires { IsMoment seconds }
    ensures { (offset : ℤ → ℤ) → IsShort offset → AreSteady offset spans.now → ((t : ℤ) → Contains offsets.now (offset t))
        → IfSome result (IsStretch offset (moment_by offset)) }
{
    let mut stretch = all_from(seconds);
    let mut begun = 0;
    for offset in offsets {
        if i64::from(*offset) <= stretch.offset {
            continue;
        }
        let at = seconds - i64::from(*offset);
        // The instants rise from offset to offset.
        begun = begun_by(spans, begun, at);
        let span = last_over(spans, begun, at, at)?;
        stretch = narrowed(stretch, *offset, &span);
    }
    if stretch.is_empty() {
        return None;
    }
    if stretch.offset <= NO_OFFSET {
        return told_gap(offsets, spans, stretch);
    }
    Some(stretch.as_shown())
}
