//! Stretches of locals by spans with one offset each.
ghost use Rattle.std.specs.Prelude.{◌≡◌, ◌≤◌, ℤ, pos, neg_ℤ, ◌<ℤ◌, ◌≤ℤ◌, IfSome, length};
ghost use Rattle.ics_zone.specs.Seconds.{IsMoment};
ghost use Rattle.ics_zone.specs.Inner.Narrowed.{IsNarrowed};
ghost use Rattle.ics_zone.specs.Inner.ZoneOnsets.{AreSteady, IsSteady};

use crate::Stretch;
use crate::latest::Steady;
use ics_fields::Moment;

/// No stretch reaches further from 1970.
pub(crate) const FAR: i64 = 300_000_000_000;

/// Less than each offset.
pub(crate) const NO_OFFSET: i64 = -86_400;

/// How many spans are passed one by one, before those that begin by an instant are searched for.
const PASSED: usize = 8;

/// The span of those in order that reaches from one instant to another, if there is one.
pub(crate) fn span_over(spans: &[Steady], from: Moment, to: Moment) -> Option<Steady>
    ensures over { IfSome result (λ s. (s.from ≤ℤ from) × (to <ℤ s.next)) }
    ensures steady { (offset : ℤ → ℤ) → AreSteady offset spans.now → IfSome result (λ s. IsSteady offset s.from s.next s.offset) }
{
    last_over(
        spans,
        spans.partition_point(|span| span.from <= from),
        from,
        to,
    )
}

/// The last of so many spans, if it reaches from one instant to another.
pub(crate) fn last_over(spans: &[Steady], begun: usize, from: Moment, to: Moment) -> Option<Steady>
    requires { begun ≤ length spans.now }
    ensures over { IfSome result (λ s. (s.from ≤ℤ from) × (to <ℤ s.next)) }
    ensures steady { (offset : ℤ → ℤ) → AreSteady offset spans.now → IfSome result (λ s. IsSteady offset s.from s.next s.offset) }
{
    if begun == 0 {
        return None;
    }
    let steady = spans[begun - 1];
    if steady.from <= from && to < steady.next {
        Some(steady)
    } else {
        None
    }
}

/// How many spans begin by an instant, of those in order, if so many do at least. Where few more do, these are passed one by one.
pub(crate) fn begun_by(spans: &[Steady], least: usize, at: Moment) -> usize
    ensures { result ≤ length spans.now }
{
    for k in least..spans.len().min(least.saturating_add(PASSED)) {
        if spans[k].from > at {
            return k;
        }
    }
    spans.partition_point(|span| span.from <= at)
}

/// The locals from one on, given by its seconds, before it is known which offset shows them.
pub(crate) fn all_from(seconds: i64) -> Stretch
    ensures from { result.from ≡ seconds }
    ensures offset { result.offset ≡ neg_ℤ (pos 86_400) }
{
    Stretch {
        from: seconds,
        to: FAR,
        offset: NO_OFFSET,
        shown: NO_OFFSET,
    }
}

/// A stretch cut to those of its locals that an offset shows, or to those that it does not, by the span about the first local less the offset. It
/// is empty if the span is elsewhere.
pub(crate) fn narrowed(stretch: Stretch, offset: i32, span: &Steady) -> Stretch
    requires { IsMoment stretch.from }
    ensures from { result.from ≡ stretch.from }
    ensures to { result.to ≤ℤ stretch.to }
    ensures shown { (clock : ℤ → ℤ) → IsSteady clock span.now.from span.now.next span.now.offset → IsNarrowed clock offset stretch result }
{
    let from = stretch.from;
    let seconds = i64::from(offset);
    let at = from - seconds;
    if span.from > at || span.next <= at {
        return Stretch {
            from,
            to: from.min(stretch.to),
            offset: stretch.offset,
            shown: stretch.offset,
        };
    }
    let to = stretch.to.min(span.next.min(FAR) + seconds);
    let offset = if span.offset == offset {
        seconds
    } else {
        stretch.offset
    };
    Stretch {
        from,
        to,
        offset,
        shown: offset,
    }
}
