//! The locals that a clock skips from one on, by spans with one offset each, in their order.
ghost use Rattle.std.specs.Prelude.{◌≡◌, ℤ, true, pos, neg_ℤ, ◌+ℤ◌, ◌-ℤ◌, ◌<ℤ◌, ◌≤ℤ◌, IfSome};
ghost use Rattle.std.specs.List.{All, Contains};
ghost use Rattle.ics_zone.specs.Moments.{moment_by};
ghost use Rattle.ics_zone.specs.Seconds.{IsMoment};
ghost use Rattle.ics_zone.specs.Stretches.{IsStretch};
ghost use Rattle.ics_zone.specs.Inner.GapStretches.{AreUnshown, IsJumpRead};
ghost use Rattle.ics_zone.specs.Inner.Walks.{IsShort};
ghost use Rattle.ics_zone.specs.Inner.ZoneOnsets.{AreSteady, IsSteady};

use crate::Stretch;
use crate::latest::Steady;
use crate::stretches::{FAR, span_over};
use ics_fields::Moment;

/// How many spans are looked at for the first that shows a later local.
const WALKED: usize = 1_024;

/// The first instant at which a clock shows a later local than one.
#[derive(Clone, Copy)]
pub(crate) struct Jump {
    pub at: Moment,
    /// The offset just before that instant.
    pub before: i32,
    /// The offset at that instant.
    pub offset: i32,
}

/// A local that is not later than what a clock shows at an instant by an offset: the same, unless it is far away.
fn shown_near(moment: Moment, offset: i32) -> i64
    requires { neg_ℤ (pos 300_000_000_000) ≤ℤ moment }
    ensures { result ≤ℤ (moment +ℤ offset) }
{
    moment.min(FAR) + i64::from(offset)
}

/// The instant at which a clock with an offset shows a local, given by its seconds.
fn shown_at(seconds: i64, offset: i32) -> Moment
    requires { IsMoment seconds }
    ensures { result ≡ seconds -ℤ offset }
{
    seconds - i64::from(offset)
}

/// An offset that is not less than any of these.
pub(crate) fn greatest(offsets: &[i32]) -> i32
    ensures { All (λ offset. offset ≤ℤ result) offsets.now }
{
    let mut most = i32::MIN;
    for offset in offsets {
        most = most.max(*offset);
    }
    most
}

/// Whether a span begins where the last one ends, which shows earlier locals than one up to its end.
fn follows(seconds: i64, last: &Steady, span: &Steady) -> bool
    requires { IsMoment seconds }
    ensures passed { result ≡ true → last.now.next ≤ℤ (seconds -ℤ last.now.offset) }
    ensures on { result ≡ true → span.now.from ≡ last.now.next }
    ensures some { result ≡ true → span.now.from <ℤ span.now.next }
{
    if span.from == last.next {
        last.next <= shown_at(seconds, last.offset) && span.from < span.next
    } else {
        false
    }
}

/// Whether a span shows a later local than one at its beginning.
fn begins_later(seconds: i64, span: &Steady) -> bool
    requires { IsMoment seconds }
    ensures { result ≡ true → (seconds -ℤ span.now.offset) <ℤ span.now.from }
{
    shown_at(seconds, span.offset) < span.from
}

/// The first instant at which a clock shows a later local than one, given by its seconds, by its spans from the local less its greatest offset on. None
/// if the spans do not tell it, or a clock shows the local.
fn jump_over(spans: &[Steady], seconds: i64, most: i32) -> Option<Jump>
    requires { IsMoment seconds }
    ensures later { IfSome result (λ jump. seconds <ℤ (jump.at +ℤ jump.offset)) }
    ensures jump { IfSome result (λ jump. (offset : ℤ → ℤ) → AreSteady offset spans.now → ((t : ℤ) → offset t ≤ℤ most) → IsJumpRead offset seconds jump) }
{
    let at = shown_at(seconds, most);
    let mut last = span_over(spans, at, at)?;
    let begun = spans.partition_point(|span| span.from <= at);
    let end = spans.len().min(begun.saturating_add(WALKED));
    for k in begun..end {
        let span = spans[k];
        if span.from < last.next {
            continue;
        }
        if !follows(seconds, &last, &span) {
            return None;
        }
        if begins_later(seconds, &span) {
            return Some(Jump {
                at: span.from,
                before: last.offset,
                offset: span.offset,
            });
        }
        last = span;
    }
    None
}

/// The locals that a clock skips, of those that it does not show, up to what it shows after the jump, and as long as a span about the instant that the
/// first means reaches.
pub(crate) fn skipped(unshown: Stretch, jump: &Jump, span: &Steady) -> Stretch
    requires from { IsMoment unshown.from }
    requires later { unshown.from <ℤ (jump.now.at +ℤ jump.now.offset) }
    requires begun { span.now.from ≤ℤ (unshown.from -ℤ jump.now.before) }
    requires reaches { (unshown.from -ℤ jump.now.before) <ℤ span.now.next }
    ensures { (offset : ℤ → ℤ) → IsShort offset → AreUnshown offset unshown → IsJumpRead offset unshown.from jump.now
        → IsSteady offset span.now.from span.now.next span.now.offset → IsStretch offset (moment_by offset) result }
{
    let later = shown_near(jump.at, jump.offset);
    let end = shown_near(span.next, jump.before);
    Stretch {
        from: unshown.from,
        to: unshown.to.min(later.min(end)),
        offset: i64::from(jump.before),
        shown: i64::from(span.offset),
    }
}

/// A stretch of locals that a clock skips, of those that it does not show. They mean instants by the offset just before the first that shows a later
/// one. None if the spans do not tell it.
pub(crate) fn told_gap(offsets: &[i32], spans: &[Steady], unshown: Stretch) -> Option<Stretch>
    requires { IsMoment unshown.from }
    ensures { (offset : ℤ → ℤ) → IsShort offset → AreSteady offset spans.now → ((t : ℤ) → Contains offsets.now (offset t)) → AreUnshown offset unshown
        → IfSome result (IsStretch offset (moment_by offset)) }
{
    let seconds = unshown.from;
    let jump = jump_over(spans, seconds, greatest(offsets))?;
    let at = shown_at(seconds, jump.before);
    let span = span_over(spans, at, at)?;
    Some(skipped(unshown, &jump, &span))
}
