//! Going over spans with one offset each, in their order, for the instants of many locals at once.
ghost use Rattle.std.specs.Prelude.{◌≡◌, ℕ, ℤ, true, length, slice_index_or, ◌<◌, ◌≤◌, ◌⊎◌, ◌<ℤ◌, MatchOption, IfSome};
ghost use Rattle.ics_zone.specs.Moments.{IsMomentBy};
ghost use Rattle.ics_zone.specs.Seconds.{IsMoment};
ghost use Rattle.ics_zone.specs.Inner.ZoneOnsets.{AreSteady, IsSteady};
ghost use Rattle.ics_zone.specs.Inner.Walks.{IsShort, IsSeen};
ghost use Rattle.ics_zone.specs.Inner.Sweeps.{AreReady, AreUnseen, IsSwept, IsToldOn};

use crate::clock::is_moment;
use crate::latest::Steady;
use crate::onsets::passed;
use crate::walk::{Seen, Walk, gap_at_end, seen_on};
use ics_fields::Moment;

const DAY: i64 = 86_400;

/// No span reaches further from 1970.
const FAR: i64 = 300_000_000_000;

/// How far spans reach.
#[derive(Clone, Copy)]
pub(crate) struct Reach {
    /// The end of the last span.
    pub low: Moment,
    /// The offset just before the end.
    pub before: i32,
    /// For so many of the locals the spans show one that is not earlier.
    pub past: usize,
}

/// Whether locals, given by their seconds, are in order and each a day after an instant.
pub(crate) fn are_ready(locals: &[i64], from: Moment) -> bool
    ensures { result ≡ true → AreReady from locals.now }
{
    if from > FAR {
        return false;
    }
    let mut last = from + DAY;
    for k in 0..locals.len() {
        let next = locals[k];
        if next < last || !is_moment(next) {
            return false;
        }
        last = next;
    }
    true
}

/// Carries on what is known of the locals from a place on and before another by one more span.
fn see_each(span: &Steady, before: i32, locals: &[i64], begin: usize, end: usize, seen: &mut [Seen])
    requires span { span.now.from <ℤ span.now.next }
    requires end { end ≤ length locals.now }
    requires length { length seen.old ≡ length locals.now }
    requires moments { (k : ℕ) (d : ℤ) → k < length locals.now → IsMoment (slice_index_or locals.now k d) }
    ensures length { length seen.new ≡ length seen.old }
    ensures others { (k : ℕ) (e : Seen) → (k < begin) ⊎ (end ≤ k) → slice_index_or seen.new k e ≡ slice_index_or seen.old k e }
    ensures told { (k : ℕ) (d : ℤ) (e : Seen) → begin ≤ k → k < end
        → IsToldOn span.now before (slice_index_or locals.now k d) (slice_index_or seen.old k e) (slice_index_or seen.new k e) }
{
    for k in begin..end {
        seen[k] = seen_on(locals[k], span, before, seen[k]);
    }
}

/// Carries on what is known of locals by one more span. None if it does not begin where the last ends.
fn reach_on(span: &Steady, reach: &Reach, locals: &[i64], seen: &mut [Seen]) -> Option<Reach>
    requires length { length seen.old ≡ length locals.now }
    requires ready { (from : ℤ) × AreReady from locals.now }
    ensures length { length seen.new ≡ length seen.old }
    ensures swept { MatchOption result (seen.new ≡ seen.old) (λ next. (offset : ℤ → ℤ) → IsShort offset
        → IsSteady offset span.now.from span.now.next span.now.offset → IsSwept offset locals.now reach.now seen.old
        → IsSwept offset locals.now next seen.new) }
{
    let (from, next) = (span.from, span.next);
    if from != reach.low || from >= next || from < -FAR || next > FAR {
        return None;
    }
    let offset = i64::from(span.offset);
    let begin = passed(locals, from + offset - 1).min(reach.past);
    let end = passed(locals, next + offset - 1);
    see_each(span, reach.before, locals, begin, end, seen);
    Some(Reach {
        low: next,
        before: span.offset,
        past: reach.past.max(end),
    })
}

/// Goes over spans in their order from an instant on. How far they reach.
pub(crate) fn sweep(from: Moment, spans: &[Steady], locals: &[i64], seen: &mut [Seen]) -> Reach
    requires ready { AreReady from locals.now }
    requires unseen { AreUnseen (length locals.now) seen.old }
    ensures length { length seen.new ≡ length seen.old }
    ensures swept { (offset : ℤ → ℤ) → IsShort offset → AreSteady offset spans.now → IsSwept offset locals.now result seen.new }
{
    let mut reach = Reach {
        low: from,
        before: 0,
        past: 0,
    };
    for k in 0..spans.len() {
        match reach_on(&spans[k], &reach, locals, seen) {
            Some(next) => reach = next,
            None => return reach,
        }
    }
    reach
}

/// The instant that a local means, given by its seconds, by what is known of it if the spans reach so far.
pub(crate) fn settled(seconds: i64, reach: &Reach, seen: Seen) -> Option<Moment>
    requires { IsMoment seconds }
    ensures { (offset : ℤ → ℤ) → IsShort offset → IsSeen offset seconds reach.now.low reach.now.before seen → IfSome result (IsMomentBy offset seconds) }
{
    match seen {
        Seen::Shown(moment) => Some(moment),
        Seen::Unshown(gap) => {
            let walk = Walk {
                low: reach.low,
                before: reach.before,
                gap,
            };
            gap_at_end(seconds, &walk)
        }
    }
}
