//! Walking spans with one offset each, in their order, for the instant that a local means.
ghost use Rattle.std.specs.Prelude.{◌≡◌, ℤ, pos, ◌-ℤ◌, ◌<ℤ◌, ◌≤ℤ◌, MatchOption, IfSome};
ghost use Rattle.ics_zone.specs.Seconds.{IsMoment};
ghost use Rattle.ics_zone.specs.Moments.{IsInGap, IsMomentBy};
ghost use Rattle.ics_zone.specs.Inner.ZoneOnsets.{AreSteady, IsSteady};
ghost use Rattle.ics_zone.specs.Inner.Walks.{IsShort, IsWalk, IsTold, IsGapRead};
ghost use Rattle.ics_zone.specs.Inner.Sweeps.{IsToldOn};

use crate::latest::Steady;
use ics_fields::Moment;

const DAY: i64 = 86_400;

/// What is known of the instant of a local after spans that do not show it.
#[derive(Clone, Copy)]
pub(crate) struct Walk {
    /// The end of the last span.
    pub low: Moment,
    /// The offset just before the end.
    pub before: i32,
    /// The local read with the offset before the gap, if the clock has shown a later one.
    pub gap: Option<Moment>,
}

/// What a span tells of a local.
#[derive(Clone, Copy)]
pub(crate) enum Told {
    /// The first instant that shows it.
    Shows(Moment),
    /// Not shown.
    On(Walk),
    /// The span does not reach on from the last.
    Out,
}

/// What spans that begin a day before a local or earlier tell of it.
#[derive(Clone, Copy)]
pub(crate) enum Seen {
    /// The first instant that shows it.
    Shown(Moment),
    /// Not shown. The local read with the offset before the gap, if the clock has shown a later one.
    Unshown(Option<Moment>),
}

/// The walk for a local, given by its seconds, from a day before it on.
pub(crate) fn walk_to(seconds: i64) -> Walk
    requires { IsMoment seconds }
    ensures walk { (offset : ℤ → ℤ) → IsShort offset → IsWalk offset seconds result }
    ensures low { result.low ≡ seconds -ℤ pos 86_400 }
{
    Walk {
        low: seconds - DAY,
        before: 0,
        gap: None,
    }
}

/// The gap, if it is known or a span begins with a later local. The span shows the local at the instant, if it reaches so far.
fn gap_of(seconds: i64, walk: &Walk, moment: Moment) -> Option<Moment>
    requires { IsMoment seconds }
    ensures { MatchOption walk.now.gap
        (MatchOption result (walk.now.low ≤ℤ moment) (λ t. (moment <ℤ walk.now.low) × (t ≡ seconds -ℤ walk.now.before)))
        (λ g. result ≡ walk.now.gap) }
{
    match walk.gap {
        None if moment < walk.low => Some(seconds - i64::from(walk.before)),
        gap => gap,
    }
}

/// What one more span tells of a local, of which something is known before it.
pub(crate) fn seen_on(seconds: i64, span: &Steady, before: i32, seen: Seen) -> Seen
    requires bound { IsMoment seconds }
    requires some { span.now.from <ℤ span.now.next }
    ensures { IsToldOn span.now before seconds seen result }
{
    let Seen::Unshown(gap) = seen else {
        return seen;
    };
    let low = span.from;
    let moment = seconds - i64::from(span.offset);
    if low <= moment && moment < span.next {
        return Seen::Shown(moment);
    }
    Seen::Unshown(gap_of(seconds, &Walk { low, before, gap }, moment))
}

/// One more span of a walk.
pub(crate) fn step(seconds: i64, walk: &Walk, span: &Steady) -> Told
    requires { IsMoment seconds }
    ensures { (offset : ℤ → ℤ) → IsShort offset → IsSteady offset span.now.from span.now.next span.now.offset → IsWalk offset seconds walk.now
        → IsTold offset seconds result }
{
    if span.from > walk.low || span.next <= walk.low {
        return Told::Out;
    }
    let moment = seconds - i64::from(span.offset);
    if walk.low <= moment && moment < span.next {
        return Told::Shows(moment);
    }
    Told::On(Walk {
        low: span.next,
        before: span.offset,
        gap: gap_of(seconds, walk, moment),
    })
}

/// The gap of a walk that is more than a day past the local, if there is one.
pub(crate) fn gap_at_end(seconds: i64, walk: &Walk) -> Option<Moment>
    requires { IsMoment seconds }
    ensures { (offset : ℤ → ℤ) → IsShort offset → IsWalk offset seconds walk.now → IfSome result (IsInGap offset seconds) }
{
    if walk.low > seconds + DAY {
        walk.gap
    } else {
        None
    }
}

/// The instant that a local means, given by its seconds, if these spans tell it in their order.
pub(crate) fn moment_in(spans: &[Steady], seconds: i64) -> Option<Moment>
    requires { IsMoment seconds }
    ensures { (offset : ℤ → ℤ) → IsShort offset → AreSteady offset spans.now → IfSome result (IsMomentBy offset seconds) }
{
    let mut walk = walk_to(seconds);
    let begun = spans.partition_point(|span| span.from <= walk.low);
    for k in begun.saturating_sub(1)..spans.len() {
        let span = &spans[k];
        match step(seconds, &walk, span) {
            Told::Shows(moment) => return Some(moment),
            Told::Out => return None,
            Told::On(next) => walk = next,
        }
        if let Some(moment) = gap_at_end(seconds, &walk) {
            return Some(moment);
        }
    }
    None
}
