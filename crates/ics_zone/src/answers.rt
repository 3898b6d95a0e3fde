//! Locals of a zone whose instants are known.
ghost use Rattle.std.specs.Prelude.{ℤ, ◌≡◌, ◌<◌, ◌≤◌, length, List, IfSome};
ghost use Rattle.ics_zone.specs.Moments.{IsMomentOf};
ghost use Rattle.ics_zone.specs.Observances.{ObservanceSaid};
ghost use Rattle.ics_zone.specs.Inner.Answers.{AreAnswers, AreAnswersBy};
ghost use Rattle.ics_zone.specs.Inner.Sweeps.{AreReady, AreUnseen, IsSwept};
ghost use Rattle.ics_zone.specs.Inner.Walks.{IsShort};
ghost use Rattle.ics_zone.specs.Inner.ZoneOnsets.{AreSteady};

use crate::latest::Steady;
use crate::sweep::{Reach, are_ready, settled, sweep};
use crate::walk::Seen;
use ics_fields::Moment;
use std::alloc::Global;

const DAY: i64 = 86_400;

/// How many seconds may be between a local of a group and the next.
const BETWEEN: i64 = 3 * DAY;

/// A local, given by its seconds, and the instant that it means.
#[derive(Clone, Copy)]
pub(crate) struct Answer {
    pub seconds: i64,
    pub moment: Moment,
}

/// The instant of a local, given by its seconds, if it is one of those in order.
pub(crate) fn answer_of(answers: &[Answer], seconds: i64) -> Option<Moment>
    ensures { (zone : List ObservanceSaid) → AreAnswers zone answers.now → IfSome result (IsMomentOf zone seconds) }
{
    let earlier = answers.partition_point(|answer| answer.seconds < seconds);
    if earlier < answers.len() && answers[earlier].seconds == seconds {
        return Some(answers[earlier].moment);
    }
    None
}

/// Where a group of locals ends, which are given by their seconds in order: those from a place on that are near each other, of so many days.
pub(crate) fn group_end(locals: &[i64], first: usize, days: u32) -> usize
    requires { first < length locals.now }
    ensures some { first < result }
    ensures bound { result ≤ length locals.now }
{
    let last = locals[first].saturating_add(i64::from(days) * DAY);
    let mut end = first + 1;
    while end < locals.len() {
        let next = locals[end];
        if next > last || next > locals[end - 1].saturating_add(BETWEEN) {
            return end;
        }
        end += 1;
    }
    end
}

/// Nothing is known yet of so many locals. None if an allocation fails.
fn unseen(alloc: Global, count: usize) -> Option<Vec<Seen>>
    ensures { IfSome result (λ seen. AreUnseen count seen.items) }
{
    Vec::from_elem(alloc, Seen::Unshown(None), count).ok()
}

/// Adds the instants of locals, given by their seconds, by what spans tell of each.
fn add_settled(locals: &[i64], reach: &Reach, seen: &[Seen], answers: &mut Vec<Answer>)
    requires ready { (from : ℤ) × AreReady from locals.now }
    requires length { length seen.now ≡ length locals.now }
    ensures { (offset : ℤ → ℤ) → IsShort offset → IsSwept offset locals.now reach.now seen.now → AreAnswersBy offset answers.old.items
        → AreAnswersBy offset answers.new.items }
{
    for k in 0..locals.len() {
        let seconds = locals[k];
        if let Some(moment) = settled(seconds, reach, seen[k]) {
            answers.push(Answer { seconds, moment }).ok();
        }
    }
}

/// Adds the instants of locals, given by their seconds in order, that spans tell in their order. Those that find no memory are left out.
pub(crate) fn add_answers(spans: &[Steady], locals: &[i64], answers: &mut Vec<Answer>)
    ensures { (offset : ℤ → ℤ) → IsShort offset → AreSteady offset spans.now → AreAnswersBy offset answers.old.items
        → AreAnswersBy offset answers.new.items }
{
    if spans.is_empty() || !are_ready(locals, spans[0].from) {
        return;
    }
    let Some(mut seen) = unseen(*answers.allocator(), locals.len()) else {
        return;
    };
    let reach = sweep(spans[0].from, spans, locals, &mut seen);
    add_settled(locals, &reach, &seen, answers);
}
