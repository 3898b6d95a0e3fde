//! The onsets of all observances of a zone near an instant.
ghost use Rattle.std.specs.Prelude.{◌≡◌, ℤ, pos, ◌<◌, true, false, length, List, ◌⊎◌, ◌+ℤ◌, ◌-ℤ◌, ◌<ℤ◌, ◌≤ℤ◌, MatchOption};
ghost use Rattle.std.specs.List.{All};
ghost use Rattle.jiff_core.specs.Calendar.{IsWithin};
ghost use Rattle.ics_zone.specs.Observances.{ObservanceSaid};
ghost use Rattle.ics_zone.specs.Inner.OnsetSets.{Has, IsSearched, IsSound};
ghost use Rattle.ics_zone.specs.Seconds.{IsMoment};
ghost use Rattle.ics_zone.specs.Inner.ZoneOnsets.{AreOnsetsOfAll, IsLatestOf, IsLatestWithin, IsFirstOffset, IsNextPast, IsClear, IsOnsetOf, IsOverridden};
ghost use Rattle.ics_zone.specs.Inner.ZoneOnsets.{KeepOffset, StayOffset};

use crate::clock::{EPOCH, FIRST_HELD, LAST_HELD};
use crate::onsets::Onsets;
use ics_fields::Moment;

const DAY: i64 = 86_400;

/// 0000-01-01T00:00:00 UTC. An observance has its first onset later than this.
const YEARS_BEGIN: Moment = -EPOCH;

/// More seconds than an hour and the greatest offset that a number has room for.
const BEYOND: i64 = 5_000_000_000;

/// How many hours of onsets are looked at for the end of a span, in a zone of one observance, and fewer if there are more.
const HOURS: usize = 256;

/// How many onsets are found of each observance at most, and of all together.
const FOUND_OF_EACH: usize = 8_192;

const FOUND: usize = 262_144;

/// How many days that have onsets are looked at for the gaps between them, of all observances together, and half as many of one.
const GAPS: usize = 524_288;

/// A zone of more observances has those found whose rules are plain too.
const SOME: usize = 8;

/// An onset of an observance, the place of the observance in its component, and the offset after the onset.
#[derive(Clone, Copy)]
pub(crate) struct Latest {
    pub at: Moment,
    pub place: usize,
    pub offset: i32,
}

/// No onset.
pub(crate) const NO_ONSET: Latest = Latest {
    at: Moment::MAX,
    place: 0,
    offset: 0,
};

/// A span of instants in which a zone has one offset, from one instant on and before another.
#[derive(Clone, Copy)]
pub(crate) struct Steady {
    pub from: Moment,
    pub next: Moment,
    pub offset: i32,
}

/// The later of two onsets, if there is a first. If both are at one instant, the second, whose place comes after.
fn later(first: Option<Latest>, second: Latest) -> Latest
    ensures { MatchOption first (result ≡ second)
        (λ f. ((result ≡ second) × (f.at ≤ℤ second.at)) ⊎ ((result ≡ f) × (second.at <ℤ f.at))) }
{
    match first {
        Some(first) if first.at > second.at => first,
        _ => second,
    }
}

/// Whether an observance may have an onset that is not after an instant, and not less than one at another, by instant and then by place.
fn has_not_less(one: &Onsets, is_at_once: bool, at: Moment, moment: Moment) -> bool
    requires { IsSound one.now }
    ensures { result ≡ false → (t : ℤ) → Has one.now t → t ≤ℤ moment → (t <ℤ at) ⊎ ((t ≡ at) × (is_at_once ≡ false)) }
{
    if at <= Moment::MIN || moment >= Moment::MAX {
        return true;
    }
    let after = if is_at_once { at - 1 } else { at };
    let limit = moment + 1;
    after < limit && one.next(after, limit) < limit
}

/// From where on an onset counts: after an instant, or from the greatest onset on if there is one.
fn begun(latest: Option<Latest>, after: Moment) -> Moment
    ensures { MatchOption latest (result ≡ after) (λ l. after <ℤ l.at → result ≡ l.at -ℤ pos 1) }
{
    match latest {
        Some(latest) => latest.at.saturating_sub(1),
        None => after,
    }
}

/// Looks for the next onset of each observance, where it is not known that none is at or just after an instant.
pub(crate) fn look_on(onsets: &mut [Onsets], at: Moment, limit: Moment)
    requires sound { All IsSound onsets.old }
    requires limit { at <ℤ limit }
    ensures { (zone : List ObservanceSaid) → AreOnsetsOfAll zone onsets.old → AreOnsetsOfAll zone onsets.new }
{
    for k in 0..onsets.len() {
        if !onsets[k].is_known(at) {
            onsets[k].look(at, limit);
        }
    }
}

/// Finds the onsets of the observances of which a search may take long, so many of each at most: of all that have rules, if they are many, and else of
/// those that have no plain rule.
pub(crate) fn find_each(onsets: &mut [Onsets], from: Moment, to: Moment)
    requires { All IsSound onsets.old }
    ensures { (zone : List ObservanceSaid) → AreOnsetsOfAll zone onsets.old → AreOnsetsOfAll zone onsets.new }
{
    let most = FOUND_OF_EACH.min(FOUND / onsets.len().max(1));
    let days = GAPS / onsets.len().max(2);
    let with_plain = onsets.len() > SOME;
    for k in 0..onsets.len() {
        if onsets[k].must_find(with_plain, from, to) {
            onsets[k].find(from, to, most, days);
        }
    }
}

/// The greatest onset that is not after an instant, by instant and then by place, if it is after another instant.
pub(crate) fn latest_within(onsets: &[Onsets], after: Moment, moment: Moment) -> Option<Latest>
    requires { All IsSound onsets.now }
    ensures { (zone : List ObservanceSaid) → AreOnsetsOfAll zone onsets.now → IsLatestWithin zone after moment (length zone) result }
{
    let mut latest: Option<Latest> = None;
    for (place, one) in onsets.iter().enumerate() {
        let from = begun(latest, after);
        let Some(at) = one.last_after(from, moment) else {
            continue;
        };
        let last = Latest {
            at,
            place,
            offset: one.offset_to,
        };
        latest = Some(later(latest, last));
    }
    latest
}

/// The first onset of all, which is a listed one.
pub(crate) fn first_listed(onsets: &[Onsets]) -> Moment {
    let mut first = Moment::MAX;
    for one in onsets {
        if let Some(at) = one.listed.first() {
            first = first.min(*at);
        }
    }
    first
}

/// Whether a rule has onsets on most days from an instant on and up to another.
fn runs_on(one: &Onsets, from: Moment, to: Moment) -> bool {
    match one.listed.first() {
        Some(first) => one.by_days && one.rule.is_some() && *first <= from && to <= one.until,
        None => false,
    }
}

/// About how many onsets the rules have from an instant on and up to another that have some on most days then.
pub(crate) fn running_onsets(onsets: &[Onsets], from: Moment, to: Moment) -> u64 {
    let seconds = u64::try_from(to.saturating_sub(from)).unwrap_or(0);
    let mut count: u64 = 0;
    for one in onsets {
        if runs_on(one, from, to) {
            count = count.saturating_add(seconds / one.ago.max(1));
        }
    }
    count
}

/// The greatest onset that is not after an instant, by instant and then by place. It is searched for in the seconds before the instant, so many at
/// first, and further back each time that there is none.
pub(crate) fn latest_of(onsets: &[Onsets], ago: i64, moment: Moment) -> Option<Latest>
    requires { All IsSound onsets.now }
    ensures { (zone : List ObservanceSaid) → AreOnsetsOfAll zone onsets.now → IsLatestOf zone moment (length zone) result }
{
    if moment < first_listed(onsets) {
        return latest_of_each(onsets, moment);
    }
    let mut back = ago.max(1);
    let mut after = moment.saturating_sub(back);
    while after > YEARS_BEGIN {
        if let Some(latest) = latest_within(onsets, after, moment) {
            return Some(latest);
        }
        back = back.saturating_mul(16);
        after = after.saturating_sub(back);
    }
    latest_of_each(onsets, moment)
}

/// The greatest onset that is not after an instant, by instant and then by place, from the last onset of each observance.
fn latest_of_each(onsets: &[Onsets], moment: Moment) -> Option<Latest>
    requires { All IsSound onsets.now }
    ensures { (zone : List ObservanceSaid) → AreOnsetsOfAll zone onsets.now → IsLatestOf zone moment (length zone) result }
{
    let mut latest: Option<Latest> = None;
    for (place, one) in onsets.iter().enumerate() {
        let Some(at) = one.last(moment) else {
            continue;
        };
        let offset = one.offset_to;
        latest = Some(later(latest, Latest { at, place, offset }));
    }
    latest
}

/// TZOFFSETFROM of the least onset.
pub(crate) fn first_offset(onsets: &[Onsets]) -> i32
    requires sound { All IsSound onsets.now }
    requires some { 0 < length onsets.now }
    ensures { (zone : List ObservanceSaid) → AreOnsetsOfAll zone onsets.now → IsFirstOffset zone result }
{
    let at_first = &onsets[0];
    let mut first = at_first.first();
    let mut offset = at_first.offset_from;
    for (place, one) in onsets.iter().enumerate() {
        let at = one.first();
        if first <= at {
            continue;
        }
        first = at;
        offset = one.offset_from;
    }
    offset
}

/// Whether an onset that is not after an instant is greater than those of the observances with an offset. If so, the zone has another offset at the
/// instant.
pub(crate) fn overrides(onsets: &[Onsets], onset: Latest, offset: i32, moment: Moment) -> bool
    requires { All IsSound onsets.now }
    ensures { result ≡ true → (zone : List ObservanceSaid) → AreOnsetsOfAll zone onsets.now → IsOnsetOf zone onset → IsOverridden zone moment offset }
{
    if onset.at > moment || moment >= Moment::MAX {
        return false;
    }
    for (other, one) in onsets.iter().enumerate() {
        if one.offset_to != offset {
            continue;
        }
        if has_not_less(one, other >= onset.place, onset.at, moment) {
            return false;
        }
    }
    true
}

/// Whether the observance at a place has an onset that is after an instant and not after another.
pub(crate) fn turns_after(onsets: &[Onsets], place: usize, after: Moment, moment: Moment) -> bool
    requires { All IsSound onsets.now }
{
    place < onsets.len() && onsets[place].last_after(after, moment).is_some()
}

/// The first onset after an instant that begins another offset than one, if it is before a limit, and else the limit.
pub(crate) fn next_other(onsets: &[Onsets], offset: i32, after: Moment, limit: Moment) -> Moment
    requires sound { All IsSound onsets.now }
    requires limit { after <ℤ limit }
    ensures after { after <ℤ result }
    ensures bound { result ≤ℤ limit }
    ensures next { (zone : List ObservanceSaid) → AreOnsetsOfAll zone onsets.now → KeepOffset zone offset after result }
{
    let mut next = limit;
    for one in onsets {
        if one.offset_to == offset {
            continue;
        }
        next = one.next(after, next);
    }
    next
}

/// Whether an onset at an instant begins an offset.
fn begins(onsets: &[Onsets], offset: i32, at: Moment) -> bool
    requires sound { All IsSound onsets.now }
    requires at { IsSearched at }
{
    for one in onsets {
        if one.offset_to == offset && one.next(at - 1, at + 1) == at {
            return true;
        }
    }
    false
}

/// How many seconds after an instant, an hour at most, have no onset that begins another offset than one, but those that are overridden at their
/// own instant by one that begins it.
pub(crate) fn stay_after(onsets: &[Onsets], offset: i32, after: Moment) -> i64
    requires sound { All IsSound onsets.now }
    requires near { IsWithin 290_000_000_000 after }
    ensures some { pos 0 ≤ℤ result }
    ensures most { result ≤ℤ pos 3_600 }
    ensures stay { (zone : List ObservanceSaid) → AreOnsetsOfAll zone onsets.now → StayOffset zone offset after (after +ℤ result +ℤ pos 1) }
{
    let mut over = [0; 60];
    let mut stay = 3_600;
    for place in (0..onsets.len()).rev() {
        let one = &onsets[place];
        let last = last_own(after, one.offset_to, offset);
        stay = one.clear(last, after + 1, &mut over, stay);
    }
    stay
}

/// A local, given by its seconds, that is later than all that a clock shows in the hour after an instant, if two offsets are the same. Else it is
/// earlier than all.
fn last_own(after: Moment, own: i32, offset: i32) -> i64
    requires { IsWithin 290_000_000_000 after }
    ensures near { IsSearched result }
    ensures side { (own ≡ offset) ⊎ (result ≡ after -ℤ pos 5_000_000_000) }
{
    if own == offset {
        after + BEYOND
    } else {
        after - BEYOND
    }
}

/// An instant after the given one, up to which each onset begins an offset, or is overridden at its own instant by one that does. It is the first
/// that is neither or a limit, if so many hours of onsets are not too many.
pub(crate) fn next_change(onsets: &[Onsets], offset: i32, after: Moment, limit: Moment) -> Moment
    requires sound { All IsSound onsets.now }
    requires limit { after <ℤ limit }
    ensures { (zone : List ObservanceSaid) → AreOnsetsOfAll zone onsets.now → StayOffset zone offset after result }
{
    let mut next = next_other(onsets, offset, after, limit);
    for _ in 0..HOURS / onsets.len().max(1) {
        if next < FIRST_HELD || next >= limit.min(LAST_HELD) || !begins(onsets, offset, next) {
            return next;
        }
        let stay = stay_after(onsets, offset, next - 1);
        let last = next + 3_599;
        if last >= limit || stay < 3_600 {
            return next + stay;
        }
        next = next_other(onsets, offset, last, limit);
    }
    next
}

/// An instant after the given one. No onset between the two begins an offset that shows a later local than `seconds`.
pub(crate) fn next_past(onsets: &[Onsets], seconds: i64, after: Moment) -> Moment
    requires sound { All IsSound onsets.now }
    requires bound { IsMoment seconds }
    requires limit { after ≤ℤ (seconds +ℤ pos 86_400) }
    ensures after { after <ℤ result }
    ensures bound { result ≤ℤ (seconds +ℤ pos 86_401) }
    ensures next { (zone : List ObservanceSaid) → AreOnsetsOfAll zone onsets.now → IsNextPast zone seconds after result }
{
    let mut next = seconds + DAY + 1;
    for (place, one) in onsets.iter().enumerate() {
        let from = after.max(seconds - i64::from(one.offset_to));
        if next <= from {
            continue;
        }
        next = one.next(from, next);
    }
    next
}

/// How many seconds after an instant, an hour at most, have no onset that shows a later local than this one, but those that are overridden at
/// their own instant.
pub(crate) fn clear_after(onsets: &[Onsets], seconds: i64, after: Moment) -> i64
    requires sound { All IsSound onsets.now }
    requires bound { IsMoment seconds }
    requires low { (seconds -ℤ pos 86_400) ≤ℤ after }
    requires high { after ≤ℤ (seconds +ℤ pos 86_401) }
    ensures some { pos 0 ≤ℤ result }
    ensures most { result ≤ℤ pos 3_600 }
    ensures clear { (zone : List ObservanceSaid) → AreOnsetsOfAll zone onsets.now → IsClear zone seconds after (after +ℤ result +ℤ pos 1) }
{
    let mut over = [0; 60];
    let mut clear = 3_600;
    for place in (0..onsets.len()).rev() {
        clear = onsets[place].clear(seconds, after + 1, &mut over, clear);
    }
    clear
}
