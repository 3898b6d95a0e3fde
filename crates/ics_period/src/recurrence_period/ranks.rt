//! The members of a set by their rank, and the places that BYSETPOS lists.
ghost use Rattle.std.specs.Prelude.{◌≡◌, ◌<◌, ◌≤◌, ◌+◌, ◌-◌, ◌*◌, ◌/◌, ◌%◌, ◌^◌, ◌&&◌, IfSome};
ghost use Rattle.ics_fields.specs.Sets.{contains, contains_wide, IsNextIn};
ghost use Rattle.ics_fields.specs.Ordinals.{lists_none_wide};
ghost use Rattle.ics_period.specs.declared.effective_rule.EffectiveRule.{EffectiveRule};
ghost use Rattle.ics_period.specs.Ranks.{count};
ghost use Rattle.ics_period.specs.RecurrencePeriods.{has_minute, has_second, holds, is_listed, is_taken, IsPeriodOf, IsNth, IsNextBelow, IsFirstBelow};
ghost use Rattle.ics_fields.specs.Locals.{calendar_end};

use crate::members::{members_below, nth_member};
use crate::part::PlacesPart;
use crate::recurrence_period::RecurrencePeriod;
use ics_fields::{BitSet, WideBitSet, WideOrdinals};

/// The `k`-th minute of a day in a set of hours times a set of minutes.
fn nth_minute(hours: BitSet, minutes: BitSet, k: u64) -> u32
    requires set { minutes < 2 ^ 60 }
    requires index { k < count 24 (contains hours) * count 60 (contains minutes) }
    ensures nth { IsNth (has_minute hours minutes) k result }
    ensures small { result < 30000 }
{
    let size = members_below(&minutes, 60);
    nth_member(&hours, k / size) as u32 * 60 + nth_member(&minutes, k % size) as u32
}

/// The first index from `from` on at which a set lists the place after it, or `size` if there is none before that.
fn next_front(front: &WideBitSet, from: u64, size: u64) -> u64
    requires { size < 2 ^ 63 }
    ensures { IsFirstBelow (λ k. contains_wide front.now (k + 1)) from size result }
{
    match front.next_from(from.min(383) as u16 + 1) {
        Some(place) => size.min(place as u64 - 1),
        None => size,
    }
}

/// The first index from `from` on at which a set lists the place from the end, of `size`, or `size` if there is none.
fn next_back(back: &WideBitSet, from: u64, size: u64) -> u64
    requires { size < 2 ^ 63 }
    ensures { IsFirstBelow (λ k. contains_wide back.now (size - k)) from size result }
{
    let most = size.saturating_sub(from).min(383);
    let members = members_below(back, most as u16 + 1);
    if members == 0 {
        return size;
    }
    size - nth_member(back, members - 1) as u64
}

/// The least index from `from` on, of `size`, whose place BYSETPOS lists.
fn next_listed(positions: &WideOrdinals, from: u64, size: u64) -> Option<u64>
    requires { size < 2 ^ 63 }
    ensures { IsNextBelow (is_listed positions.now size) from size result }
{
    let front = next_front(&positions.front, from, size);
    let back = next_back(&positions.back, from, size);
    let next = front.min(back);
    if next < size { Some(next) } else { None }
}

/// How many members of a set are not below `low` and are below `high`.
fn members_between(set: &WideBitSet, low: u64, high: u64) -> u64
    requires { low ≤ high }
    ensures value { count low (contains_wide set.now) + result ≡ count high (contains_wide set.now) }
    ensures bound { result ≤ 384 }
{
    members_below(set, high.min(384) as u16) - members_below(set, low.min(384) as u16)
}

/// How many of the first `k` places of `size` BYSETPOS lists both from the start and from the end.
fn listed_twice(positions: &WideOrdinals, k: u64, size: u64) -> u64
    requires some { k ≤ size }
    requires small { size < 2 ^ 63 }
    ensures { result ≡ count k (λ j. contains_wide positions.now.front (j + 1) && contains_wide positions.now.back (size - j)) }
{
    let mut total = 0;
    let mut place = next_front(&positions.front, size.saturating_sub(383), k);
    while place < k {
        if positions.back.contains((size - place) as u16) {
            total += 1;
        }
        place = next_front(&positions.front, place + 1, k);
    }
    total
}

/// How many of the first `k` places of `size` BYSETPOS lists.
pub fn listed_below(positions: &WideOrdinals, k: u64, size: u64) -> u64
    requires some { k ≤ size }
    requires small { size < 2 ^ 63 }
    ensures value { result ≡ count k (is_listed positions.now size) }
    ensures bound { result ≤ k }
{
    let front = members_between(&positions.front, 1, k + 1);
    let back = members_between(&positions.back, size - k + 1, size + 1);
    // Most rules count from one end alone.
    if back == 0 {
        return front;
    }
    front + back - listed_twice(positions, k, size)
}

impl RecurrencePeriod {
    /// The `k`-th second of a day in the product's times.
    fn nth_second(&self, k: u64) -> u32
        requires minutes { self.now.minutes < 2 ^ 60 }
        requires seconds { self.now.seconds < 2 ^ 60 }
        requires index { k < count 24 (contains self.now.hours) * count 60 (contains self.now.minutes) * count 60 (contains self.now.seconds) }
        ensures nth { IsNth (has_second self.now) k result }
        ensures small { result < 2000000 }
    {
        let size = members_below(&self.seconds, 60);
        nth_minute(self.hours, self.minutes, k / size) * 60
            + nth_member(&self.seconds, k % size) as u32
    }

    /// The `k`-th local of the product.
    fn nth(&self, k: u64) -> u64
        requires own { (q : EffectiveRule) × IsPeriodOf q self.now }
        requires index { k < count calendar_end (holds self.now) }
        ensures nth { IsNth (holds self.now) k result }
        ensures small { result < 2 ^ 63 }
    {
        let size = self.seconds_below(86_400);
        let day = self.first_day as u64 + nth_member(&self.days, k / size) as u64;
        day * 86_400 + self.nth_second(k % size) as u64
    }

    /// The first local of the product, from a local on, that BYSETPOS allows.
    pub fn next_taken(&self, positions: &PlacesPart, n: u64) -> Option<u64>
        requires n { n < calendar_end }
        requires own { (q : EffectiveRule) × IsPeriodOf q self.now }
        ensures next { IsNextIn (is_taken positions.now (lists_none_wide positions.now) self.now) n result }
        ensures small { IfSome result (λ m. m < calendar_end) }
    {
        if positions.is_empty() {
            return self.next_from(n);
        }
        match next_listed(&positions.list, self.rank_before(n), self.size()) {
            Some(place) => Some(self.nth(place)),
            None => None,
        }
    }

    /// How many locals that BYSETPOS allows are earlier than a local.
    pub fn taken_before(&self, positions: &PlacesPart, n: u64) -> u64
        requires n { n < calendar_end }
        requires own { (q : EffectiveRule) × IsPeriodOf q self.now }
        ensures value { result ≡ count n (is_taken positions.now (lists_none_wide positions.now) self.now) }
        ensures bound { result ≤ n }
    {
        let rank = self.rank_before(n);
        if positions.is_empty() {
            rank
        } else {
            listed_below(&positions.list, rank, self.size())
        }
    }
}
