//! The onsets of all observances of a zone from one instant up to another, in order.
ghost use Rattle.std.specs.Prelude.{◌≡◌, ℕ, ℤ, pos, true, ◌<◌, ◌≤◌, ◌⊎◌, List, [], ◌∷◌, ◌++◌, length, IfSome, ◌≤ℤ◌};
ghost use Rattle.std.specs.List.{All, Contains};
ghost use Rattle.jiff_core.specs.Calendar.{IsWithin};
ghost use Rattle.ics_rule.specs.Kept.{is_kept};
ghost use Rattle.ics_period.specs.PeriodNumbers.{rules_end};
ghost use Rattle.ics_zone.specs.Observances.{ObservanceSaid, instant_by};
ghost use Rattle.ics_zone.specs.Inner.OnsetSets.{Has, IsKeptAt, IsSearched, IsSound};
ghost use Rattle.ics_zone.specs.Inner.ZoneOnsets.{AreOnsetsOfAll};
ghost use Rattle.ics_zone.specs.Inner.Tables.{onset_number, IsKeptNumber, IsNextOf, IsNumberedBy, IsTable};

use crate::clock::{instant, shown_by};
use crate::onsets::{Onsets, passed};
use ics_fields::{Local, Moment};
use ics_rule::{Cursor, Rule};
use std::alloc::Global;

/// How many places of observances have a number of their own at an instant.
const PLACES: i64 = 16_777_216;

/// The number of an onset.
fn number_of(at: Moment, place: usize) -> i64
    requires at { IsSearched at }
    requires place { place < 16_777_216 }
    ensures { result ≡ onset_number at place }
{
    at * PLACES + place as i64
}

/// The instant and the place of an onset, given its number in a table.
pub(crate) fn onset_of(number: i64) -> (Moment, usize)
    ensures is { number ≡ onset_number result.0 result.1 }
    ensures place { result.1 < 16_777_216 }
{
    (
        number.div_euclid(PLACES),
        number.rem_euclid(PLACES) as usize,
    )
}

/// The instant of the number that follows another in a table, or the instant after the last if there is none.
pub(crate) fn next_of(table: &[i64], k: usize, last: Moment) -> Moment
    requires last { IsSearched last }
    requires inside { k < length table.now }
    ensures { IsNextOf table.now k last result }
{
    if k + 1 < table.len() {
        onset_of(table[k + 1]).0
    } else {
        last + 1
    }
}

/// The instant of the first number of a table, or the instant after the last if there is none.
pub(crate) fn first_instant(table: &[i64], last: Moment) -> Moment {
    match table.first() {
        Some(number) => onset_of(*number).0,
        None => last.saturating_add(1),
    }
}

/// Adds the number of an onset to a list of so many numbers at most. Whether it has room for it.
fn add_onset(at: Moment, place: usize, most: usize, list: &mut Vec<i64>) -> bool
    requires at { IsSearched at }
    requires place { place < 16_777_216 }
    ensures { result ≡ true → list.new.items ≡ list.old.items ++ onset_number at place ∷ [] }
{
    if list.len() >= most {
        return false;
    }
    let number = number_of(at, place);
    list.push(number).is_ok()
}

/// Adds the numbers of the listed onsets of one observance from an instant on and not after another to a list of so many numbers at most. Whether
/// it has room for them.
fn add_listed(
    one: &Onsets,
    place: usize,
    from: Moment,
    last: Moment,
    most: usize,
    list: &mut Vec<i64>,
) -> bool
    requires sound { IsSound one.now }
    requires place { place < 16_777_216 }
    requires from { IsSearched from }
    requires last { IsSearched last }
    ensures known { result ≡ true → (n : ℤ) → Contains list.new.items n → Contains list.old.items n ⊎ IsNumberedBy one.now place from last n }
    ensures stay { result ≡ true → (n : ℤ) → Contains list.old.items n → Contains list.new.items n }
    ensures complete { result ≡ true → (t : ℤ) → Contains one.now.listed.items t → from ≤ℤ t → t ≤ℤ last
        → Contains list.new.items (onset_number t place) }
{
    let begin = passed(&one.listed, from - 1);
    for k in begin..one.listed.len() {
        let at = one.listed[k];
        if at > last {
            return true;
        }
        if !add_onset(at, place, most, list) {
            return false;
        }
    }
    true
}

/// Adds the numbers of the locals that a rule keeps, from one on and before another, as onsets of the observance at a place, to a list of so many
/// numbers at most. Whether it has room for them.
fn add_locals(
    rule: &Rule,
    offset: i32,
    from: u64,
    end: u64,
    place: usize,
    most: usize,
    list: &mut Vec<i64>,
) -> bool
    requires offset { IsWithin 86_399 offset }
    requires from { from ≤ rules_end }
    requires end { end ≤ rules_end }
    requires place { place < 16_777_216 }
    ensures known { result ≡ true → (n : ℤ) → Contains list.new.items n → Contains list.old.items n ⊎ IsKeptNumber rule.now offset place from end n }
    ensures stay { result ≡ true → (n : ℤ) → Contains list.old.items n → Contains list.new.items n }
    ensures complete { result ≡ true → (k : ℕ) → is_kept rule.now k ≡ true → from ≤ k → k < end
        → Contains list.new.items (onset_number (instant_by offset k) place) }
{
    let bound = Local::numbered(end);
    let mut cursor = Cursor::at(rule, Local::numbered(from));
    while let Some(local) = cursor.next(rule, bound) {
        let at = instant(offset, local.number());
        if !add_onset(at, place, most, list) {
            return false;
        }
    }
    true
}

/// The same of the onsets by its rule, as `add_listed` adds those that are listed.
fn add_kept(
    one: &Onsets,
    place: usize,
    from: Moment,
    last: Moment,
    most: usize,
    list: &mut Vec<i64>,
) -> bool
    requires sound { IsSound one.now }
    requires place { place < 16_777_216 }
    requires from { IsSearched from }
    requires last { IsSearched last }
    ensures known { result ≡ true → (n : ℤ) → Contains list.new.items n → Contains list.old.items n ⊎ IsNumberedBy one.now place from last n }
    ensures stay { result ≡ true → (n : ℤ) → Contains list.old.items n → Contains list.new.items n }
    ensures complete { result ≡ true → (t : ℤ) → IsKeptAt one.now t → from ≤ℤ t → t ≤ℤ last → Contains list.new.items (onset_number t place) }
{
    let Some(rule) = &one.rule else {
        return true;
    };
    let begin = shown_by(one.offset_from, from - 1);
    let end = one.shown_to(last);
    add_locals(rule, one.offset_from, begin, end, place, most, list)
}

/// The same of all its onsets.
fn add_onsets(
    one: &Onsets,
    place: usize,
    from: Moment,
    last: Moment,
    most: usize,
    list: &mut Vec<i64>,
) -> bool
    requires sound { IsSound one.now }
    requires place { place < 16_777_216 }
    requires from { IsSearched from }
    requires last { IsSearched last }
    ensures known { result ≡ true → (n : ℤ) → Contains list.new.items n → Contains list.old.items n ⊎ IsNumberedBy one.now place from last n }
    ensures stay { result ≡ true → (n : ℤ) → Contains list.old.items n → Contains list.new.items n }
    ensures complete { result ≡ true → (t : ℤ) → Has one.now t → from ≤ℤ t → t ≤ℤ last → Contains list.new.items (onset_number t place) }
{
    if !add_listed(one, place, from, last, most, list) {
        return false;
    }
    add_kept(one, place, from, last, most, list)
}

/// The numbers of all onsets from an instant on and not after another, in order. None if they are more than so many, or an allocation fails.
pub(crate) fn table_of(
    alloc: Global,
    onsets: &[Onsets],
    from: Moment,
    last: Moment,
    most: usize,
) -> Option<Vec<i64>>
    requires sound { All IsSound onsets.now }
    requires from { IsSearched from }
    requires last { IsSearched last }
    requires order { from ≤ℤ last }
    ensures { IfSome result (λ list. (zone : List ObservanceSaid) → AreOnsetsOfAll zone onsets.now → IsTable zone from last list.items) }
{
    if onsets.len() > PLACES as usize {
        return None;
    }
    let mut list = Vec::new(alloc);
    for (place, one) in onsets.iter().enumerate() {
        if !add_onsets(one, place, from, last, most, &mut list) {
            return None;
        }
    }
    list.sort_unstable();
    Some(list)
}
