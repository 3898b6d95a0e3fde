//! Parts of a rule, with answers that each look needs, computed once.
ghost use Rattle.std.specs.Prelude.{◌≡◌, ◌<◌, ◌&&◌, ℕ, nat_lt};
ghost use Rattle.ics_fields.specs.Sets.{contains};
ghost use Rattle.ics_fields.specs.Ordinals.{lists_none, lists_none_wide, lists_no_weekday, numbers_of};
ghost use Rattle.ics_period.specs.Inner.NamedWeekdays.{names_weekday, named_below};

use ics_fields::{BitSet, Weekdays, WideOrdinals};
use std::marker::Model;

/// BYYEARDAY or BYSETPOS, and whether it is absent. Contracts see the places.
#[derive(Clone, Copy)]
pub struct PlacesPart {
    pub list: WideOrdinals,
    absent: bool,
}

impl Model for PlacesPart {
    ghost use Rattle.ics_fields.specs.declared.ordinals.WideOrdinals.{WideOrdinals};

    ghost Value = { WideOrdinals };

    ghost use Rattle.std.specs.Prelude.{◌≡◌};
    ghost use Rattle.ics_fields.specs.Ordinals.{lists_none_wide};

    ghost view = { λ p. p.list };

    ghost invariant = { λ p. p.absent ≡ lists_none_wide p.list };

    ghost inverse = { λ v. record { list = v; absent = lists_none_wide v } };

    ghost inverse_ok = { λ p h. Prim.rw h };
}

impl PlacesPart {
    /// The part of these places.
    pub fn new(list: WideOrdinals) -> PlacesPart
        ensures { result ≡ list }
    {
        let absent = list.is_empty();
        PlacesPart { list, absent }
    }

    /// Whether there is no place.
    pub fn is_empty(&self) -> bool
        ensures { result ≡ lists_none_wide self.now }
    {
        self.absent
    }
}

/// BYDAY, whether it is absent, and which weekdays it names. Contracts see the weekdays and their numbers.
#[derive(Clone, Copy)]
pub struct WeekdaysPart {
    pub(crate) list: Weekdays,
    absent: bool,
    named: BitSet,
}

impl Model for WeekdaysPart {
    ghost use Rattle.ics_fields.specs.declared.ordinals.Weekdays.{Weekdays};

    ghost Value = { Weekdays };

    ghost use Rattle.std.specs.Prelude.{◌≡◌};
    ghost use Rattle.ics_fields.specs.Ordinals.{lists_no_weekday};
    ghost use Rattle.ics_period.specs.Inner.NamedWeekdays.{named_below};

    ghost view = { λ p. p.list };

    ghost invariant = { λ p. (p.absent ≡ lists_no_weekday p.list) × (p.named ≡ named_below p.list 7) };

    ghost inverse = { λ v. record { list = v; absent = lists_no_weekday v; named = named_below v 7 } };

    ghost inverse_ok = { λ p h. Prim.rw (h.0, h.1) };
}

impl WeekdaysPart {
    /// The part of these weekdays.
    pub(crate) fn new(list: Weekdays) -> WeekdaysPart
        ensures { result ≡ list }
    {
        let absent = list.is_empty();
        let named = named_weekdays(&list);
        WeekdaysPart {
            list,
            absent,
            named,
        }
    }

    /// Whether there is no weekday.
    pub fn is_empty(&self) -> bool
        ensures { result ≡ lists_no_weekday self.now }
    {
        self.absent
    }

    /// The weekdays that it names, with a number or without.
    pub(crate) fn named(&self) -> BitSet
        ensures { (d : ℕ) → contains result d ≡ (nat_lt d 7 && names_weekday self.now d) }
    {
        self.named
    }
}

/// Whether BYDAY lists a weekday with no number.
pub(crate) fn has_no_number(weekdays: &Weekdays, weekday: u8) -> bool
    requires { weekday < 7 }
    ensures { result ≡ lists_none (numbers_of weekdays.now weekday) }
{
    weekdays.numbered[weekday as usize].is_empty()
}

/// The weekdays that BYDAY names.
fn named_weekdays(weekdays: &Weekdays) -> BitSet
    ensures { result ≡ named_below weekdays.now 7 }
{
    let mut named = BitSet::new();
    for weekday in 0..7 {
        if weekdays.plain.contains(weekday) | !has_no_number(weekdays, weekday) {
            named.insert(weekday);
        }
    }
    named
}
