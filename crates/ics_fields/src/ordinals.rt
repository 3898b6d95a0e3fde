//! Numbers that count from the start or from the end, and the weekdays of BYDAY.
ghost use Rattle.std.specs.Prelude.{◌≡◌, ◌<◌};
ghost use Rattle.jiff_core.specs.Weekday.{monday_zero};

use crate::sets::{BitSet, WideBitSet};
use jiff_core::civil::Weekday;

/// The end from which a number of a recurrence rule counts (RFC 5545, 3.3.10).
#[derive(Clone, Copy)]
pub enum Side {
    /// A number without a sign or with `+`: 1 is the first.
    Front,
    /// A number with `-`: 1 is the last.
    Back,
}

/// Numbers below 64 that count from the start or from the end, as in BYMONTHDAY and BYWEEKNO (RFC 5545, 3.3.10).
#[derive(Clone, Copy)]
pub struct Ordinals {
    pub front: BitSet,
    pub back: BitSet,
}

impl Ordinals {
    ghost use Rattle.ics_fields.specs.Ordinals.{no_ordinals, lists_none, with_ordinal};

    /// No number.
    pub fn new() -> Ordinals
        ensures { result ≡ no_ordinals }
    {
        Ordinals {
            front: BitSet::new(),
            back: BitSet::new(),
        }
    }

    /// Whether there is no number.
    pub fn is_empty(&self) -> bool
        ensures { result ≡ lists_none self.now }
    {
        self.front.is_empty() && self.back.is_empty()
    }

    /// Adds the `n`-th from an end.
    pub fn insert(&mut self, side: Side, n: u8)
        requires { n < 64 }
        ensures { self.new ≡ with_ordinal side n self.old }
    {
        match side {
            Side::Front => self.front.insert(n),
            Side::Back => self.back.insert(n),
        }
    }
}

/// Numbers below 384 that count from the start or from the end, as in BYYEARDAY and BYSETPOS (RFC 5545, 3.3.10).
#[derive(Clone, Copy)]
pub struct WideOrdinals {
    pub front: WideBitSet,
    pub back: WideBitSet,
}

impl WideOrdinals {
    ghost use Rattle.ics_fields.specs.Ordinals.{no_wide_ordinals, lists_none_wide, with_wide_ordinal};

    /// No number.
    pub fn new() -> WideOrdinals
        ensures { result ≡ no_wide_ordinals }
    {
        WideOrdinals {
            front: WideBitSet::new(),
            back: WideBitSet::new(),
        }
    }

    /// Whether there is no number.
    pub fn is_empty(&self) -> bool
        ensures { result ≡ lists_none_wide self.now }
    {
        self.front.is_empty() && self.back.is_empty()
    }

    /// Adds the `n`-th from an end.
    pub fn insert(&mut self, side: Side, n: u16)
        requires { n < 384 }
        ensures { self.new ≡ with_wide_ordinal side n self.old }
    {
        match side {
            Side::Front => self.front.insert(n),
            Side::Back => self.back.insert(n),
        }
    }
}

/// The weekdays of BYDAY (RFC 5545, 3.3.10), numbered from 0 for Monday.
#[derive(Clone, Copy)]
pub struct Weekdays {
    /// The weekdays that are listed without a number.
    pub plain: BitSet,
    /// For each weekday, the numbers that it is listed with.
    pub numbered: [Ordinals; 7],
}

impl Weekdays {
    ghost use Rattle.ics_fields.specs.Ordinals.{no_weekdays, lists_no_weekday, with_weekday, with_numbered_weekday};

    /// No weekday.
    pub fn new() -> Weekdays
        ensures { result ≡ no_weekdays }
    {
        Weekdays {
            plain: BitSet::new(),
            numbered: [Ordinals::new(); 7],
        }
    }

    /// Whether there is no weekday.
    pub fn is_empty(&self) -> bool
        ensures { result ≡ lists_no_weekday self.now }
    {
        self.plain.is_empty() && self.numbered.iter().all(Ordinals::is_empty)
    }

    /// Adds a weekday without a number.
    pub fn insert(&mut self, weekday: Weekday)
        ensures { self.new ≡ with_weekday weekday self.old }
    {
        self.plain.insert(weekday.index());
    }

    /// Adds a weekday with a number.
    pub fn add_numbered(&mut self, weekday: Weekday, side: Side, n: u8)
        requires { n < 64 }
        ensures { self.new ≡ with_numbered_weekday weekday side n self.old }
    {
        self.numbered[weekday.index() as usize].insert(side, n);
    }
}
