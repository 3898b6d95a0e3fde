//! Stretches of locals that a clock shows, or skips, by one offset.
ghost use Rattle.std.specs.Prelude.{◌≡◌, int_le, ℤ};
ghost use Rattle.ics_zone.specs.Bounds.{HasBounds};
ghost use Rattle.ics_zone.specs.Stretches.{IsStretch};

use crate::Bounds;
use ics_fields::Moment;

/// Locals, given by their seconds, that mean the instants that are earlier by one offset, at which a clock has one offset: those from one on and
/// before another. There may be none.
#[derive(Clone, Copy)]
pub struct Stretch {
    pub from: Moment,
    pub to: Moment,
    /// How many seconds a local is ahead of the instant that it means.
    pub offset: i64,
    /// The offset that the clock has at these instants: the same, unless it skips the locals.
    pub shown: i64,
}

impl Stretch {
    /// No local.
    pub fn none() -> Stretch
        ensures { (offset moment : ℤ → ℤ) → IsStretch offset moment result }
    {
        Stretch {
            from: 0,
            to: 0,
            offset: 0,
            shown: 0,
        }
    }

    /// All locals, if both bounds of a clock are one offset, and else none.
    pub(crate) fn of_bounds(bounds: Bounds) -> Stretch
        ensures { (offset moment : ℤ → ℤ) → HasBounds offset moment bounds.least bounds.most → IsStretch offset moment result }
    {
        if bounds.least != bounds.most {
            return Stretch::none();
        }
        Stretch {
            from: Moment::MIN,
            to: Moment::MAX,
            offset: bounds.least,
            shown: bounds.least,
        }
    }

    /// The same locals, shown by their offset.
    pub(crate) fn as_shown(self) -> Stretch
        ensures from { result.from ≡ self.from }
        ensures to { result.to ≡ self.to }
        ensures offset { result.offset ≡ self.offset }
        ensures shown { result.shown ≡ self.offset }
    {
        Stretch {
            from: self.from,
            to: self.to,
            offset: self.offset,
            shown: self.offset,
        }
    }

    /// Whether there is none.
    pub(crate) fn is_empty(self) -> bool
        ensures { result ≡ int_le self.to self.from }
    {
        self.to <= self.from
    }
}
