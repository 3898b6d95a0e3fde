//! The instants of an event that others replace.
ghost use Rattle.std.specs.Prelude.{◌≡◌};
ghost use Rattle.std.specs.List.Sorted.{IsSorted};
ghost use Rattle.std.specs.Ordering.{int_cmp};
ghost use Rattle.ics_starts.specs.Exclusions.{is_among};

use crate::exclusion::is_among;
use ics_values::Moment;
use std::marker::Model;

/// The instants of the instances of an event that others replace, in order. Contracts see the instants.
#[derive(Drop)]
pub struct Replaced {
    instants: Vec<Moment>,
}

impl Model for Replaced {
    ghost use Rattle.std.specs.Prelude.{ℤ, List};
    ghost use Rattle.std.specs.List.Sorted.{IsSorted};
    ghost use Rattle.std.specs.Ordering.{int_cmp};

    ghost Value = { List ℤ };

    ghost view = { λ a. a.instants.items };

    ghost invariant = { λ a. IsSorted int_cmp a.instants.items };
}

impl Replaced {
    /// These instants.
    pub fn new(instants: Vec<Moment>) -> Replaced
        requires { IsSorted int_cmp instants.items }
        ensures { result ≡ instants.items }
    {
        Replaced { instants }
    }

    /// Whether an instant is one of them.
    pub(crate) fn names(&self, moment: Moment) -> bool
        ensures { result ≡ is_among self.now moment }
    {
        is_among(&self.instants, moment)
    }
}
