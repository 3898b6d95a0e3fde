//! The members of a set by their order: how many are below a number, and which is the n-th.
ghost use Rattle.std.specs.Prelude.{◌≡◌, ◌<◌, ◌≤◌};
ghost use Rattle.ics_fields.specs.Sets.{contains, contains_wide};
ghost use Rattle.ics_period.specs.Ranks.{count};
ghost use Rattle.ics_period.specs.RecurrencePeriods.{IsNth};

use ics_fields::{BitSet, WideBitSet};

/// A set of numbers below 384.
pub trait Members {
    ghost use Rattle.std.specs.Prelude.{ℕ, Bool, ◌≡◌, ◌<◌, ◌≤◌, IfSome};
    ghost use Rattle.ics_fields.specs.Sets.{IsNextIn};
    ghost use Rattle.ics_period.specs.Ranks.{count};

    /// Whether a number is a member.
    ghost has: { Self → ℕ → Bool };

    /// How many members are below `n`.
    fn count_below(&self, n: u16) -> u64
        requires { n ≤ 384 }
        ensures { result ≡ count n (Self.has self.now) };

    /// The least member.
    fn first(&self) -> Option<u16>
        ensures next { IsNextIn (Self.has self.now) 0 result }
        ensures small { IfSome result (λ m. m < 384) };
}

impl Members for BitSet {
    ghost has = { contains };

    #[tactic(auto, using(crate::proofs::Counts::count_of_ones))]
    fn count_below(&self, n: u16) -> u64 {
        self.ones_below(n) as u64
    }

    fn first(&self) -> Option<u16> {
        Some(self.next_from(0)? as u16)
    }
}

impl Members for WideBitSet {
    ghost has = { contains_wide };

    fn count_below(&self, n: u16) -> u64 {
        let mut total = 0;
        for place in 0..n / 64 {
            total += self.word(place).ones_below(64) as u64;
        }
        let rest = n % 64;
        if rest == 0 {
            return total;
        }
        total + self.word(n / 64).ones_below(rest) as u64
    }

    fn first(&self) -> Option<u16> {
        self.next_from(0)
    }
}

/// How many members of a set are below `n`, which is at most 384.
#[tactic(auto, using(crate::proofs::Counts::count_most))]
pub fn members_below<S: Members>(set: &S, n: u16) -> u64
    requires { n ≤ 384 }
    ensures value { result ≡ count n (S.has set.now) }
    ensures bound { result ≤ n }
{
    set.count_below(n)
}

/// The `k`-th member of a set, from 0.
pub(crate) fn nth_member<S: Members>(set: &S, k: u64) -> u16
    requires { k < count 384 (S.has set.now) }
    ensures nth { IsNth (S.has set.now) k result }
    ensures small { result < 384 }
{
    if k == 0 {
        if let Some(first) = set.first() {
            return first;
        }
    }
    let mut low = 0;
    let mut width = 384;
    // Most members are below a word's end.
    if set.count_below(64) > k {
        width = 64;
    }
    while width > 1 {
        let half = width / 2;
        if set.count_below(low + half) > k {
            width = half;
        } else {
            low += half;
            width -= half;
        }
    }
    low
}
