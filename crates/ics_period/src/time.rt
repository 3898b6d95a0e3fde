//! The parts of a rule that restrict the time of day, and tests of one part (RFC 5545, 3.3.10).
ghost use Rattle.std.specs.Prelude.{◌≡◌, ℕ, ◌<◌, ◌≤◌, ◌+◌, ◌*◌};
ghost use Rattle.ics_period.specs.Candidates.{lets, lets_place, lets_wide_place, lists_nth, lets_clock};

use crate::effective_rule::EffectiveRule;
use crate::part::PlacesPart;
use ics_fields::{BitSet, Ordinals};

/// Whether a part allows a number below 64: it is absent or lists it.
pub fn lets(set: BitSet, n: u8) -> bool
    requires { n < 64 }
    ensures { result ≡ lets set n }
{
    set.is_empty() | set.contains(n)
}

/// Whether the part allows the `n`-th of `size`.
pub(crate) fn lets_place(places: &Ordinals, n: u8, size: u8) -> bool
    requires place { n ≤ size }
    requires small { size < 63 }
    ensures { result ≡ lets_place places.now n size }
{
    places.is_empty() | places.front.contains(n) | places.back.contains(size + 1 - n)
}

/// The same for a year's days.
pub(crate) fn lets_wide_place(places: &PlacesPart, n: u16, size: u16) -> bool
    requires place { n ≤ size }
    requires small { size < 383 }
    ensures { result ≡ lets_wide_place places.now n size }
{
    places.is_empty() || places.list.front.contains(n) | places.list.back.contains(size + 1 - n)
}

/// Whether the numbers list day `n` of `size`, counted by its weekday.
pub(crate) fn lists_nth(places: &Ordinals, n: u16, size: u16) -> bool
    requires first { 1 ≤ n }
    requires place { n ≤ size }
    requires small { size ≤ 366 }
    ensures { result ≡ lists_nth places.now n size }
{
    places.front.contains(((n - 1) / 7 + 1) as u8)
        | places.back.contains(((size - n) / 7 + 1) as u8)
}

/// Whether each part that restricts the time allows this second of a day, below 86,400.
pub fn lets_clock(parts: &EffectiveRule, second: u32) -> bool
    requires { second < 86400 }
    ensures { (day : ℕ) → result ≡ lets_clock parts.now (day * 86400 + second) }
{
    lets(parts.hours, (second / 3600) as u8)
        & lets(parts.minutes, (second / 60 % 60) as u8)
        & lets(parts.seconds, (second % 60) as u8)
}
