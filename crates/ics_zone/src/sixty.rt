//! A minute as a word of sixty bits: bit `n` is its second `n`.
ghost use Rattle.std.specs.Prelude.{◌≡◌, ℕ, ◌+◌, ◌<◌, ◌≤◌, ◌*◌, ◌^◌, ◌&&◌, true, nat_lt, int_lt, pos, MatchOption};
ghost use Rattle.ics_fields.specs.Sets.{contains};

use ics_fields::BitSet;

/// The members of a set below sixty.
pub(crate) fn word_of(set: BitSet) -> u64
    ensures { (n : ℕ) → contains result n ≡ (nat_lt n 60 && contains set n) }
{
    let mut word: u64 = 0;
    for n in 0..60_u8 {
        if set.contains(n) {
            word |= 1 << n;
        }
    }
    word
}

/// The first seconds of a minute, so many.
pub(crate) fn front(word: u64, size: u32) -> u64
    requires { size ≤ 60 }
    ensures members { (n : ℕ) → contains result n ≡ (nat_lt n size && contains word n) }
    ensures bound { result < 2 ^ size }
{
    word % (1 << size)
}

/// Sixty seconds from a second of a minute on, of which the last are in the next minute.
pub(crate) fn shifted(here: u64, next: u64, from: u32) -> u64
    requires { from < 60 }
    ensures here { (n : ℕ) → n + from < 60 → contains result n ≡ contains here (n + from) }
    ensures next { (n m : ℕ) → m < from → n + from ≡ m + 60 → contains result n ≡ contains next m }
{
    (front(here, 60) >> from) | (front(next, from) << (60 - from))
}

/// The first second of a minute that another word does not have.
pub(crate) fn first_outside(word: u64, other: u64) -> Option<u32>
    ensures { MatchOption result
        ((n : ℕ) → n < 60 → contains word n ≡ true → contains other n ≡ true)
        (λ s. (s < 60) × ((n : ℕ) → n < s → contains word n ≡ true → contains other n ≡ true)) }
{
    let rest = front(word & !other, 60);
    if rest == 0 {
        return None;
    }
    Some(rest.trailing_zeros())
}

/// How many seconds of a minute of an hour are among its first ones, so many.
pub(crate) fn first_of(minute: usize, count: i64) -> u32
    requires { minute < 60 }
    ensures most { result ≤ 60 }
    ensures first { (n : ℕ) → n < 60 → nat_lt n result ≡ int_lt (pos (minute * 60 + n)) count }
{
    (count.clamp(0, 3_600) - minute as i64 * 60).clamp(0, 60) as u32
}
