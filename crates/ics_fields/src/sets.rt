//! Sets of small numbers, as words of bits.
ghost use Rattle.std.specs.Prelude.{◌≡◌, ◌≢◌, ℕ, ◌<◌, ◌==◌, ◌↔◌, ◌||◌, ◌*◌, ◌%◌, ◌&&◌, nat_lt, length, IsTrue, ◌^◌, ◌≤◌, IfSome, get_or, count_ones};
ghost use Rattle.ics_fields.specs.Sets.{contains, is_empty, only, with_number, contains_wide, is_empty_wide, none_wide, with_wide_number, IsNextIn};

use std::marker::Model;

/// A set of numbers below 64. Contracts see it as the number whose binary digits are its members.
#[derive(Clone, Copy)]
pub struct BitSet {
    bits: u64,
}

impl Model for BitSet {
    ghost use Rattle.std.specs.Prelude.{ℕ};

    ghost Value = { ℕ };

    ghost view = { λ s. s.bits };

    ghost inverse = { λ n. record { bits = n } };
}

impl BitSet {
    /// The empty set.
    pub fn new() -> BitSet
        ensures { result ≡ 0 }
    {
        BitSet { bits: 0 }
    }

    /// The number `n` alone.
    pub fn only(n: u8) -> BitSet
        requires { n < 64 }
        ensures { result ≡ only n }
    {
        BitSet { bits: 1 << n }
    }

    /// Whether there is no member.
    pub fn is_empty(self) -> bool
        ensures { result ≡ is_empty self }
    {
        self.bits == 0
    }

    /// Whether `n` is a member.
    pub fn contains(self, n: u8) -> bool
        ensures { result ≡ (nat_lt n 64 && contains self n) }
    {
        n < 64 && (self.bits >> n) & 1 == 1
    }

    /// The numbers below `size`.
    pub fn below(size: u8) -> BitSet
        requires { size < 64 }
        ensures members { (m : ℕ) → m < size → IsTrue (contains result m) }
        ensures bound { result < 2 ^ size }
    {
        BitSet {
            bits: (1 << size) - 1,
        }
    }

    /// The members below `size`.
    pub fn front(self, size: u8) -> BitSet
        requires { size < 64 }
        ensures members { (m : ℕ) → m < size → contains result m ≡ contains self m }
        ensures bound { result < 2 ^ size }
    {
        BitSet {
            bits: self.bits % (1 << size),
        }
    }

    /// The least member from `n` on.
    pub fn next_from(self, n: u8) -> Option<u8>
        ensures next { IsNextIn (contains self) n result }
        ensures small { IfSome result (λ m. m < 64) }
    {
        let bits = self.bits;
        if n >= 64 {
            return None;
        }
        let rest = bits >> n;
        if rest == 0 {
            return None;
        }
        Some(n + rest.trailing_zeros() as u8)
    }

    /// How many members are below `n`.
    pub fn ones_below(self, n: u16) -> u32
        ensures { result ≡ count_ones (self % 2 ^ n) }
    {
        if n < 64 {
            (self.bits % (1 << n)).count_ones()
        } else {
            self.bits.count_ones()
        }
    }

    /// Adds `n`.
    pub fn insert(&mut self, n: u8)
        requires { n < 64 }
        ensures value { self.new ≡ with_number n self.old }
        ensures members { (m : ℕ) → contains self.new m ≡ ((m == n) || contains self.old m) }
    {
        self.bits |= 1 << n;
    }
}

/// A set of numbers below 384. Contracts see it as its six words.
#[derive(Clone, Copy)]
pub struct WideBitSet {
    words: [u64; 6],
}

impl Model for WideBitSet {
    ghost use Rattle.std.specs.Prelude.{ℕ, List};

    ghost Value = { List ℕ };

    ghost view = { λ s. s.words };

    ghost inverse = { λ ws. record { words = ws } };
}

impl WideBitSet {
    /// The empty set.
    pub fn new() -> WideBitSet
        ensures { result ≡ none_wide }
    {
        WideBitSet { words: [0; 6] }
    }

    /// Whether there is no member.
    pub(crate) fn is_empty(&self) -> bool
        ensures { result ≡ is_empty_wide self.now }
    {
        self.words == [0; 6]
    }

    /// Whether `n` is a member.
    pub fn contains(&self, n: u16) -> bool
        ensures { result ≡ contains_wide self.now n }
    {
        n < 384 && (self.words[n as usize / 64] >> (n % 64)) & 1 == 1
    }

    /// The least member from `n` on.
    pub fn next_from(&self, n: u16) -> Option<u16>
        ensures next { IsNextIn (contains_wide self.now) n result }
        ensures small { IfSome result (λ m. m < 384) }
    {
        let mut from = (n % 64) as u8;
        for word in n as usize / 64..6 {
            let bits = BitSet {
                bits: self.words[word],
            };
            if let Some(bit) = bits.next_from(from) {
                return Some(word as u16 * 64 + bit as u16);
            }
            from = 0;
        }
        None
    }

    /// The members from `64 * place` on and below `64 * place + 64`, counted from the first of these numbers.
    pub fn word(&self, place: u16) -> BitSet
        requires { place < 6 }
        ensures { result ≡ get_or self.now place 0 }
    {
        BitSet {
            bits: self.words[place as usize],
        }
    }

    /// Adds `n`.
    pub fn insert(&mut self, n: u16)
        requires { n < 384 }
        ensures value { self.new ≡ with_wide_number n self.old }
        ensures members { (m : ℕ) → contains_wide self.new m ≡ ((m == n) || contains_wide self.old m) }
    {
        self.words[n as usize / 64] |= 1 << (n % 64);
    }
}
