//! Digits and the numbers that they spell.
ghost use Rattle.std.specs.Prelude.{◌≡◌, ◌+◌, ◌*◌, ◌-◌, ◌<◌, ◌≤◌, ◌^◌, true, min, length, take, drop};
ghost use Rattle.std.specs.List.{list_all};
ghost use Rattle.ics_values.specs.Digits.{is_digit, are_digits, number_of, number_at, digit_count, greatest_number, SaysNumber};

/// Whether the text is one digit or more, and nothing else.
pub fn are_digits(text: &[u8]) -> bool
    ensures { result ≡ are_digits text.now }
{
    !text.is_empty() && digit_count(text) == text.len()
}

/// The number that the digits from place `i` up to place `j` spell.
pub fn number_at(text: &[u8], i: usize, j: usize) -> u32
    requires order { i ≤ j }
    requires few { j ≤ i + 4 }
    requires within { j ≤ length text.now }
    requires digits { list_all is_digit (take (j - i) (drop i text.now)) ≡ true }
    ensures value { result ≡ number_at text.now i j }
    ensures bound { result < 10 ^ (j - i) }
{
    let mut n = 0u32;
    for b in &text[i..j] {
        n = 10 * n + u32::from(*b - b'0');
    }
    n
}

/// How many digits begin the text.
pub fn digit_count(text: &[u8]) -> usize
    ensures value { result ≡ digit_count text.now }
    ensures within { result ≤ length text.now }
{
    for (i, b) in text.iter().enumerate() {
        if !b.is_ascii_digit() {
            return i;
        }
    }
    text.len()
}

/// The number that digits spell, or 4,294,967,296 if it is larger.
pub fn capped_number(digits: &[u8]) -> u64
    requires { list_all is_digit digits.now ≡ true }
    ensures { result ≡ min (number_of digits.now) 4_294_967_296 }
{
    let mut n = 0u64;
    for b in digits {
        n = (10 * n + u64::from(*b - b'0')).min(4_294_967_296);
    }
    n
}

/// The number that digits spell. None if it is past 4,294,967,295.
pub fn number_within(digits: &[u8]) -> Option<u32>
    requires { list_all is_digit digits.now ≡ true }
    ensures { SaysNumber result (number_of digits.now) }
{
    let n = capped_number(digits);
    if n < 4_294_967_296 {
        Some(n as u32)
    } else {
        None
    }
}
