//! The sign that may begin a text.
ghost use Rattle.std.specs.Prelude.{◌≡◌, ◌<◌, ◌^◌};
ghost use Rattle.jiff_core.specs.Calendar.{IsWithin};
ghost use Rattle.ics_values.specs.Texts.{begins, is_sign, is_minus, unsigned, with_sign};

/// Whether a byte is `+` or `-`.
pub fn is_sign(b: u8) -> bool
    ensures { result ≡ is_sign b }
{
    b == b'+' || b == b'-'
}

/// Whether a minus begins the text.
pub fn is_negative(text: &[u8]) -> bool
    ensures { result ≡ begins is_minus text.now }
{
    match text {
        [] => false,
        [first, ..] => *first == b'-',
    }
}

/// The text without the sign that may begin it.
pub fn unsigned(text: &[u8]) -> &[u8]
    ensures { result.now ≡ unsigned text.now }
{
    match text {
        [] => text,
        [first, rest @ ..] => { if is_sign(*first) { rest } else { text } }
    }
}

/// The number, negated if `negative`.
pub fn with_sign(negative: bool, size: u32) -> i32
    requires { size < 2 ^ 31 }
    ensures value { result ≡ with_sign negative size }
    ensures within { IsWithin size result }
{
    if negative {
        -(size as i32)
    } else {
        size as i32
    }
}
