ghost use Rattle.std.specs.Prelude.{◌≡◌, ◌≤◌, drop, length};
ghost use Rattle.std.specs.List.{prefix_len};
ghost use Rattle.ics_text.specs.Bytes.{in_line, is_blank, is_name_byte, is_quoted_byte, is_plain_byte};

/// The byte that ends a line.
pub const LF: u8 = b'\n';

pub const QUOTE: u8 = b'"';

pub const COMMA: u8 = b',';

pub const COLON: u8 = b':';

pub const SEMICOLON: u8 = b';';

pub const EQUALS: u8 = b'=';

/// For each byte where it is allowed: 3 in a name and in each value of a parameter, 2 in each value, 1 in a quoted value, and 0 in none of them.
const ALLOWED: [u8; 256] = [
    0, 0, 0, 0, 0, 0, 0, 0, 0, 2, 0, 0, 0, 0, 0, 0, 0, 0, 0, 0, 0, 0, 0, 0, 0, 0, 0, 0, 0, 0, 0, 0,
    2, 2, 0, 2, 2, 2, 2, 2, 2, 2, 2, 2, 1, 3, 2, 2, 3, 3, 3, 3, 3, 3, 3, 3, 3, 3, 1, 1, 2, 2, 2, 2,
    2, 3, 3, 3, 3, 3, 3, 3, 3, 3, 3, 3, 3, 3, 3, 3, 3, 3, 3, 3, 3, 3, 3, 3, 3, 3, 3, 2, 2, 2, 2, 3,
    2, 3, 3, 3, 3, 3, 3, 3, 3, 3, 3, 3, 3, 3, 3, 3, 3, 3, 3, 3, 3, 3, 3, 3, 3, 3, 3, 2, 2, 2, 2, 0,
    2, 2, 2, 2, 2, 2, 2, 2, 2, 2, 2, 2, 2, 2, 2, 2, 2, 2, 2, 2, 2, 2, 2, 2, 2, 2, 2, 2, 2, 2, 2, 2,
    2, 2, 2, 2, 2, 2, 2, 2, 2, 2, 2, 2, 2, 2, 2, 2, 2, 2, 2, 2, 2, 2, 2, 2, 2, 2, 2, 2, 2, 2, 2, 2,
    2, 2, 2, 2, 2, 2, 2, 2, 2, 2, 2, 2, 2, 2, 2, 2, 2, 2, 2, 2, 2, 2, 2, 2, 2, 2, 2, 2, 2, 2, 2, 2,
    2, 2, 2, 2, 2, 2, 2, 2, 2, 2, 2, 2, 2, 2, 2, 2, 2, 2, 2, 2, 2, 2, 2, 2, 2, 2, 2, 2, 2, 2, 2, 2,
];

/// Whether a line that begins with the byte continues the line before it: SPACE or HTAB.
pub fn is_blank(b: u8) -> bool
    ensures { result ≡ is_blank b }
{
    b == b' ' || b == b'\t'
}

/// Whether the name of a property or a parameter may contain the byte.
pub fn is_name_byte(b: u8) -> bool
    ensures { result ≡ is_name_byte b }
{
    ALLOWED[b as usize] == 3
}

/// Whether a quoted value of a parameter may contain the byte.
pub fn is_quoted_byte(b: u8) -> bool
    ensures { result ≡ is_quoted_byte b }
{
    ALLOWED[b as usize] >= 1
}

/// Whether an unquoted value of a parameter may contain the byte.
pub fn is_plain_byte(b: u8) -> bool
    ensures { result ≡ is_plain_byte b }
{
    ALLOWED[b as usize] >= 2
}

/// A set of bytes.
pub trait ByteSet {
    ghost use Rattle.std.specs.Prelude.{ℕ, Bool};

    /// Whether the byte is in the set.
    ghost has: { Self → ℕ → Bool };

    /// Whether the byte is in the set.
    fn has(&self, b: u8) -> bool
        ensures { result ≡ has self.now b };
}

/// The bytes of a line: all but LF.
pub struct LineBytes;

impl ByteSet for LineBytes {
    ghost has = { λ _ b. in_line b };

    fn has(&self, b: u8) -> bool {
        b != LF
    }
}

/// The bytes that are allowed in a name.
struct NameBytes;

impl ByteSet for NameBytes {
    ghost has = { λ _ b. is_name_byte b };

    fn has(&self, b: u8) -> bool {
        is_name_byte(b)
    }
}

/// The bytes that are allowed in an unquoted value of a parameter.
struct PlainBytes;

impl ByteSet for PlainBytes {
    ghost has = { λ _ b. is_plain_byte b };

    fn has(&self, b: u8) -> bool {
        is_plain_byte(b)
    }
}

/// The bytes that are allowed in a quoted value of a parameter.
struct QuotedBytes;

impl ByteSet for QuotedBytes {
    ghost has = { λ _ b. is_quoted_byte b };

    fn has(&self, b: u8) -> bool {
        is_quoted_byte(b)
    }
}

/// The length of the longest prefix whose bytes are in the set. Most are short, so each of the first eight bytes has a test of its own: a turn of a loop takes
/// longer than the test.
#[inline(always)]
fn run_len<S: ByteSet>(set: &S, text: &[u8]) -> usize
    ensures value { result ≡ prefix_len (S.has set.now) text.now }
    ensures within { result ≤ length text.now }
{
    let [a, b, c, d, e, f, g, h, rest @ ..] = text else {
        return looped_len(set, text);
    };
    if !set.has(*a) {
        return 0;
    }
    if !set.has(*b) {
        return 1;
    }
    if !set.has(*c) {
        return 2;
    }
    if !set.has(*d) {
        return 3;
    }
    if !set.has(*e) {
        return 4;
    }
    if !set.has(*f) {
        return 5;
    }
    if !set.has(*g) {
        return 6;
    }
    if !set.has(*h) {
        return 7;
    }
    8 + looped_len(set, rest)
}

/// The same, byte by byte.
#[inline(always)]
pub fn looped_len<S: ByteSet>(set: &S, text: &[u8]) -> usize
    ensures value { result ≡ prefix_len (S.has set.now) text.now }
    ensures within { result ≤ length text.now }
{
    for (i, b) in text.iter().enumerate() {
        if !set.has(*b) {
            return i;
        }
    }
    text.len()
}

// These three are never inlined: the loop over the lines of a file has too few registers for their loops.

/// The length of the longest prefix whose bytes are allowed in a name.
#[inline(never)]
pub fn name_len(text: &[u8]) -> usize
    ensures value { result ≡ prefix_len is_name_byte text.now }
    ensures within { result ≤ length text.now }
{
    run_len(&NameBytes, text)
}

/// The length of the longest prefix whose bytes are allowed in an unquoted value of a parameter.
#[inline(never)]
pub fn plain_len(text: &[u8]) -> usize
    ensures value { result ≡ prefix_len is_plain_byte text.now }
    ensures within { result ≤ length text.now }
{
    run_len(&PlainBytes, text)
}

/// The length of the longest prefix whose bytes are allowed in a quoted value of a parameter.
#[inline(never)]
pub fn quoted_len(text: &[u8]) -> usize
    ensures value { result ≡ prefix_len is_quoted_byte text.now }
    ensures within { result ≤ length text.now }
{
    run_len(&QuotedBytes, text)
}

/// The bytes after the first.
pub fn without_first(bytes: &[u8]) -> &[u8]
    ensures { result.now ≡ drop 1 bytes.now }
{
    match bytes {
        [] => bytes,
        [_, rest @ ..] => rest,
    }
}
