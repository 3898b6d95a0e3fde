ghost use Rattle.std.specs.Prelude.{◌≡◌, ◌<◌, ◌∷◌, length, IfSome};
ghost use Rattle.std.specs.Option.{option_copied};
ghost use Rattle.ics_text.specs.Bytes.{begins, is_blank};
ghost use Rattle.ics_text.specs.Unfolded.{physical_lines, without_mark};
ghost use Rattle.ics_text.specs.Inner.Reading.{physical_behind, without_cr};

use crate::bytes::is_blank;
use crate::line_end::line_len;

const CR: &[u8] = b"\r";

const BYTE_ORDER_MARK: &[u8] = b"\xef\xbb\xbf";

/// The first physical line, and the bytes after its line end if it has one.
pub fn cut_line<'a>(bytes: &'a [u8]) -> (&'a [u8], Option<&'a [u8]>)
    ensures lines { physical_lines bytes.now ≡ result.0.now ∷ physical_behind (option_copied result.1) }
    ensures shorter { IfSome result.1 (λ behind. length behind.now < length bytes.now) }
{
    let len = line_len(bytes);
    if len == bytes.len() {
        return (bytes, None);
    }
    (without_cr(&bytes[..len]), Some(&bytes[len + 1..]))
}

/// The bytes without one CR at their end.
fn without_cr(bytes: &[u8]) -> &[u8]
    ensures { result.now ≡ without_cr bytes.now }
{
    bytes.strip_suffix(CR).unwrap_or(bytes)
}

/// Whether the bytes continue the line before them: they begin with SPACE or HTAB.
pub fn is_continued(bytes: &[u8]) -> bool
    ensures { result ≡ begins is_blank bytes.now }
{
    match bytes {
        [] => false,
        [first, ..] => is_blank(*first),
    }
}

/// The bytes without the byte order mark that may begin them.
pub fn without_mark(bytes: &[u8]) -> &[u8]
    ensures { result.now ≡ without_mark bytes.now }
{
    bytes.strip_prefix(BYTE_ORDER_MARK).unwrap_or(bytes)
}
