//! Folded lines that are not joined.
ghost use Rattle.std.specs.Prelude.{◌≡◌, ℕ, List, true, false, ◌+◌, ◌≤◌, ◌++◌, length, filter, IsTrue};
ghost use Rattle.ics_text.specs.Bytes.{begins, is_blank};
ghost use Rattle.ics_text.specs.Passing.{IsUnread};
ghost use Rattle.ics_text.specs.Unfolded.{attach, is_line, lines_from, physical_lines};
ghost use Rattle.ics_text.specs.Inner.Reading.{line_of, all_from, kept};

use crate::bytes::name_len;
use crate::content_line::content;
use crate::physical::{cut_line, is_continued};
use crate::reads::Reads;

/// Whether a line is a content line whose property is not read.
pub fn is_unread<R: Reads>(reader: &R, line: &[u8]) -> bool
    ensures { IsTrue result → IsUnread (R.reads reader.now) line.now }
{
    let name = &line[..name_len(line)];
    !reader.is_read(name) && content(line).is_ok()
}

/// Passes over the physical lines at the start of `after` that continue the one before them. Answers the bytes behind them, and the
/// number of line ends before those.
pub fn pass_folds<'a>(after: &'a [u8]) -> (&'a [u8], u64)
    requires { begins is_blank after.now ≡ true }
    ensures passed { (more : List ℕ) × ((n : ℕ) (first : List ℕ) → filter is_line (attach (line_of n first false) (all_from (n + 1) after.now))
        ≡ kept (line_of n (first ++ more) true) (lines_from (n + result.1) result.0.now)) }
    ensures counted { result.1 + length (physical_lines result.0.now) ≡ length (physical_lines after.now) + 1 }
    ensures fewer { result.1 + length result.0.now ≤ length after.now + 1 }
    ensures shorter { length result.0.now ≤ length after.now }
{
    let mut rest = after;
    let mut breaks = 1;
    while is_continued(rest) {
        let (_, behind) = cut_line(rest);
        match behind {
            None => rest = &rest[rest.len()..],
            Some(behind) => {
                rest = behind;
                breaks += 1;
            }
        }
    }
    (rest, breaks)
}
