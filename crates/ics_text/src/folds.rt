ghost use Rattle.std.specs.Prelude.{◌≡◌, ℕ, true, false, ◌+◌, ◌<◌, ◌≤◌, length, filter, IfOk, OnErr};
ghost use Rattle.ics_text.specs.Bytes.{begins, is_blank};
ghost use Rattle.ics_text.specs.Unfolded.{attach, is_line, lines_from, physical_lines, BeginsFolded};
ghost use Rattle.ics_text.specs.Inner.Reading.{line_of, all_from, kept, line_by, Begins};

use crate::bytes::without_first;
use crate::logical::LineBytes;
use crate::passing::{is_unread, pass_folds};
use crate::physical::{cut_line, is_continued};
use crate::reads::Reads;
use std::alloc::{AllocError, Global};

/// A folded line, joined, the bytes after it, and the number of line ends before those.
#[derive(Drop)]
struct Found<'a> {
    bytes: LineBytes<'a>,
    rest: &'a [u8],
    breaks: u64,
}

/// The first line, unfolded, or none if it is passed over, the bytes after it, and the number of line ends before those.
#[derive(Drop)]
pub struct FirstLine<'a> {
    pub bytes: Option<LineBytes<'a>>,
    pub rest: &'a [u8],
    pub breaks: u64,
}

/// The first line. It is allocated only if it is folded, and passed over if it is folded and its property is not read.
pub fn first_line<'a, R: Reads>(
    alloc: Global,
    reader: &R,
    bytes: &'a [u8],
) -> Result<FirstLine<'a>, AllocError>
    ensures found { IfOk result (λ f. (n : ℕ) → Begins (R.reads reader.now) n f.bytes (lines_from n bytes.now) (lines_from (n + f.breaks) f.rest.now)) }
    ensures counted { IfOk result (λ f. f.breaks + length (physical_lines f.rest.now) ≡ length (physical_lines bytes.now)) }
    ensures fewer { IfOk result (λ f. f.breaks + length f.rest.now ≤ length bytes.now) }
    ensures shorter { IfOk result (λ f. 0 < length bytes.now → length f.rest.now < length bytes.now) }
    ensures err { OnErr result ((n : ℕ) → BeginsFolded (lines_from n bytes.now)) }
{
    let (line, behind) = cut_line(bytes);
    let Some(after) = behind else {
        return Ok(FirstLine {
            bytes: Some(LineBytes::Borrowed(line)),
            rest: &bytes[bytes.len()..],
            breaks: 0,
        });
    };
    if is_continued(after) {
        return folded_line(alloc, reader, line, after);
    }
    Ok(FirstLine {
        bytes: Some(LineBytes::Borrowed(line)),
        rest: after,
        breaks: 1,
    })
}

/// The line that begins with this physical line, which those at the start of `after` continue. `after` begins with one.
fn folded_line<'a, R: Reads>(
    alloc: Global,
    reader: &R,
    first: &[u8],
    after: &'a [u8],
) -> Result<FirstLine<'a>, AllocError>
    requires { begins is_blank after.now ≡ true }
    ensures found { IfOk result (λ f. (n : ℕ) → Begins (R.reads reader.now) n f.bytes
        (filter is_line (attach (line_of n first.now false) (all_from (n + 1) after.now))) (lines_from (n + f.breaks) f.rest.now)) }
    ensures counted { IfOk result (λ f. f.breaks + length (physical_lines f.rest.now) ≡ length (physical_lines after.now) + 1) }
    ensures fewer { IfOk result (λ f. f.breaks + length f.rest.now ≤ length after.now + 1) }
    ensures shorter { IfOk result (λ f. length f.rest.now ≤ length after.now) }
    ensures err { OnErr result ((n : ℕ) → BeginsFolded (filter is_line (attach (line_of n first.now false) (all_from (n + 1) after.now)))) }
{
    if is_unread(reader, first) {
        let (rest, breaks) = pass_folds(after);
        return Ok(FirstLine {
            bytes: None,
            rest,
            breaks,
        });
    }
    let Found {
        bytes,
        rest,
        breaks,
    } = join_folds(alloc, first, after)?;
    Ok(FirstLine {
        bytes: Some(bytes),
        rest,
        breaks,
    })
}

/// Joins the first line with the physical lines at the start of `after` that continue it. `after` begins with one.
fn join_folds<'a>(alloc: Global, first: &[u8], after: &'a [u8]) -> Result<Found<'a>, AllocError>
    requires { begins is_blank after.now ≡ true }
    ensures found { IfOk result (λ f. (n : ℕ) → filter is_line (attach (line_of n first.now false) (all_from (n + 1) after.now))
        ≡ kept (line_by n f.bytes) (lines_from (n + f.breaks) f.rest.now)) }
    ensures counted { IfOk result (λ f. f.breaks + length (physical_lines f.rest.now) ≡ length (physical_lines after.now) + 1) }
    ensures fewer { IfOk result (λ f. f.breaks + length f.rest.now ≤ length after.now + 1) }
    ensures shorter { IfOk result (λ f. length f.rest.now ≤ length after.now) }
    ensures err { OnErr result ((n : ℕ) → BeginsFolded (filter is_line (attach (line_of n first.now false) (all_from (n + 1) after.now)))) }
{
    let mut bytes = Vec::with_capacity(alloc, 2 * first.len())?;
    bytes.extend_from_slice(first)?;
    let mut rest = after;
    let mut breaks = 1;
    while is_continued(rest) {
        let (line, behind) = cut_line(rest);
        bytes.extend_from_slice(without_first(line))?;
        match behind {
            None => rest = &rest[rest.len()..],
            Some(behind) => {
                rest = behind;
                breaks += 1;
            }
        }
    }
    Ok(Found {
        bytes: LineBytes::Owned(bytes),
        rest,
        breaks,
    })
}
