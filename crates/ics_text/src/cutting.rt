//! Where a file may be cut so that no line of it stands on both sides.
ghost use Rattle.std.specs.Prelude.{◌≡◌, ◌+◌, ◌≤◌, ◌++◌, length, IfSome};
ghost use Rattle.ics_text.specs.Cuts.{IsCut, begins_line, ends_line};

use crate::bytes::{LF, is_blank};
use std::simd::prelude::*;

/// Whether the bytes begin a line: they have a first byte, and it continues no line.
fn begins_line(bytes: &[u8]) -> bool
    ensures { result ≡ begins_line bytes.now }
{
    match bytes {
        [] => false,
        [first, ..] => !is_blank(*first),
    }
}

/// Whether the bytes end with a line end.
fn ends_line(bytes: &[u8]) -> bool
    ensures { result ≡ ends_line bytes.now }
{
    match bytes {
        [.., last] => *last == LF,
        [] => false,
    }
}

/// The bytes on both sides of a place, if the file may be cut there.
fn cut_there(bytes: &[u8], place: usize) -> Option<(&[u8], &[u8])>
    ensures whole { IfSome result (λ parts. bytes.now ≡ parts.0.now ++ parts.1.now) }
    ensures cut { IfSome result (λ parts. IsCut parts.0.now parts.1.now) }
{
    if place > bytes.len() {
        return None;
    }
    let (head, rest) = bytes.split_at(place);
    if ends_line(head) && begins_line(rest) {
        return Some((head, rest));
    }
    None
}

/// A bit for each of the 32 bytes from there on, which is set where the file may be cut behind the byte. It only tells where to look: each place is tested.
#[inline(always)]
fn marks(bytes: &[u8], at: usize) -> u64
    requires { at + 33 ≤ length bytes.now }
{
    let next = u8x32::from_slice(&bytes[at + 1..]);
    let begins = next.simd_ne(u8x32::splat(b' ')) & next.simd_ne(u8x32::splat(b'\t'));
    let ends = u8x32::from_slice(&bytes[at..]).simd_eq(u8x32::splat(LF));
    (ends & begins).to_bitmask()
}

/// The bytes up to the last place where they may be cut, and those behind it. None if there is no such place.
pub fn last_cut(bytes: &[u8]) -> Option<(&[u8], &[u8])>
    ensures whole { IfSome result (λ parts. bytes.now ≡ parts.0.now ++ parts.1.now) }
    ensures cut { IfSome result (λ parts. IsCut parts.0.now parts.1.now) }
{
    let mut end = bytes.len();
    'runs: while end >= 33 {
        let at = end - 33;
        let marks = marks(bytes, at);
        if marks != 0 {
            return cut_there(bytes, at + 1 + marks.ilog2() as usize);
        }
        end -= 32;
    }
    'places: while end > 1 {
        end -= 1;
        if let Some(parts) = cut_there(bytes, end) {
            return Some(parts);
        }
    }
    None
}

/// The bytes of a piece up to the first place where the file may be cut, and those behind it, where the other bytes stand before the piece. None if there
/// is no such place.
pub fn first_cut<'a>(before: &[u8], piece: &'a [u8]) -> Option<(&'a [u8], &'a [u8])>
    ensures whole { IfSome result (λ parts. piece.now ≡ parts.0.now ++ parts.1.now) }
    ensures cut { IfSome result (λ parts. IsCut (before.now ++ parts.0.now) parts.1.now) }
{
    if ends_line(before) && begins_line(piece) {
        return Some(piece.split_at(0));
    }
    let mut at = 0;
    'runs: while piece.len() - at >= 33 {
        let marks = marks(piece, at);
        if marks != 0 {
            return cut_there(piece, at + 1 + marks.trailing_zeros() as usize);
        }
        at += 32;
    }
    'places: while at < piece.len() {
        at += 1;
        if let Some(parts) = cut_there(piece, at) {
            return Some(parts);
        }
    }
    None
}
