//! Where a line ends.
ghost use Rattle.std.specs.Prelude.{◌≡◌, ◌==◌, ◌+◌, ◌≤◌, drop, length, map, take};
ghost use Rattle.std.specs.List.{prefix_len};
ghost use Rattle.std.specs.Simd.Lanes.{mask_l};
ghost use Rattle.ics_text.specs.Bytes.{in_line, lf};

use crate::bytes::{LF, LineBytes, looped_len};
use std::simd::prelude::*;

/// A bit for each of the 32 bytes from there on, which is set where the byte is an LF.
#[inline(always)]
fn marks(bytes: &[u8], at: usize) -> u64
    requires { at + 32 ≤ length bytes.now }
    ensures { result ≡ mask_l (map (λ b. b == lf) (take 32 (drop at bytes.now))) }
{
    u8x32::from_slice(&bytes[at..])
        .simd_eq(u8x32::splat(LF))
        .to_bitmask()
}

/// How many of the 32 bytes from there on stand before the first LF. All if none of them is an LF.
#[inline(always)]
fn before_end(bytes: &[u8], at: usize) -> usize
    requires { at + 32 ≤ length bytes.now }
    ensures { result ≡ prefix_len in_line (take 32 (drop at bytes.now)) }
{
    let marks = marks(bytes, at);
    if marks == 0 {
        return 32;
    }
    marks.trailing_zeros() as usize
}

/// How many bytes stand before the first LF. All if there is none.
#[inline(always)]
pub fn line_len(bytes: &[u8]) -> usize
    ensures value { result ≡ prefix_len in_line bytes.now }
    ensures within { result ≤ length bytes.now }
{
    let mut at = 0;
    while bytes.len() - at >= 32 {
        let len = before_end(bytes, at);
        if len < 32 {
            return at + len;
        }
        at += 32;
    }
    at + looped_len(&LineBytes, &bytes[at..])
}
