//! TEXT values without their escapes.
ghost use Rattle.std.specs.Prelude.{◌≡◌, ◌<◌, ◌++◌, ◌∷◌, [], length, IfOk, IfSome, MatchOption, OnErr};
ghost use Rattle.ics_values.specs.Plain.{text_of};

use memchr::memchr;
use std::alloc::{AllocError, Global};

const BACKSLASH: u8 = b'\\';

/// A backslash with the byte after it, and the text before and after the two.
#[derive(Clone, Copy)]
struct Escape<'a> {
    before: &'a [u8],
    byte: u8,
    behind: &'a [u8],
}

/// The first backslash of a text with a byte after it.
fn first_escape(text: &[u8]) -> Option<Escape<'_>>
    ensures parts { MatchOption result (text_of text.now ≡ text.now) (λ escape.
        text_of text.now ≡ escape.before.now ++ (text_of (92 ∷ escape.byte ∷ []) ++ text_of escape.behind.now)) }
    ensures shorter { IfSome result (λ escape. length escape.behind.now < length text.now) }
{
    let at = memchr(BACKSLASH, text)?;
    let (byte, behind) = text[at + 1..].split_first()?;
    Some(Escape {
        before: &text[..at],
        byte: *byte,
        behind,
    })
}

/// Appends the text before a backslash, and what the backslash and the byte after it mean.
fn push_escape(out: &mut Vec<u8>, escape: Escape<'_>) -> Result<(), AllocError>
    ensures { IfOk result (λ _. out.new.items ≡ out.old.items ++ (escape.entry.before.now ++ text_of (92 ∷ escape.entry.byte ∷ []))) }
{
    out.extend_from_slice(escape.before)?;
    let meant = match escape.byte {
        BACKSLASH | b';' | b',' => escape.byte,
        b'n' | b'N' => b'\n',
        byte => return out.extend_from_slice(&[BACKSLASH, byte]),
    };
    out.push(meant)?;
    Ok(())
}

/// A TEXT value without its escapes (RFC 5545, section 3.3.11): `\\`, `\;` and `\,` mean their second
/// byte, `\n` and `\N` mean LF, and any other backslash is kept. `AllocError` if an allocation fails;
/// none is made for an empty value.
pub fn text_bytes(alloc: Global, value: &[u8]) -> Result<Vec<u8>, AllocError>
    ensures text { IfOk result (λ r. r.items ≡ text_of value.now) }
    ensures memory { OnErr result (0 < length value.now) }
{
    let mut out = Vec::with_capacity(alloc, value.len())?;
    let mut rest = value;
    'escapes: while let Some(escape) = first_escape(rest) {
        push_escape(&mut out, escape)?;
        rest = escape.behind;
    }
    out.extend_from_slice(rest)?;
    Ok(out)
}
