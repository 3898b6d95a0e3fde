//! Keys under days as texts, with which a listing by days is resumed.
ghost use Rattle.std.specs.Prelude.{◌≡◌, ◌++◌, ◌∷◌, ℕ, ℤ, List, FitsSigned, IfOk, IsErrOf, IsSomeAnd, codes};
ghost use Rattle.std.specs.Fmt.{signed_decimal};
ghost use Rattle.std.specs.Int.{w32};
ghost use Rattle.std.specs.String.{string_bytes};
ghost use Rattle.ics_listing.specs.Tokens.{day_spelling, IsDayKey, IsDayToken};
ghost use Rattle.ics_listing.specs.DayKeys.{day_key_rank};

use crate::day_key::DayKey;
use crate::token::{Token, TokenFault, field};
use std::alloc::{AllocError, Global};

/// The text of a key under a day: `K2.day.start.recurrence.uid`. The day and the two moments are in
/// decimal, the bytes of the UID in lower-case hexadecimal.
pub struct DayToken;

impl DayToken {
    /// The token of a key under a day. `AllocError` if an allocation fails.
    pub fn write(alloc: Global, key: &DayKey) -> Result<String, AllocError>
        ensures { IfOk result (λ text. string_bytes text ≡ day_spelling (day_key_rank key.now)) }
    {
        let uid = hex::encode(alloc, key.key.uid.as_slice())?;
        let day = key.day;
        let start = key.key.start;
        let recurrence = key.key.recurrence;
        format!(in alloc; "K2.{day}.{start}.{recurrence}.{uid}")
    }

    /// The key of a token. `BadToken` if the text is the token of no key under a day: a leading zero, `-0`
    /// or an upper-case digit is not allowed. `Memory` if an allocation fails.
    pub fn read(alloc: Global, text: &str) -> Result<DayKey, TokenFault>
        ensures ok { IfOk result (λ key. text.now ≡ day_spelling (day_key_rank key)) }
        ensures key { IfOk result (λ key. IsDayKey (day_key_rank key)) }
        ensures bad { IsErrOf result TokenFault.BadToken → ¬ IsDayToken text.now }
    {
        let Some((day, rest)) = split(text) else {
            return Err(TokenFault::BadToken);
        };
        let key = {
            // the rest has the form of a key's own token
            let token = format!(in alloc; "K1.{rest}")?;
            Token::read(alloc, token.as_str())?
        };
        let key = DayKey { day, key };
        // a key may be read from several spellings, but only its own is a token
        let spelled = DayToken::write(alloc, &key)?;
        if spelled.as_str() == text {
            Ok(key)
        } else {
            Err(TokenFault::BadToken)
        }
    }
}

/// The day of a token's text, and the text after it.
fn split(text: &str) -> Option<(i32, &str)>
    ensures { (day : ℤ) (rest : List ℕ) → FitsSigned w32 day → text.now ≡ codes "K2." ++ (signed_decimal day ++ (46 ∷ rest))
        → IsSomeAnd result (λ parts. (parts.0 ≡ day) × (parts.1.now ≡ rest)) }
{
    let (day, rest) = field(text.strip_prefix("K2.")?)?;
    let day = i32::try_from(day).ok()?;
    Some((day, rest))
}
