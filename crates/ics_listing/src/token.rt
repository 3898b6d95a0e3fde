//! Keys as texts, with which a listing is resumed.
ghost use Rattle.std.specs.Prelude.{◌≡◌, ◌≢◌, ◌++◌, ◌∷◌, ℕ, ℤ, List, FitsSigned, IfOk, IsErrOf, IsSomeAnd, codes};
ghost use Rattle.std.specs.Fmt.{signed_decimal};
ghost use Rattle.std.specs.Int.{w64};
ghost use Rattle.std.specs.String.{string_bytes};
ghost use Rattle.hex.specs.declared.error.FromHexError.TheVariants.{OutOfMemory};
ghost use Rattle.ics_listing.specs.Entry.{key_rank};
ghost use Rattle.ics_listing.specs.Tokens.{token_fault_name, spelling, IsKey, IsToken};

use crate::key::Key;
use hex::FromHexError;
use ics_values::Moment;
use std::alloc::{AllocError, Global};
use thiserror::Error;

/// Why a text is not read as a key.
#[derive(Clone, Copy, Debug, Error)]
pub enum TokenFault {
    /// The text is not a token.
    #[error("no token")]
    BadToken,
    #[error("out of memory")]
    Memory,
}

impl TokenFault {
    /// The name of the fault, as it is printed.
    pub fn name(&self) -> &'static str
        ensures { result.now ≡ token_fault_name self.now }
    {
        match self {
            TokenFault::BadToken => "BadToken",
            TokenFault::Memory => "Memory",
        }
    }
}

impl From<AllocError> for TokenFault {
    ghost use Rattle.std.specs.Prelude.{◌≡◌};
    ghost use Rattle.ics_listing.specs.declared.token.TokenFault.TheVariants.{Memory};

    ghost from_gives = { λ _ fault. fault ≡ Memory };

    fn from(_error: AllocError) -> TokenFault {
        TokenFault::Memory
    }
}

/// The text of a key: `K1.start.recurrence.uid`. The two moments are in decimal, the bytes of the UID in
/// lower-case hexadecimal.
pub struct Token;

impl Token {
    /// The token of a key. `AllocError` if an allocation fails.
    pub fn write(alloc: Global, key: &Key) -> Result<String, AllocError>
        ensures { IfOk result (λ text. string_bytes text ≡ spelling (key_rank key.now)) }
    {
        let uid = hex::encode(alloc, key.uid.as_slice())?;
        let start = key.start;
        let recurrence = key.recurrence;
        format!(in alloc; "K1.{start}.{recurrence}.{uid}")
    }

    /// The key of a token. `BadToken` if the text is the token of no key: a leading zero, `-0` or an
    /// upper-case digit is not allowed. `Memory` if an allocation fails.
    pub fn read(alloc: Global, text: &str) -> Result<Key, TokenFault>
        ensures ok { IfOk result (λ key. text.now ≡ spelling (key_rank key)) }
        ensures key { IfOk result (λ key. IsKey (key_rank key)) }
        ensures bad { IsErrOf result TokenFault.BadToken → ¬ IsToken text.now }
    {
        let Some((start, recurrence, uid)) = split(text) else {
            return Err(TokenFault::BadToken);
        };
        let uid = match hex::decode(alloc, uid.as_bytes()) {
            Ok(uid) => uid,
            Err(fault) => return Err(fault_of(fault)),
        };
        let key = Key {
            start,
            uid,
            recurrence,
        };
        // a key may be read from several spellings, but only its own is a token
        let spelled = Token::write(alloc, &key)?;
        if spelled.as_str() == text {
            Ok(key)
        } else {
            Err(TokenFault::BadToken)
        }
    }
}

/// Why the digits of a UID were not read.
fn fault_of(fault: FromHexError) -> TokenFault
    ensures { result ≡ TokenFault.BadToken → fault ≢ OutOfMemory }
{
    match fault {
        FromHexError::OutOfMemory => TokenFault::Memory,
        _ => TokenFault::BadToken,
    }
}

/// The number before the first `.`, and the text after that.
pub(crate) fn field(text: &str) -> Option<(Moment, &str)>
    ensures { (number : ℤ) (rest : List ℕ) → FitsSigned w64 number → text.now ≡ signed_decimal number ++ (46 ∷ rest)
        → IsSomeAnd result (λ parts. (parts.0 ≡ number) × (parts.1.now ≡ rest)) }
{
    let (digits, rest) = text.split_once('.')?;
    let number: i64 = digits.parse().ok()?;
    Some((number, rest))
}

/// The two moments of a token's text, and the text after them.
fn split(text: &str) -> Option<(Moment, Moment, &str)>
    ensures { (start recurrence : ℤ) (uid : List ℕ) → FitsSigned w64 start → FitsSigned w64 recurrence
        → text.now ≡ codes "K1." ++ (signed_decimal start ++ (46 ∷ (signed_decimal recurrence ++ (46 ∷ uid))))
        → IsSomeAnd result (λ parts. (parts.0 ≡ start) × (parts.1 ≡ recurrence) × (parts.2.now ≡ uid)) }
{
    let (start, rest) = field(text.strip_prefix("K1.")?)?;
    let (recurrence, uid) = field(rest)?;
    Some((start, recurrence, uid))
}
