//! Formats: text with placeholders in braces.
ghost use Rattle.std.specs.Prelude.{◌≡◌, ◌≢◌, ◌∷◌, ◌++◌, ◌==◌, ℕ, List, IfOk, IfSome, IsErrOf, IsNone, position};
ghost use Rattle.khal_words.specs.declared.format.Piece.{Piece};
ghost use Rattle.khal_words.specs.Formats.{written, written_piece, IsFormat};

use crate::field::Placeholder;
use std::alloc::Global;
use thiserror::Error;

/// Why a text is not a format.
#[derive(Clone, Copy, Debug, Error)]
pub enum FormatFault {
    /// A brace is neither doubled nor part of a placeholder, or a placeholder is unknown.
    #[error("no format")]
    BadFormat,
    #[error("out of memory")]
    Memory,
}

impl FormatFault {
    ghost use Rattle.khal_words.specs.Formats.{format_fault_name};

    /// The name of the fault, as it is printed.
    pub fn name(&self) -> &'static str
        ensures { result.now ≡ format_fault_name self.now }
    {
        match self {
            FormatFault::BadFormat => "BadFormat",
            FormatFault::Memory => "Memory",
        }
    }
}

/// A piece of a format.
#[derive(Clone, Copy)]
pub enum Piece<F> {
    /// A byte that is written as it is.
    Byte(u8),
    /// A placeholder.
    Field(F),
}

/// How entries or days are written: bytes that are written as they are, and placeholders.
#[derive(Drop)]
pub struct Format<F: Placeholder> {
    pub pieces: Vec<Piece<F>>,
}

impl<F: Placeholder> Format<F> {
    /// The format of a text: `{NAME}` is a placeholder, `{{` and `}}` mean one brace, and any other byte
    /// means itself. BadFormat if there is another brace or an unknown name; Memory if an allocation
    /// failed.
    pub fn parse(alloc: Global, text: &str) -> Result<Format<F>, FormatFault>
        ensures ok { IfOk result (λ format. text.now ≡ written F.name format.pieces.items) }
        ensures bad { IsErrOf result FormatFault.BadFormat → ¬ IsFormat F.name text.now }
    {
        let mut pieces = Vec::new(alloc);
        let mut rest = text.as_bytes();
        while !rest.is_empty() {
            let Some((piece, after)) = next_piece(rest) else {
                return Err(FormatFault::BadFormat);
            };
            let Ok(()) = pieces.push(piece) else {
                return Err(FormatFault::Memory);
            };
            rest = after;
        }
        Ok(Format { pieces })
    }
}

/// The first piece of the text of a format, and what comes after it.
fn next_piece<F: Placeholder>(text: &[u8]) -> Option<(Piece<F>, &[u8])>
    ensures some { IfSome result (λ found. text.entry.now ≡ written_piece F.name found.0 ++ found.1.now) }
    ensures none { IsNone result → (piece : Piece F) (after : List ℕ) → text.entry.now ≢ written_piece F.name piece ++ after }
{
    match text {
        [b'{', after @ ..] => opened_piece(after),
        [b'}', b'}', after @ ..] => Some((Piece::Byte(b'}'), after)),
        [] | [b'}', ..] => None,
        [byte, after @ ..] => Some((Piece::Byte(*byte), after)),
    }
}

/// The piece whose opening brace comes before this text, and the text after the piece.
fn opened_piece<F: Placeholder>(text: &[u8]) -> Option<(Piece<F>, &[u8])>
    ensures some { IfSome result (λ found. 123 ∷ text.entry.now ≡ written_piece F.name found.0 ++ found.1.now) }
    ensures none { IsNone result → (piece : Piece F) (after : List ℕ) → 123 ∷ text.entry.now ≢ written_piece F.name piece ++ after }
{
    match text {
        [b'{', after @ ..] => Some((Piece::Byte(b'{'), after)),
        _ => named_piece(text),
    }
}

/// The placeholder with the name before the first `}`, and the text after that.
fn named_piece<F: Placeholder>(text: &[u8]) -> Option<(Piece<F>, &[u8])>
    ensures some { IfSome result (λ found. 123 ∷ text.entry.now ≡ written_piece F.name found.0 ++ found.1.now) }
    ensures none { IsNone result → (field : F) (after : List ℕ) → text.entry.now ≢ F.name field ++ 125 ∷ after }
{
    let end = closing(text)?;
    let field = F::named(&text[..end])?;
    Some((Piece::Field(field), &text[end + 1..]))
}

/// The position of the first `}`.
fn closing(text: &[u8]) -> Option<usize>
    ensures { result ≡ position (λ byte. byte == 125) text.now }
{
    text.iter().position(|byte| *byte == b'}')
}
