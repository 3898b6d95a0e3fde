ghost use Rattle.std.specs.Prelude.{◌≡◌, ◌≢◌, ◌<◌, ◌∷◌, false, length, IfSome};
ghost use Rattle.std.specs.List.{take_while};
ghost use Rattle.std.specs.Option.{option_copied};
ghost use Rattle.ics_text.specs.Bytes.{is_name_byte, same_name};
ghost use Rattle.ics_text.specs.Inner.Pieces.{cut_from, pieces_behind};
ghost use Rattle.ics_text.specs.ContentLines.{pieces, without_quotes, first_of_text, param_of};

use crate::bytes::{COMMA, QUOTE, SEMICOLON, name_len, without_first};

/// The first value of the first parameter with that name, in the text of the parameters.
pub fn param_of<'a>(params: &'a [u8], name: &[u8]) -> Option<&'a [u8]>
    ensures { option_copied result ≡ param_of name.now params.now }
{
    let (_, mut behind) = cut_piece(params, SEMICOLON);
    'texts: while let Some(rest) = behind {
        let (text, next) = cut_piece(rest, SEMICOLON);
        if is_named(text, name) {
            return Some(first_of_text(text));
        }
        behind = next;
    }
    None
}

/// Whether a parameter has that name. Its text is given without the `;`.
fn is_named(text: &[u8], name: &[u8]) -> bool
    ensures { result ≡ same_name name.now (take_while is_name_byte text.now) }
{
    name.eq_ignore_ascii_case(&text[..name_len(text)])
}

/// The first value of a parameter. Its text is given without the `;`.
fn first_of_text(text: &[u8]) -> &[u8]
    ensures { result.now ≡ first_of_text text.now }
{
    let behind = without_first(&text[name_len(text)..]);
    let (first, _) = cut_piece(behind, COMMA);
    without_quotes(first)
}

/// A value without its quotes.
fn without_quotes(text: &[u8]) -> &[u8]
    ensures { result.now ≡ without_quotes text.now }
{
    match text {
        [QUOTE, rest @ ..] => &rest[..rest.len().saturating_sub(1)],
        _ => text,
    }
}

/// The text before the first separator outside quotes, and the text after that separator if there is one.
fn cut_piece<'a>(text: &'a [u8], separator: u8) -> (&'a [u8], Option<&'a [u8]>)
    requires { separator ≢ 34 }
    ensures pieces { pieces separator false text.now ≡ result.0.now ∷ pieces_behind separator (option_copied result.1) }
    ensures shorter { IfSome result.1 (λ behind. length behind.now < length text.now) }
{
    match cut_of(text, separator) {
        None => (text, None),
        Some(at) => (&text[..at], Some(&text[at + 1..])),
    }
}

/// The position of the first separator outside quotes.
fn cut_of(text: &[u8], separator: u8) -> Option<usize>
    ensures value { result ≡ cut_from separator false text.now }
    ensures within { IfSome result (λ at. at < length text.now) }
{
    let mut quoted = false;
    for (i, b) in text.iter().enumerate() {
        if *b == separator && !quoted {
            return Some(i);
        }
        if *b == QUOTE {
            quoted = !quoted;
        }
    }
    None
}
