//! Texts that are cut at a separator.
ghost use Rattle.std.specs.Prelude.{◌≡◌, ◌==◌, ◌<◌, ◌∷◌, [], length, MatchOption, IfSome};
ghost use Rattle.std.specs.Option.{option_copied};
ghost use Rattle.std.specs.List.{before_first, after_first};
ghost use Rattle.ics_values.specs.RuleTexts.{pieces};
ghost use Rattle.ics_values.specs.Inner.RuleDrafts.{pieces_behind};

use memchr::memchr;

/// The text before the first separator, and the text after it if there is one.
pub fn cut(text: &[u8], separator: u8) -> (&[u8], Option<&[u8]>)
    ensures before { result.0.now ≡ before_first (λ b. b == separator) text.now }
    ensures behind { MatchOption result.1 (after_first (λ b. b == separator) text.now ≡ [])
        (λ behind. behind.now ≡ after_first (λ b. b == separator) text.now) }
    ensures pieces { pieces separator text.now ≡ result.0.now ∷ pieces_behind separator (option_copied result.1) }
    ensures shorter { IfSome result.1 (λ behind. length behind.now < length text.now) }
{
    match memchr(separator, text) {
        Some(at) => (&text[..at], Some(&text[at + 1..])),
        None => (text, None),
    }
}

/// The text before the first separator, and the text after it. All of the text and nothing if it has no separator.
pub fn halves(text: &[u8], separator: u8) -> (&[u8], &[u8])
    ensures before { result.0.now ≡ before_first (λ b. b == separator) text.now }
    ensures behind { result.1.now ≡ after_first (λ b. b == separator) text.now }
{
    match cut(text, separator) {
        (before, Some(behind)) => (before, behind),
        (before, None) => (before, &[]),
    }
}
