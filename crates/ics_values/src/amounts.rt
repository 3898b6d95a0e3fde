//! The numbers and units of a duration's text, by the rules of its grammar (RFC 5545, section 3.3.6).
ghost use Rattle.std.specs.Prelude.{◌≡◌, ◌<◌, ◌∷◌, [], MatchOption};
ghost use Rattle.ics_values.specs.Durations.{duration_shapes, week_shapes, day_shapes, time_shapes, hour_shapes, minute_shapes, second_shapes};
ghost use Rattle.ics_values.specs.Inner.Amounts.{IsLetter, IsAmount, LacksFront, Reads, each_fits};

use crate::digits::{capped_number, digit_count};

/// The numbers of a duration's text. A number past 4,294,967,295 is held as 4,294,967,296.
#[derive(Clone, Copy)]
pub struct Amounts {
    pub weeks: u64,
    pub days: u64,
    pub hours: u64,
    pub minutes: u64,
    pub seconds: u64,
}

const NOTHING: Amounts = Amounts {
    weeks: 0,
    days: 0,
    hours: 0,
    minutes: 0,
    seconds: 0,
};

/// A number before a unit, and the text after the unit.
#[derive(Clone, Copy)]
struct Amount<'a> {
    number: u64,
    rest: &'a [u8],
}

/// The text after a letter, in upper or lower case, that begins it.
fn behind_letter(text: &[u8], letter: u8) -> Option<&[u8]>
    requires { 57 < letter }
    ensures { MatchOption result (LacksFront (letter ∷ []) text.now)
        (λ rest. IsLetter letter text.now rest.now) }
{
    let (first, rest) = text.split_first()?;
    if first.to_ascii_uppercase() == letter {
        Some(rest)
    } else {
        None
    }
}

/// The number before a unit, if both begin the text.
fn read_amount(text: &[u8], unit: u8) -> Option<Amount<'_>>
    requires { 57 < unit }
    ensures { MatchOption result (LacksFront (48 ∷ unit ∷ []) text.now)
        (λ a. IsAmount unit text.now a.number a.rest.now) }
{
    let count = digit_count(text);
    if count == 0 {
        return None;
    }
    let (digits, behind) = text.split_at(count);
    let rest = behind_letter(behind, unit)?;
    Some(Amount {
        number: capped_number(digits),
        rest,
    })
}

/// The seconds of a text that says nothing else.
fn second_part(text: &[u8]) -> Option<Amounts>
    ensures { Reads second_shapes text.now result }
{
    let seconds = read_amount(text, b'S')?;
    if !seconds.rest.is_empty() {
        return None;
    }
    Some(Amounts {
        seconds: seconds.number,
        ..NOTHING
    })
}

/// The minutes, and the seconds that may follow.
fn minute_part(text: &[u8]) -> Option<Amounts>
    ensures { Reads minute_shapes text.now result }
{
    let minutes = read_amount(text, b'M')?;
    let mut amounts = if minutes.rest.is_empty() {
        NOTHING
    } else {
        second_part(minutes.rest)?
    };
    amounts.minutes = minutes.number;
    Some(amounts)
}

/// The hours, and the minutes that may follow.
fn hour_part(text: &[u8]) -> Option<Amounts>
    ensures { Reads hour_shapes text.now result }
{
    let hours = read_amount(text, b'H')?;
    let mut amounts = if hours.rest.is_empty() {
        NOTHING
    } else {
        minute_part(hours.rest)?
    };
    amounts.hours = hours.number;
    Some(amounts)
}

/// The hours, minutes or seconds behind a `T`.
fn time_part(text: &[u8]) -> Option<Amounts>
    ensures { Reads time_shapes text.now result }
{
    let time = behind_letter(text, b'T')?;
    if let Some(amounts) = hour_part(time) {
        return Some(amounts);
    }
    if let Some(amounts) = minute_part(time) {
        return Some(amounts);
    }
    second_part(time)
}

/// The days, and the time that may follow.
fn day_part(text: &[u8]) -> Option<Amounts>
    ensures { Reads day_shapes text.now result }
{
    let days = read_amount(text, b'D')?;
    let mut amounts = if days.rest.is_empty() {
        NOTHING
    } else {
        time_part(days.rest)?
    };
    amounts.days = days.number;
    Some(amounts)
}

/// The weeks of a text that says nothing else.
fn week_part(text: &[u8]) -> Option<Amounts>
    ensures { Reads week_shapes text.now result }
{
    let weeks = read_amount(text, b'W')?;
    if !weeks.rest.is_empty() {
        return None;
    }
    Some(Amounts {
        weeks: weeks.number,
        ..NOTHING
    })
}

/// The numbers of a duration's text without its sign.
pub fn duration_part(text: &[u8]) -> Option<Amounts>
    ensures { Reads duration_shapes text.now result }
{
    let parts = behind_letter(text, b'P')?;
    if let Some(amounts) = week_part(parts) {
        return Some(amounts);
    }
    if let Some(amounts) = day_part(parts) {
        return Some(amounts);
    }
    time_part(parts)
}

impl Amounts {
    /// Whether no number is too large.
    pub fn fit(&self) -> bool
        ensures { result ≡ each_fits self.now }
    {
        let greatest = u64::from(u32::MAX);
        self.weeks <= greatest
            && self.days <= greatest
            && self.hours <= greatest
            && self.minutes <= greatest
            && self.seconds <= greatest
    }
}
