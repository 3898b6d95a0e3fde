//! The texts that name the ends of a window.
ghost use Rattle.std.specs.Prelude.{◌≡◌, ◌<◌, ◌≤◌, option_map, IfSome};
ghost use Rattle.std.specs.Char.{is_ascii_digit};
ghost use Rattle.std.specs.List.{list_all};
ghost use Rattle.jiff_core.specs.Calendar.{IsEpochDay};
ghost use Rattle.ics_fields.specs.Locals.{local_seconds, seconds_at};
ghost use Rattle.khal_words.specs.WindowTexts as spec;
ghost use Rattle.khal_words.specs.WindowTextNames.{named_by, IsInCalendar};

use ics_fields::{Local, second_of_clock, two_digits};
use jiff_core::civil::Date;

// The most days of a window that is given by their number.
const MOST_DAYS: u32 = 3_700_000;

/// What a window text names.
#[derive(Clone, Copy)]
pub enum WindowText {
    /// `YYYY-MM-DD`, as a day counted from 1970-01-01.
    Day(i32),
    /// `YYYY-MM-DDTHH:MM`.
    Local(Local),
    /// `Nd`, from 1 to 3,700,000 days.
    Days(u32),
}

impl WindowText {
    /// Reads a text of one of the three forms; None if it has another.
    pub fn parse(text: &str) -> Option<WindowText>
        ensures value { option_map named_by result ≡ spec.named text.now }
        ensures bound { IfSome result IsInCalendar }
    {
        if let Some(day) = day(text.as_bytes()) {
            return Some(WindowText::Day(day));
        }
        if let Some(local) = local(text.as_bytes()) {
            return Some(WindowText::Local(local));
        }
        let number = days(text)?;
        Some(WindowText::Days(number))
    }
}

/// The day that `YYYY-MM-DD` names, counted from 1970-01-01.
fn day(text: &[u8]) -> Option<i32>
    ensures value { result ≡ spec.day_said text.now }
    ensures bound { IfSome result IsEpochDay }
{
    let [a, b, c, d, b'-', e, f, b'-', g, h] = text else {
        return None;
    };
    let year = quad(*a, *b, *c, *d)?;
    let month = two_digits(*e, *f)?;
    let day = two_digits(*g, *h)?;
    day_number(year, month, day)
}

/// The day of a year, month and day of the month, counted from 1970-01-01, if there is such a date.
fn day_number(year: u16, month: u8, day: u8) -> Option<i32>
    requires year { year ≤ 9999 }
    requires month { month < 100 }
    requires day { day < 100 }
    ensures value { result ≡ spec.day_number year month day }
    ensures bound { IfSome result IsEpochDay }
{
    match Date::new(year as i16, month as i8, day as i8) {
        Ok(date) => Some(date.to_unix_epoch_day()),
        Err(_) => None,
    }
}

/// The local that `YYYY-MM-DDTHH:MM` names.
fn local(text: &[u8]) -> Option<Local>
    ensures value { option_map (λ l. local_seconds l) result ≡ spec.local_said text.now }
    ensures bound { IfSome result (λ l. IsEpochDay l.day) }
{
    let (date, clock) = text.split_at_checked(10)?;
    let day = day(date)?;
    at_clock(day, clock)
}

/// The local of a day at `THH:MM`.
fn at_clock(day: i32, clock: &[u8]) -> Option<Local>
    ensures value { option_map (λ l. local_seconds l) result
        ≡ option_map (λ second. seconds_at day second) (spec.time_said clock.now) }
    ensures day { IfSome result (λ l. l.day ≡ day) }
{
    let (b'T', clock) = clock.split_first()? else {
        return None;
    };
    let second = second_of_clock(clock)?;
    Some(Local { day, second })
}

/// The number that four digits write.
fn quad(a: u8, b: u8, c: u8, d: u8) -> Option<u16>
    ensures value { result ≡ spec.quad a b c d }
    ensures bound { IfSome result (λ number. number ≤ 9999) }
{
    let front = u16::from(two_digits(a, b)?);
    let back = u16::from(two_digits(c, d)?);
    Some(front * 100 + back)
}

/// The number of days that `Nd` names, from 1 on.
fn days(text: &str) -> Option<u32>
    ensures value { result ≡ spec.days_said text.now }
    ensures bound { IfSome result (λ number. number ≤ spec.most_days) }
{
    match text.strip_suffix('d') {
        Some(digits) => number(digits),
        None => None,
    }
}

/// The number that digits write, if it is one of a window's days.
fn number(digits: &str) -> Option<u32>
    ensures value { result ≡ spec.number_said digits.now }
    ensures bound { IfSome result (λ number. number ≤ spec.most_days) }
{
    if !are_digits(digits.as_bytes()) {
        return None;
    }
    match digits.parse::<u32>() {
        Ok(number) if number >= 1 && number <= MOST_DAYS => Some(number),
        _ => None,
    }
}

/// Whether all bytes are digits of ASCII.
fn are_digits(text: &[u8]) -> bool
    ensures { result ≡ list_all is_ascii_digit text.now }
{
    text.iter().all(|b| b.is_ascii_digit())
}
