//! The values of a rule's parts.
ghost use Rattle.std.specs.Prelude.{◌≡◌, ◌≤◌, false, MatchOption, IfSome, map};
ghost use Rattle.ics_values.specs.Inner.Options.{IsWhere};
ghost use Rattle.ics_fields.specs.RuleParts.{IsUntil};
ghost use Rattle.ics_values.specs.RuleTexts.{frequency_of, weekday_of, until_said, until_of, is_rule_number, is_number, is_signed, is_day_item};
ghost use Rattle.ics_values.specs.Digits.{number_of};
ghost use Rattle.ics_values.specs.Inner.RuleDrafts.{IsRuleNumber, IsPlace, IsDayItem};

use crate::digits::{are_digits, number_within};
use crate::part_name::by_word;
use crate::sign::{is_negative, unsigned};
use crate::stamp::{Stamp, any_stamp, year_of};
use ics_fields::{Frequency, Side, Until};
use jiff_core::civil::Weekday;

/// COUNT or INTERVAL.
#[derive(Clone, Copy)]
pub enum RuleNumber {
    Number(u32),
    TooLarge,
}

/// Frequencies by their names.
static FREQUENCIES: [(&[u8], Frequency); 7] = [
    (b"SECONDLY", Frequency::Secondly),
    (b"MINUTELY", Frequency::Minutely),
    (b"HOURLY", Frequency::Hourly),
    (b"DAILY", Frequency::Daily),
    (b"WEEKLY", Frequency::Weekly),
    (b"MONTHLY", Frequency::Monthly),
    (b"YEARLY", Frequency::Yearly),
];

/// Weekdays by their two letters.
static WEEKDAYS: [(&[u8], Weekday); 7] = [
    (b"MO", Weekday::Monday),
    (b"TU", Weekday::Tuesday),
    (b"WE", Weekday::Wednesday),
    (b"TH", Weekday::Thursday),
    (b"FR", Weekday::Friday),
    (b"SA", Weekday::Saturday),
    (b"SU", Weekday::Sunday),
];

/// FREQ.
pub fn read_frequency(text: &[u8]) -> Option<Frequency>
    ensures { result ≡ frequency_of text.now }
{
    by_word(text, &FREQUENCIES)
}

/// A weekday by its two letters.
pub fn read_weekday(text: &[u8]) -> Option<Weekday>
    ensures { result ≡ weekday_of text.now }
{
    by_word(text, &WEEKDAYS)
}

/// The UNTIL that a stamp says.
fn until_said(stamp: Stamp) -> Until
    ensures { result ≡ until_said stamp }
{
    match stamp {
        Stamp::Date(day) => Until::Date(day),
        Stamp::Utc(local) => Until::Utc(local),
        Stamp::Floating(local) => Until::Local(local),
        Stamp::Zoned(local) => Until::Local(local),
    }
}

/// UNTIL.
pub fn read_until(text: &[u8]) -> Option<Until>
    ensures value { result ≡ until_of text.now }
    ensures day { IfSome result IsUntil }
{
    let stamp = any_stamp(text, false)?;
    if year_of(text) == 0 {
        return None;
    }
    Some(until_said(stamp))
}

/// COUNT or INTERVAL.
pub fn read_rule_number(text: &[u8]) -> Option<RuleNumber>
    ensures { MatchOption result (is_rule_number text.now ≡ false) (IsRuleNumber text.now) }
{
    if !are_digits(text) {
        return None;
    }
    match number_within(text) {
        Some(0) => None,
        Some(n) => Some(RuleNumber::Number(n)),
        None => Some(RuleNumber::TooLarge),
    }
}

/// A number from `low` to `high`.
pub fn number_between(text: &[u8], low: u16, high: u16) -> Option<u16>
    ensures value { IsWhere result (is_number low high text.now) (number_of text.now) }
    ensures first { IfSome result (λ n. low ≤ n) }
    ensures last { IfSome result (λ n. n ≤ high) }
{
    if !are_digits(text) {
        return None;
    }
    match number_within(text) {
        Some(n) if u32::from(low) <= n && n <= u32::from(high) => Some(n as u16),
        _ => None,
    }
}

/// A number from 1 to `high` with an optional sign, and the end from which it counts.
pub fn read_place(text: &[u8], high: u16) -> Option<(Side, u16)>
    ensures value { MatchOption result (is_signed high text.now ≡ false) (IsPlace high text.now) }
    ensures first { IfSome result (λ p. 1 ≤ p.1) }
    ensures last { IfSome result (λ p. p.1 ≤ high) }
{
    match number_between(unsigned(text), 1, high) {
        Some(n) if is_negative(text) => Some((Side::Back, n)),
        Some(n) => Some((Side::Front, n)),
        None => None,
    }
}

/// An item of BYDAY: a weekday, and the number before it if there is one.
#[derive(Clone, Copy)]
pub struct DayItem {
    pub weekday: Weekday,
    pub place: Option<(Side, u16)>,
}

/// An item of BYDAY.
pub fn read_day_item(text: &[u8]) -> Option<DayItem>
    ensures value { MatchOption result (is_day_item text.now ≡ false) (IsDayItem text.now) }
    ensures first { IfSome result (λ d. IfSome d.place (λ p. 1 ≤ p.1)) }
    ensures last { IfSome result (λ d. IfSome d.place (λ p. p.1 ≤ 53)) }
{
    let (before, day) = text.split_at(text.len().saturating_sub(2));
    let weekday = read_weekday(day)?;
    if text.len() == 2 {
        return Some(DayItem {
            weekday,
            place: None,
        });
    }
    let place = read_place(before, 53)?;
    Some(DayItem {
        weekday,
        place: Some(place),
    })
}
