//! Dates and times, as a property's value has them.
ghost use Rattle.std.specs.Prelude.{◌≡◌, ◌+◌, ◌*◌, ◌<◌, ◌≤◌, true, false, IfSome, IfOk};
ghost use Rattle.ics_values.specs.Stamps.{is_date_form, is_local_form, is_utc_form, is_date_time_form, year_of, date_exists, day_of, time_exists, second_of};
ghost use Rattle.ics_values.specs.Stamps.{is_stamp_text, stamp_said, is_stamp_year, stamp_of, stamp_day, IsDayOf, HasDate, HasTime};
ghost use Rattle.ics_fields.specs.Days.{IsStampDay};
ghost use Rattle.ics_values.specs.Inner.Options.{IsWhere};
ghost use Rattle.ics_values.specs.ValueFaultNames.{stamp_fault_name};

use crate::date::date_day;
use crate::digits::{are_digits, number_at};
use ics_fields::Local;
use thiserror::Error;

/// A DATE or a DATE-TIME (RFC 5545, sections 3.3.4 and 3.3.5). Days are counted from 1970-01-01.
#[derive(Clone, Copy)]
pub enum Stamp {
    /// A day without a time.
    Date(i32),
    /// A local time without a TZID.
    Floating(Local),
    /// A time in UTC.
    Utc(Local),
    /// A local time with a TZID.
    Zoned(Local),
}

/// Why a text is not a stamp.
#[derive(Clone, Copy, Debug, Error)]
#[error("{}", self.name())]
pub enum StampFault {
    BadStamp,
    YearRange,
}

impl StampFault {
    /// The name of the fault, as it is printed.
    pub fn name(&self) -> &'static str
        ensures { result.now ≡ stamp_fault_name self.now }
    {
        match self {
            StampFault::BadStamp => "BadStamp",
            StampFault::YearRange => "YearRange",
        }
    }
}

/// Whether the text has the form of a DATE.
fn is_date_form(text: &[u8]) -> bool
    ensures { result ≡ is_date_form text.now }
{
    text.len() == 8 && are_digits(text)
}

/// Whether the text has the form of a local time.
pub fn is_local_form(text: &[u8]) -> bool
    ensures { result ≡ is_local_form text.now }
{
    text.len() == 15
        && are_digits(&text[..8])
        && text[8].to_ascii_uppercase() == b'T'
        && are_digits(&text[9..])
}

/// Whether the text has the form of a time in UTC.
fn is_utc_form(text: &[u8]) -> bool
    ensures { result ≡ is_utc_form text.now }
{
    text.len() == 16 && is_local_form(&text[..15]) && text[15].to_ascii_uppercase() == b'Z'
}

/// Whether the text has the form of a DATE-TIME.
pub fn is_date_time_form(text: &[u8]) -> bool
    ensures { result ≡ is_date_time_form text.now }
{
    is_utc_form(text) || is_local_form(text)
}

/// Whether a DATE-TIME is one in UTC: it is longer than a local one.
#[tactic(auto, using(crate::proofs::StampLemmas::utc_by_length))]
fn is_in_utc(text: &[u8]) -> bool
    requires { is_date_time_form text.now ≡ true }
    ensures { result ≡ is_utc_form text.now }
{
    text.len() == 16
}

/// The number that the text's first four digits spell.
pub fn year_of(text: &[u8]) -> u32
    requires { HasDate text.now }
    ensures value { result ≡ year_of text.now }
    ensures bound { result ≤ 9999 }
{
    number_at(text, 0, 4)
}

/// The day of the text's first eight digits. None if the calendar does not have the date.
fn day_of(text: &[u8]) -> Option<i32>
    requires { HasDate text.now }
    ensures { IsWhere result (date_exists text.now) (day_of text.now) }
{
    date_day(year_of(text), number_at(text, 4, 6), number_at(text, 6, 8))
}

/// The second of the day that the text's time says. None if there is no such time.
fn second_of(text: &[u8]) -> Option<u32>
    requires { HasTime text.now }
    ensures value { IsWhere result (time_exists text.now) (second_of text.now) }
    ensures bound { IfSome result (λ second. second < 86_400) }
{
    let hour = number_at(text, 9, 11);
    let minute = number_at(text, 11, 13);
    let second = number_at(text, 13, 15);
    if hour <= 23 && minute <= 59 && second <= 60 {
        Some(3600 * hour + 60 * minute + second.min(59))
    } else {
        None
    }
}

/// The stamp that a text says, whatever its year.
pub fn any_stamp(text: &[u8], zoned: bool) -> Option<Stamp>
    ensures value { IsWhere result (is_stamp_text text.now) (stamp_said zoned text.now) }
    ensures digits { IfSome result (λ _. HasDate text.now) }
{
    if is_date_form(text) {
        return Some(Stamp::Date(day_of(text)?));
    }
    if !is_date_time_form(text) {
        return None;
    }
    let local = Local::at(day_of(text)?, second_of(text)?);
    Some(if is_in_utc(text) {
        Stamp::Utc(local)
    } else if zoned {
        Stamp::Zoned(local)
    } else {
        Stamp::Floating(local)
    })
}

/// Whether a stamp may be of that year: 0001 to 9899.
fn is_stamp_year(year: u32) -> bool
    ensures { result ≡ is_stamp_year year }
{
    year >= 1 && year <= 9899
}

/// The stamp that a text says: a DATE or a DATE-TIME (RFC 5545, sections 3.3.4 and 3.3.5). `zoned` says
/// whether the property has a TZID. Second 60 is read as 59. `BadStamp` for any other text and for a
/// date or time that does not exist; else `YearRange` for a year outside 0001 to 9899.
pub fn read_stamp(text: &[u8], zoned: bool) -> Result<Stamp, StampFault>
    ensures value { result ≡ stamp_of zoned text.now }
    ensures date { IfOk result (λ stamp. IsDayOf text.now (stamp_day stamp)) }
    ensures range { IfOk result (λ stamp. IsStampDay (stamp_day stamp)) }
{
    let Some(stamp) = any_stamp(text, zoned) else {
        return Err(StampFault::BadStamp);
    };
    if is_stamp_year(year_of(text)) {
        Ok(stamp)
    } else {
        Err(StampFault::YearRange)
    }
}
