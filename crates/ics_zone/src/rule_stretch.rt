//! Stretches of locals that a clock shows by one offset, by the rule of a POSIX TZ string.
ghost use Rattle.std.specs.Prelude.{◌≡◌, ◌≤ℤ◌, ◌+ℤ◌, ◌-ℤ◌, neg_ℤ, pos, true, IfSome, Some};
ghost use Rattle.std.specs.Int.{int_div_euclid};
ghost use Rattle.jiff_core.specs.Calendar.{IsBetween, IsWithin, IsYear};
ghost use Rattle.jiff_core.specs.Timestamp.{nanos_of_seconds};
ghost use Rattle.jiff_tz.specs.PosixRule as Rule;
ghost use Rattle.jiff_tz.specs.PosixText.{dst_view, tz_view};
ghost use Rattle.ics_zone.specs.Inner.RuleTurns.{first_second, end_second, AreApart, AreShown, AreTurns, IsClear};
ghost use Rattle.ics_zone.specs.Seconds.{IsMoment};
ghost use Rattle.ics_zone.specs.Stretches.{IsStretch};
ghost use Rattle.ics_zone.specs.ZoneSaid.{ZoneSaid, said_moment, said_offset};

use crate::Stretch;
use ics_fields::Moment;
use jiff_core::civil::{Date, days_in_year};
use jiff_core::{Offset, Timestamp};
use jiff_tz::posix;

const DAY: i64 = 86_400;

/// How far from a year's ends, and from each other, daylight saving time must begin and end.
const MARGIN: i64 = 3 * DAY;

/// The seconds of the mean year.
const YEAR: i64 = 31_556_952;

/// When daylight saving time begins and ends in a year: the locals that the clock shows by the offset before them.
#[derive(Clone, Copy)]
struct Turns {
    begin: i64,
    end: i64,
    ghost begin_small: { IsWithin 400_000_000_000 begin },
    ghost end_small: { IsWithin 400_000_000_000 end },
}

impl Turns {
    /// The stretch from the earlier of the two to the later.
    fn between(self, rule: posix::TimeZone, dst: posix::Dst, year: i16) -> Stretch
        requires { AreTurns (tz_view rule) (dst_view dst) year self.begin self.end }
        ensures { IsStretch (said_offset (ZoneSaid.ByRule (tz_view rule))) (said_moment (ZoneSaid.ByRule (tz_view rule))) result }
    {
        let shift = shift(rule, dst);
        if self.begin < self.end {
            let offset = i64::from(dst.offset.seconds);
            Stretch {
                from: later(self.begin, shift),
                to: self.end,
                offset,
                shown: offset,
            }
        } else {
            let offset = i64::from(rule.std_offset.seconds);
            Stretch {
                from: later(self.end, -shift),
                to: self.begin,
                offset,
                shown: offset,
            }
        }
    }

    /// The stretch from the later of the two to the earlier of those of the year after.
    fn to_next(self, next: Turns, rule: posix::TimeZone, dst: posix::Dst, year: i16) -> Stretch
        requires own { AreTurns (tz_view rule) (dst_view dst) year self.begin self.end }
        requires next { AreTurns (tz_view rule) (dst_view dst) (year +ℤ pos 1) next.begin next.end }
        ensures { IsStretch (said_offset (ZoneSaid.ByRule (tz_view rule))) (said_moment (ZoneSaid.ByRule (tz_view rule))) result }
    {
        let shift = shift(rule, dst);
        if self.begin < self.end && next.begin < next.end {
            let offset = i64::from(rule.std_offset.seconds);
            Stretch {
                from: later(self.end, -shift),
                to: next.begin,
                offset,
                shown: offset,
            }
        } else if self.end < self.begin && next.end < next.begin {
            let offset = i64::from(dst.offset.seconds);
            Stretch {
                from: later(self.begin, shift),
                to: next.end,
                offset,
                shown: offset,
            }
        } else {
            Stretch::none()
        }
    }
}

/// How many seconds daylight saving time is ahead of standard time.
fn shift(rule: posix::TimeZone, dst: posix::Dst) -> i64
    ensures value { result ≡ dst.offset.seconds -ℤ rule.std_offset.seconds }
    ensures bound { IsWithin 187_198 result }
{
    i64::from(dst.offset.seconds) - i64::from(rule.std_offset.seconds)
}

/// The later of a local and the one that many seconds after it.
fn later(local: i64, seconds: i64) -> i64
    requires local { IsWithin 400_000_000_000 local }
    requires seconds { IsWithin 187_198 seconds }
    ensures own { local ≤ℤ result }
    ensures moved { (local +ℤ seconds) ≤ℤ result }
    ensures bound { IsWithin 400_000_187_198 result }
{
    if seconds > 0 { local + seconds } else { local }
}

/// The day of 1 January.
fn first_day(year: i16) -> i64
    requires { IsYear year }
    ensures value { result ≡ Rule.first_day year }
    ensures bound { IsBetween (neg_ℤ (pos 4_371_587)) (pos 2_932_896) result }
{
    i64::from(Date::constrain(year, 1, 1).to_unix_epoch_day())
}

/// The seconds from 1970-01-01T00:00:00 to the begin of a year, and to its end.
fn ends_of(year: i16) -> (i64, i64)
    requires { IsYear year }
    ensures first { result.0 ≡ first_second year }
    ensures last { result.1 ≡ end_second year }
    ensures first_bound { IsWithin 400_000_000_000 result.0 }
    ensures last_bound { IsWithin 400_000_000_000 result.1 }
{
    let first = first_day(year);
    let last = first + i64::from(days_in_year(year));
    (first * DAY, last * DAY)
}

/// The instant of whole seconds, if there is one.
fn instant(second: i64) -> Option<Timestamp>
    requires { IsWithin 400_000_000_000 second }
    ensures { IfSome result (λ t. t.nanosecond ≡ nanos_of_seconds second) }
{
    match Timestamp::from_nanosecond(i128::from(second) * 1_000_000_000) {
        Ok(instant) => Some(instant),
        Err(_) => None,
    }
}

/// The local that a clock with this offset shows at an instant.
fn shown(at: Timestamp, offset: Offset) -> i64
    ensures value { result ≡ int_div_euclid at.nanosecond (pos 1_000_000_000) +ℤ offset.seconds }
    ensures bound { IsWithin 400_000_000_000 result }
{
    at.floor_second() + i64::from(offset.seconds)
}

/// Whether a local is days after one and days before another.
fn is_clear(first: i64, last: i64, local: i64) -> bool
    requires first { IsWithin 400_000_000_000 first }
    requires local { IsWithin 400_000_000_000 local }
    ensures { result ≡ true → IsClear first last local }
{
    if local < first + MARGIN {
        return false;
    }
    local + MARGIN <= last
}

/// Whether two locals are days apart.
fn are_apart(a: i64, b: i64) -> bool
    requires a { IsWithin 400_000_000_000 a }
    requires b { IsWithin 400_000_000_000 b }
    ensures { result ≡ true → AreApart a b }
{
    if a < b {
        a + MARGIN <= b
    } else {
        b + MARGIN <= a
    }
}

/// When daylight saving time begins and ends in a year, by the instants. None if that is not days away from the year's ends and from each other.
fn turns_at(
    on: Timestamp,
    off: Timestamp,
    standard: Offset,
    daylight: Offset,
    year: i16,
) -> Option<Turns>
    requires { IsYear year }
    ensures { IfSome result (λ t. AreShown year on.nanosecond off.nanosecond standard.seconds daylight.seconds t.begin t.end) }
{
    let begin = shown(on, standard);
    let end = shown(off, daylight);
    let (first, last) = ends_of(year);
    if is_clear(first, last, begin) && is_clear(first, last, end) && are_apart(begin, end) {
        Some(Turns { begin, end })
    } else {
        None
    }
}

/// When daylight saving time begins and ends in a year, by its first two transitions.
fn turns_of(rule: posix::TimeZone, dst: posix::Dst, year: i16) -> Option<Turns>
    requires year { IsYear year }
    requires own { rule.dst ≡ Some dst }
    ensures { IfSome result (λ t. AreTurns (tz_view rule) (dst_view dst) year t.begin t.end) }
{
    let Some(january) = instant(ends_of(year).0) else {
        return None;
    };
    let Some(one) = rule.next_transition(january) else {
        return None;
    };
    let Some(two) = rule.next_transition(one.timestamp) else {
        return None;
    };
    if one.info.dst.is_dst() {
        turns_at(
            one.timestamp,
            two.timestamp,
            rule.std_offset,
            dst.offset,
            year,
        )
    } else {
        turns_at(
            two.timestamp,
            one.timestamp,
            rule.std_offset,
            dst.offset,
            year,
        )
    }
}

/// The stretch from the last transition of a year to the first of the year after.
fn over_new_year(rule: posix::TimeZone, dst: posix::Dst, year: i16) -> Stretch
    requires year { IsBetween (neg_ℤ (pos 9_999)) (pos 9_998) year }
    requires own { rule.dst ≡ Some dst }
    ensures { IsStretch (said_offset (ZoneSaid.ByRule (tz_view rule))) (said_moment (ZoneSaid.ByRule (tz_view rule))) result }
{
    let Some(turns) = turns_of(rule, dst, year) else {
        return Stretch::none();
    };
    let Some(next) = turns_of(rule, dst, year + 1) else {
        return Stretch::none();
    };
    turns.to_next(next, rule, dst, year)
}

/// The year of a local, given by its seconds. It may be the one before or after on the days about the new year.
fn year_about(local: Moment) -> i16
    requires { IsMoment local }
    ensures { IsBetween (neg_ℤ (pos 9)) (pos 9_960) result }
{
    (1_970 + local.div_euclid(YEAR)) as i16
}

/// A stretch about a local by a rule that has daylight saving time.
fn stretch_about(rule: posix::TimeZone, dst: posix::Dst, local: Moment) -> Stretch
    requires own { rule.dst ≡ Some dst }
    requires local { IsMoment local }
    ensures { IsStretch (said_offset (ZoneSaid.ByRule (tz_view rule))) (said_moment (ZoneSaid.ByRule (tz_view rule))) result }
{
    let year = year_about(local);
    let Some(turns) = turns_of(rule, dst, year) else {
        return Stretch::none();
    };
    if local < turns.begin && local < turns.end {
        over_new_year(rule, dst, year - 1)
    } else if local < turns.begin || local < turns.end {
        turns.between(rule, dst, year)
    } else {
        over_new_year(rule, dst, year)
    }
}

impl Stretch {
    /// A stretch about a local, given by its seconds, by the rule of a POSIX TZ string: from one transition to the next. There is none where a
    /// transition is less than three days from the end of a year, or from another.
    pub(crate) fn of_rule(rule: posix::TimeZone, local: Moment) -> Stretch
        requires { IsMoment local }
        ensures { IsStretch (said_offset (ZoneSaid.ByRule (tz_view rule))) (said_moment (ZoneSaid.ByRule (tz_view rule))) result }
    {
        match rule.dst {
            None => Stretch::always(rule.std_offset),
            Some(dst) => stretch_about(rule, dst, local),
        }
    }
}
