//! The window that the words ask for.
ghost use Rattle.std.specs.Prelude.{◌≡◌, ◌≤◌, ◌<◌, ◌*◌, ◌-ℤ◌, ◌+ℤ◌, pos, option_map, IfSome};
ghost use Rattle.jiff_core.specs.Calendar.{IsEpochDay};
ghost use Rattle.ics_zone.specs.Seconds.{IsDay, IsNear};
ghost use Rattle.ics_fields.specs.Locals.{local_seconds};
ghost use Rattle.ics_zone.specs.ZoneSaid.{display_said, said_moment};
ghost use Rattle.khal_list.specs.Windows as spec;
ghost use Rattle.khal_words.specs.SpanTexts.{span_by};
ghost use Rattle.khal_list.specs.Inner.WindowEnds.{ends_by};
ghost use Rattle.khal_words.specs.WindowTextNames.{named_by, IsInCalendar};

use ics_fields::EPOCH_DAY;
use ics_series::Window;
use ics_values::{Local, Moment};
use ics_zone::{Display, Place};
use khal_words::{Span, WindowText};

/// 0001-01-02T00:00, before which no window starts.
const FIRST_START: i64 = -62_135_510_400;

/// 9800-01-01T00:00, after which none ends.
const LAST_END: i64 = 247_090_953_600;

/// The first day of the years for which a zone has answers, 0000 to 9950.
const FIRST_DAY: i32 = -EPOCH_DAY;

/// The last of them.
const LAST_DAY: i32 = 2_914_999;

/// The window that the texts ask for, by a display zone and a clock.
pub(crate) fn window_of(
    zone: &Display,
    now: Moment,
    span: Span<'_>,
    notstarted: bool,
) -> Option<Window>
    ensures ends { ends_by result ≡ spec.ends_of (display_said zone.now) now (span_by span.entry) }
    ensures flag { IfSome result (λ w. w.notstarted ≡ notstarted) }
{
    match span {
        Span::At(text) => {
            let WindowText::Local(local) = WindowText::parse(text)? else {
                return None;
            };
            second_at(zone, local, notstarted)
        }
        Span::FromTo { start, end } => {
            let start = start_said(zone, now, start)?;
            let end = end_local(start, WindowText::parse(end)?);
            between(zone, start, end, notstarted)
        }
    }
}

/// START's local, or today's midnight if it is left out.
fn start_said(zone: &Display, now: Moment, text: Option<&str>) -> Option<Local>
    ensures value { option_map (λ l. local_seconds l) result
        ≡ spec.start_said (display_said zone.now) now (option_map (λ t. t.now) text.entry) }
    ensures bound { IfSome result (λ l. IsEpochDay l.day) }
{
    let Some(text) = text else {
        return today(zone, now);
    };
    match WindowText::parse(text)? {
        WindowText::Day(day) => Some(Local { day, second: 0 }),
        WindowText::Local(local) => Some(local),
        WindowText::Days(_) => None,
    }
}

/// Today's midnight, by a clock within the bounds of windows.
fn today(zone: &Display, now: Moment) -> Option<Local>
    ensures value { option_map (λ l. local_seconds l) result
        ≡ spec.today (display_said zone.now) now }
    ensures bound { IfSome result (λ l. IsEpochDay l.day) }
{
    if now < FIRST_START || now > LAST_END {
        return None;
    }
    let day = zone.local(now).day;
    Some(Local { day, second: 0 })
}

/// END's local, by the start of the window.
fn end_local(start: Local, name: WindowText) -> Local
    requires start { IsEpochDay start.day }
    requires name { IsInCalendar name }
    ensures { local_seconds result
        ≡ spec.end_named (local_seconds start) (named_by name) }
{
    match name {
        WindowText::Day(day) => Local {
            day: day + 1,
            second: 0,
        },
        WindowText::Local(local) => local,
        WindowText::Days(number) => Local {
            day: start.day + number as i32,
            second: start.second,
        },
    }
}

/// The window between two locals.
fn between(zone: &Display, start: Local, end: Local, notstarted: bool) -> Option<Window>
    ensures ends { ends_by result ≡ spec.between (display_said zone.now)
        (local_seconds start) (local_seconds end) }
    ensures flag { IfSome result (λ w. w.notstarted ≡ notstarted) }
{
    if start.seconds() < FIRST_START || end.seconds() > LAST_END {
        return None;
    }
    // Days before every start, or days after every end, the instants do not rise.
    if end.day < FIRST_DAY || start.day > LAST_DAY {
        return None;
    }
    let from = instant(zone, start);
    let to = instant(zone, end);
    if from < to {
        Some(Window {
            from,
            to,
            notstarted,
        })
    } else {
        None
    }
}

/// The window of one second.
fn second_at(zone: &Display, local: Local, notstarted: bool) -> Option<Window>
    ensures ends { ends_by result ≡ spec.second_at (display_said zone.now) (local_seconds local) }
    ensures flag { IfSome result (λ w. w.notstarted ≡ notstarted) }
{
    if local.seconds() < FIRST_START || local.seconds() > LAST_END {
        return None;
    }
    let from = instant(zone, local);
    Some(Window {
        from,
        to: from + 1,
        notstarted,
    })
}

/// The instant of a local in the display zone.
fn instant(zone: &Display, local: Local) -> Moment
    requires { IsDay local.day }
    ensures value { result ≡ said_moment (display_said zone.now) (local_seconds local) }
    ensures near { IsNear (result -ℤ local_seconds local) }
{
    zone.moment(local)
}
