//! The times of an entry, in eleven columns.
ghost use Rattle.std.specs.Prelude.{◌≡◌, ◌++◌, OnOk};
ghost use Rattle.ics_fields.specs.Locals.{local_seconds};
ghost use Rattle.khal_list.specs.Text.{second_of, time_text, start_text, finish_text, times_text, is_end_of};

use ics_values::Local;
use std::alloc::AllocError;

/// What is written for a time on another day.
const BLANK: &[u8] = b"     ";

/// Adds the time of a local as `HH:MM`, the seconds left off.
pub(crate) fn add_time(text: &mut Vec<u8>, local: Local) -> Result<(), AllocError>
    ensures { OnOk result (text.new.items
        ≡ text.old.items ++ time_text (second_of (local_seconds local))) }
{
    let hour = (local.second / 3_600) as u8;
    let minute = (local.second / 60 % 60) as u8;
    text.extend_from_slice(&[
        b'0' + hour / 10,
        b'0' + hour % 10,
        b':',
        b'0' + minute / 10,
        b'0' + minute % 10,
    ])
}

/// Adds the time of a start, or blanks if it is on another day than the entry's.
fn add_start(text: &mut Vec<u8>, day: i32, start: Local) -> Result<(), AllocError>
    ensures { OnOk result (text.new.items
        ≡ text.old.items ++ start_text day (local_seconds start)) }
{
    if start.day == day {
        add_time(text, start)
    } else {
        text.extend_from_slice(BLANK)
    }
}

/// Whether a local is the first second of the day after.
fn is_end_of(day: i32, local: Local) -> bool
    ensures { result ≡ is_end_of day (local_seconds local) }
{
    local.second == 0 && local.day > day && local.day - 1 == day
}

/// Adds the time of a finish, or blanks if it is on another day, but `24:00` for the first second of
/// the next day.
fn add_finish(text: &mut Vec<u8>, day: i32, finish: Local) -> Result<(), AllocError>
    ensures { OnOk result (text.new.items
        ≡ text.old.items ++ finish_text day (local_seconds finish)) }
{
    if finish.day == day {
        add_time(text, finish)
    } else if is_end_of(day, finish) {
        text.extend_from_slice(b"24:00")
    } else {
        text.extend_from_slice(BLANK)
    }
}

/// Adds the times of an entry that is listed under a day.
pub(crate) fn add_times(
    text: &mut Vec<u8>,
    day: i32,
    start: Local,
    finish: Local,
) -> Result<(), AllocError>
    ensures { OnOk result (text.new.items
        ≡ text.old.items ++ times_text day (local_seconds start) (local_seconds finish)) }
{
    add_start(text, day, start)?;
    text.push(b'-')?;
    add_finish(text, day, finish)?;
    Ok(())
}
