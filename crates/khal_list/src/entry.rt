//! An entry of a listing, under its day.
ghost use Rattle.std.specs.Prelude.{◌≡◌, ◌++◌, OnOk};
ghost use Rattle.ics_fields.specs.Days.{IsDayNumber};
ghost use Rattle.ics_listing.specs.Entry.{entry_of};
ghost use Rattle.khal_list.specs.Listed.{style_of};
ghost use Rattle.khal_list.specs.Text.{heading_after, entry_text, day_under};

use crate::heading::add_heading;
use crate::line::add_line;
use crate::request::Request;
use ics_series::{Occurrence, date_at};
use std::alloc::{AllocError, Global};

/// The day under which an occurrence is listed: the display date of the later of its start and the
/// window's start.
pub(crate) fn day_under(request: &Request, occurrence: &Occurrence<'_>) -> i32
    ensures day { result ≡ day_under (style_of request.now) (entry_of occurrence.now) }
    ensures within { IsDayNumber result }
{
    let shown = occurrence.start.max(request.window.from);
    date_at(&request.zone, shown)
}

/// Adds the heading of a day, unless the entry before is listed under the same day.
fn add_heading_after(
    text: &mut Vec<u8>,
    request: &Request,
    before: Option<i32>,
    day: i32,
) -> Result<(), AllocError>
    requires { IsDayNumber day }
    ensures { OnOk result (text.new.items ≡ text.old.items ++ heading_after (style_of request.now) before day) }
{
    if before == Some(day) {
        return Ok(());
    }
    add_heading(text, &request.formats.days, day)
}

/// Adds an occurrence under its day, after a heading if one is due.
pub(crate) fn add_entry(
    alloc: Global,
    text: &mut Vec<u8>,
    request: &Request,
    before: Option<i32>,
    day: i32,
    occurrence: &Occurrence<'_>,
) -> Result<(), AllocError>
    requires { IsDayNumber day }
    ensures { OnOk result (text.new.items
        ≡ text.old.items ++ entry_text (style_of request.now) before day (entry_of occurrence.now)) }
{
    add_heading_after(text, request, before, day)?;
    add_line(alloc, text, request, day, occurrence)?;
    Ok(())
}
