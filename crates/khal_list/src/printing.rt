//! The text of a listing, entry by entry.
ghost use Rattle.std.specs.Prelude.{◌≡◌, ◌≢◌, ◌+◌, List, Some, IfOk, IfErr, OnOk, OnErr, IsErrOf};
ghost use Rattle.std.specs.Io.KnownBytes.{Appends};
ghost use Rattle.std.specs.Option.{option_map};
ghost use Rattle.ics_fields.specs.Days.{IsDayNumber};
ghost use Rattle.ics_series.specs.Ahead.{IsAhead};
ghost use Rattle.ics_listing.specs.DayKeys.{day_key_rank, day_rank_of, on_day_of, OnDay};
ghost use Rattle.ics_listing.specs.Entry.{entry_of, key_rank};
ghost use Rattle.khal_list.specs.Drawn.{DrewAhead, Puts};
ghost use Rattle.khal_ports.specs.Growth.{TookFront, TookPart, LeftByFault};
ghost use Rattle.khal_list.specs.Listed.{key_on, style_of, listing_text};
ghost use Rattle.khal_list.specs.Text.{entry_text, text};

use crate::drawing::{Draws, EachDay, Once};
use crate::entry::add_entry;
use crate::request::Request;
use ics_series::{DayKey, Days, Feed, Key, Occurrence};
use khal_ports::{RunFault, Sink, put_all};
use std::alloc::Global;

/// Writes the text of a feed's first entries, up to the request's limit: each entry's line, and a
/// heading if the day changes. It draws one occurrence at a time and writes it before it draws the
/// next, and one more to see whether the limit cuts the list: if so, it returns the key of the last
/// entry that it wrote, after which a listing continues.
///
/// WriteFault comes only if the sink failed, or was given bytes and took none.
pub fn print<'a, F: Feed<'a>, O: Sink>(
    alloc: Global,
    feed: &mut F,
    request: &Request,
    out: &mut O,
) -> Result<Option<Key>, RunFault>
    ensures text { OnOk result (Appends (O.taken out.old) (O.taken out.new)
        (listing_text request.now (F.coming feed.old))) }
    ensures key { IfOk result (λ key. option_map key_rank key
        ≡ key_on request.now.limit (F.coming feed.old)) }
    ensures front { OnErr result (TookFront (O.taken out.old) (O.taken out.new)
        (listing_text request.now (F.coming feed.old))) }
    ensures drew { DrewAhead (text (style_of request.now)) (F.coming feed.old) (F.coming feed.new)
        (O.taken out.old) (O.taken out.new) }
    ensures cause { IsErrOf result RunFault.WriteFault → LeftByFault O.puts out.new }
{
    match put_entries(alloc, &Once { request }, feed, request, out)? {
        None => Ok(None),
        Some(last) => Ok(Some(last.key)),
    }
}

/// Writes the text of the first entries of a listing under each day, as `print` does; the key that it
/// returns is that of the last entry under its day.
///
/// WriteFault comes only if the sink failed, or was given bytes and took none.
pub fn print_days<'a, O: Sink>(
    alloc: Global,
    days: &mut Days<'a>,
    request: &Request,
    out: &mut O,
) -> Result<Option<DayKey>, RunFault>
    ensures puts { (list : List OnDay) → IsAhead days.old list
        → Puts request.now (IsAhead days.new) list (O.taken out.old) (O.taken out.new) result }
    ensures cause { IsErrOf result RunFault.WriteFault → LeftByFault O.puts out.new }
{
    put_entries(alloc, &EachDay, days, request, out)
}

/// Writes the text of the first entries that a source has to come, in the way in which they are drawn.
fn put_entries<'a, X, D: Draws<'a, X>, O: Sink>(
    alloc: Global,
    draws: &D,
    source: &mut X,
    request: &Request,
    out: &mut O,
) -> Result<Option<DayKey>, RunFault>
    ensures puts { (list : List OnDay) → D.comes draws.now source.old list
        → Puts request.now (D.comes draws.now source.new) list (O.taken out.old) (O.taken out.new) result }
    ensures cause { IsErrOf result RunFault.WriteFault → LeftByFault O.puts out.new }
{
    let mut text = Vec::new(alloc);
    let mut before: Option<i32> = None;
    let mut left = request.limit;
    let mut last: Option<(i32, Occurrence<'a>)> = None;
    // No listing has so many entries that they cannot be counted.
    for _count in 0..u64::MAX {
        let Some((day, occurrence)) = draws.draw(source)? else {
            return Ok(None);
        };
        if let Some(0) = left {
            return key_of(alloc, last);
        }
        put_entry(alloc, &mut text, request, before, day, &occurrence, out)?;
        before = Some(day);
        left = one_fewer(left);
        last = Some((day, occurrence));
    }
    Err(RunFault::Memory)
}

/// Writes the text of an entry under its day, which it makes in the place of the text before.
fn put_entry<O: Sink>(
    alloc: Global,
    text: &mut Vec<u8>,
    request: &Request,
    before: Option<i32>,
    day: i32,
    occurrence: &Occurrence<'_>,
    out: &mut O,
) -> Result<(), RunFault>
    requires { IsDayNumber day }
    ensures ok { OnOk result (Appends (O.taken out.old) (O.taken out.new)
        (entry_text (style_of request.now) before day (entry_of occurrence.now))) }
    ensures err { OnErr result (TookPart (O.taken out.old) (O.taken out.new)
        (entry_text (style_of request.now) before day (entry_of occurrence.now))) }
    ensures cause { IsErrOf result RunFault.WriteFault → LeftByFault O.puts out.new }
{
    text.clear();
    add_entry(alloc, text, request, before, day, occurrence)?;
    put_all(out, text.as_slice())?;
    Ok(())
}

/// What is left of a limit after one entry.
fn one_fewer(left: Option<u32>) -> Option<u32>
    requires { left ≢ Some 0 }
    ensures { left ≡ option_map (λ count. count + 1) result }
{
    match left {
        None => None,
        Some(count) => Some(count - 1),
    }
}

/// The key of an entry under its day, if there is one.
fn key_of(alloc: Global, entry: Option<(i32, Occurrence<'_>)>) -> Result<Option<DayKey>, RunFault>
    ensures ok { IfOk result (λ key. option_map day_key_rank key
        ≡ option_map (λ given. day_rank_of (on_day_of given)) entry.entry) }
    ensures err { IfErr result (λ fault. fault ≡ RunFault.Memory) }
{
    match entry {
        None => Ok(None),
        Some((day, occurrence)) => {
            let key = Key::of(alloc, &occurrence)?;
            Ok(Some(DayKey { day, key }))
        }
    }
}
