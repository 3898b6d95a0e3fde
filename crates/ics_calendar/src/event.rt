//! The events of a file, made of what their lines give (RFC 5545, section 3.6.1).
ghost use Rattle.std.specs.Prelude.{◌≡◌, [], map, unwrap_or, IfOk};
ghost use Rattle.std.specs.Option.{option_and_then};
ghost use Rattle.ics_values.specs.Times.{map_time, map_length, map_rdate, start_of};
ghost use Rattle.ics_calendar.specs.Events.{event_of, given_length, start_in, zone_at};
ghost use Rattle.ics_calendar.specs.Settled.{event_in, IsReady};
ghost use Rattle.ics_calendar.specs.ZoneTables.{known_by};

use crate::zone_table::ZoneTable;
use ics_components::{CalendarEvent, EventFields, Listed, Tzid, ZoneName};
use ics_event::{Event, More};
use ics_values::{Duration, Length, Rdate, Stamp, Text, Time};
use std::alloc::{AllocError, Global};

/// The index of the zone that a calendar calls by that name.
fn index_of(table: &ZoneTable, calendar: u64, name: Option<Tzid>) -> Option<u32>
    ensures { result ≡ option_and_then (zone_at (known_by table.now).index calendar) name }
{
    let name = name?;
    table.index(&ZoneName { calendar, name })
}

/// The same time with the index of its zone.
fn time_of(table: &ZoneTable, calendar: u64, time: Time<Tzid>) -> Time<u32>
    ensures { result ≡ map_time (zone_at (known_by table.now).index calendar) time }
{
    let Time { stamp, zone } = time;
    Time {
        stamp,
        zone: index_of(table, calendar, zone),
    }
}

/// The same length with the index of its zone.
fn length_of(table: &ZoneTable, calendar: u64, length: Length<Tzid>) -> Length<u32>
    ensures { result ≡ map_length (zone_at (known_by table.now).index calendar) length }
{
    match length {
        Length::Open => Length::Open,
        Length::Until(end) => Length::Until(time_of(table, calendar, end)),
        Length::Lasting(duration) => Length::Lasting(duration),
    }
}

/// The same RDATE with the indexes of its zones.
fn rdate_of(table: &ZoneTable, calendar: u64, rdate: Rdate<Tzid>) -> Rdate<u32>
    ensures { result ≡ map_rdate (zone_at (known_by table.now).index calendar) rdate }
{
    match rdate {
        Rdate::At(time) => Rdate::At(time_of(table, calendar, time)),
        Rdate::Span(start, length) => {
            let start = time_of(table, calendar, start);
            Rdate::Span(start, length_of(table, calendar, length))
        }
    }
}

/// The same RDATEs with the indexes of their zones.
fn rdates_of(
    alloc: Global,
    table: &ZoneTable,
    calendar: u64,
    rdates: Listed<Rdate<Tzid>>,
) -> Result<Vec<Rdate<u32>>, AllocError>
    ensures { IfOk result (λ made. made.items ≡ map (map_rdate (zone_at (known_by table.now).index calendar)) rdates) }
{
    let mut made = Vec::with_capacity(alloc, rdates.values.len())?;
    for rdate in rdates.values {
        made.push(rdate_of(table, calendar, rdate))?;
    }
    Ok(made)
}

/// The start of a PERIOD, or the stamp.
fn start_of(rdate: Rdate<Tzid>) -> Time<Tzid>
    ensures { result ≡ start_of rdate }
{
    match rdate {
        Rdate::At(time) => time,
        Rdate::Span(start, length) => {
            drop(length);
            start
        }
    }
}

/// The stamps of EXDATEs.
fn exdates_of(
    alloc: Global,
    table: &ZoneTable,
    calendar: u64,
    exdates: Listed<Rdate<Tzid>>,
) -> Result<Vec<Time<u32>>, AllocError>
    ensures { IfOk result (λ made. made.items ≡ map (λ exdate. map_time (zone_at (known_by table.now).index calendar) (start_of exdate)) exdates) }
{
    let mut made = Vec::with_capacity(alloc, exdates.values.len())?;
    for exdate in exdates.values {
        made.push(time_of(table, calendar, start_of(exdate)))?;
    }
    Ok(made)
}

/// What gives the length of an event: its DTEND, or its DURATION, or nothing.
fn given_length(end: Option<Time<Tzid>>, duration: Option<Duration>) -> Length<Tzid>
    ensures { result ≡ given_length end duration }
{
    match (end, duration) {
        (Some(end), _) => Length::Until(end),
        (None, Some(duration)) => Length::Lasting(duration),
        (None, None) => Length::Open,
    }
}

/// The DTSTART, where there is one.
fn start_in(start: Option<Time<Tzid>>) -> Time<Tzid>
    ensures { result ≡ start_in start }
{
    match start {
        Some(start) => start,
        None => Time {
            stamp: Stamp::Date(0),
            zone: None,
        },
    }
}

/// The text, or none.
fn text_in(alloc: Global, text: Option<Text>) -> Text
    ensures { result ≡ unwrap_or text [] }
{
    match text {
        Some(text) => text,
        None => Text::new(alloc),
    }
}

/// The event of a calendar with these fields, where no fault stands on its lines.
fn event_with(
    alloc: Global,
    table: &ZoneTable,
    calendar: u64,
    fields: EventFields,
) -> Result<Event, AllocError>
    requires { IsReady (known_by table.now) (record { calendar = calendar; fields = fields }) }
    ensures { IfOk result (λ event. event ≡ event_of (known_by table.now).index calendar fields) }
{
    let texts = fields.texts;
    let more = More {
        cancelled: fields.cancelled.unwrap_or(false),
        rdates: rdates_of(alloc, table, calendar, fields.rdates)?,
        exdates: exdates_of(alloc, table, calendar, fields.exdates)?,
        location: text_in(alloc, texts.location),
        description: text_in(alloc, texts.description),
        url: text_in(alloc, texts.url),
    };
    Ok(Event {
        start: time_of(table, calendar, start_in(fields.start)),
        length: length_of(table, calendar, given_length(fields.end, fields.duration)),
        rule: fields.rule,
        uid: text_in(alloc, fields.uid),
        sequence: fields.sequence.unwrap_or(0),
        title: text_in(alloc, texts.title),
        recurrence: fields.recurrence.map(|time| time_of(table, calendar, time)),
        more: more.boxed(alloc)?,
    })
}

/// The event, where no fault stands on its lines.
pub fn event_of(alloc: Global, table: &ZoneTable, ended: CalendarEvent) -> Result<Event, AllocError>
    requires { IsReady (known_by table.now) ended }
    ensures { IfOk result (λ event. event ≡ event_in (known_by table.now).index ended) }
{
    let CalendarEvent { calendar, fields } = ended;
    event_with(alloc, table, calendar, fields.into_fields(alloc))
}
