//! Preparing zones for a listing.
ghost use Rattle.std.specs.Prelude.{◌≡◌};

use ics_event::{Event, Length, Rdate, Time};
use ics_fields::{Parts, Until};
use ics_file::FileEvents;
use ics_listing::{Window, local_of};
use ics_starts::is_single;
use ics_values::{Duration, Frequency, Moment, Stamp};
use ics_zone::{Display, Zone};

const DAY: i64 = 86_400;

/// The length of a short window. Most zones keep an offset for longer.
const SHORT: i64 = 120 * DAY;

/// A window that is shorter is no longer than a year.
const YEAR: i64 = 367 * DAY;

/// So many RDATEs are few.
const FEW: usize = 64;

/// How long before a window an occurrence can end that is asked for.
const LATE: i64 = 4 * DAY;

/// Between no instants.
const NOWHERE: (Moment, Moment) = (Moment::MAX, Moment::MIN);

/// Where an event asks for the offsets of its zone: near an instant, if that is before `from`, and from there on up to another. Before all these some
/// days about an earlier instant, if there is one.
#[derive(Clone, Copy, PartialEq)]
struct Asked {
    begun: Moment,
    near: Moment,
    from: Moment,
    to: Moment,
}

/// Prepares the zones that the events of these files name for a window, which may be listed under each day. It makes a listing faster and changes no
/// answer.
pub(crate) fn prepare_each(files: &mut [FileEvents], window: &Window, every_day: bool)
    ensures { files.new ≡ files.old }
{
    for k in 0..files.len() {
        prepare_file(&mut files[k], window, every_day);
    }
}

/// Prepares the zone in which a listing is shown, where its dates and floating times are read. It makes a listing faster and changes no answer.
pub(crate) fn prepare_shown(
    display: &mut Display,
    files: &[FileEvents],
    window: &Window,
    every_day: bool,
)
    ensures { display.new ≡ display.old }
{
    if every_day && window.to < window.from.saturating_add(YEAR) {
        let from = window.from.saturating_sub(LATE);
        display.note_often(from, window.to.saturating_add(LATE));
    }
    for file in files {
        note_shown_each(display, &file.events, window, every_day);
    }
    display.learn();
}

/// The display zone takes note of the instants between which these events ask it again and again.
fn note_shown_each(display: &mut Display, events: &[Event], window: &Window, every_day: bool)
    ensures { display.new ≡ display.old }
{
    for event in events {
        note_shown(display, event, window, every_day);
    }
}

/// The same for an event.
fn note_shown(display: &mut Display, event: &Event, window: &Window, every_day: bool)
    ensures { display.new ≡ display.old }
{
    if is_shown(event.start) && asks_often(event) {
        let (from, to) = asked_through(event, window, every_day);
        if from < to {
            display.note_often(from, to);
        }
    }
    if every_day {
        note_shown_dates(display, event, window);
    }
}

/// The same for the RDATEs of an event that last long.
fn note_shown_dates(display: &mut Display, event: &Event, window: &Window)
    ensures { display.new ≡ display.old }
{
    for rdate in event.rdates() {
        let Some(lasting) = lasting_date(event, *rdate, window) else {
            continue;
        };
        if lasting.is_shown {
            let from = lasting.first.saturating_sub(LATE);
            display.note_often(from, lasting.last.saturating_add(LATE));
        }
    }
}

/// Whether an event may ask for so many instants in a long window that it is worth while to find the stretches there: if it recurs often, has many
/// RDATEs, or lasts long.
fn asks_often(event: &Event) -> bool {
    if event.rdates().len() > FEW || lasting_of(event) >= SHORT {
        return true;
    }
    match &event.rule {
        None => false,
        Some(rule) => recurs_often(rule.parts()),
    }
}

/// Whether steps of a rule come some six times a year or more often. A clock mostly turns twice a year.
fn recurs_often(parts: &Parts) -> bool {
    let most = match parts.frequency {
        Frequency::Yearly => 0,
        Frequency::Monthly => 2,
        Frequency::Weekly => 8,
        Frequency::Daily => 60,
        Frequency::Hourly | Frequency::Minutely | Frequency::Secondly => u32::MAX,
    };
    parts.interval <= most
}

/// Whether a time is read in the zone in which a listing is shown.
fn is_shown(time: Time) -> bool {
    matches!(time.stamp, Stamp::Date(_) | Stamp::Floating(_))
}

/// Prepares the zones of a file, if it has any.
fn prepare_file(file: &mut FileEvents, window: &Window, every_day: bool)
    ensures { file.new ≡ file.old }
{
    if file.zones.is_empty() {
        return;
    }
    let mut any_lasts = note_through_each(file, window, every_day);
    if every_day {
        any_lasts |= note_dates_through(file, window);
    }
    if any_lasts {
        learn_each(file);
    }
    prepare_named(file, window, every_day);
    if every_day {
        reach_dates(file, window);
    }
    if any_lasts {
        hold_through_each(file, window, every_day);
    }
    note_named(file, every_day);
    learn_each(file);
}

/// The zones of a file take note of the instants between which its events ask them again and again. Whether there are any.
fn note_through_each(file: &mut FileEvents, window: &Window, every_day: bool) -> bool
    ensures { file.new ≡ file.old }
{
    let mut any = false;
    for k in 0..file.events.len() {
        let event = &file.events[k];
        let place = place_of(event.start).unwrap_or(usize::MAX);
        any |= note_through(&mut file.zones, place, event, window, every_day);
    }
    any
}

/// The zone at a place, if there is one, takes note of the instants between which an event asks it again and again. Whether there are any.
fn note_through(
    zones: &mut [Zone],
    place: usize,
    event: &Event,
    window: &Window,
    every_day: bool,
) -> bool
    ensures { zones.new ≡ zones.old }
{
    let (from, to) = asked_through(event, window, every_day);
    if place >= zones.len() {
        return false;
    }
    if from < to {
        zones[place].note_through(from, to);
        if asks_often(event) {
            zones[place].note_often(from, to);
        }
        note_spans(&mut zones[place], event, from, to);
        return true;
    }
    let (from, to) = recurs_through(event, window);
    if from >= to || !is_dense(event) {
        return false;
    }
    zones[place].note_through(from, to);
    note_spans(&mut zones[place], event, from, to);
    true
}

/// A zone takes note of what is near the starts of an event between two instants and, if it lasts long, near its ends, unless it asks there for few.
fn note_spans(zone: &mut Zone, event: &Event, from: Moment, to: Moment)
    ensures { zone.new ≡ zone.old }
{
    if !asks_for_many(event) {
        return;
    }
    let lasting = lasting_of(event);
    if lasting < SHORT {
        zone.note_spans(from, to);
        return;
    }
    zone.note_spans(from, to.saturating_sub(lasting));
    zone.note_spans(from.saturating_add(lasting), to);
}

/// Whether an event starts once, has many RDATEs, or recurs often.
fn asks_for_many(event: &Event) -> bool {
    if event.rdates().len() > FEW || is_single(event) {
        return true;
    }
    match &event.rule {
        None => false,
        Some(rule) => recurs_often(rule.parts()),
    }
}

/// The zones of a file hold the spans between the same instants, if a few reach far. Most events ask what the one before them asks.
fn hold_through_each(file: &mut FileEvents, window: &Window, every_day: bool)
    ensures { file.new ≡ file.old }
{
    let mut last = None;
    for k in 0..file.events.len() {
        let Some(index) = file.events[k].start.zone else {
            continue;
        };
        let (from, to) = asked_through(&file.events[k], window, every_day);
        if from >= to || last == Some((index, from, to)) {
            continue;
        }
        last = Some((index, from, to));
        if let Some(zone) = file.zones.get_mut(index as usize) {
            zone.reach_through(from, to);
        }
    }
}

/// Prepares the zones that the events of a file name. Most events ask what the one before them asks.
fn prepare_named(file: &mut FileEvents, window: &Window, every_day: bool)
    ensures { file.new ≡ file.old }
{
    let mut last = None;
    for k in 0..file.events.len() {
        let Some(index) = file.events[k].start.zone else {
            continue;
        };
        let asked = (index, asked_by(&file.events[k], window, every_day));
        if last == Some(asked) {
            continue;
        }
        last = Some(asked);
        if let Some(zone) = file.zones.get_mut(index as usize) {
            prepare(zone, asked.1);
        }
    }
}

/// The zones of a file take note of the instants between which RDATEs last long in a window. Whether there are any.
fn note_dates_through(file: &mut FileEvents, window: &Window) -> bool
    ensures { file.new ≡ file.old }
{
    let mut any = false;
    for k in 0..file.events.len() {
        let event = &file.events[k];
        any |= note_through_dates(&mut file.zones, event, window);
    }
    any
}

/// The same for the RDATEs of an event.
fn note_through_dates(zones: &mut [Zone], event: &Event, window: &Window) -> bool
    ensures { zones.new ≡ zones.old }
{
    let mut any = false;
    for rdate in event.rdates() {
        let Some(lasting) = lasting_date(event, *rdate, window) else {
            continue;
        };
        let place = lasting.place.unwrap_or(usize::MAX);
        if place < zones.len() {
            let from = lasting.first.saturating_sub(LATE);
            let to = lasting.last.saturating_add(LATE);
            zones[place].note_through(from, to);
            zones[place].note_often(from, to);
            any = true;
        }
    }
    any
}

/// The zones of a file hold the spans near RDATEs that last long: under each day one is asked for again and again.
fn reach_dates(file: &mut FileEvents, window: &Window)
    ensures { file.new ≡ file.old }
{
    for k in 0..file.events.len() {
        let event = &file.events[k];
        reach_each(&mut file.zones, event, window);
    }
}

/// The same near the RDATEs of an event. The zone of DTSTART is asked near their starts too.
fn reach_each(zones: &mut [Zone], event: &Event, window: &Window)
    ensures { zones.new ≡ zones.old }
{
    for rdate in event.rdates() {
        if let Some(lasting) = lasting_date(event, *rdate, window) {
            reach_at(zones, place_of(event.start), lasting.first);
            reach_at(zones, lasting.place, lasting.first);
            reach_at(zones, lasting.place, lasting.last);
        }
    }
}

/// The zone at a place, if there is one, holds the spans near an instant.
fn reach_at(zones: &mut [Zone], place: Option<usize>, near: Moment)
    ensures { zones.new ≡ zones.old }
{
    let place = place.unwrap_or(usize::MAX);
    if place < zones.len() {
        zones[place].reach(near).ok();
    }
}

/// An RDATE that lasts long: the place of its zone, if it has one, whether it is read in the display zone, and about from when to when it is.
#[derive(Clone, Copy)]
struct LastingDate {
    place: Option<usize>,
    is_shown: bool,
    first: Moment,
    last: Moment,
}

/// The place of the zone of a time, if it has one.
fn place_of(time: Time) -> Option<usize> {
    let index = time.zone?;
    Some(index as usize)
}

/// An RDATE of an event, if it lasts long and can meet a window.
fn lasting_date(event: &Event, rdate: Rdate, window: &Window) -> Option<LastingDate> {
    let (start, lasting) = match rdate {
        Rdate::At(start) => (start, lasting_of(event)),
        Rdate::Span(start, length) => (start, lasting_by(start, length)),
    };
    let first = local_of(start.stamp).seconds();
    let last = first.saturating_add(lasting);
    let is_over = last.saturating_add(LATE) < window.from;
    if lasting < LATE || is_over || window.to.saturating_add(LATE) < first {
        return None;
    }
    Some(LastingDate {
        place: place_of(start),
        is_shown: is_shown(start),
        first,
        last,
    })
}

/// The zones of a file take note of the times that its events ask for again and again.
fn note_named(file: &mut FileEvents, every_day: bool)
    ensures { file.new ≡ file.old }
{
    for k in 0..file.events.len() {
        let event = &file.events[k];
        if every_day || asks_length(event) {
            note_length(&mut file.zones, event);
        }
        if every_day {
            note_rdates(&mut file.zones, event);
            note_exdates(&mut file.zones, event);
        }
    }
}

/// Whether the length of an event is asked for with each of its starts: if it recurs several times a day, or has DTEND.
fn asks_length(event: &Event) -> bool {
    is_dense(event) || (matches!(event.length, Length::Until(_)) && !is_single(event))
}

/// The zones of a file find the instants of the times that they have noted.
fn learn_each(file: &mut FileEvents)
    ensures { file.new ≡ file.old }
{
    for k in 0..file.zones.len() {
        if let Some(zone) = file.zones.get_mut(k) {
            zone.learn();
        }
    }
}

/// The zones take note of a time, if it has one, and some seconds more.
fn note(zones: &mut [Zone], time: Time, more: i64)
    ensures { zones.new ≡ zones.old }
{
    let Some(index) = time.zone else {
        return;
    };
    let place = index as usize;
    if place < zones.len() {
        let seconds = local_of(time.stamp).seconds().saturating_add(more);
        zones[place].note_again(seconds);
    }
}

/// The zones take note of DTSTART and of what tells the length of an event.
fn note_length(zones: &mut [Zone], event: &Event)
    ensures { zones.new ≡ zones.old }
{
    match event.length {
        Length::Open => note(zones, event.start, 0),
        Length::Until(end) => {
            note(zones, event.start, 0);
            note(zones, end, 0);
        }
        Length::Lasting(length) => {
            note(zones, event.start, 0);
            note(zones, event.start, days_of(length));
        }
    }
}

/// The zones take note of the RDATEs of an event, and of where occurrences at them end.
fn note_rdates(zones: &mut [Zone], event: &Event)
    ensures { zones.new ≡ zones.old }
{
    let lasting = match event.length {
        Length::Open | Length::Until(_) => 0,
        Length::Lasting(length) => days_of(length),
    };
    for rdate in event.rdates() {
        match *rdate {
            Rdate::At(time) => {
                note(zones, time, 0);
                note(zones, time, lasting);
            }
            Rdate::Span(start, Length::Until(end)) => {
                note(zones, start, 0);
                note(zones, end, 0);
            }
            Rdate::Span(start, Length::Lasting(length)) => {
                note(zones, start, 0);
                note(zones, start, days_of(length));
            }
            Rdate::Span(start, Length::Open) => note(zones, start, 0),
        }
    }
}

/// The zones take note of the EXDATEs of an event.
fn note_exdates(zones: &mut [Zone], event: &Event)
    ensures { zones.new ≡ zones.old }
{
    for time in event.exdates() {
        note(zones, *time, 0);
    }
}

/// The seconds of the days of a duration. The count stops at the greatest `i64`.
fn days_of(length: Duration) -> i64 {
    let days = i64::try_from(length.days).unwrap_or(i64::MAX);
    days.saturating_mul(DAY)
}

/// The seconds of a duration, if each day has 86,400. The count stops at the greatest `i64`.
fn seconds_of(length: Duration) -> i64 {
    let seconds = i64::try_from(length.seconds).unwrap_or(i64::MAX);
    days_of(length).saturating_add(seconds)
}

/// Where an event asks in a window.
fn asked_by(event: &Event, window: &Window, every_day: bool) -> Asked {
    let (near, from, to) = asked_between(event, window, every_day);
    Asked {
        begun: begun_before(event, window),
        near,
        from,
        to,
    }
}

/// The instants near which, from which on and up to which it asks. In a short window all that may be listed once is near its ends. In a long one, or
/// under each day, an event that starts once asks near its start; one that recurs asks from its start on, if that is not before the window. It also
/// asks near DTSTART if it has DTEND, since both tell how long each occurrence lasts.
fn asked_between(event: &Event, window: &Window, every_day: bool) -> (Moment, Moment, Moment) {
    let (from, to) = (window.from, window.to);
    let first = local_of(event.start.stamp).seconds();
    let is_long = to > from.saturating_add(SHORT);
    if is_single(event) & (is_long | every_day) {
        return (first, Moment::MAX, to);
    }
    if !is_long {
        return (from, from, to);
    }
    let from = from.max(first);
    let to = to.min(recurs_to(event));
    if matches!(event.length, Length::Until(_)) {
        return (first, from, to);
    }
    (from, from, to)
}

/// Whether an event has a rule that can give several starts a day.
fn is_dense(event: &Event) -> bool {
    let Some(rule) = &event.rule else {
        return false;
    };
    let parts = rule.parts();
    parts.frequency.is_finer_than_daily()
        || !parts.hours.is_empty()
        || !parts.minutes.is_empty()
        || !parts.seconds.is_empty()
}

/// About when an occurrence can begin at first that is asked for in a window, since it lasts so long, by a rule that can give several starts a
/// day. Of other rules only few are asked for.
fn begun_before(event: &Event, window: &Window) -> Moment {
    match event.length {
        Length::Lasting(length) if is_dense(event) => {
            let lasting = seconds_of(length);
            window.from.saturating_sub(lasting).saturating_sub(LATE)
        }
        _ => Moment::MAX,
    }
}

/// How many seconds an event lasts about.
fn lasting_of(event: &Event) -> i64 {
    lasting_by(event.start, event.length)
}

/// How many seconds it is about from a start to where a length ends it.
fn lasting_by(start: Time, length: Length) -> i64 {
    match length {
        Length::Open => 0,
        Length::Until(end) => {
            let first = local_of(start.stamp).seconds();
            local_of(end.stamp).seconds().saturating_sub(first).max(0)
        }
        Length::Lasting(length) => seconds_of(length),
    }
}

/// From when to when an event asks again and again in a window, if it lasts long or the window does: one that recurs from the first start that can reach
/// it to the last end of one in it, and one that starts once from its start to its end, if it may be listed under each day. Else an empty span.
fn asked_through(event: &Event, window: &Window, every_day: bool) -> (Moment, Moment) {
    let lasting = lasting_of(event);
    let long = lasting.max(window.to.saturating_sub(window.from));
    if long < SHORT {
        return NOWHERE;
    }
    let first = local_of(event.start.stamp).seconds();
    let from = window.from.saturating_sub(lasting).saturating_sub(LATE);
    if is_single(event) {
        let is_near = from <= first && first <= window.to.saturating_add(LATE);
        if !every_day || lasting < SHORT || !is_near {
            return NOWHERE;
        }
        let end = first.saturating_add(lasting);
        return (first.saturating_sub(LATE), end.saturating_add(LATE));
    }
    recurs_through(event, window)
}

/// From when to when an event that recurs asks in a window: from the first start that can reach it to the last end of one in it.
fn recurs_through(event: &Event, window: &Window) -> (Moment, Moment) {
    let lasting = lasting_of(event);
    let first = local_of(event.start.stamp).seconds();
    let from = window.from.saturating_sub(lasting).saturating_sub(LATE);
    let to = window.to.saturating_add(lasting).saturating_add(LATE);
    (from.max(first), to)
}

/// An instant after the starts by a rule with UNTIL: the third midnight after that day. Without UNTIL it is the last instant.
fn recurs_to(event: &Event) -> Moment {
    let Some(rule) = &event.rule else {
        return Moment::MAX;
    };
    let day = match rule.parts().until {
        None => return Moment::MAX,
        Some(Until::Date(day)) => day,
        Some(Until::Local(local) | Until::Utc(local)) => local.day,
    };
    (i64::from(day) + 3) * DAY
}

/// Prepares a zone where it is asked.
fn prepare(zone: &mut Zone, asked: Asked)
    ensures { zone.new ≡ zone.old }
{
    if asked.begun < asked.near {
        zone.reach(asked.begun).ok();
        zone.reach(asked.near.saturating_sub(LATE)).ok();
    }
    if asked.near < asked.from {
        zone.reach(asked.near).ok();
    }
    if asked.from < asked.to {
        zone.reach_between(asked.from, asked.to);
    }
}
