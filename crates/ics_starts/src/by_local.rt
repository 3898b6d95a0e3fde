//! The EXDATEs and RDATEs of an event in the order of their locals, so that those near a window are found without a look at each of them.
ghost use Rattle.std.specs.Prelude.{◌≡◌, ◌<◌, ◌+ℤ◌, ◌-ℤ◌, ℤ, length, slice_get, true, IfOk, List, Some};
ghost use Rattle.ics_event.specs.Event.{IsRdate, Rdate};
ghost use Rattle.ics_fields.specs.Locals.{whole_days};
ghost use Rattle.ics_zone.specs.Seconds.{IsMoment};
ghost use Rattle.ics_starts.specs.Inner.ByLocal.{count_in, exdate_locals, place_in, rdate_locals, AreByLocal, AreLastingBy};
ghost use Rattle.ics_starts.specs.Inner.ByLocal.{AreKnown, AreKnownOf, AreNearIn, AreEndedBy, AreNext, AreNextIn, AreSpansNear, HasDates};
ghost use Rattle.ics_starts.specs.Inner.ByLocal.{IsEndedBy};
ghost use Rattle.ics_starts.specs.Starts.{given_by};

use crate::instants::TWO_DAYS;
use crate::listed::{given_by, span_local};
use crate::starts::FOUR_DAYS;
use ics_event::{Event, Rdate};
use ics_listing::{local_of, time_of};
use ics_values::Moment;
use std::alloc::{AllocError, Global};

/// So many values or fewer are looked at one by one.
const FEW: usize = 16;

/// A place in a list, with the local of the time that stands there, in seconds.
#[derive(Clone, Copy)]
pub(crate) struct PlacedLocal {
    pub(crate) local: Moment,
    pub(crate) place: usize,
}

/// Places of a list: all of one that has so many, or some.
#[derive(Clone, Copy)]
pub(crate) enum Places<'a> {
    All(usize),
    Near(&'a [PlacedLocal]),
}

impl Places<'_> {
    /// How many they are.
    pub(crate) fn count(self) -> usize
        ensures { result ≡ count_in self.entry }
    {
        match self {
            Places::All(count) => count,
            Places::Near(places) => places.len(),
        }
    }

    /// One of them.
    pub(crate) fn at(self, k: usize) -> usize
        requires { k < count_in self }
        ensures { result ≡ place_in self.entry k }
    {
        match self {
            Places::All(_) => k,
            Places::Near(places) => places[k].place,
        }
    }
}

/// The places of an event's EXDATEs and RDATEs, in the order of their locals.
#[derive(Drop)]
pub(crate) struct DatesByLocal {
    exdates: Vec<PlacedLocal>,
    rdates: Vec<PlacedLocal>,
    /// No PERIOD's local end is more seconds after its local start.
    longest: i64,
    /// For each RDATE a local after which it neither begins nor ends, if it is a PERIOD.
    lasts: Vec<Moment>,
}

impl DatesByLocal {
    /// Those of an event, unless they are few.
    pub(crate) fn new(alloc: Global, event: &Event) -> Result<Option<Box<DatesByLocal>>, AllocError>
        ensures { IfOk result (HasDates event.now) }
    {
        if event.exdates().len() <= FEW && event.rdates().len() <= FEW {
            return Ok(None);
        }
        let dates = DatesByLocal {
            exdates: exdates_by_local(alloc, event)?,
            rdates: rdates_by_local(alloc, event)?,
            longest: longest(event),
            lasts: lasts(alloc, event)?,
        };
        Ok(Some(Box::new(alloc, dates)?))
    }
}

/// The places of the EXDATEs of an event, in the order of their locals.
fn exdates_by_local(alloc: Global, event: &Event) -> Result<Vec<PlacedLocal>, AllocError>
    ensures { IfOk result (λ places. AreByLocal (exdate_locals event.now) places.items) }
{
    let mut places = Vec::new(alloc);
    for (place, exdate) in event.exdates().iter().enumerate() {
        let local = local_of(exdate.stamp).seconds();
        places.push(PlacedLocal { local, place })?;
    }
    places.sort_unstable_by_key(|placed| placed.local);
    Ok(places)
}

/// The places of the RDATEs of an event, in the order of the locals of the times at which they start it.
fn rdates_by_local(alloc: Global, event: &Event) -> Result<Vec<PlacedLocal>, AllocError>
    ensures { IfOk result (λ places. AreByLocal (rdate_locals event.now) places.items) }
{
    let mut places = Vec::new(alloc);
    for (place, rdate) in event.rdates().iter().enumerate() {
        let given = given_by(event.start, *rdate);
        let local = local_of(time_of(given).stamp).seconds();
        places.push(PlacedLocal { local, place })?;
    }
    places.sort_unstable_by_key(|placed| placed.local);
    Ok(places)
}

/// How many seconds a PERIOD of an event has by its locals, at most.
fn longest(event: &Event) -> i64
    ensures { AreLastingBy event.now result }
{
    let mut most = 0;
    for rdate in event.rdates() {
        if let Rdate::Span(start, length) = given_by(event.start, *rdate) {
            let local = local_of(start.stamp).seconds();
            most = most.max(span_local(start, length) - local);
        }
    }
    most
}

/// A local after which what starts an event neither begins nor ends, if it is a PERIOD.
fn last_of(given: Rdate) -> Moment
    requires { IsRdate given }
    ensures { IsEndedBy result given }
{
    match given {
        Rdate::At(_) => Moment::MIN,
        Rdate::Span(start, length) => {
            let local = local_of(start.stamp).seconds();
            local.max(span_local(start, length))
        }
    }
}

/// The same of each RDATE of an event.
fn lasts(alloc: Global, event: &Event) -> Result<Vec<Moment>, AllocError>
    ensures { IfOk result (λ lasts. AreEndedBy event.now lasts.items) }
{
    let mut lasts = Vec::new(alloc);
    for rdate in event.rdates() {
        lasts.push(last_of(given_by(event.start, *rdate)))?;
    }
    Ok(lasts)
}

/// Whether an RDATE is known to be a PERIOD that neither begins nor ends after a local, or none.
pub(crate) fn has_ended(dates: &Option<Box<DatesByLocal>>, place: usize, by: Moment) -> bool
    ensures { (event : Event) (rdate : Rdate) → HasDates event dates.now → result ≡ true → slice_get event.rdates place ≡ Some rdate
        → IsEndedBy by (given_by event.start rdate) }
{
    let Some(dates) = dates else {
        return false;
    };
    match dates.lasts.get(place) {
        None => false,
        Some(last) => *last <= by,
    }
}

/// Those of some places whose locals are from one on and before another.
fn between(places: &[PlacedLocal], from: Moment, to: Moment) -> &[PlacedLocal]
    ensures { (locals : List ℤ) → AreByLocal locals places.now → AreNearIn locals from to result.now }
{
    let first = places.partition_point(|placed| placed.local < from);
    let behind = &places[first..];
    let count = behind.partition_point(|placed| placed.local < to);
    &behind[..count]
}

/// Those of some places whose locals are less than four days before an instant or past it or another, or between.
fn about(places: &[PlacedLocal], from: Moment, to: Moment) -> &[PlacedLocal]
    ensures { (locals : List ℤ) → AreByLocal locals places.now → AreNearIn locals (from -ℤ whole_days 4) (to +ℤ whole_days 4) result.now }
{
    let first = from.saturating_sub(FOUR_DAYS);
    let end = to.saturating_add(FOUR_DAYS);
    between(places, first, end)
}

/// The places, in their order, of those of a list whose locals are less than four days from an instant before an end that is from one on or one of some. None
/// if they are many: then all are read sooner.
fn near_known(
    alloc: Global,
    places: &[PlacedLocal],
    from: Moment,
    running: &[Moment],
    to: Moment,
) -> Result<Option<Vec<PlacedLocal>>, AllocError>
    ensures { IfOk result (λ near. (locals : List ℤ) → AreByLocal locals places.now → AreKnownOf locals from running.now to near) }
{
    let most = FEW.max(places.len() / 4);
    let mut near = Vec::new(alloc);
    for moment in running {
        near.extend_from_slice(about(places, *moment, *moment))?;
        if near.len() > most {
            return Ok(None);
        }
    }
    near.extend_from_slice(about(places, from, to))?;
    if near.len() > most {
        return Ok(None);
    }
    near.sort_unstable_by_key(|placed| placed.place);
    Ok(Some(near))
}

/// The places, in their order, of the EXDATEs of an event whose locals are less than four days from an instant before an end that is from one on or one
/// of some, and it may be of others. None if all are to be looked at.
pub(crate) fn near_exdates(
    alloc: Global,
    dates: &Option<Box<DatesByLocal>>,
    event: &Event,
    from: Moment,
    running: &[Moment],
    to: Moment,
) -> Result<Option<Vec<PlacedLocal>>, AllocError>
    requires { HasDates event.now dates.now }
    ensures { IfOk result (AreKnownOf (exdate_locals event.now) from running.now to) }
{
    match dates {
        None => Ok(None),
        Some(dates) => near_known(alloc, &dates.exdates, from, running, to),
    }
}

/// The same of the RDATEs.
pub(crate) fn near_rdates(
    alloc: Global,
    dates: &Option<Box<DatesByLocal>>,
    event: &Event,
    from: Moment,
    running: &[Moment],
    to: Moment,
) -> Result<Option<Vec<PlacedLocal>>, AllocError>
    requires { HasDates event.now dates.now }
    ensures { IfOk result (AreKnownOf (rdate_locals event.now) from running.now to) }
{
    match dates {
        None => Ok(None),
        Some(dates) => near_known(alloc, &dates.rdates, from, running, to),
    }
}

/// Some places of a list that has so many or, without them, all.
pub(crate) fn or_all(near: &Option<Vec<PlacedLocal>>, count: usize) -> Places<'_>
    ensures { (locals : List ℤ) (from : ℤ) (running : List ℤ) (to : ℤ) → length locals ≡ count → AreKnownOf locals from running to near.now
        → AreKnown locals from running to result }
{
    match near {
        None => Places::All(count),
        Some(near) => Places::Near(near),
    }
}

/// The places of the RDATEs of an event, all PERIODs among them that begin or end after a local and begin before another.
pub(crate) fn near_spans<'a>(
    dates: &'a Option<Box<DatesByLocal>>,
    event: &Event,
    by: Moment,
    to: Moment,
) -> Places<'a>
    requires dates { HasDates event.now dates.now }
    requires by { IsMoment by }
    ensures { AreSpansNear event.now by to result }
{
    match dates {
        None => Places::All(event.rdates().len()),
        Some(dates) => Places::Near(between(&dates.rdates, by - dates.longest, to)),
    }
}

/// The places of the RDATEs of an event from two days before an instant on, as far as one of them may be the next.
pub(crate) fn next_rdates<'a>(
    dates: &'a Option<Box<DatesByLocal>>,
    event: &Event,
    from: Moment,
) -> Places<'a>
    requires dates { HasDates event.now dates.now }
    requires from { IsMoment from }
    ensures { AreNext (rdate_locals event.now) from result }
{
    match dates {
        None => Places::All(event.rdates().len()),
        Some(dates) => Places::Near(next_of(&dates.rdates, from)),
    }
}

/// Of some places, those from two days before an instant on, up to four days past the first that is two days past it.
fn next_of(places: &[PlacedLocal], from: Moment) -> &[PlacedLocal]
    requires { IsMoment from }
    ensures { (locals : List ℤ) → AreByLocal locals places.now → AreNextIn locals from result.now }
{
    let past = from + TWO_DAYS;
    let count = places.partition_point(|placed| placed.local < past);
    let end = match places.get(count) {
        None => past,
        Some(first) => first.local.saturating_add(FOUR_DAYS),
    };
    between(places, from - TWO_DAYS, end)
}
