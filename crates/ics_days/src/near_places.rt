//! The places of the versions of which something can be near a day.
ghost use Rattle.std.specs.Prelude.{◌≡◌, ◌<◌, ◌≤◌, ◌≤ℤ◌, ℕ, drop, false, filter, fold, length, not, slice_get, take, ◌↔◌, IfOk, OnErr, OnOk, Some};
ghost use Rattle.std.specs.BTreeSet.{insert_key};
ghost use Rattle.std.specs.List.{AllByRecursion};
ghost use Rattle.std.specs.Ordering.{nat_cmp};
ghost use Rattle.ics_listing.specs.Listing.{IsIn};
ghost use Rattle.ics_listing.specs.Rising.{Rises, Rises-prop};
ghost use Rattle.ics_listing.specs.declared.window.Window.{Window};
ghost use Rattle.ics_days.specs.NearPlaces.{AreBelow, AreReached, AreTaken, BeginInTurn, WaitBelow};
ghost use Rattle.ics_days.specs.NearPlaces.{ended_of, first_of, is_far, put_at, sooner_of, waiting_cmp};
ghost use Rattle.ics_days.specs.NearPlaces.{below-prop, in-turn-prop, wait-below-prop};
ghost use Rattle.ics_days.specs.Spans.{can_meet};
ghost use Rattle.ics_days.specs.declared.near_places.WaitingPlace.{WaitingPlace};
ghost use Rattle.ics_days.specs.declared.span.Span.{Span};

use crate::span::{Span, first_at};
use ics_listing::Window;
use ics_values::Moment;
use std::alloc::{AllocError, Global};
use std::collections::BTreeSet;

/// From how long after a window's end on a span begins far from it, in seconds. A place whose span begins sooner stays near: to look
/// at it for some days takes less than to put it in order among others and to take it back.
const AHEAD: i64 = 8 * 86_400;

/// A place with the instant with which its span begins.
#[derive(Clone, Copy, PartialEq, Eq, PartialOrd, Ord)]
pub struct WaitingPlace {
    first: Moment,
    place: usize,
}

/// The places of those spans that can meet a window, and those of the spans that begin later.
#[derive(Drop)]
pub struct NearPlaces {
    // The places of those that can meet the window, and maybe of others.
    pub near: Vec<usize>,
    // The places of all, in the order in which their spans began at first.
    waiting: Vec<WaitingPlace>,
    // How many of these were taken: the others begin later.
    taken: usize,
    // The places of those that were near and wait again, since their spans begin much later by now.
    returned: BTreeSet<WaitingPlace>,
    ghost rising: { Rises nat_cmp near.items } by { Rises-prop nat_cmp near.items },
    ghost below: { AreBelow (length waiting.items) near.items } by { below-prop (length waiting.items) near.items },
    ghost ordered: { BeginInTurn waiting.items } by { in-turn-prop waiting.items },
    ghost waiting_below: { WaitBelow (length waiting.items) waiting.items } by { wait-below-prop (length waiting.items) waiting.items },
    ghost returned_below: { WaitBelow (length waiting.items) returned.keys } by { wait-below-prop (length waiting.items) returned.keys },
}

impl NearPlaces {
    ghost use Rattle.ics_days.specs.HasPlaces.{count_of, HasPlaces};

    /// Those of these spans, of which none was reached yet.
    pub fn new(alloc: Global, spans: &[Span]) -> Result<NearPlaces, AllocError>
        ensures count { IfOk result (λ places. count_of places ≡ length spans.entry.now) }
        ensures has { IfOk result (λ places. (w : Window) → HasPlaces places spans.entry.now w) }
    {
        let mut waiting = waiting_of(alloc, spans)?;
        waiting.sort_unstable_by(|a, b| a.first.cmp(&b.first));
        Ok(NearPlaces {
            near: Vec::new(alloc),
            waiting,
            taken: 0,
            returned: BTreeSet::new(alloc),
        })
    }

    /// Goes on to a window that begins no earlier. What ended before it is left behind, what begins long after it waits again, and what
    /// begins before its end is near.
    #[inline(always)]
    pub fn reach(&mut self, spans: &[Span], window: &Window) -> Result<(), AllocError>
        ensures count { count_of self.new ≡ count_of self.old }
        ensures has { (w : Window) → window.entry.now.from ≤ℤ w.from → HasPlaces self.old spans.entry.now w → HasPlaces self.new spans.entry.now w }
        ensures reached { OnOk result (HasPlaces self.old spans.entry.now window.entry.now → AreReached self.new.near.items spans.entry.now window.entry.now) }
    {
        let far = window.to.saturating_add(AHEAD);
        put_back(&mut self.returned, &self.near, spans, far)?;
        leave(&mut self.near, spans, window.from, far);
        let before = self.near.len();
        let taken = take(&mut self.near, &self.waiting, &mut self.taken, window.to);
        let back = take_back(&mut self.near, &mut self.returned, window.to);
        arrange(&mut self.near, before);
        taken.and(back)
    }

    /// An instant by which nothing has begun of what has not ended before another, or the end if that is earlier.
    pub fn first(&self, spans: &[Span], end: Moment, from: Moment) -> Moment
        ensures end { result ≤ℤ end }
        ensures none { (w : Window) → from ≤ℤ w.from → w.to ≤ℤ result → HasPlaces self.now spans.now w → (k : ℕ) (s : Span)
            → slice_get spans.now k ≡ Some s → can_meet s w ≡ false }
    {
        let first = first_waiting(&self.waiting, self.taken, end);
        let first = first_returned(&self.returned, first);
        first_near(spans, &self.near, first, from)
    }
}

/// The places of spans, each with the instant with which its span begins.
fn waiting_of(alloc: Global, spans: &[Span]) -> Result<Vec<WaitingPlace>, AllocError>
    ensures count { IfOk result (λ waiting. length waiting.items ≡ length spans.entry.now) }
    ensures below { IfOk result (λ waiting. WaitBelow (length spans.entry.now) waiting.items) }
    ensures each { IfOk result (λ waiting. (k : ℕ) (s : Span) → slice_get spans.entry.now k ≡ Some s
        → IsIn (record { first = s.first; place = k }) waiting.items) }
{
    let mut waiting = Vec::new(alloc);
    for (place, span) in spans.iter().enumerate() {
        waiting.push(WaitingPlace {
            first: span.first,
            place,
        })?;
    }
    Ok(waiting)
}

/// Puts those places among those that wait again whose spans begin at an instant or later.
#[inline(always)]
fn put_back(
    returned: &mut BTreeSet<WaitingPlace>,
    near: &[usize],
    spans: &[Span],
    far: Moment,
) -> Result<(), AllocError>
    ensures some { (n : ℕ) × (returned.new.keys ≡ fold (put_at spans.entry.now far) returned.old.keys (take n near.entry.now)) }
    ensures ok { OnOk result (returned.new.keys ≡ fold (put_at spans.entry.now far) returned.old.keys near.entry.now) }
{
    for place in near {
        put_at(returned, spans, *place, far)?;
    }
    Ok(())
}

/// Puts a place among those that wait again, if its span begins at an instant or later.
#[inline(always)]
fn put_at(
    returned: &mut BTreeSet<WaitingPlace>,
    spans: &[Span],
    place: usize,
    far: Moment,
) -> Result<(), AllocError>
    ensures ok { OnOk result (returned.new.keys ≡ put_at spans.entry.now far returned.old.keys place) }
    ensures err { OnErr result (returned.new.keys ≡ returned.old.keys) }
{
    let first = first_at(spans, place);
    if far <= first {
        put(returned, WaitingPlace { first, place })?;
    }
    Ok(())
}

/// Puts a place among those that wait again.
#[inline(never)]
fn put(returned: &mut BTreeSet<WaitingPlace>, place: WaitingPlace) -> Result<(), AllocError>
    ensures ok { OnOk result (returned.new.keys ≡ insert_key waiting_cmp returned.old.keys place) }
    ensures err { OnErr result (returned.new.keys ≡ returned.old.keys) }
{
    returned.insert(place)?;
    Ok(())
}

/// Leaves those places behind whose spans ended before an instant, or begin at another or later.
fn leave(near: &mut Vec<usize>, spans: &[Span], from: Moment, far: Moment)
    ensures { near.new.items ≡ filter (λ k. not (is_far spans.now k from far)) near.old.items }
{
    near.retain(|place| !is_far(spans, *place, from, far));
}

/// Whether the span at a place, if there is one there, ended before an instant, or begins at another or later.
fn is_far(spans: &[Span], place: usize, from: Moment, far: Moment) -> bool
    ensures { result ≡ is_far spans.now place from far }
{
    has_ended(spans, place, from) | (far <= first_at(spans, place))
}

/// Whether the span at a place, if there is one there, ended before an instant.
fn has_ended(spans: &[Span], place: usize, from: Moment) -> bool
    ensures { result ≡ ended_of (slice_get spans.now place) from }
{
    match spans.get(place) {
        None => true,
        Some(span) => span.last < from,
    }
}

/// Takes those of the places that wait, from the first that was not taken on, that begin before an instant.
fn take(
    near: &mut Vec<usize>,
    waiting: &[WaitingPlace],
    taken: &mut usize,
    to: Moment,
) -> Result<(), AllocError>
    requires { BeginInTurn waiting.now }
    ensures taken { AreTaken (drop taken.old waiting.entry.now) (drop taken.new waiting.entry.now) near.old.items near.new.items }
    ensures later { OnOk result (AllByRecursion (λ x. to ≤ℤ x.first) (drop taken.new waiting.entry.now)) }
{
    while let Some(one) = waiting.get(*taken) {
        if to <= one.first {
            break;
        }
        near.push(one.place)?;
        *taken += 1;
    }
    Ok(())
}

/// Takes those of the places that wait again that begin before an instant.
#[inline(always)]
fn take_back(
    near: &mut Vec<usize>,
    returned: &mut BTreeSet<WaitingPlace>,
    to: Moment,
) -> Result<(), AllocError>
    ensures taken { AreTaken returned.old.keys returned.new.keys near.old.items near.new.items }
    ensures later { OnOk result (AllByRecursion (λ x. to ≤ℤ x.first) returned.new.keys) }
{
    while let Some(one) = returned.first() {
        if to <= one.first {
            break;
        }
        near.push(one.place)?;
        returned.pop_first();
    }
    Ok(())
}

/// Puts places in order, each once, if there are more than so many, and those before were in order.
fn arrange(near: &mut Vec<usize>, before: usize)
    requires { Rises nat_cmp (take before near.old.items) }
    ensures rises { Rises nat_cmp near.new.items }
    ensures same { (k : ℕ) → IsIn k near.new.items ↔ IsIn k near.old.items }
{
    if before < near.len() {
        near.sort_unstable();
        near.dedup();
    }
}

/// The first instant for which a place waits, from the first that was not taken on, or the end if that is earlier.
fn first_waiting(waiting: &[WaitingPlace], taken: usize, end: Moment) -> Moment
    requires { BeginInTurn waiting.now }
    ensures end { result ≤ℤ end }
    ensures each { AllByRecursion (λ x. result ≤ℤ x.first) (drop taken waiting.now) }
{
    match waiting.get(taken) {
        None => end,
        Some(one) => end.min(one.first),
    }
}

/// The first instant for which a place waits again, or the end if that is earlier.
fn first_returned(returned: &BTreeSet<WaitingPlace>, end: Moment) -> Moment
    ensures end { result ≤ℤ end }
    ensures each { AllByRecursion (λ x. result ≤ℤ x.first) returned.now.keys }
{
    match returned.first() {
        None => end,
        Some(one) => end.min(one.first),
    }
}

/// The earliest of an instant and of the beginnings of the spans at places that have not ended before another.
fn first_near(spans: &[Span], near: &[usize], start: Moment, from: Moment) -> Moment
    ensures { result ≡ first_of from start spans.now near.now }
{
    let mut first = start;
    for place in near {
        first = sooner_at(first, spans, *place, from);
    }
    first
}

/// The earlier of an instant and of the beginning of the span at a place, if there is one there that has not ended before another.
fn sooner_at(first: Moment, spans: &[Span], place: usize, from: Moment) -> Moment
    ensures { result ≡ sooner_of from first (slice_get spans.now place) }
{
    if has_ended(spans, place, from) {
        first
    } else {
        first.min(first_at(spans, place))
    }
}

/// The places of so many versions.
pub fn all_places(alloc: Global, count: usize) -> Result<Vec<usize>, AllocError>
    ensures rises { IfOk result (λ places. Rises nat_cmp places.items) }
    ensures below { IfOk result (λ places. AreBelow count places.items) }
    ensures all { IfOk result (λ places. (k : ℕ) → k < count → IsIn k places.items) }
{
    let mut places = Vec::new(alloc);
    for place in 0..count {
        places.push(place)?;
    }
    Ok(places)
}
