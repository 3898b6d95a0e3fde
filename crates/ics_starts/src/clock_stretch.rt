//! Stretches of clocks that are known, by which the instants of times are told.
ghost use Rattle.std.specs.Prelude.{◌≡◌, true, IfSome};
ghost use Rattle.ics_listing.specs.FileClocks.{Clocks};
ghost use Rattle.ics_starts.specs.Clocks.{clock_of, instant};
ghost use Rattle.ics_starts.specs.Inner.ClockStretches.{AreKnown, AreStretches, IsStretchOf};
ghost use Rattle.ics_starts.specs.FileZones.{clocks_in, IsTimeOf};

use crate::instants::{instant, instant_in, is_in, stretch};
use crate::zones::FileZones;
use ics_event::Time;
use ics_listing::local_of;
use ics_values::{Moment, Stamp};
use ics_zone::Stretch;

/// So many instants are asked for before a stretch is, which takes as long as several of them.
const BETWEEN: u8 = 16;

/// A stretch of the locals of the clock by which a time is read.
#[derive(Clone, Copy)]
struct ClockStretch {
    time: Time,
    stretch: Stretch,
}

/// The two stretches that were known last. They may be one.
#[derive(Clone, Copy)]
struct LastStretches {
    last: ClockStretch,
    other: ClockStretch,
}

/// What is known of clocks that were asked for instants.
#[derive(Drop)]
pub(crate) struct ClockStretches {
    /// So many instants are asked for before the next stretch is.
    waits: u8,
    last: Option<LastStretches>,
}

/// Whether two times are read by one clock, which is not that of UTC.
pub(crate) fn have_one_clock(a: Time, b: Time) -> bool
    ensures { result ≡ true → (clocks : Clocks) → clock_of clocks a ≡ clock_of clocks b }
{
    match (a.stamp, b.stamp) {
        (Stamp::Date(_) | Stamp::Floating(_), Stamp::Date(_) | Stamp::Floating(_)) => true,
        (Stamp::Zoned(_), Stamp::Zoned(_)) => a.zone == b.zone,
        _ => false,
    }
}

impl ClockStretch {
    /// The instant of a time, if the stretch is of its clock and has its local.
    #[inline(always)]
    fn told(&self, zones: FileZones<'_>, time: Time) -> Option<Moment>
        requires time { IsTimeOf zones.zones.now time }
        requires stretch { IsStretchOf (clocks_in zones) self.now }
        ensures { IfSome result (λ t. t ≡ instant (clocks_in zones.entry) time) }
    {
        if is_in(self.stretch, local_of(time.stamp).seconds()) && have_one_clock(self.time, time) {
            Some(instant_in(zones, self.stretch, time))
        } else {
            None
        }
    }
}

impl LastStretches {
    /// The instant of a time, if one of them tells it.
    fn told(&self, zones: FileZones<'_>, time: Time) -> Option<Moment>
        requires time { IsTimeOf zones.zones.now time }
        requires stretches { AreStretches (clocks_in zones) self.now }
        ensures { IfSome result (λ t. t ≡ instant (clocks_in zones.entry) time) }
    {
        if let Some(moment) = self.last.told(zones, time) {
            return Some(moment);
        }
        self.other.told(zones, time)
    }

    /// The last of these and one after it.
    fn with(self, last: ClockStretch) -> LastStretches
        ensures { (clocks : Clocks) → AreStretches clocks self → IsStretchOf clocks last → AreStretches clocks result }
    {
        LastStretches {
            last,
            other: self.last,
        }
    }

    /// One alone.
    fn one(last: ClockStretch) -> LastStretches
        ensures { (clocks : Clocks) → IsStretchOf clocks last → AreStretches clocks result }
    {
        LastStretches { last, other: last }
    }
}

impl ClockStretches {
    /// None is known.
    pub(crate) fn none() -> ClockStretches
        ensures { (clocks : Clocks) → AreKnown clocks result }
    {
        ClockStretches {
            waits: BETWEEN,
            last: None,
        }
    }
}

/// The instant of a time by a stretch of its clock about its local. If it tells that, it is known from then on.
fn instant_anew(zones: FileZones<'_>, time: Time, known: &mut ClockStretches) -> Moment
    requires time { IsTimeOf zones.zones.now time }
    requires known { AreKnown (clocks_in zones) known.old }
    ensures known { AreKnown (clocks_in zones.entry) known.new }
    ensures instant { result ≡ instant (clocks_in zones.entry) time }
{
    let local = local_of(time.stamp).seconds();
    let stretch = stretch(zones, time, local);
    known.waits = BETWEEN;
    if !is_in(stretch, local) {
        return instant(zones, time);
    }
    let last = ClockStretch { time, stretch };
    known.last = match known.last {
        None => Some(LastStretches::one(last)),
        Some(stretches) => Some(stretches.with(last)),
    };
    instant_in(zones, stretch, time)
}

/// The instant of a time, where stretches may be known, or where one is to be asked for.
#[inline(never)]
fn instant_told(zones: FileZones<'_>, time: Time, known: &mut ClockStretches) -> Moment
    requires time { IsTimeOf zones.zones.now time }
    requires known { AreKnown (clocks_in zones) known.old }
    ensures known { AreKnown (clocks_in zones.entry) known.new }
    ensures instant { result ≡ instant (clocks_in zones.entry) time }
{
    if let Stamp::Utc(local) = time.stamp {
        return local.seconds();
    }
    if let Some(stretches) = &known.last {
        if let Some(moment) = stretches.told(zones, time) {
            return moment;
        }
    }
    if known.waits > 0 {
        known.waits -= 1;
        return instant(zones, time);
    }
    instant_anew(zones, time, known)
}

/// The instant of a time. Its clock is asked only where no known stretch tells it.
#[inline(never)]
pub(crate) fn instant_by(zones: FileZones<'_>, time: Time, known: &mut ClockStretches) -> Moment
    requires time { IsTimeOf zones.zones.now time }
    requires known { AreKnown (clocks_in zones) known.old }
    ensures known { AreKnown (clocks_in zones.entry) known.new }
    ensures instant { result ≡ instant (clocks_in zones.entry) time }
{
    if known.last.is_none() && known.waits > 0 {
        known.waits -= 1;
        return instant(zones, time);
    }
    instant_told(zones, time, known)
}
