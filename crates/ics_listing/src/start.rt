//! The starts of an event and what gives them.
ghost use Rattle.std.specs.Prelude.{◌≡◌};
ghost use Rattle.ics_listing.specs.StartTimes.{date_only, local_of, time_at, time_of};

use ics_event::{Rdate, Time};
use ics_values::{Local, Moment, Stamp};
use std::cmp::Ordering;

/// What gives an event a start: a local, which is that of DTSTART or kept by the rule, or the value of
/// an RDATE, by its place among them.
#[derive(Clone, Copy)]
pub enum StartSource {
    Kept(Local),
    Listed(usize),
}

/// A start of an event: its instant, what gives it, and the value that it gives.
#[derive(Clone, Copy)]
pub struct Start {
    pub moment: Moment,
    pub source: StartSource,
    pub given: Rdate,
}

impl Start {
    ghost use Rattle.ics_listing.specs.StartOrder.{start_cmp};

    /// By instant, then by what gives the start: locals come first, in their order, and then RDATEs in
    /// the order of the file.
    pub fn compare(a: &Start, b: &Start) -> Ordering
        ensures { result ≡ start_cmp a.now b.now }
    {
        match (a.moment.cmp(&b.moment), a.source, b.source) {
            (Ordering::Equal, StartSource::Kept(a), StartSource::Kept(b)) => a.cmp(&b),
            (Ordering::Equal, StartSource::Kept(_), StartSource::Listed(_)) => Ordering::Less,
            (Ordering::Equal, StartSource::Listed(_), StartSource::Kept(_)) => Ordering::Greater,
            (Ordering::Equal, StartSource::Listed(a), StartSource::Listed(b)) => a.cmp(&b),
            (order, _, _) => order,
        }
    }
}

/// The time at which a value of an RDATE begins.
pub fn time_of(rdate: Rdate) -> Time
    ensures { result ≡ time_of rdate }
{
    match rdate {
        Rdate::At(time) | Rdate::Span(time, _) => time,
    }
}

/// The date of a time.
pub fn date_of(time: Time) -> Time
    ensures { result ≡ date_only time }
{
    Time {
        stamp: Stamp::Date(local_of(time.stamp).day),
        zone: None,
    }
}

/// The local of a stamp. That of a date is its midnight.
pub fn local_of(stamp: Stamp) -> Local
    ensures { result ≡ local_of stamp }
{
    match stamp {
        Stamp::Date(day) => Local::at(day, 0),
        Stamp::Floating(local) | Stamp::Utc(local) | Stamp::Zoned(local) => local,
    }
}

/// The time of the same kind, in the same zone, at another local.
pub fn time_at(time: Time, local: Local) -> Time
    ensures { result ≡ time_at time local }
{
    let stamp = match time.stamp {
        Stamp::Date(_) => Stamp::Date(local.day),
        Stamp::Floating(_) => Stamp::Floating(local),
        Stamp::Utc(_) => Stamp::Utc(local),
        Stamp::Zoned(_) => Stamp::Zoned(local),
    };
    Time {
        stamp,
        zone: time.zone,
    }
}
