//! The clock at a place.
ghost use Rattle.std.specs.Prelude.{◌≡◌, ◌+ℤ◌, ◌-ℤ◌, ℤ, pos};
ghost use Rattle.ics_zone.specs.Seconds.{IsMoment, IsDay};
ghost use Rattle.ics_fields.specs.Locals.{seconds_at};

use crate::{Bounds, Spans, Stretch};
use ics_fields::{Local, Moment};

/// The clock at a place: the offset from UTC at each instant, and the instant that each local means
/// (RFC 5545, sections 3.3.5 and 3.6.5). Contracts see a local as one number: the seconds since
/// 1970-01-01T00:00:00, each day having 86,400. Callers stay in the years 0000 to 9950.
pub trait Place {
    ghost use Rattle.std.specs.Prelude.{◌≡◌, ◌-ℤ◌, ℤ, IfSome};
    ghost use Rattle.ics_zone.specs.Bounds.{HasBounds};
    ghost use Rattle.ics_zone.specs.Seconds.{IsNear};
    ghost use Rattle.ics_zone.specs.Spans.{AreSpans};
    ghost use Rattle.ics_zone.specs.Stretches.{IsStretch};

    /// The offset at an instant, in seconds.
    ghost offset_at: { Self → ℤ → ℤ };

    /// The instant that a local means.
    ghost moment_at: { Self → ℤ → ℤ };

    /// The last instant for which the offset is known: the greatest there is.
    fn reached(&self) -> Moment
        ensures { result ≡ pos 9_223_372_036_854_775_807 }
    {
        Moment::MAX
    }

    /// How many seconds the place's clock is ahead of UTC at an instant; negative if it is behind.
    fn offset(&self, moment: Moment) -> i32
        requires { IsMoment moment }
        ensures { result ≡ offset_at self.now moment };

    /// The instant that a local means.
    fn moment(&self, local: Local) -> Moment
        requires { IsDay local.day }
        ensures { result ≡ moment_at self.now (seconds_at local.day local.second) };

    /// The local that the place's clock shows at an instant: the instant moved by its offset.
    fn local(&self, moment: Moment) -> Local
        requires { IsMoment moment }
        ensures { seconds_at result.day result.second ≡ moment +ℤ offset_at self.now moment }
    {
        Local::of_seconds(moment + i64::from(self.offset(moment)))
    }

    /// Two offsets between which all offsets of the place lie.
    fn bounds(&self) -> Bounds
        ensures { HasBounds (offset_at self.now) (moment_at self.now) result.least result.most };

    /// A stretch of locals about one, given by its seconds, that the place's clock shows, or skips, by one offset. It is made to save questions, and
    /// may be empty.
    fn stretch(&self, local: Moment) -> Stretch
        requires { IsMoment local }
        ensures { IsStretch (offset_at self.now) (moment_at self.now) result };

    /// The spans about a local, given by its seconds, and some days on. None if the clock tells stretches as well without them.
    fn spans(&self, local: Moment) -> Option<Spans>
        requires { IsMoment local }
        ensures { IfSome result (AreSpans (offset_at self.now) (moment_at self.now)) };

    /// An offset is less than two days.
    ghost near: { (place : Self) (moment : ℤ) → IsNear (offset_at place moment) };

    /// A local means an instant less than two days from the same seconds in UTC.
    ghost moment_near: { (place : Self) (local : ℤ) → IsNear (moment_at place local -ℤ local) };
}
