//! Zones of jiff's: one offset, the rule of a POSIX TZ string, or the table of a zone file.
ghost use Rattle.std.specs.Prelude.{◌≡◌, IfOk};
ghost use Rattle.jiff.specs.Words.{plain_zone, nanos_of_seconds, civil_nanos};
ghost use Rattle.ics_zone.specs.Bounds.{HasBounds};
ghost use Rattle.ics_zone.specs.JiffZones.{plain_said, IsMomentIn, IsOffsetIn};
ghost use Rattle.ics_zone.specs.Seconds.{IsDay, IsMoment};
ghost use Rattle.ics_zone.specs.Stretches.{IsStretch};
ghost use Rattle.ics_zone.specs.ZoneSaid.{ZoneSaid, jiff_said, said_offset, said_moment};
ghost use Rattle.ics_fields.specs.Locals.{seconds_at};

use crate::shared_table::SharedTable;
use crate::{Bounds, Stretch, ZoneFile};
use ics_fields::{Local, Moment};
use jiff::Timestamp;
use jiff::civil::DateTime;
use jiff::tz::TimeZone;
use jiff_core::Offset;
use jiff_tz::posix;
use std::alloc::AllocError;

/// A zone of jiff's: one offset, the rule of a POSIX TZ string, or the table of a zone file.
#[derive(Drop)]
pub(crate) enum JiffZone {
    Fixed(Offset),
    Posix(posix::TimeZone),
    Table(SharedTable),
}

impl JiffZone {
    /// The zone of a zone file that has been read, in the same memory.
    #[tactic(auto, unfolding(crate::specs::ZoneSaid::jiff_said))]
    pub fn of_file(file: &ZoneFile) -> Result<JiffZone, AllocError>
        ensures { IfOk result (λ zone. jiff_said zone ≡ ZoneSaid.ByFile file.now) }
    {
        Ok(JiffZone::Table(file.table.share()?))
    }

    /// The same zone. A table is shared.
    pub fn share(&self) -> Result<JiffZone, AllocError>
        ensures { IfOk result (λ zone. zone ≡ self.now) }
    {
        Ok(match self {
            JiffZone::Fixed(offset) => JiffZone::Fixed(*offset),
            JiffZone::Posix(rule) => JiffZone::Posix(*rule),
            JiffZone::Table(table) => JiffZone::Table(table.share()?),
        })
    }

    /// Whether the zone has one offset alone.
    pub fn is_fixed(&self) -> bool {
        matches!(self, JiffZone::Fixed(_))
    }

    /// The zone as jiff has it.
    #[tactic(auto, unfolding(crate::specs::ZoneSaid::jiff_said))]
    fn zone(&self) -> TimeZone<'_>
        ensures { plain_said (plain_zone result) ≡ jiff_said self.now }
    {
        match self {
            JiffZone::Fixed(offset) => TimeZone::from_plain(jiff_tz::TimeZone::Fixed(*offset)),
            JiffZone::Posix(rule) => TimeZone::from_plain(jiff_tz::TimeZone::Posix(*rule)),
            JiffZone::Table(table) => TimeZone::tzif(table.get()),
        }
    }

    /// The offset that jiff gives at the instant, in seconds.
    pub fn offset(&self, moment: Moment) -> i32
        requires { IsMoment moment }
        ensures means { IsOffsetIn (jiff_said self.now) moment result }
        ensures value { result ≡ said_offset (jiff_said self.now) moment }
    {
        if let JiffZone::Fixed(offset) = self {
            return offset.seconds;
        }
        let zone = self.zone();
        let instant = Timestamp::from_second(moment).unwrap();
        zone.to_offset(instant).seconds()
    }

    /// The instant of the local, by jiff's compatible strategy.
    pub fn moment(&self, local: Local) -> Moment
        requires { IsDay local.day }
        ensures means { IsMomentIn (jiff_said self.now) (seconds_at local.day local.second) result }
        ensures value { result ≡ said_moment (jiff_said self.now) (seconds_at local.day local.second) }
    {
        if let JiffZone::Fixed(offset) = self {
            self.picks(local);
            return local.seconds() - offset.seconds as i64;
        }
        let zone = self.zone();
        let instant = zone.to_timestamp(datetime(local)).unwrap();
        instant.as_second()
    }

    /// The offset that the zone says of an instant is the one that jiff gives. Nothing is done.
    pub fn gives(&self, moment: Moment)
        ensures { IsOffsetIn (jiff_said self.now) moment (said_offset (jiff_said self.now) moment) }
    {
        self.zone();
    }

    /// The instant that the zone says of a local is the one that jiff's compatible strategy picks. Nothing is done.
    pub fn picks(&self, local: Local)
        requires { IsDay local.day }
        ensures { IsMomentIn (jiff_said self.now) (seconds_at local.day local.second) (said_moment (jiff_said self.now) (seconds_at local.day local.second)) }
    {
        self.zone();
        datetime(local);
    }

    /// Two offsets between which all others lie.
    pub fn bounds(&self) -> Bounds
        ensures { HasBounds (said_offset (jiff_said self.now)) (said_moment (jiff_said self.now)) result.least result.most }
    {
        match self {
            JiffZone::Fixed(offset) => Bounds::of_offset(*offset),
            JiffZone::Posix(rule) => Bounds::of_offset(rule.std_offset).with_rule(*rule),
            JiffZone::Table(table) => table.bounds(),
        }
    }

    /// A stretch of locals about one, given by its seconds.
    pub fn stretch(&self, local: Moment) -> Stretch
        requires { IsMoment local }
        ensures { IsStretch (said_offset (jiff_said self.now)) (said_moment (jiff_said self.now)) result }
    {
        match self {
            JiffZone::Fixed(offset) => Stretch::always(*offset),
            JiffZone::Posix(rule) => Stretch::of_rule(*rule, local),
            JiffZone::Table(table) => Stretch::of_table(table.get(), local),
        }
    }
}

/// The local as a `DateTime` of jiff's.
fn datetime(local: Local) -> DateTime
    requires { IsDay local.day }
    ensures { civil_nanos result ≡ nanos_of_seconds (seconds_at local.day local.second) }
{
    let days = (local.day + 4_371_587) as u32;
    let date = jiff_core::civil::Date::from_days_since_min(days);
    let time = jiff_core::civil::Time {
        hour: (local.second / 3_600) as u8,
        minute: (local.second / 60 % 60) as u8,
        second: (local.second % 60) as u8,
        subsec_nanosecond: 0,
    };
    DateTime::from_plain(jiff_core::civil::DateTime { date, time })
}
