//! The zone in which a listing is shown.
ghost use Rattle.std.specs.Prelude.{◌≡◌, ◌↔◌, Some, None, Err, IfOk, IfErr};
ghost use Rattle.jiff_core.specs.Calendar.{IsWithin};
ghost use Rattle.ics_zone.specs.DisplayTexts.{display_of};
ghost use Rattle.ics_zone.specs.Seconds.{IsDay, IsMoment};
ghost use Rattle.ics_zone.specs.ZoneSaid.{ZoneSaid, display_said};
ghost use Rattle.ics_fields.specs.Locals.{seconds_at};

use crate::display_text::read_offset;
use crate::jiff_zone::JiffZone;
use crate::learned_zone::LearnedZone;
use crate::{Bounds, DisplayFault, Place, Spans, Stretch, ZoneFile};
use ics_fields::{Local, Moment};
use jiff_core::Offset;
use jiff_tz::posix;
use std::alloc::{AllocError, Global};

/// The greatest number of stretches that are found for a listing. Those of most zones span two thousand years.
const MOST: usize = 4_096;

/// The zone in which a listing is shown: UTC, a fixed offset, the rule of a POSIX TZ string, or what a zone file says.
#[derive(Drop)]
pub struct Display {
    zone: LearnedZone,
}

impl Display {
    /// The zone that a text names: `UTC`, `Z`, a sign with `HH:MM` (hours to 23, minutes to 59), or a
    /// POSIX TZ string as jiff reads it, such as `EST5EDT,M3.2.0,M11.1.0`. `BadZone` for any other text,
    /// and no other fault. Nothing is allocated.
    #[tactic(auto, unfolding(crate::specs::ZoneSaid::jiff_said))]
    pub fn parse(alloc: Global, text: &str) -> Result<Display, DisplayFault>
        ensures said { IfOk result (λ display. Some (display_said display) ≡ display_of text.now) }
        ensures refused { (result ≡ Err DisplayFault.BadZone) ↔ (display_of text.now ≡ None) }
        ensures only { IfErr result (λ fault. fault ≡ DisplayFault.BadZone) }
    {
        if text == "UTC" || text == "Z" {
            return Ok(fixed(alloc, 0));
        }
        if let Some(seconds) = read_offset(text.as_bytes()) {
            return Ok(fixed(alloc, seconds));
        }
        match posix::TimeZone::parse(text.as_bytes()) {
            Ok(rule) => Ok(Display {
                zone: LearnedZone::new(alloc, JiffZone::Posix(rule)),
            }),
            Err(_) => Err(DisplayFault::BadZone),
        }
    }

    /// The zone of a zone file that has been read, in the same memory: its table of transitions and, after the last of them, its rule.
    pub fn of_file(file: &ZoneFile) -> Result<Display, AllocError>
        ensures { IfOk result (λ display. display_said display ≡ ZoneSaid.ByFile file.now) }
    {
        Ok(Display {
            zone: LearnedZone::of_file(file)?,
        })
    }

    /// Takes note of instants between which the zone will be asked again and again. No answer changes.
    pub fn note_often(&mut self, from: Moment, to: Moment)
        ensures { self.new ≡ self.old }
    {
        self.zone.note_often(from, to);
    }

    /// Makes answers between the instants that were noted faster and changes none: the stretches there are found once. Those for which no memory is
    /// found are asked for as before.
    pub fn learn(&mut self)
        ensures { self.new ≡ self.old }
    {
        self.zone.learn(MOST);
    }
}

impl Clone for Display {
    ghost is_clone = { λ display copy. copy ≡ display };

    /// The same zone, in the same memory.
    fn clone(&self) -> Result<Display, AllocError>
        ensures same { IfOk result (λ display. display ≡ self.now) }
    {
        Ok(Display {
            zone: self.zone.share()?,
        })
    }
}

/// The zone with this offset, in seconds, at all times.
#[tactic(auto, unfolding(crate::specs::ZoneSaid::jiff_said))]
fn fixed(alloc: Global, seconds: i32) -> Display
    requires { IsWithin 86_340 seconds }
    ensures { display_said result ≡ ZoneSaid.Always seconds }
{
    let offset = Offset::from_seconds(i64::from(seconds)).unwrap();
    Display {
        zone: LearnedZone::new(alloc, JiffZone::Fixed(offset)),
    }
}

impl Place for Display {
    ghost use Rattle.ics_zone.specs.JiffZones.{IsOffsetIn, IsMomentIn};
    ghost use Rattle.ics_zone.specs.Inner.Near.{offset_near, moment_near};
    ghost use Rattle.ics_zone.specs.ZoneSaid.{display_said, said_offset, said_moment};

    ghost offset_at = { λ display moment. said_offset (display_said display) moment };

    ghost moment_at = { λ display local. said_moment (display_said display) local };

    /// The offset that jiff gives at the instant, in seconds.
    fn offset(&self, moment: Moment) -> i32
        requires { IsMoment moment }
        ensures means { IsOffsetIn (display_said self.now) moment result }
        ensures value { result ≡ said_offset (display_said self.now) moment }
    {
        self.zone.offset(moment)
    }

    /// The instant of the local by jiff's compatible strategy: the first of two, and in a gap the local read with the offset before the gap.
    fn moment(&self, local: Local) -> Moment
        requires { IsDay local.day }
        ensures means { IsMomentIn (display_said self.now) (seconds_at local.day local.second) result }
        ensures value { result ≡ said_moment (display_said self.now) (seconds_at local.day local.second) }
    {
        self.zone.moment(local)
    }

    fn bounds(&self) -> Bounds {
        self.zone.bounds()
    }

    fn stretch(&self, local: Moment) -> Stretch {
        self.zone.stretch(local)
    }

    fn spans(&self, _local: Moment) -> Option<Spans> {
        None
    }

    ghost near = { λ display moment. offset_near display moment };

    ghost moment_near = { λ display local. moment_near display local };
}
