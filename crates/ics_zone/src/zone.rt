//! Time zones: those of VTIMEZONEs, and those of zone files.
ghost use Rattle.std.specs.Prelude.{◌≡◌, ◌↔◌, ◌<◌, length, [], Err, IsTrue, Ok, IfOk, None, true};
ghost use Rattle.std.specs.List.{All, list_any};
ghost use Rattle.jiff_core.specs.declared.error.TzifFault.{TzifFault};
ghost use Rattle.jiff_tz.specs.TzifReader.{read_tzif};
ghost use Rattle.ics_zone.specs.Observances.{has_finer_rule, IsObservance};
ghost use Rattle.ics_zone.specs.Seconds.{IsDay, IsMoment};
ghost use Rattle.ics_fields.specs.Locals.{seconds_at};

use crate::learned_zone::LearnedZone;
use crate::observed::Observed;
use crate::shared_observed::SharedObserved;
use crate::{Bounds, Place, Spans, Stretch, ZoneFault, ZoneFile, ZoneFileFault};
use ics_fields::{Local, Moment};
use ics_values::Observance;
use std::alloc::{AllocError, Global};
use std::marker::Model;

/// The distance of the instants near which a zone is prepared. Most zones keep an offset for longer.
const STEP: i64 = 120 * 86_400;

/// The greatest number of these instants. They span some twenty years.
const STEPS: usize = 64;

/// The greatest number of stretches that are found of a zone file, for each file that names it. Those of most zones span two hundred and fifty years.
const MOST: usize = 512;

/// A time zone: that of a VTIMEZONE (RFC 5545, section 3.6.5), or that of a zone file (RFC 9636). Contracts see its observances, or the table
/// that jiff read from the file.
#[derive(Drop)]
pub struct Zone {
    kind: ZoneKind,
}

/// What a zone follows.
#[derive(Drop)]
pub(crate) enum ZoneKind {
    ByObservances(SharedObserved),
    ByJiff(LearnedZone),
}

impl Model for Zone {
    ghost use Rattle.ics_zone.specs.declared.zone.ZoneKind.{ZoneKind};

    ghost Value = { ZoneKind };

    ghost view = { λ z. z.kind };
}

impl Zone {
    ghost use Rattle.ics_zone.specs.ZoneFiles.{zone_file};
    ghost use Rattle.ics_zone.specs.ZoneSaid.{ZoneSaid, zone_said, IsZoneOf};

    /// The zone of these observances, whose locals are in the years 0001 to 9899 and whose offsets are less than a day either way. `NoObservance` if
    /// there is none, `ZoneRule` if one repeats more often than daily, else `Memory` if an allocation fails.
    pub fn read(alloc: Global, observances: Vec<Observance>) -> Result<Zone, ZoneFault>
        requires { All IsObservance observances.items }
        ensures observances { IfOk result (λ zone. zone_said zone ≡ ZoneSaid.ByObservances observances.items) }
        ensures none { (result ≡ Err ZoneFault.NoObservance) ↔ (observances.items ≡ []) }
        ensures fine { (result ≡ Err ZoneFault.ZoneRule) ↔ IsTrue (list_any has_finer_rule observances.items) }
    {
        match Observed::read(alloc, observances) {
            Ok(observed) => match SharedObserved::new(alloc, observed) {
                Ok(observed) => Ok(Zone {
                    kind: ZoneKind::ByObservances(observed),
                }),
                Err(_) => Err(ZoneFault::Memory),
            },
            Err(fault) => Err(fault),
        }
    }

    /// The zone that jiff reads from the bytes of a zone file. `BadZoneFile` if there are more than 1,048,576, or if jiff refuses them for another
    /// cause than want of memory, else `Memory` if an allocation fails.
    pub fn from_file(alloc: Global, bytes: &[u8]) -> Result<Zone, ZoneFileFault>
        ensures file { IfOk result (λ zone. IsZoneOf bytes.now zone) }
        ensures bad { (result ≡ Err ZoneFileFault.BadZoneFile) → zone_file bytes.now ≡ None }
        ensures long { 1_048_576 < length bytes.now → result ≡ Err ZoneFileFault.BadZoneFile }
        ensures broken { (fault : TzifFault) → read_tzif bytes.now ≡ Err fault → result ≡ Err ZoneFileFault.BadZoneFile }
    {
        match ZoneFile::read(alloc, bytes) {
            Ok(file) => match Zone::of_file(&file) {
                Ok(zone) => Ok(zone),
                Err(_) => Err(ZoneFileFault::Memory),
            },
            Err(fault) => Err(fault),
        }
    }

    /// The zone of a zone file that has been read, in the same memory.
    pub fn of_file(file: &ZoneFile) -> Result<Zone, AllocError>
        ensures { IfOk result (λ zone. zone_said zone ≡ ZoneSaid.ByFile file.now) }
    {
        Ok(Zone {
            kind: ZoneKind::ByJiff(LearnedZone::of_file(file)?),
        })
    }

    /// Whether it is the zone of these observances. The answer may be no of rules that are the same in other words.
    pub fn has(&self, observances: &[Observance]) -> bool
        ensures { result ≡ true → zone_said self.now ≡ ZoneSaid.ByObservances observances.now }
    {
        match &self.kind {
            ZoneKind::ByObservances(observed) => observed.get().has(observances),
            ZoneKind::ByJiff(_) => false,
        }
    }

    /// The same zone, in the same memory.
    pub fn share(&self) -> Result<Zone, AllocError>
        ensures { IfOk result (λ zone. zone ≡ self.now) }
    {
        let kind = match &self.kind {
            ZoneKind::ByObservances(observed) => ZoneKind::ByObservances(observed.share()?),
            ZoneKind::ByJiff(zone) => ZoneKind::ByJiff(zone.share()?),
        };
        Ok(Zone { kind })
    }

    /// Whether it has so many observances that locals may be noted.
    pub fn has_many(&self) -> bool {
        match &self.kind {
            ZoneKind::ByObservances(observed) => observed.get().has_many(),
            ZoneKind::ByJiff(_) => false,
        }
    }

    /// Whether its observances may begin so often that a stretch takes long to find.
    pub fn turns_often(&self) -> bool {
        match &self.kind {
            ZoneKind::ByObservances(observed) => observed.get().turns_often(),
            ZoneKind::ByJiff(_) => false,
        }
    }

    /// Takes note of a local that will be asked for. No answer changes.
    pub fn note(&mut self, local: Local)
        ensures { self.new ≡ self.old }
    {
        match &mut self.kind {
            ZoneKind::ByObservances(observed) => observed.note(local),
            ZoneKind::ByJiff(_) => {}
        }
    }

    /// Takes note of a local, given by its seconds, that will be asked for again and again. No answer changes.
    pub fn note_again(&mut self, seconds: i64)
        ensures { self.new ≡ self.old }
    {
        match &mut self.kind {
            ZoneKind::ByObservances(observed) => observed.note_again(seconds),
            ZoneKind::ByJiff(_) => {}
        }
    }

    /// Takes note of instants between which the zone will be asked again and again. No answer changes.
    pub fn note_through(&mut self, from: Moment, to: Moment)
        ensures { self.new ≡ self.old }
    {
        match &mut self.kind {
            ZoneKind::ByObservances(observed) => observed.note_through(from, to),
            ZoneKind::ByJiff(_) => {}
        }
    }

    /// Takes note of instants, of those of `note_through`, between which a zone of some observances is to hold all spans. No answer changes.
    pub fn note_spans(&mut self, from: Moment, to: Moment)
        ensures { self.new ≡ self.old }
    {
        match &mut self.kind {
            ZoneKind::ByObservances(observed) => observed.note_spans(from, to),
            ZoneKind::ByJiff(_) => {}
        }
    }

    /// Takes note of instants between which the zone will be asked so often that a zone of a file is to find its stretches there. No answer changes.
    pub fn note_often(&mut self, from: Moment, to: Moment)
        ensures { self.new ≡ self.old }
    {
        match &mut self.kind {
            ZoneKind::ByObservances(_) => {}
            ZoneKind::ByJiff(zone) => zone.note_often(from, to),
        }
    }

    /// Makes answers for the locals that were noted faster and changes none: each is found once or, of many observances, the onsets near them are listed
    /// once for all. A zone of a file finds the stretches between the instants that were noted. What finds no memory is asked for as before.
    pub fn learn(&mut self)
        ensures { self.new ≡ self.old }
    {
        match &mut self.kind {
            ZoneKind::ByObservances(observed) => observed.learn(),
            ZoneKind::ByJiff(zone) => zone.learn(MOST),
        }
    }

    /// Makes answers near an instant faster and changes none: the zone answers at every instant, before this call and after it. A zone of
    /// observances holds the spans about the instant, or the offset at each second, if it is not shared, there is room for them and no allocation
    /// fails. The result is always `Ok`.
    pub fn reach(&mut self, to: Moment) -> Result<(), AllocError>
        ensures same { self.new ≡ self.old }
        ensures always { result ≡ Ok tt }
    {
        match &mut self.kind {
            ZoneKind::ByObservances(observed) => observed.reach(to),
            ZoneKind::ByJiff(_) => Ok(()),
        }
    }

    /// The same from an instant on and up to another, where a few spans reach far.
    pub fn reach_through(&mut self, from: Moment, to: Moment)
        ensures { self.new ≡ self.old }
    {
        match &mut self.kind {
            ZoneKind::ByObservances(observed) => observed.reach_through(from, to),
            ZoneKind::ByJiff(_) => {}
        }
    }

    /// The same near an instant, from there on in steps, and near another instant.
    pub fn reach_between(&mut self, from: Moment, to: Moment)
        ensures { self.new ≡ self.old }
    {
        self.reach(to).ok();
        let mut near = from;
        for _ in 0..STEPS {
            if near >= to {
                return;
            }
            self.reach(near).ok();
            near = near.saturating_add(STEP);
        }
    }
}

impl Place for Zone {
    ghost use Rattle.ics_zone.specs.JiffZones.{IsOffsetIn, IsMomentIn};
    ghost use Rattle.ics_zone.specs.ZoneSaid.{said_offset, said_moment, zone_said};
    ghost use Rattle.ics_zone.specs.Inner.ZoneBounds.{said_offset_near, said_moment_near};

    ghost offset_at = { λ zone moment. said_offset (zone_said zone) moment };

    ghost moment_at = { λ zone local. said_moment (zone_said zone) local };

    /// The offset at an instant, in seconds. In a zone of observances it is TZOFFSETTO of the greatest onset that is not after the instant or,
    /// before all onsets, TZOFFSETFROM of the least (RFC 5545, section 3.6.5). In a zone of a file it is the one that jiff gives.
    #[tactic(auto, unfolding(crate::specs::ZoneSaid::said_offset))]
    fn offset(&self, moment: Moment) -> i32
        requires { IsMoment moment }
        ensures means { IsOffsetIn (zone_said self.now) moment result }
        ensures value { result ≡ said_offset (zone_said self.now) moment }
    {
        match &self.kind {
            ZoneKind::ByObservances(observed) => observed.get().offset(moment),
            ZoneKind::ByJiff(zone) => zone.offset(moment),
        }
    }

    /// The instant of a local. In a zone of observances it is the first at which the clock shows the local and, if there is none, the local read
    /// with the offset before the gap (RFC 5545, section 3.3.5). In a zone of a file it is that of jiff's compatible strategy.
    #[tactic(auto, unfolding(crate::specs::ZoneSaid::said_moment))]
    fn moment(&self, local: Local) -> Moment
        requires { IsDay local.day }
        ensures means { IsMomentIn (zone_said self.now) (seconds_at local.day local.second) result }
        ensures value { result ≡ said_moment (zone_said self.now) (seconds_at local.day local.second) }
    {
        match &self.kind {
            ZoneKind::ByObservances(observed) => observed.moment(local),
            ZoneKind::ByJiff(zone) => zone.moment(local),
        }
    }

    fn bounds(&self) -> Bounds {
        match &self.kind {
            ZoneKind::ByObservances(observed) => observed.get().bounds(),
            ZoneKind::ByJiff(zone) => zone.bounds(),
        }
    }

    fn stretch(&self, local: Moment) -> Stretch {
        match &self.kind {
            ZoneKind::ByObservances(observed) => observed.get().stretch(local),
            ZoneKind::ByJiff(zone) => zone.stretch(local),
        }
    }

    fn spans(&self, local: Moment) -> Option<Spans> {
        match &self.kind {
            ZoneKind::ByObservances(observed) => observed.get().spans(local),
            ZoneKind::ByJiff(_) => None,
        }
    }

    ghost near = { λ zone moment. said_offset_near zone moment };

    ghost moment_near = { λ zone local. said_moment_near zone local };
}
