//! The time zones of a file by their names.
ghost use Rattle.std.specs.Prelude.{◌≡◌, ◌∷◌, [], map, IfOk, OnOk};
ghost use Rattle.std.specs.List.{All};
ghost use Rattle.ics_zone.specs.ZoneSaid.{zone_said};
ghost use Rattle.ics_calendar.specs.DeferredChecks.{moment_of, with_files};
ghost use Rattle.ics_calendar.specs.Settled.{known_in};
ghost use Rattle.ics_components.specs.ParsedFiles.{IsSoundInstant};
ghost use Rattle.ics_components.specs.Sound.{IsSoundZone};
ghost use Rattle.ics_calendar.specs.ZoneTables.{known_by, given_by};

use crate::shared_zones::SharedZones;
use crate::zone_files::{ZoneFiles, put_first};
use ics_components::{CalendarEvent, CalendarZone, Instant, Tzid, ZoneName};
use ics_values::{Length, Moment, Rdate, Stamp, Time};
use ics_zone::{Place, Zone};
use std::alloc::{AllocError, Global};
use std::collections::{BTreeMap, BTreeSet};

/// The time zones of a file, the index of the first of each name, and those of the names that zone files are given for.
#[derive(Drop)]
pub struct ZoneTable {
    places: BTreeMap<ZoneName, u32>,
    given: BTreeMap<Tzid, u32>,
    refused: BTreeSet<Tzid>,
    zones: Vec<Zone>,
}

/// The number of a place. No memory holds as many zones as have no such number.
fn numbered(place: usize) -> Result<u32, AllocError>
    ensures { IfOk result (λ number. number ≡ place) }
{
    u32::try_from(place).map_err(|_| AllocError)
}

impl ZoneTable {
    /// These zones, where no fault stands on their lines. Of several with one name the first counts.
    pub fn new(alloc: Global, zones: Vec<CalendarZone>) -> Result<ZoneTable, AllocError>
        requires { All (λ z. IsSoundZone z.observances) zones.items }
        ensures { IfOk result (λ table. known_by table ≡ known_in zones.items) }
    {
        let mut shared = SharedZones::none(alloc);
        ZoneTable::sharing(alloc, &mut shared, zones)
    }

    /// The same. Zones that are shared are not made again.
    pub fn sharing(
        alloc: Global,
        shared: &mut SharedZones,
        zones: Vec<CalendarZone>,
    ) -> Result<ZoneTable, AllocError>
        requires { All (λ z. IsSoundZone z.observances) zones.items }
        ensures { IfOk result (λ table. known_by table ≡ known_in zones.items) }
    {
        let mut places = BTreeMap::new(alloc);
        let mut made = Vec::with_capacity(alloc, zones.len())?;
        for zone in zones {
            put_first(&mut places, zone.name, numbered(made.len())?)?;
            made.push(shared.zone(alloc, zone.observances)?)?;
        }
        Ok(ZoneTable {
            places,
            given: BTreeMap::new(alloc),
            refused: BTreeSet::new(alloc),
            zones: made,
        })
    }

    /// The same, for these events: zones of many observances take note of the locals that events have in them, and answer for them sooner. No answer
    /// changes.
    pub fn for_events(
        alloc: Global,
        shared: &mut SharedZones,
        zones: Vec<CalendarZone>,
        events: &[Vec<CalendarEvent>],
    ) -> Result<ZoneTable, AllocError>
        requires { All (λ z. IsSoundZone z.observances) zones.items }
        ensures { IfOk result (λ table. known_by table ≡ known_in zones.items) }
    {
        let mut table = ZoneTable::sharing(alloc, shared, zones)?;
        if table.zones.iter().any(|zone| zone.has_many()) {
            table.note_all(events, shared.end());
            table.learn_each();
        }
        Ok(table)
    }

    /// The zones take note of the locals of lists of events, up to an instant as a clock in UTC shows them.
    fn note_all(&mut self, lists: &[Vec<CalendarEvent>], end: Moment)
        ensures { known_by self.new ≡ known_by self.old }
    {
        for events in lists {
            self.note_each(events, end);
        }
    }

    /// The zones take note of the locals of events.
    fn note_each(&mut self, events: &[CalendarEvent], end: Moment)
        ensures { known_by self.new ≡ known_by self.old }
    {
        for event in events {
            self.note_event(event, end);
        }
    }

    /// The zones take note of the locals of an event. Its start is asked for wherever it is.
    fn note_event(&mut self, event: &CalendarEvent, end: Moment)
        ensures { known_by self.new ≡ known_by self.old }
    {
        let fields = &event.fields;
        self.note_some(event.calendar, fields.start(), Moment::MAX);
        self.note_some(event.calendar, fields.end(), end);
        self.note_some(event.calendar, fields.recurrence(), end);
        self.note_dates(event.calendar, fields.rdates(), end);
        self.note_dates(event.calendar, fields.exdates(), end);
    }

    /// The zones take note of the locals of RDATEs or EXDATEs.
    fn note_dates(&mut self, calendar: u64, dates: &[Rdate<Tzid>], end: Moment)
        ensures { known_by self.new ≡ known_by self.old }
    {
        for date in dates {
            match date {
                Rdate::At(time) => self.note(calendar, time, end),
                Rdate::Span(start, Length::Until(finish)) => {
                    self.note(calendar, start, end);
                    self.note(calendar, finish, end);
                }
                Rdate::Span(start, _) => self.note(calendar, start, end),
            }
        }
    }

    /// The zone takes note of a local, if there is one.
    fn note_some(&mut self, calendar: u64, time: Option<&Time<Tzid>>, end: Moment)
        ensures { known_by self.new ≡ known_by self.old }
    {
        if let Some(time) = time {
            self.note(calendar, time, end);
        }
    }

    /// The zone that a time names takes note of its local, if that is not later.
    fn note(&mut self, calendar: u64, time: &Time<Tzid>, end: Moment)
        ensures { known_by self.new ≡ known_by self.old }
    {
        let Stamp::Zoned(local) = time.stamp else {
            return;
        };
        if local.seconds() > end {
            return;
        }
        let Some(name) = &time.zone else {
            return;
        };
        let Ok(name) = name.shared() else {
            return;
        };
        let Some(place) = self.index(&ZoneName { calendar, name }) else {
            return;
        };
        if let Some(zone) = self.zones.get_mut(place as usize) {
            zone.note(local);
        }
    }

    /// The zones answer for the locals that they have noted.
    fn learn_each(&mut self)
        ensures { known_by self.new ≡ known_by self.old }
    {
        for k in 0..self.zones.len() {
            self.zones[k].learn();
        }
    }

    /// What is given for a name is taken in, if there is a file for it. Its zone stands behind the others.
    fn add(&mut self, files: &ZoneFiles, name: Tzid) -> Result<(), AllocError>
        ensures { OnOk result (known_by self.new ≡ with_files (known_by self.old) (given_by files.now) (name ∷ [])) }
    {
        match files.files.get(&name) {
            Some(Some(file)) => {
                put_first(&mut self.given, name, numbered(self.zones.len())?)?;
                self.zones.push(Zone::of_file(file)?)?;
                Ok(())
            }
            Some(None) => {
                self.refused.insert(name)?;
                Ok(())
            }
            None => Ok(()),
        }
    }

    /// With the zones of the zone files for these names.
    pub fn with_files(self, files: &ZoneFiles, names: Vec<Tzid>) -> Result<ZoneTable, AllocError>
        ensures { IfOk result (λ table. known_by table ≡ with_files (known_by self) (given_by files.now) names.items) }
    {
        let mut table = self;
        for name in names {
            table.add(files, name)?;
        }
        Ok(table)
    }

    /// The index of the zone of that name.
    pub fn index(&self, name: &ZoneName) -> Option<u32>
        ensures { result ≡ (known_by self.now).index name.now }
    {
        match self.places.get(name) {
            Some(place) => Some(*place),
            None => self.given.get(&name.name).copied(),
        }
    }

    /// Whether the file that is given for a name is no zone file.
    pub fn is_bad(&self, name: &Tzid) -> bool
        ensures { result ≡ (known_by self.now).is_bad name.now }
    {
        self.refused.contains(name)
    }

    /// The instant of a stamp, if its zone is known.
    pub fn moment_of(&self, instant: &Instant) -> Option<Moment>
        requires { IsSoundInstant instant.now }
        ensures { result ≡ moment_of (known_by self.now) instant.now }
    {
        match instant {
            Instant::Utc(local) => Some(local.seconds()),
            Instant::Zoned(local, name) => {
                let place = self.index(name)? as usize;
                Some(self.zones.get(place)?.moment(*local))
            }
        }
    }

    /// The zones.
    pub fn into_zones(self) -> Vec<Zone>
        ensures { map zone_said result.items ≡ (known_by self).zones }
    {
        self.zones
    }
}
