//! The first faults of what several events may need: of calendars, and of time zones by their names.
ghost use Rattle.std.specs.Prelude.{◌≡◌, ℕ, fold, if◌then◌else◌, Some, None, IfOk, OnOk};
ghost use Rattle.std.specs.BTreeMap.{get};
ghost use Rattle.std.specs.Option.{option_or};
ghost use Rattle.std.specs.Ordering.{nat_cmp};
ghost use Rattle.ics_components.specs.declared.deferred_check.ZoneName.{ZoneName};
ghost use Rattle.ics_components.specs.PartFaults.{earlier};
ghost use Rattle.ics_calendar.specs.Inner.PartsRead.{calendar_fault, fault_read, has_name, sound_zones, zone_fault};
ghost use Rattle.ics_calendar.specs.Inner.SharedFaults.{shared_beside, AreShared};
ghost use Rattle.ics_calendar.specs.ZoneTables.{name_cmp};

use crate::zone_files::put_first;
use ics_components::{CalendarZone, Fault, ParsedFile, PartedComponent, Tzid, ZoneName, earlier};
use std::alloc::{AllocError, Global};
use std::collections::BTreeMap;

/// The first fault of each calendar, and of the time zones of each name.
#[derive(Drop)]
pub struct SharedFaults {
    pub calendars: BTreeMap<u64, Fault>,
    pub zones: BTreeMap<ZoneName, Fault>,
}

/// The first fault of each calendar.
fn of_calendars(
    alloc: Global,
    calendars: &[(u64, Fault)],
) -> Result<BTreeMap<u64, Fault>, AllocError>
    ensures { IfOk result (λ first. (calendar : ℕ) → get nat_cmp first calendar ≡ calendar_fault calendars.now calendar) }
{
    let mut first = BTreeMap::new(alloc);
    for pair in calendars {
        put_first(&mut first, pair.0, pair.1)?;
    }
    Ok(first)
}

/// Notes the fault of a time zone under each of its names that has none.
fn note_zone(
    first: &mut BTreeMap<ZoneName, Fault>,
    calendar: u64,
    names: &[Tzid],
    fault: Fault,
) -> Result<(), AllocError>
    ensures { OnOk result ((used : ZoneName) → get name_cmp first.new used
        ≡ option_or (get name_cmp first.old used) (if has_name calendar names.now used then Some fault else None)) }
{
    for name in names {
        put_first(
            first,
            ZoneName {
                calendar,
                name: name.shared()?,
            },
            fault,
        )?;
    }
    Ok(())
}

/// The first fault of the time zones of each name.
fn of_zones(
    alloc: Global,
    zones: &[PartedComponent],
) -> Result<BTreeMap<ZoneName, Fault>, AllocError>
    ensures { IfOk result (λ first. (used : ZoneName) → get name_cmp first used ≡ zone_fault zones.now used) }
{
    let mut first = BTreeMap::new(alloc);
    for zone in zones {
        match &zone.read {
            Err(fault) => note_zone(&mut first, zone.calendar, &zone.names, *fault)?,
            Ok(_) => {}
        }
    }
    Ok(first)
}

/// The first fault of the rest of a file: of its time zones, and of the lines of no event and no time zone.
pub fn fault_of_rest(zones: &[PartedComponent], outside: Option<Fault>) -> Option<Fault>
    ensures { result ≡ fold (λ first zone. earlier first (fault_read zone.read)) outside zones.now }
{
    let mut first = outside;
    for zone in zones {
        let other = match &zone.read {
            Ok(_) => None,
            Err(fault) => Some(*fault),
        };
        first = earlier(first, other);
    }
    first
}

/// The sound time zones, in the order of the lines.
pub fn sound_zones(
    alloc: Global,
    zones: Vec<PartedComponent>,
) -> Result<Vec<CalendarZone>, AllocError>
    ensures { IfOk result (λ sound. sound.items ≡ sound_zones zones.items) }
{
    let mut sound = Vec::new(alloc);
    for zone in zones {
        let PartedComponent { read, .. } = zone;
        if let Ok(parsed) = read {
            let ParsedFile { zones: mut own, .. } = parsed;
            sound.append(&mut own)?;
        }
    }
    Ok(sound)
}

impl SharedFaults {
    /// Those of these calendars and time zones.
    pub fn new(
        alloc: Global,
        calendars: &[(u64, Fault)],
        zones: &[PartedComponent],
    ) -> Result<SharedFaults, AllocError>
        ensures { IfOk result (AreShared calendars.now zones.now) }
    {
        Ok(SharedFaults {
            calendars: of_calendars(alloc, calendars)?,
            zones: of_zones(alloc, zones)?,
        })
    }

    /// The first fault of the time zones of that name.
    fn under(&self, calendar: u64, name: &Tzid) -> Result<Option<Fault>, AllocError>
        ensures { IfOk result (λ fault. fault ≡ get name_cmp self.now.zones (record { calendar = calendar; name = name.now })) }
    {
        let used = ZoneName {
            calendar,
            name: name.shared()?,
        };
        Ok(self.zones.get(&used).copied())
    }

    /// The first fault of a calendar and of time zones of it.
    pub fn beside(&self, calendar: u64, names: &[Tzid]) -> Result<Option<Fault>, AllocError>
        ensures { IfOk result (λ fault. fault ≡ shared_beside self.now calendar names.now) }
    {
        let mut first = self.calendars.get(&calendar).copied();
        for name in names {
            let other = self.under(calendar, name)?;
            first = earlier(first, other);
        }
        Ok(first)
    }
}
