//! The time zones of a file, made of what is gathered of them (RFC 5545, section 3.6.5).
ghost use Rattle.std.specs.Prelude.{◌≡◌, IfOk};
ghost use Rattle.ics_zone.specs.ZoneSaid.{ZoneSaid, zone_said};
ghost use Rattle.ics_components.specs.Sound.{IsSoundZone};

use ics_components::{CalendarZone, Listed, ZoneName, copied_observances};
use ics_values::Observance;
use ics_zone::{Zone, ZoneFault};
use std::alloc::{AllocError, Global};

/// The time zone with these observances, where no fault stands on its lines.
pub fn zone_of(alloc: Global, ended: Listed<Observance>) -> Result<Zone, AllocError>
    requires { IsSoundZone ended }
    ensures { IfOk result (λ zone. zone_said zone ≡ ZoneSaid.ByObservances ended) }
{
    match Zone::read(alloc, ended.values) {
        Ok(zone) => Ok(zone),
        Err(ZoneFault::Memory) => Err(AllocError),
        Err(ZoneFault::NoObservance | ZoneFault::ZoneRule) => unreachable!(),
    }
}

/// The same time zone, in other memory.
pub fn copied_zone(alloc: Global, zone: &CalendarZone) -> Result<CalendarZone, AllocError>
    ensures { IfOk result (λ copy. copy ≡ zone.now) }
{
    Ok(CalendarZone {
        name: ZoneName {
            calendar: zone.name.calendar,
            name: zone.name.name.shared()?,
        },
        observances: copied_observances(alloc, &zone.observances)?,
    })
}
