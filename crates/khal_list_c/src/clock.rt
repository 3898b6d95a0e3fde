//! Zones that the caller hands over, and the clock of a rule's locals.
ghost use Rattle.std.specs.Prelude.{◌≡◌, ◌<◌, ◌≤◌, ◌⊎◌, Some, None, IfOk, IfErr, false, length};
ghost use Rattle.ics_period.specs.PeriodNumbers.{rules_end};
ghost use Rattle.ics_fields.specs.Days.{IsDayNumber};
ghost use Rattle.ics_fields.specs.Locals.{number};
ghost use Rattle.ics_zone.specs.ZoneSaid.{zone_said};
ghost use Rattle.khal_list_c.specs.Clocks.{calendar_zone, clock_said, zone_by, IsClockBy, IsZoneFault};
ghost use Rattle.khal_list_c.specs.Times.{is_by_instant};

use ics_calendar::{FileFault, read_file};
use ics_values::{Local, Moment};
use ics_zone::{Place, Zone, ZoneFileFault};
use std::alloc::Global;

/// The most bytes of a file.
const MOST_BYTES: usize = 16_777_216;

/// The bytes are no zone.
const BAD_ZONE: u32 = 6;

/// An allocation failed.
const MEMORY: u32 = 7;

/// What gives locals their instants.
#[derive(Drop)]
pub enum Clock {
    /// Nothing does.
    Unknown,
    Utc,
    InZone(Zone),
}

impl Clock {
    /// Whether an UNTIL in UTC allows the instant of a local.
    pub fn allows(&self, until: Option<Moment>, local: Local) -> bool
        requires day { IsDayNumber local.day }
        requires early { number local < rules_end }
        ensures { result ≡ is_by_instant until (clock_said self.now) (number local) }
    {
        let Some(until) = until else {
            return true;
        };
        match self {
            Clock::Unknown => true,
            Clock::Utc => local.seconds() <= until,
            Clock::InZone(zone) => zone.moment(local) <= until,
        }
    }
}

/// The first zone of a calendar, or the number of the fault.
fn calendar_zone(alloc: Global, bytes: &[u8]) -> Result<Zone, u32>
    requires { length bytes.now ≤ 16_777_216 }
    ensures zone { IfOk result (λ zone. Some (zone_said zone) ≡ calendar_zone bytes.now) }
    ensures fault { IfErr result (λ fault. ((fault ≡ 6) × (calendar_zone bytes.now ≡ None)) ⊎ (fault ≡ 7)) }
{
    match read_file(alloc, bytes, &[]) {
        Ok(file) => file.zones.into_iter().next().ok_or(BAD_ZONE),
        Err(FileFault::Memory) => Err(MEMORY),
        Err(_) => Err(BAD_ZONE),
    }
}

/// The zone of bytes, or the number of the fault.
pub fn zone_of(alloc: Global, bytes: &[u8]) -> Result<Zone, u32>
    ensures zone { IfOk result (λ zone. Some (zone_said zone) ≡ zone_by bytes.now) }
    ensures fault { IfErr result (IsZoneFault bytes.now) }
{
    if bytes.len() > MOST_BYTES {
        return Err(BAD_ZONE);
    }
    match Zone::from_file(alloc, bytes) {
        Ok(zone) => Ok(zone),
        Err(ZoneFileFault::BadZoneFile) => calendar_zone(alloc, bytes),
        Err(ZoneFileFault::Memory) => Err(MEMORY),
    }
}

/// The clock of a start, by the zone that is handed over.
pub fn clock_of(alloc: Global, in_utc: bool, zone: &[u8]) -> Result<Clock, u32>
    ensures clock { IfOk result (λ clock. IsClockBy in_utc zone.now (clock_said clock)) }
    ensures fault { IfErr result (λ fault. (in_utc ≡ false) × IsZoneFault zone.now fault) }
{
    if in_utc {
        return Ok(Clock::Utc);
    }
    if zone.is_empty() {
        return Ok(Clock::Unknown);
    }
    Ok(Clock::InZone(zone_of(alloc, zone)?))
}
