//! Locals and instants of a zone, as C asks for them.
ghost use Rattle.std.specs.Prelude.{◌≡◌, ◌⊎◌, ◌==◌, ◌≤ℤ◌, ◌+ℤ◌, pos, unsigned_abs, if◌then◌else◌};
ghost use Rattle.ics_fields.specs.Locals.{year_seconds};
ghost use Rattle.ics_zone.specs.ZoneSaid.{zone_said};
ghost use Rattle.khal_list_c.specs.Clocks.{epoch, instant_in, IsZoneFault};
ghost use Rattle.khal_list_c.specs.Conversions.{Converts, ConvertsBy, IsInstant, IsLocal, local_in};

use crate::clock::zone_of;
use crate::filling::RULES_END;
use crate::times::KhalTimes;
use ics_values::{Local, Moment};
use ics_zone::{Place, Zone};
use std::alloc::Global;

/// 0001-01-01T00:00:00 and 9801-01-01T00:00:00, in seconds since 1970.
const FIRST: Moment = -62_135_596_800;

const LAST: Moment = 247_122_489_600;

/// The number of the local with so many seconds since 1970-01-01T00:00:00.
fn numbered(seconds: i64) -> u64
    requires from { year_seconds 0 ≤ℤ seconds }
    requires to { seconds ≤ℤ year_seconds 9_900 }
    ensures { result ≡ unsigned_abs (seconds +ℤ pos epoch) }
{
    (seconds + 62_167_219_200) as u64
}

/// The number of the local that the clock of a zone shows at an instant.
fn shown(zone: &Zone, instant: Moment) -> u64
    requires { IsInstant instant }
    ensures { result ≡ local_in (zone_said zone.now) instant }
{
    let seconds = zone.local(instant).seconds();
    numbered(seconds)
}

/// Writes the instants of locals, up to the first that is out of bounds, and says how many these are.
fn convert_locals(zone: &Zone, locals: &[u64], instants: &mut [i64]) -> usize
    ensures { Converts (instant_in (zone_said zone.now)) IsLocal locals.now instants.new result }
{
    let count = locals.len().min(instants.len());
    for i in 0..count {
        if locals[i] >= RULES_END {
            return i;
        }
        instants[i] = zone.moment(Local::numbered(locals[i]));
    }
    count
}

/// Writes the locals of instants, up to the first that is out of bounds, and says how many these are.
fn convert_instants(zone: &Zone, instants: &[i64], locals: &mut [u64]) -> usize
    ensures { Converts (local_in (zone_said zone.now)) IsInstant instants.now locals.new result }
{
    let count = instants.len().min(locals.len());
    for i in 0..count {
        if instants[i] < FIRST || LAST < instants[i] {
            return i;
        }
        locals[i] = shown(zone, instants[i]);
    }
    count
}

/// What is told of so many answers: the fault 4 if they are not all.
fn told(count: usize, all: usize) -> KhalTimes
    ensures count { result.count ≡ count }
    ensures fault { result.fault ≡ (if count == all then 0 else 4) }
{
    KhalTimes {
        count,
        fault: if count == all { 0 } else { 4 },
    }
}

/// Writes the instants of locals in a zone, in seconds since 1970-01-01T00:00:00 UTC. The zone is the bytes of a zone file, or of a calendar, whose
/// first VTIMEZONE it is. Of a local that the clock shows twice it is the first, and one that it leaves out is read with the offset before the gap.
#[unsafe(no_mangle)]
pub extern "C" fn khal_zone_instants(
    alloc: Global,
    zone: &[u8],
    locals: &[u64],
    instants: &mut [i64],
) -> KhalTimes
    ensures { ConvertsBy instant_in IsLocal zone.now locals.now instants.new result.count result.fault
        ⊎ (IsZoneFault zone.now result.fault × (result.count ≡ 0) × (instants.new ≡ instants.old)) }
{
    match zone_of(alloc, zone) {
        Ok(zone) => {
            let count = convert_locals(&zone, locals, instants);
            drop(zone);
            told(count, locals.len().min(instants.len()))
        }
        Err(fault) => KhalTimes { count: 0, fault },
    }
}

/// Writes the locals that the clock of a zone shows at instants.
#[unsafe(no_mangle)]
pub extern "C" fn khal_zone_locals(
    alloc: Global,
    zone: &[u8],
    instants: &[i64],
    locals: &mut [u64],
) -> KhalTimes
    ensures { ConvertsBy local_in IsInstant zone.now instants.now locals.new result.count result.fault
        ⊎ (IsZoneFault zone.now result.fault × (result.count ≡ 0) × (locals.new ≡ locals.old)) }
{
    match zone_of(alloc, zone) {
        Ok(zone) => {
            let count = convert_instants(&zone, instants, locals);
            drop(zone);
            told(count, instants.len().min(locals.len()))
        }
        Err(fault) => KhalTimes { count: 0, fault },
    }
}
