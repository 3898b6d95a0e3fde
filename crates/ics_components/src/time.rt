//! Stamps and the zones that their lines name (RFC 5545, section 3.2.19).
ghost use Rattle.std.specs.Prelude.{◌≡◌, false, IfOk, IfErr, Ok, Some};
ghost use Rattle.ics_values.specs.Stamps.{stamp_of};
ghost use Rattle.ics_components.specs.Faults.{Stamped};
ghost use Rattle.ics_components.specs.Lines.{Gives, stamp_judged, misread, unfit};
ghost use Rattle.ics_components.specs.Observances.{onset_in};
ghost use Rattle.ics_components.specs.SecondRound.{time_zone, instant_in, zone_check};
ghost use Rattle.ics_components.specs.Values.{time_of, stamp_read, tzid, zone_name};
ghost use Rattle.ics_values.specs.Times.{time_in};

use crate::deferred_check::{DeferredCheck, Instant, ZoneName};
use crate::fault::FaultKind;
use crate::refused::Refused;
use crate::tzid::{Tzid, Tzids};
use ics_text::Content;
use ics_values::{Local, Stamp, StampFault, Time, is_zoned, read_stamp};
use std::alloc::{AllocError, Global};

/// The stamp that a text says, or its fault; `zoned` says that a TZID stands beside it.
pub fn stamp(text: &[u8], zoned: bool) -> Result<Stamp, FaultKind>
    ensures judged { result ≡ stamp_judged (stamp_of zoned text.now) }
    ensures said { IfOk result (λ stamp. stamp_of zoned text.now ≡ Ok stamp) }
    ensures fault { IfErr result (λ kind. misread (Stamped (stamp_of zoned text.now)) ≡ Some kind) }
{
    match read_stamp(text, zoned) {
        Ok(stamp) => Ok(stamp),
        Err(StampFault::BadStamp) => Err(FaultKind::BadStamp),
        Err(StampFault::YearRange) => Err(FaultKind::YearRange),
    }
}

/// The local of an observance: a stamp that is neither a date nor in UTC, read as if no TZID stood beside it.
pub fn local(text: &[u8]) -> Result<Local, Refused>
    ensures { Gives result (unfit (Stamped (stamp_of false text.now))) (onset_in (stamp_of false text.now)) }
{
    match stamp(text, false)? {
        Stamp::Floating(local) => Ok(local),
        _ => Err(Refused::Fault(FaultKind::ObservanceField)),
    }
}

/// The name of the zone that a line's TZID gives.
pub fn zone_name(
    alloc: Global,
    tzids: &mut Tzids,
    content: &Content<'_>,
) -> Result<Option<Tzid>, AllocError>
    ensures { IfOk result (λ zone. zone ≡ zone_name content.now.params) }
{
    match content.param(b"TZID") {
        Some(name) => Ok(Some(tzids.name(alloc, name)?)),
        None => Ok(None),
    }
}

/// The time of a stamp, where its line names that zone.
pub fn time_in(stamp: Stamp, zone: &Option<Tzid>) -> Result<Time<Tzid>, AllocError>
    ensures { IfOk result (λ time. time ≡ time_in zone.now stamp) }
{
    let zone = match zone {
        Some(name) if is_zoned(stamp) => Some(name.shared()?),
        _ => None,
    };
    Ok(Time { stamp, zone })
}

/// The value of a DTSTART, DTEND or RECURRENCE-ID (RFC 5545, sections 3.8.2.4, 3.8.2.2 and 3.8.4.4): a stamp, which is zoned only beside a TZID, and the
/// name of its zone.
pub fn time_of(
    alloc: Global,
    tzids: &mut Tzids,
    content: &Content<'_>,
) -> Result<Time<Tzid>, Refused>
    ensures { Gives result (misread (Stamped (stamp_read content.now.params content.now.value))) (time_of content.now.params content.now.value) }
{
    let zone = zone_name(alloc, tzids, content)?;
    let stamp = stamp(content.value(), zone.is_some())?;
    Ok(Time::of_stamp(stamp, zone))
}

/// The check that the time zone of a stamp is known, if it has one (RFC 5545, section 3.2.19).
pub fn zone_check(time: &Time<Tzid>, calendar: u64) -> Result<Option<DeferredCheck>, AllocError>
    ensures { IfOk result (λ check. check ≡ zone_check (time_zone calendar time.now)) }
{
    if !is_zoned(time.stamp) {
        return Ok(None);
    }
    let name = ZoneName::shared(calendar, &time.zone)?;
    Ok(Some(DeferredCheck::Zone(name)))
}

/// The name of the zone of a time, or the empty one.
pub fn tzid(time: &Time<Tzid>) -> &[u8]
    ensures { result.now ≡ tzid time.now }
{
    match &time.zone {
        Some(name) => name.as_slice(),
        None => b"".as_slice(),
    }
}

/// The stamp, if it is an instant.
pub fn instant(time: &Time<Tzid>, calendar: u64) -> Result<Option<Instant>, AllocError>
    ensures { IfOk result (λ instant. instant ≡ instant_in calendar time.now) }
{
    match time.stamp {
        Stamp::Utc(local) => Ok(Some(Instant::Utc(local))),
        Stamp::Zoned(local) => {
            let name = ZoneName::shared(calendar, &time.zone)?;
            Ok(Some(Instant::Zoned(local, name)))
        }
        _ => Ok(None),
    }
}
