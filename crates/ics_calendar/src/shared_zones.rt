//! The time zones that files share.
ghost use Rattle.std.specs.Prelude.{◌≡◌, IfOk, IfSome};
ghost use Rattle.ics_zone.specs.ZoneSaid.{ZoneSaid, zone_said};
ghost use Rattle.ics_components.specs.Sound.{IsSoundZone};

use crate::zone::zone_of;
use ics_components::{Listed, copied_observances};
use ics_values::{Moment, Observance, are_same_observances};
use ics_zone::Zone;
use std::alloc::{AllocError, Global};

const DAY: i64 = 86_400;

/// How many time zones are looked for. A folder mostly has but few that differ.
const MOST: usize = 64;

/// Zones are prepared before the first instant too, if the second is later by more seconds than this: then events ask near DTSTART.
const LONG: i64 = 120 * 86_400;

/// How many seconds before the first instant that is.
const BEFORE: i64 = 20 * 366 * 86_400;

/// How many seconds before the first instant, or after the second, a zone may be asked, since an event lasts so long.
const LASTING: i64 = 37_000 * DAY;

/// The first time zones that files have, each with other observances, and those of them that stand more than once. These are made once, and
/// files share them. No answer depends on what is here: it makes reading faster.
#[derive(Drop)]
pub struct SharedZones {
    /// The instants between which the zones are prepared.
    from: Moment,
    to: Moment,
    /// How many are looked for.
    most: usize,
    seen: Vec<Listed<Observance>>,
    shared: Vec<Zone>,
}

/// Whether an observance can begin several times a day.
fn turns_often(observance: &Observance) -> bool {
    let Some(rule) = &observance.rule else {
        return false;
    };
    let parts = rule.parts();
    !parts.hours.is_empty() || !parts.minutes.is_empty() || !parts.seconds.is_empty()
}

impl SharedZones {
    /// None so far. Those that will be shared are prepared between these instants.
    pub fn new(alloc: Global, from: Moment, to: Moment) -> SharedZones {
        SharedZones {
            from,
            to,
            most: MOST,
            seen: Vec::new(alloc),
            shared: Vec::new(alloc),
        }
    }

    /// None, now and later.
    pub(crate) fn none(alloc: Global) -> SharedZones {
        SharedZones {
            from: 0,
            to: Moment::MAX,
            most: 0,
            seen: Vec::new(alloc),
            shared: Vec::new(alloc),
        }
    }

    /// No zone is asked for a later local, but now and then.
    pub(crate) fn end(&self) -> Moment {
        self.to.saturating_add(2 * DAY)
    }

    /// The time zone with these observances, if it is shared.
    fn find(&self, ended: &Listed<Observance>) -> Result<Option<Zone>, AllocError>
        ensures { IfOk result (λ found. IfSome found (λ zone. zone_said zone ≡ ZoneSaid.ByObservances ended.now)) }
    {
        for zone in &self.shared {
            if zone.has(&ended.values) {
                return Ok(Some(zone.share()?));
            }
        }
        Ok(None)
    }

    /// Whether a time zone with these observances was made.
    fn has_seen(&self, ended: &Listed<Observance>) -> bool {
        self.seen
            .iter()
            .any(|seen| are_same_observances(&seen.values, &ended.values))
    }

    /// Prepares a zone, before it is shared. Where its clock can turn often in a day, the onsets that are found may end soon, and it holds spans too.
    fn prepare(&self, zone: &mut Zone, turns_often: bool)
        ensures { zone.new ≡ zone.old }
    {
        if self.to > self.from.saturating_add(LONG) {
            zone.reach_between(self.from.saturating_sub(BEFORE), self.from);
        }
        zone.reach_between(self.from, self.to);
        let first = self.from.saturating_sub(LASTING);
        let last = self.to.saturating_add(LASTING);
        zone.note_through(first, last);
        zone.learn();
        if turns_often {
            zone.reach_through(first, last);
        }
    }

    /// The time zone with these observances, which is shared from now on.
    fn share(&mut self, alloc: Global, ended: Listed<Observance>) -> Result<Zone, AllocError>
        requires { IsSoundZone ended }
        ensures { IfOk result (λ zone. zone_said zone ≡ ZoneSaid.ByObservances ended) }
    {
        let often = ended.values.iter().any(|one| turns_often(one));
        let mut zone = zone_of(alloc, ended)?;
        self.prepare(&mut zone, often);
        self.shared.push(zone.share()?)?;
        Ok(zone)
    }

    /// The time zone with these observances, where no fault stands on its lines. It is made where it is not shared.
    pub(crate) fn zone(
        &mut self,
        alloc: Global,
        ended: Listed<Observance>,
    ) -> Result<Zone, AllocError>
        requires { IsSoundZone ended }
        ensures { IfOk result (λ zone. zone_said zone ≡ ZoneSaid.ByObservances ended) }
    {
        if let Some(zone) = self.find(&ended)? {
            return Ok(zone);
        }
        if self.shared.len() < self.most && self.has_seen(&ended) {
            return self.share(alloc, ended);
        }
        if self.seen.len() < self.most {
            self.seen.push(copied_observances(alloc, &ended)?)?;
        }
        zone_of(alloc, ended)
    }
}
