//! An event as its lines give it (RFC 5545, section 3.6.1).
ghost use Rattle.std.specs.Prelude.{◌≡◌, [], Option, Some, true, false, IfOk};
ghost use Rattle.std.specs.Option.{option_or};
ghost use Rattle.ics_components.specs.declared.builder.Builder.TheVariants.{Event};
ghost use Rattle.ics_components.specs.Builders.{collected_of};
ghost use Rattle.ics_components.specs.Lines.{Gives, Notes, is_mark, line_fault, end_fault};
ghost use Rattle.ics_components.specs.Lines.{event_has, event_property, with_property, event_note, event_zone};
ghost use Rattle.ics_components.specs.SecondRound.{ends_in, time_zone, zone_check};

use crate::deferred_check::DeferredCheck;
use crate::ends::{ends_badly, ends_in, lasting};
use crate::fault::FaultKind;
use crate::listed::Listed;
use crate::name::Name;
use crate::property::Property;
use crate::refused::Refused;
use crate::time::{time_of, zone_check};
use crate::tzid::{Tzid, Tzids};
use ics_text::Content;
use ics_values::{Duration, KeptRule, Rdate, Text, Texts, Time};
use std::alloc::{AllocError, Global};

/// The value of each property that an event may have once, if its lines give it, and what all its RDATEs and EXDATEs list. Its times name their zones.
#[derive(Drop)]
pub struct EventFields {
    pub uid: Option<Text>,
    pub start: Option<Time<Tzid>>,
    pub end: Option<Time<Tzid>>,
    pub duration: Option<Duration>,
    pub rule: Option<KeptRule>,
    pub rdates: Listed<Rdate<Tzid>>,
    pub exdates: Listed<Rdate<Tzid>>,
    pub recurrence: Option<Time<Tzid>>,
    pub sequence: Option<u32>,
    pub texts: Texts<Option<Text>>,
    pub cancelled: Option<bool>,
}

/// Keeps a value, if there is none before it.
pub fn keep_first<T: Drop>(kept: &mut Option<T>, value: T)
    ensures { kept.new ≡ option_or kept.old (Some value) }
{
    if kept.is_none() {
        *kept = Some(value);
    }
}

/// Keeps a time, if there is none before it, and answers the check that its time zone is known in that calendar, if it has one.
fn keep_time(
    kept: &mut Option<Time<Tzid>>,
    time: Time<Tzid>,
    calendar: u64,
) -> Result<Option<DeferredCheck>, AllocError>
    ensures { IfOk result (λ check. (kept.new ≡ option_or kept.old (Some time)) × (check ≡ zone_check (time_zone calendar time))) }
{
    let check = zone_check(&time, calendar)?;
    keep_first(kept, time);
    Ok(check)
}

impl EventFields {
    /// What an event has that has only begun.
    pub fn nothing(alloc: Global) -> EventFields
        ensures { result ≡ collected_of [] }
    {
        EventFields {
            uid: None,
            start: None,
            end: None,
            duration: None,
            rule: None,
            rdates: Listed {
                values: Vec::new(alloc),
            },
            exdates: Listed {
                values: Vec::new(alloc),
            },
            recurrence: None,
            sequence: None,
            texts: Texts::nothing(),
            cancelled: None,
        }
    }

    /// Whether a property of that name stands before, of those that stand only once.
    fn has(&self, name: Name) -> bool
        ensures { result ≡ event_has self.now name }
    {
        match name {
            Name::Uid => self.uid.is_some(),
            Name::Dtstart => self.start.is_some(),
            Name::Dtend => self.end.is_some(),
            Name::Duration => self.duration.is_some(),
            Name::Rrule => self.rule.is_some(),
            Name::RecurrenceId => self.recurrence.is_some(),
            Name::Sequence => self.sequence.is_some(),
            _ => false,
        }
    }

    /// Judges a line more: what its property says, or the least fault on the line.
    #[tactic(auto, unfolding(crate::specs::Lines::least_fault))]
    fn property(
        &self,
        alloc: Global,
        tzids: &mut Tzids,
        name: Name,
        content: &Content<'_>,
    ) -> Result<Property, Refused>
        requires { is_mark name ≡ false }
        ensures { Gives result (line_fault name content.now (Event self.now)) (event_property name content.now) }
    {
        let property = Property::read(alloc, tzids, name, content)?;
        let kind = match name {
            _ if self.has(name) => FaultKind::Repeated,
            Name::RecurrenceId if content.param(b"RANGE").is_some() => FaultKind::ThisAndFuture,
            Name::Exrule => FaultKind::Exrule,
            _ => return Ok(property),
        };
        drop(property);
        Err(Refused::Fault(kind))
    }

    /// Keeps what a property says. Of several texts the first counts.
    fn keep(&mut self, property: Property) -> Result<(), AllocError>
        ensures { IfOk result (λ _. self.new ≡ with_property property self.old) }
    {
        match property {
            Property::Uid(uid) => keep_first(&mut self.uid, uid),
            Property::Start(start) => keep_first(&mut self.start, start),
            Property::End(end) => keep_first(&mut self.end, end),
            Property::Duration(duration) => keep_first(&mut self.duration, duration),
            Property::Rule(rule) => keep_first(&mut self.rule, rule),
            Property::Recurrence(time) => keep_first(&mut self.recurrence, time),
            Property::Sequence(number) => keep_first(&mut self.sequence, number),
            Property::Rdates(list) => self.rdates.append(list.values)?,
            Property::Exdates(list) => self.exdates.append(list.values)?,
            Property::Text(name, text) => self.texts.keep(name, text),
            Property::Cancelled(cancelled) => keep_first(&mut self.cancelled, cancelled),
            Property::Other => {}
        }
        Ok(())
    }

    /// One line more of an event, by way of its property.
    #[inline(never)]
    #[tactic(auto, unfolding(crate::specs::Lines::least_fault))]
    fn property_line(
        &mut self,
        alloc: Global,
        tzids: &mut Tzids,
        calendar: u64,
        name: Name,
        content: &Content<'_>,
    ) -> Result<Option<DeferredCheck>, Refused>
        requires { is_mark name ≡ false }
        ensures { Notes result self.new (line_fault name content.now (Event self.old)) (event_note name content.now self.old)
            (zone_check (event_zone calendar name content.now)) }
    {
        let property = self.property(alloc, tzids, name, content)?;
        let check = property.check(calendar)?;
        if let Err(error) = self.keep(property) {
            drop(check);
            return Err(Refused::from(error));
        }
        Ok(check)
    }

    /// One line more of an event in that calendar, and the check that it leaves to the second round, if there is one.
    ///
    /// What most events have is kept without a property, which takes the room of the longest.
    #[tactic(auto, unfolding(crate::specs::Lines::least_fault))]
    pub fn line(
        &mut self,
        alloc: Global,
        tzids: &mut Tzids,
        calendar: u64,
        name: Name,
        content: &Content<'_>,
    ) -> Result<Option<DeferredCheck>, Refused>
        requires { is_mark name ≡ false }
        ensures { Notes result self.new (line_fault name content.now (Event self.old)) (event_note name content.now self.old)
            (zone_check (event_zone calendar name content.now)) }
    {
        let value = content.value();
        match name {
            Name::Uid if self.uid.is_none() => self.uid = Some(Text::of_value(alloc, value)?),
            Name::Dtstart if self.start.is_none() => {
                let start = time_of(alloc, tzids, content)?;
                return Ok(keep_time(&mut self.start, start, calendar)?);
            }
            Name::Dtend if self.end.is_none() => {
                let end = time_of(alloc, tzids, content)?;
                return Ok(keep_time(&mut self.end, end, calendar)?);
            }
            Name::Duration if self.duration.is_none() => self.duration = Some(lasting(value)?),
            Name::Text(text) => self.texts.keep(text, text.read(alloc, value)?),
            _ => return self.property_line(alloc, tzids, calendar, name, content),
        }
        Ok(None)
    }

    /// Judges the END of the event, and answers the check that it leaves to the second round, if there is one.
    #[tactic(auto, unfolding(crate::specs::Lines::least_fault))]
    pub fn end(&self, calendar: u64) -> Result<Option<DeferredCheck>, Refused>
        ensures { Gives result (end_fault true (Event self.now)) (ends_in calendar self.now.start self.now.end) }
    {
        match &self.uid {
            Some(uid) if !uid.as_slice().is_empty() => {}
            _ => return Err(Refused::Fault(FaultKind::MissingUid)),
        }
        let Some(start) = &self.start else {
            return Err(Refused::Fault(FaultKind::MissingStart));
        };
        if (self.end.is_some() && self.duration.is_some()) || ends_badly(start, &self.end) {
            return Err(Refused::Fault(FaultKind::BadEnd));
        }
        Ok(ends_in(calendar, start, &self.end)?)
    }
}
