//! The properties of an event (RFC 5545, section 3.8).
ghost use Rattle.std.specs.Prelude.{◌≡◌, IfOk};
ghost use Rattle.ics_values.specs.Integers.{integer_of};
ghost use Rattle.ics_components.specs.Faults.{event_reading, Number};
ghost use Rattle.ics_components.specs.Lines.{Gives, misread, event_property, property_zone};
ghost use Rattle.ics_components.specs.SecondRound.{zone_check};
ghost use Rattle.ics_components.specs.Values.{ok_or_zero};

use crate::date_list::DateList;
use crate::date_values::Listing;
use crate::deferred_check::DeferredCheck;
use crate::ends::lasting;
use crate::fault::FaultKind;
use crate::name::Name;
use crate::refused::Refused;
use crate::rule_value::rule_in;
use crate::time::{time_of, zone_check};
use crate::tzid::{Tzid, Tzids};
use ics_text::Content;
use ics_values::{Duration, IntegerFault, KeptRule, Text, TextName, Time, is_word, read_integer};
use std::alloc::{AllocError, Global};

/// What a line of an event says, if its value has no fault.
#[derive(Drop)]
pub enum Property {
    Uid(Text),
    Start(Time<Tzid>),
    End(Time<Tzid>),
    Duration(Duration),
    Rule(KeptRule),
    Recurrence(Time<Tzid>),
    Sequence(u32),
    Rdates(DateList),
    Exdates(DateList),
    Text(TextName, Text),
    Cancelled(bool),
    /// One that is not read.
    Other,
}

/// The number of a SEQUENCE. One that is no number counts as 0.
fn sequence(value: &[u8]) -> Result<u32, Refused>
    ensures { Gives result (misread (Number (integer_of value.now))) (ok_or_zero (integer_of value.now)) }
{
    match read_integer(value) {
        Ok(number) => Ok(number),
        Err(IntegerFault::NotDigits) => Ok(0),
        Err(IntegerFault::NumberTooLarge) => Err(Refused::Fault(FaultKind::NumberTooLarge)),
    }
}

impl Property {
    /// What a line says, or the least fault of its value.
    pub fn read(
        alloc: Global,
        tzids: &mut Tzids,
        name: Name,
        content: &Content<'_>,
    ) -> Result<Property, Refused>
        ensures { Gives result (misread (event_reading name content.now.params content.now.value)) (event_property name content.now) }
    {
        let value = content.value();
        Ok(match name {
            Name::Uid => Property::Uid(Text::of_value(alloc, value)?),
            Name::Dtstart => Property::Start(time_of(alloc, tzids, content)?),
            Name::Dtend => Property::End(time_of(alloc, tzids, content)?),
            Name::Duration => Property::Duration(lasting(value)?),
            Name::Rrule => Property::Rule(rule_in(alloc, value)?),
            Name::RecurrenceId => Property::Recurrence(time_of(alloc, tzids, content)?),
            Name::Sequence => Property::Sequence(sequence(value)?),
            Name::Rdate => {
                Property::Rdates(DateList::read(alloc, tzids, Listing::Rdate, content)?)
            }
            Name::Exdate => {
                Property::Exdates(DateList::read(alloc, tzids, Listing::Exdate, content)?)
            }
            Name::Text(text) => Property::Text(text, text.read(alloc, value)?),
            Name::Status => Property::Cancelled(is_word(value, b"CANCELLED")),
            _ => Property::Other,
        })
    }

    /// The check that the time zone of its stamps is known in that calendar, if they have one.
    pub fn check(&self, calendar: u64) -> Result<Option<DeferredCheck>, AllocError>
        ensures { IfOk result (λ check. check ≡ zone_check (property_zone calendar self.now)) }
    {
        match self {
            Property::Start(time) | Property::End(time) | Property::Recurrence(time) => {
                zone_check(time, calendar)
            }
            Property::Rdates(list) | Property::Exdates(list) => list.check(calendar),
            _ => Ok(None),
        }
    }
}
