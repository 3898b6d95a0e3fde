//! An event while it is built, and where it ends.
ghost use Rattle.std.specs.Prelude.{◌≡◌, [], IfOk};
ghost use Rattle.ics_components.specs.Builders.{collected_of};

use crate::event_fields::EventFields;
use crate::kept_fields::KeptFields;
use crate::parsed_file::CalendarEvent;
use std::alloc::{AllocError, Global};
use std::marker::Model;

/// What has been read of an event so far. It has a place of its own in memory until it is added to what is gathered of the file: it takes more room than
/// the rest of what is open, and all of that is moved where a component begins or ends. Contracts see its fields.
#[derive(Drop)]
pub struct OpenEvent {
    pub fields: Box<EventFields>,
}

impl Model for OpenEvent {
    ghost use Rattle.ics_components.specs.declared.event_fields.EventFields.{EventFields};

    ghost Value = { EventFields };

    ghost view = { λ a. a.fields.value };
}

/// The place in memory of an event that has ended and was added, for the next one.
#[derive(Drop)]
pub struct FreePlace {
    fields: Box<EventFields>,
    ghost empty: { fields.value ≡ collected_of [] },
}

impl OpenEvent {
    /// What an event has that has only begun, in a place that is free, if there is one.
    pub fn begun(alloc: Global, free: Option<FreePlace>) -> Result<OpenEvent, AllocError>
        ensures { IfOk result (λ event. event ≡ collected_of []) }
    {
        let fields = match free {
            Some(free) => free.fields,
            None => Box::new(alloc, EventFields::nothing(alloc))?,
        };
        Ok(OpenEvent { fields })
    }
}

/// An event that has ended, in the place in memory that it was built in, and the number of the BEGIN line of its calendar. Contracts see the event.
#[derive(Drop)]
pub struct EndedEvent {
    pub calendar: u64,
    pub event: OpenEvent,
}

impl Model for EndedEvent {
    ghost use Rattle.ics_components.specs.declared.parsed_file.CalendarEvent.{CalendarEvent};

    ghost Value = { CalendarEvent };

    ghost view = { λ a. record { calendar = a.calendar; fields = a.event } };
}

impl EndedEvent {
    /// The event itself, in little memory. Its place in memory is free for the next one.
    pub fn into_event(self, alloc: Global) -> Result<(CalendarEvent, FreePlace), AllocError>
        ensures { IfOk result (λ event. event.0 ≡ self) }
    {
        let EndedEvent { calendar, event } = self;
        let mut fields = event.fields;
        let kept = KeptFields::taken(alloc, &mut fields)?;
        let event = CalendarEvent {
            calendar,
            fields: kept,
        };
        Ok((event, FreePlace { fields }))
    }
}
