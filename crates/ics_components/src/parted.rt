//! What is gathered of a file event by event and time zone by time zone, each with its own first fault.
ghost use Rattle.std.specs.Prelude.{◌≡◌};
ghost use Rattle.std.specs.List.{list_all};
ghost use Rattle.ics_components.specs.PartFaults.{earlier};
ghost use Rattle.ics_components.specs.Inner.PartsPass.{parted_nothing};

use crate::fault::Fault;
use crate::parsed_file::ParsedFile;
use crate::tzid::Tzid;
use ics_values::Text;
use std::alloc::Global;
use std::marker::Model;

/// An event or a time zone of a file, by itself.
#[derive(Drop)]
pub struct PartedComponent {
    /// The number of the BEGIN line of its calendar, or 0.
    pub calendar: u64,
    /// Its UIDs. A sound event has one.
    pub uids: Vec<Text>,
    /// It is certain that these are the UIDs that it has.
    pub is_certain: bool,
    /// The TZIDs that it has. A sound time zone has one.
    pub names: Vec<Tzid>,
    /// The time zones that its local times name.
    pub zones: Vec<Tzid>,
    /// What is gathered of its lines, or their first fault.
    pub read: Result<ParsedFile, Fault>,
}

/// What is gathered of a file that has parts, each in the order of the lines.
#[derive(Drop)]
pub struct PartedFile {
    pub events: Vec<PartedComponent>,
    pub zones: Vec<PartedComponent>,
    /// The faults on the VERSION lines of calendars, each beside the number of the BEGIN line of its calendar.
    pub calendars: Vec<(u64, Fault)>,
    /// The first fault of the lines that are none of an event or of a time zone. A file of events alone is no
    /// calendar without them.
    pub outside: Option<Fault>,
}

impl Model for PartedComponent {
    ghost use Rattle.ics_components.specs.Parted.{PartedComponentSeen};

    ghost Value = { PartedComponentSeen };

    ghost view = { λ a. record {
      calendar = a.calendar;
      uids = a.uids.items;
      is_certain = a.is_certain;
      names = a.names.items;
      zones = a.zones.items;
      read = a.read;
    } };
}

impl Model for PartedFile {
    ghost use Rattle.ics_components.specs.Parted.{PartedFileSeen};

    ghost Value = { PartedFileSeen };

    ghost view = { λ a. record {
      events = a.events.items;
      zones = a.zones.items;
      calendars = a.calendars.items;
      outside = a.outside;
    } };
}

impl PartedFile {
    /// What is gathered of no lines.
    pub(crate) fn new(alloc: Global) -> PartedFile
        ensures { result ≡ parted_nothing }
    {
        PartedFile {
            events: Vec::new(alloc),
            zones: Vec::new(alloc),
            calendars: Vec::new(alloc),
            outside: None,
        }
    }

    /// Whether it is certain whose each event is.
    pub(crate) fn is_certain(&self) -> bool
        ensures { result ≡ list_all (λ event. event.is_certain) self.now.events }
    {
        self.events.iter().all(|event| event.is_certain)
    }
}

/// The fault on the lesser line.
pub fn earlier(fault: Option<Fault>, other: Option<Fault>) -> Option<Fault>
    ensures { result ≡ earlier fault other }
{
    match (fault, other) {
        (Some(a), Some(b)) => Some(if a.line <= b.line { a } else { b }),
        (Some(a), None) => Some(a),
        (None, other) => other,
    }
}
