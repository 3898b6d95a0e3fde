//! What is noted of the event or the time zone that is open.
ghost use Rattle.std.specs.Prelude.{◌≡◌, ◌∷◌, ◌++◌, [], IfOk, Some};
ghost use Rattle.ics_components.specs.Inner.PartsPass.{closed_as, here, noted, notes_begun, uids_on, texts_on};
ghost use Rattle.ics_components.specs.PlacedLines.{named};
ghost use Rattle.ics_components.specs.declared.name.Name.TheVariants as variant;

use crate::fault::Fault;
use crate::local_time::named_on;
use crate::name::Name;
use crate::parsed_file::ParsedFile;
use crate::parted::PartedComponent;
use crate::tzid::{Tzid, Tzids};
use ics_text::Content;
use ics_values::Text;
use std::alloc::{AllocError, Global};
use std::marker::Model;

/// An event or a time zone that is open, and what is noted of it by the lines directly in it.
#[derive(Drop)]
pub struct OpenPart {
    /// The numbers of its BEGIN line and of that of its calendar.
    pub begun: u64,
    pub calendar: u64,
    pub is_event: bool,
    pub uids: Vec<Text>,
    /// The TZIDs that it has.
    pub names: Vec<Tzid>,
    /// The time zones that its local times name.
    pub zones: Vec<Tzid>,
    /// A line of it is no content line, or a RECURRENCE-ID.
    pub is_doubtful: bool,
}

impl Model for OpenPart {
    ghost use Rattle.ics_components.specs.Inner.PartsPass.{NotesSeen};

    ghost Value = { NotesSeen };

    ghost view = { λ a. record {
      begun = a.begun;
      calendar = a.calendar;
      is_event = a.is_event;
      uids = a.uids.items;
      names = a.names.items;
      zones = a.zones.items;
      is_doubtful = a.is_doubtful;
    } };
}

/// Adds an element to a list. Most have no other: a list that grows by itself takes room for several.
fn push_one<T: Drop>(list: &mut Vec<T>, element: T) -> Result<(), AllocError>
    ensures { IfOk result (λ _. list.new.items ≡ list.old.items ++ element ∷ []) }
{
    if list.is_empty() {
        list.reserve_exact(1)?;
    }
    list.push(element)?;
    Ok(())
}

impl OpenPart {
    /// Nothing is noted of what begins on the line with that number.
    pub fn new(alloc: Global, begun: u64, calendar: u64, is_event: bool) -> OpenPart
        ensures { result ≡ notes_begun begun calendar is_event }
    {
        OpenPart {
            begun,
            calendar,
            is_event,
            uids: Vec::new(alloc),
            names: Vec::new(alloc),
            zones: Vec::new(alloc),
            is_doubtful: false,
        }
    }

    /// Notes a line directly in it.
    #[tactic(auto, unfolding(crate::specs::PlacedLines::name_on))]
    pub fn note(
        &mut self,
        alloc: Global,
        tzids: &mut Tzids,
        name: Name,
        content: &Content<'_>,
    ) -> Result<(), AllocError>
        requires { name ≡ named content.now }
        ensures { IfOk result (λ _. self.new ≡ noted (here 0 (Some content.now) []) self.old) }
    {
        match name {
            Name::Uid => {
                let uid = Text::of_value(alloc, content.value())?;
                if !uid.as_slice().is_empty() {
                    push_one(&mut self.uids, uid)?;
                }
            }
            Name::Tzid => {
                let name = tzids.of_value(alloc, content.value())?;
                push_one(&mut self.names, name)?;
            }
            Name::RecurrenceId => self.is_doubtful = true,
            _ => {}
        }
        if let Some(name) = named_on(alloc, tzids, content)? {
            push_one(&mut self.zones, name)?;
        }
        Ok(())
    }

    /// The event or the time zone, once it has ended, with what is read of its lines.
    pub fn closed(self, read: Result<ParsedFile, Fault>) -> PartedComponent
        ensures { result ≡ closed_as self read }
    {
        let OpenPart {
            calendar,
            uids,
            names,
            zones,
            is_doubtful,
            ..
        } = self;
        let is_certain = !uids.is_empty() || !is_doubtful;
        PartedComponent {
            calendar,
            uids,
            is_certain,
            names,
            zones,
            read,
        }
    }
}
