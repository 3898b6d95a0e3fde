//! The components that are open around a line.
ghost use Rattle.std.specs.Prelude.{◌≡◌, [], IfOk, Some, codes, map};
ghost use Rattle.std.specs.Str.{bytes_eq};
ghost use Rattle.ics_text.specs.Bytes.{upper};
ghost use Rattle.ics_components.specs.EventLines.{in_any_event, is_uid, nests};
ghost use Rattle.ics_components.specs.Components.{is_calendar_context, is_event_context};
ghost use Rattle.ics_components.specs.FirstFault.{no_open};
ghost use Rattle.ics_components.specs.Inner.PartsPass.{here, is_event_uid};
ghost use Rattle.ics_components.specs.PlacedLines.{context_of, ends_event, innermost, named, path_behind};

use crate::component::Component;
use crate::name::Name;
use crate::stack::MAX_DEPTH;
use ics_text::Content;
use std::alloc::{AllocError, Global};
use std::marker::Model;

/// A component that is open, and the number of its BEGIN line.
#[derive(Drop)]
struct OpenComponent {
    component: Component,
    begun: u64,
}

impl Model for OpenComponent {
    ghost use Rattle.ics_components.specs.Components.{component_name};
    ghost use Rattle.ics_components.specs.PlacedLines.{Open};

    ghost Value = { Open };

    ghost view = { λ a. record { name = component_name a.component; begun = a.begun } };
}

/// The components that are open, seen as a list of them with the innermost first.
#[derive(Drop)]
pub struct Path {
    open: Vec<OpenComponent>,
}

impl Model for Path {
    ghost use Rattle.std.specs.Prelude.{List, reverse};
    ghost use Rattle.ics_components.specs.PlacedLines.{Open};

    ghost Value = { List Open };

    ghost view = { λ a. reverse a.open.items };
}

impl OpenComponent {
    /// The component that the value of a BEGIN line with that number names.
    #[tactic(auto, using(crate::proofs::Paths::component_called))]
    fn named(alloc: Global, name: &[u8], begun: u64) -> Result<OpenComponent, AllocError>
        ensures { IfOk result (λ inner. inner ≡ record { name = map upper name.now; begun = begun }) }
    {
        let component = Component::named(alloc, name)?;
        Ok(OpenComponent { component, begun })
    }

    /// Whether it is called as a calendar is.
    fn is_calendar(&self) -> bool
        ensures { result ≡ bytes_eq self.now.name (codes "VCALENDAR") }
    {
        match &self.component {
            Component::Calendar => true,
            Component::Other(name) => name.as_slice() == b"VCALENDAR".as_slice(),
            _ => false,
        }
    }

    /// Whether it is called as an event is.
    fn is_event(&self) -> bool
        ensures { result ≡ bytes_eq self.now.name (codes "VEVENT") }
    {
        match &self.component {
            Component::Event => true,
            Component::Other(name) => name.as_slice() == b"VEVENT".as_slice(),
            _ => false,
        }
    }
}

impl Path {
    /// No component is open.
    pub fn new(alloc: Global) -> Path
        ensures { result ≡ [] }
    {
        Path {
            open: Vec::new(alloc),
        }
    }

    /// Whether no component is open.
    pub fn is_empty(&self) -> bool
        ensures { result ≡ no_open self.now }
    {
        self.open.is_empty()
    }

    /// The number of the BEGIN line of the innermost component, or 0.
    pub fn innermost(&self) -> u64
        ensures { result ≡ innermost self.now }
    {
        match self.open.last() {
            Some(inner) => inner.begun,
            None => 0,
        }
    }

    /// Whether the lines stand directly in a calendar.
    pub fn is_in_calendar(&self) -> bool
        ensures { result ≡ is_calendar_context (context_of self.now) }
    {
        match self.open.as_slice() {
            [calendar] => calendar.is_calendar(),
            _ => false,
        }
    }

    /// Whether the lines stand directly in an event of a calendar.
    pub fn is_in_event(&self) -> bool
        ensures { result ≡ is_event_context (context_of self.now) }
    {
        match self.open.as_slice() {
            [calendar, event] => calendar.is_calendar() && event.is_event(),
            _ => false,
        }
    }

    /// Whether the lines stand directly in an event, of a calendar or of none.
    pub fn is_in_any_event(&self) -> bool
        ensures { result ≡ in_any_event self.now }
    {
        match self.open.as_slice() {
            [event] => event.is_event(),
            [calendar, event] => event.is_event() && calendar.is_calendar(),
            _ => false,
        }
    }

    /// Whether a line ends the innermost component, or may begin one, if it begins or ends one.
    #[tactic(auto, unfolding(crate::specs::PlacedLines::name_on))]
    pub fn nests(&self, name: Name, content: &Content<'_>) -> bool
        requires { name ≡ named content.now }
        ensures { result ≡ nests (here 0 (Some content.now) self.now) }
    {
        match name {
            Name::Begin => self.open.len() < MAX_DEPTH,
            Name::End => match self.open.last() {
                Some(inner) => inner.component.is_named(content.value()),
                None => false,
            },
            _ => true,
        }
    }

    /// Whether a line is a UID of an event.
    #[tactic(auto, unfolding(crate::specs::PlacedLines::name_on))]
    pub fn is_uid(&self, name: Name, content: &Content<'_>) -> bool
        requires { name ≡ named content.now }
        ensures { result ≡ is_uid (here 0 (Some content.now) self.now) }
    {
        matches!(name, Name::Uid) && self.is_in_any_event()
    }

    /// Whether a line is a UID of an event of a calendar.
    #[tactic(auto, using(crate::proofs::Paths::never_both), unfolding(crate::specs::PlacedLines::name_on))]
    pub fn is_event_uid(&self, name: Name, content: &Content<'_>) -> bool
        requires { name ≡ named content.now }
        ensures { result ≡ is_event_uid (here 0 (Some content.now) self.now) }
    {
        // most lines are no UID
        if !matches!(name, Name::Uid) {
            return false;
        }
        self.is_in_event()
    }

    /// Whether a line ends an event of a calendar.
    #[tactic(auto, unfolding(crate::specs::PlacedLines::name_on))]
    pub fn ends_event(&self, name: Name, content: &Content<'_>) -> bool
        requires { name ≡ named content.now }
        ensures { result ≡ ends_event (here 0 (Some content.now) self.now) }
    {
        if !matches!(name, Name::End) {
            return false;
        }
        match self.open.last() {
            Some(inner) => inner.component.is_named(content.value()) && self.is_in_event(),
            None => false,
        }
    }

    /// Goes behind the line with that number.
    #[tactic(auto, unfolding(crate::specs::PlacedLines::name_on))]
    pub fn pass(
        &mut self,
        alloc: Global,
        number: u64,
        name: Name,
        content: &Content<'_>,
    ) -> Result<(), AllocError>
        requires { name ≡ named content.now }
        ensures { IfOk result (λ _. self.new ≡ path_behind (here number (Some content.now) self.old)) }
    {
        match name {
            Name::Begin => {
                let inner = OpenComponent::named(alloc, content.value(), number)?;
                self.open.push(inner)?;
            }
            Name::End => {
                self.open.pop();
            }
            _ => {}
        }
        Ok(())
    }
}
