//! Components and where their lines stand (RFC 5545, sections 3.4 and 3.6).
ghost use Rattle.std.specs.Prelude.{◌≡◌, map, IfOk};
ghost use Rattle.std.specs.Str.{bytes_eq};
ghost use Rattle.ics_text.specs.Bytes.{upper};
ghost use Rattle.ics_components.specs.Components.{component_of, component_name, context_in};

use crate::name::is_called;
use ics_values::{Text, is_word};
use std::alloc::{AllocError, Global};

/// A component: one of those that a file is read for, or another by its name in upper case.
#[derive(Drop)]
pub enum Component {
    Calendar,
    Event,
    Zone,
    Standard,
    Daylight,
    Other(Text),
}

/// Where a line stands: outside all components, directly in a calendar, directly in an event or a time zone of one,
/// directly in an observance of a time zone, or anywhere else.
#[derive(Clone, Copy)]
pub enum Context {
    Outside,
    Calendar,
    Event,
    Zone,
    Observance,
    Elsewhere,
}

impl Component {
    /// The component that the value of a BEGIN line names.
    pub fn named(alloc: Global, name: &[u8]) -> Result<Component, AllocError>
        ensures { IfOk result (λ component. component ≡ component_of (map upper name.now)) }
    {
        if is_called(name, b"VCALENDAR") {
            Ok(Component::Calendar)
        } else if is_called(name, b"VEVENT") {
            Ok(Component::Event)
        } else if is_called(name, b"VTIMEZONE") {
            Ok(Component::Zone)
        } else if is_called(name, b"STANDARD") {
            Ok(Component::Standard)
        } else if is_called(name, b"DAYLIGHT") {
            Ok(Component::Daylight)
        } else {
            Ok(Component::Other(Text::of(name.to_ascii_uppercase(alloc)?)))
        }
    }

    /// Whether this is the component that the value of an END line names.
    pub fn is_named(&self, name: &[u8]) -> bool
        ensures { result ≡ bytes_eq (map upper name.now) (component_name self.now) }
    {
        match self {
            Component::Calendar => is_called(name, b"VCALENDAR"),
            Component::Event => is_called(name, b"VEVENT"),
            Component::Zone => is_called(name, b"VTIMEZONE"),
            Component::Standard => is_called(name, b"STANDARD"),
            Component::Daylight => is_called(name, b"DAYLIGHT"),
            Component::Other(word) => is_word(name, word.as_slice()),
        }
    }

    /// Where the lines of the component stand, if it begins on a line that stands there.
    pub fn context_in(&self, context: Context) -> Context
        ensures { result ≡ context_in context self.now }
    {
        match (context, self) {
            (Context::Outside, Component::Calendar) => Context::Calendar,
            (Context::Calendar, Component::Event) => Context::Event,
            (Context::Calendar, Component::Zone) => Context::Zone,
            (Context::Zone, Component::Standard | Component::Daylight) => Context::Observance,
            _ => Context::Elsewhere,
        }
    }
}
