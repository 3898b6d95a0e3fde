//! What is read of a file, with its events in several lists.
ghost use Rattle.std.specs.Prelude.{◌≡◌, IfOk};

use ics_components::{CalendarEvent, CalendarZone, LineCheck, ParsedFile};
use std::alloc::{AllocError, Global};
use std::marker::Model;

/// What is read of a file, as a `ParsedFile`. Its events lie in several lists: those of its parts are moved into none.
#[derive(Drop)]
pub struct ParsedLists {
    pub zones: Vec<CalendarZone>,
    pub events: Vec<Vec<CalendarEvent>>,
    pub checks: Vec<LineCheck>,
}

impl Model for ParsedLists {
    ghost use Rattle.std.specs.List.{flat_map};
    ghost use Rattle.ics_components.specs.ParsedFileSeen.{ParsedFileSeen};

    ghost Value = { ParsedFileSeen };

    ghost view = { λ a. record { zones = a.zones.items; events = flat_map (λ own. own.items) a.events.items; checks = a.checks.items } };
}

impl ParsedLists {
    /// The same with its events in one list.
    pub fn whole(alloc: Global, parsed: ParsedFile) -> Result<ParsedLists, AllocError>
        ensures { IfOk result (λ lists. lists ≡ parsed) }
    {
        let ParsedFile {
            zones,
            events,
            checks,
        } = parsed;
        let mut lists = Vec::with_capacity(alloc, 1)?;
        lists.push(events)?;
        Ok(ParsedLists {
            zones,
            events: lists,
            checks,
        })
    }
}
