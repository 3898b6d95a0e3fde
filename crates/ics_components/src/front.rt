//! The events before the first fault of a file, as the first round has gathered them. The parts' pass does not read their lines again.
ghost use Rattle.std.specs.Prelude.{◌≡◌, ◌++◌, IfOk, drop, take};
ghost use Rattle.ics_components.specs.FrontSeen.{no_front};
ghost use Rattle.ics_components.specs.Inner.FrontParts.{TakesCheck, checks_behind, checks_until, front_behind, front_read, has_events, is_due};

use crate::parsed_file::{CalendarEvent, LineCheck, ParsedFile};
use std::alloc::{AllocError, Global};
use std::marker::Model;

/// The events that are still to come, and the checks that they defer. The next stands last.
#[derive(Drop)]
pub struct Front {
    events: Vec<CalendarEvent>,
    checks: Vec<LineCheck>,
}

impl Model for Front {
    ghost use Rattle.std.specs.Prelude.{reverse};
    ghost use Rattle.ics_components.specs.FrontSeen.{FrontSeen};

    ghost Value = { FrontSeen };

    ghost view = { λ a. record { events = reverse a.events.items; checks = reverse a.checks.items } };
}

impl Front {
    /// No event is gathered.
    pub fn none(alloc: Global) -> Front
        ensures { result ≡ no_front }
    {
        Front {
            events: Vec::new(alloc),
            checks: Vec::new(alloc),
        }
    }

    /// The events of what is gathered.
    #[tactic(auto, using(crate::proofs::FrontLists::reversed_twice))]
    pub(crate) fn of(parsed: ParsedFile) -> Front
        ensures { result ≡ record { events = parsed.events; checks = parsed.checks } }
    {
        let ParsedFile {
            zones,
            mut events,
            mut checks,
        } = parsed;
        drop(zones);
        events.reverse();
        checks.reverse();
        Front { events, checks }
    }

    /// Whether events are to come.
    pub(crate) fn has_events(&self) -> bool
        ensures { result ≡ has_events self.now }
    {
        !self.events.is_empty()
    }

    /// Whether the line of the next check is not behind that one.
    fn is_due(&self, number: u64) -> bool
        ensures { result ≡ is_due number self.now.checks }
    {
        match self.checks.last() {
            Some(check) => check.line <= number,
            None => false,
        }
    }

    /// Takes the next check, if its line is not behind that one.
    #[tactic(auto, using(crate::proofs::FrontLists::not_due, crate::proofs::FrontLists::takes_popped))]
    fn next_check(&mut self, number: u64) -> Option<LineCheck>
        ensures { TakesCheck result number self.old self.new }
    {
        if !self.is_due(number) {
            return None;
        }
        self.checks.pop()
    }

    /// Moves the checks up to that line.
    #[tactic(auto, using(crate::proofs::FrontLists::check_moved))]
    fn move_checks(&mut self, parsed: &mut ParsedFile, number: u64) -> Result<(), AllocError>
        ensures moved { IfOk result (λ _. parsed.new ≡ record parsed.old { checks = parsed.old.checks ++ checks_until number self.old.checks }) }
        ensures rest { IfOk result (λ _. self.new ≡ record self.old { checks = checks_behind number self.old.checks }) }
    {
        'checks: while let Some(LineCheck { line, check }) = self.next_check(number) {
            parsed.check(line, check)?;
        }
        Ok(())
    }

    /// Takes the next event.
    #[tactic(auto, using(crate::proofs::FrontLists::last_split))]
    fn next_event(&mut self) -> Result<Vec<CalendarEvent>, AllocError>
        ensures event { IfOk result (λ events. events.items ≡ take 1 self.old.events) }
        ensures rest { IfOk result (λ _. self.new ≡ record self.old { events = drop 1 self.old.events }) }
    {
        // split off and not pushed: a push of an event is to have one caller, into which it is inlined
        let kept = self.events.len().saturating_sub(1);
        self.events.split_off(kept)
    }

    /// Takes the next event, which ends on the line with that number, with its checks.
    pub(crate) fn take(&mut self, alloc: Global, number: u64) -> Result<ParsedFile, AllocError>
        ensures read { IfOk result (λ read. read ≡ front_read number self.old) }
        ensures rest { IfOk result (λ _. self.new ≡ front_behind number self.old) }
    {
        let mut read = ParsedFile::new(alloc);
        read.events = self.next_event()?;
        self.move_checks(&mut read, number)?;
        Ok(read)
    }
}
