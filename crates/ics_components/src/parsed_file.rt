//! What is gathered of a file, before its time zones and its events are made of it.
ghost use Rattle.std.specs.Prelude.{◌≡◌, IfOk, None, Some};
ghost use Rattle.ics_components.specs.ParsedFiles.{and_ended, and_line, nothing_parsed};
ghost use Rattle.ics_components.specs.Lines.{line_result};
ghost use Rattle.ics_components.specs.declared.parsed_file.ClosedComponent.TheVariants.{Nothing};

use crate::deferred_check::{DeferredCheck, ZoneName};
use crate::kept_fields::KeptFields;
use crate::listed::Listed;
use crate::open_event::{EndedEvent, FreePlace};
use ics_values::Observance;
use std::alloc::{AllocError, Global};
use std::marker::Model;

/// A time zone that has ended (RFC 5545, section 3.6.5).
#[derive(Drop)]
pub struct CalendarZone {
    pub name: ZoneName,
    pub observances: Listed<Observance>,
}

/// An event that has ended, as its lines give it, and the number of the BEGIN line of its calendar.
#[derive(Drop)]
pub struct CalendarEvent {
    pub calendar: u64,
    pub fields: KeptFields,
}

/// What ends on a line, if it is a component that is read.
#[derive(Drop)]
pub enum ClosedComponent {
    Zone(CalendarZone),
    Event(EndedEvent),
    Nothing,
}

/// What is gathered on a line: what ends there, and the check that it leaves to the second round.
#[derive(Drop)]
pub struct LineResult {
    pub ended: ClosedComponent,
    pub check: Option<DeferredCheck>,
}

impl LineResult {
    /// Nothing ends, and there is no check.
    pub fn nothing() -> LineResult
        ensures { result ≡ line_result Nothing None }
    {
        LineResult {
            ended: ClosedComponent::Nothing,
            check: None,
        }
    }
}

/// A deferred check and the number of its line, counted from 1.
#[derive(Drop)]
pub struct LineCheck {
    pub line: u64,
    pub check: DeferredCheck,
}

/// What is gathered of a file: the time zones and the events that have ended, and the checks that are deferred, each in the order of the lines.
#[derive(Drop)]
pub struct ParsedFile {
    pub zones: Vec<CalendarZone>,
    pub events: Vec<CalendarEvent>,
    pub checks: Vec<LineCheck>,
}

impl Model for ParsedFile {
    ghost use Rattle.ics_components.specs.ParsedFileSeen.{ParsedFileSeen};

    ghost Value = { ParsedFileSeen };

    ghost view = { λ a. record { zones = a.zones.items; events = a.events.items; checks = a.checks.items } };
}

impl ParsedFile {
    /// What is gathered of no lines.
    pub(crate) fn new(alloc: Global) -> ParsedFile
        ensures { result ≡ nothing_parsed }
    {
        ParsedFile {
            zones: Vec::new(alloc),
            events: Vec::new(alloc),
            checks: Vec::new(alloc),
        }
    }

    /// What is gathered of no lines, with room for the one event or the one time zone that is to come.
    pub(crate) fn of_one(alloc: Global, is_event: bool) -> Result<ParsedFile, AllocError>
        ensures { IfOk result (λ parsed. parsed ≡ nothing_parsed) }
    {
        let mut parsed = ParsedFile::new(alloc);
        if is_event {
            parsed.events = Vec::with_capacity(alloc, 1)?;
        } else {
            parsed.zones = Vec::with_capacity(alloc, 1)?;
        }
        Ok(parsed)
    }

    /// Adds what ends on a line, and answers the place in memory that is free then, if there is one.
    fn end(
        &mut self,
        alloc: Global,
        ended: ClosedComponent,
    ) -> Result<Option<FreePlace>, AllocError>
        ensures { IfOk result (λ _. self.new ≡ and_ended ended self.old) }
    {
        match ended {
            ClosedComponent::Zone(zone) => self.zones.push(zone)?,
            ClosedComponent::Event(event) => {
                let (event, free) = event.into_event(alloc)?;
                self.events.push(event)?;
                return Ok(Some(free));
            }
            ClosedComponent::Nothing => {}
        }
        Ok(None)
    }

    /// Adds the check of the line with that number.
    pub(crate) fn check(&mut self, line: u64, check: DeferredCheck) -> Result<(), AllocError>
        ensures { IfOk result (λ _. self.new ≡ and_line line (line_result Nothing (Some check)) self.old) }
    {
        // most events defer one check or none: a list that grows by itself takes room for several
        if self.checks.is_empty() {
            self.checks.reserve_exact(1)?;
        }
        self.checks.push(LineCheck { line, check })?;
        Ok(())
    }

    /// Adds what is gathered on the line with that number, and answers the place in memory that is free then, if there is one.
    pub(crate) fn pass(
        &mut self,
        alloc: Global,
        number: u64,
        line_result: LineResult,
    ) -> Result<Option<FreePlace>, AllocError>
        ensures { IfOk result (λ _. self.new ≡ and_line number line_result self.old) }
    {
        let LineResult { ended, check } = line_result;
        let free = self.end(alloc, ended)?;
        if let Some(check) = check {
            self.check(number, check)?;
        }
        Ok(free)
    }
}
