//! A component that is open.
ghost use Rattle.std.specs.Prelude.{◌≡◌, false, true, IfOk};
ghost use Rattle.ics_components.specs.declared.builder.Builder.TheVariants as builder;
ghost use Rattle.ics_components.specs.declared.component.Component.TheVariants as component;
ghost use Rattle.ics_components.specs.declared.parsed_file.ClosedComponent.TheVariants.{Nothing};
ghost use Rattle.ics_components.specs.ParsedFiles.{and_line};
ghost use Rattle.ics_components.specs.SecondRound.{zone_check};
ghost use Rattle.ics_components.specs.Lines.{Keeps, Leaves, Notes, is_mark, line_fault, end_fault, is_of, joined, line_result, ended_as, end_check};
ghost use Rattle.ics_components.specs.Lines.{builder_note, builder_zone};
ghost use Rattle.ics_components.specs.Pass.{bottom};

use crate::builder::Builder;
use crate::component::Component;
use crate::fault::FaultKind;
use crate::name::Name;
use crate::open_event::EndedEvent;
use crate::parsed_file::{ClosedComponent, LineResult, ParsedFile};
use crate::refused::Refused;
use crate::tzid::Tzids;
use ics_text::Content;
use ics_values::Text;
use std::alloc::Global;

/// A component that is open: which one, and what has been read of it.
#[derive(Drop)]
pub struct Frame {
    pub component: Component,
    /// The number of the BEGIN line of the calendar that it belongs to.
    pub calendar: u64,
    pub builder: Builder,
}

impl Frame {
    /// What stands below all components.
    pub fn bottom(alloc: Global) -> Frame
        ensures { result ≡ bottom }
    {
        Frame {
            component: Component::Other(Text::new(alloc)),
            calendar: 0,
            builder: Builder::Elsewhere,
        }
    }

    /// Whether it stands below all components.
    pub fn is_bottom(&self) -> bool
        ensures { result ≡ true → self.now ≡ bottom }
    {
        match (&self.component, &self.builder) {
            (Component::Other(name), Builder::Elsewhere) => {
                name.as_slice().is_empty() && self.calendar == 0
            }
            _ => false,
        }
    }

    /// Whether it is the calendar that begins on the line with that number.
    pub fn is_calendar(&self, number: u64) -> bool
        ensures { result ≡ true → self.now ≡ record { component = component.Calendar; calendar = number; builder = builder.Calendar } }
    {
        match (&self.component, &self.builder) {
            (Component::Calendar, Builder::Calendar) => self.calendar == number,
            _ => false,
        }
    }

    /// One line more that begins and ends no component. The check that it leaves to the second round is added with the number of the line.
    ///
    /// A check takes much room, so this stands apart from `Stack::named_line`, which passes without it what is not read.
    #[inline(never)]
    #[tactic(auto, using(crate::proofs::Judgements::leaves_same), unfolding(crate::specs::Lines::least_fault))]
    pub fn line(
        &mut self,
        alloc: Global,
        tzids: &mut Tzids,
        parsed: &mut ParsedFile,
        number: u64,
        name: Name,
        content: &Content<'_>,
    ) -> Result<(), Refused>
        requires { is_mark name ≡ false }
        ensures noted { Keeps result self.new (line_fault name content.now self.old.builder)
            (record self.old { builder = builder_note name content.now self.old.builder }) }
        ensures parsed { IfOk result (λ _. parsed.new
            ≡ and_line number (line_result Nothing (zone_check (builder_zone self.old.calendar name content.now self.old.builder))) parsed.old) }
        ensures kept { Leaves result parsed.old parsed.new }
    {
        match &mut self.builder {
            Builder::Calendar => match name {
                Name::Version if content.value() == b"1.0".as_slice() => {
                    Err(Refused::Fault(FaultKind::OldVersion))
                }
                _ => Ok(()),
            },
            Builder::Event(had) => {
                if let Some(check) = had.fields.line(alloc, tzids, self.calendar, name, content)? {
                    parsed.check(number, check)?;
                }
                Ok(())
            }
            Builder::Zone(had) => had.line(alloc, tzids, name, content),
            Builder::Observance(had) => had.line(alloc, name, content),
            Builder::Elsewhere => Ok(()),
        }
    }

    /// What the component is where an END has that name. An observance goes to what it stands in.
    #[tactic(auto, unfolding(crate::specs::Lines::least_fault))]
    pub fn end(self, outer: &mut Builder, name: &[u8]) -> Result<LineResult, Refused>
        ensures { Notes result outer.new (end_fault (is_of name.now self) self.builder) (joined outer.old self.builder)
            (line_result (ended_as self.calendar self.builder) (end_check self.calendar self.builder)) }
    {
        if !self.component.is_named(name) {
            drop(self);
            return Err(Refused::Fault(FaultKind::BadNesting));
        }
        let (calendar, builder) = (self.calendar, self.builder);
        match builder {
            Builder::Event(event) => match event.fields.end(calendar) {
                Ok(check) => Ok(LineResult {
                    ended: ClosedComponent::Event(EndedEvent { calendar, event }),
                    check,
                }),
                Err(refused) => {
                    drop(event);
                    Err(refused)
                }
            },
            Builder::Zone(had) => had.end(calendar),
            Builder::Observance(had) => had.join(outer),
            Builder::Calendar | Builder::Elsewhere => Ok(LineResult::nothing()),
        }
    }
}
