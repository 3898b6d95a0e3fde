//! The components that are open.
ghost use Rattle.std.specs.Prelude.{◌≡◌, ℕ, ◌∷◌, [], IfOk, true};
ghost use Rattle.ics_text.specs.ContentLines.{Parts};
ghost use Rattle.ics_components.specs.declared.builder.Builder.TheVariants as builder;
ghost use Rattle.ics_components.specs.declared.component.Component.TheVariants as component;
ghost use Rattle.ics_components.specs.declared.name.Name.TheVariants.{Begin, End, Other};
ghost use Rattle.ics_components.specs.ParsedFiles.{and_line};
ghost use Rattle.ics_components.specs.Lines.{Keeps, Leaves, fault_on, behind, closed, passing};
ghost use Rattle.ics_components.specs.Pass.{bottom, is_lowest};
ghost use Rattle.ics_components.specs.Inner.PassedLines.{Passes};

use crate::builder::Builder;
use crate::component::{Component, Context};
use crate::fault::FaultKind;
use crate::frame::Frame;
use crate::name::Name;
use crate::open_event::FreePlace;
use crate::parsed_file::ParsedFile;
use crate::refused::Refused;
use crate::tzid::Tzids;
use ics_text::Content;
use std::alloc::{AllocError, Global};
use std::marker::Model;
use std::mem;

/// How many components may be open.
pub const MAX_DEPTH: usize = 32;

/// The components that are open, seen as a list of them with the innermost first, and a frame below them all.
#[derive(Drop)]
pub struct Stack {
    top: Frame,
    outer: Vec<Frame>,
    tzids: Tzids,
    free: Option<FreePlace>,
}

impl Model for Stack {
    ghost use Rattle.std.specs.Prelude.{List, ◌∷◌, reverse};
    ghost use Rattle.ics_components.specs.declared.frame.Frame.{Frame};

    ghost Value = { List Frame };

    ghost view = { λ a. a.top ∷ reverse a.outer.items };
}

impl Stack {
    /// No component is open.
    pub fn new(alloc: Global) -> Stack
        ensures { result ≡ bottom ∷ [] }
    {
        Stack {
            top: Frame::bottom(alloc),
            outer: Vec::new(alloc),
            tzids: Tzids::new(alloc),
            free: None,
        }
    }

    /// No component is open.
    pub fn clear(&mut self, alloc: Global)
        ensures { self.new ≡ bottom ∷ [] }
    {
        self.outer = Vec::new(alloc);
        self.top = Frame::bottom(alloc);
    }

    /// Whether that calendar is open, which begins on the line with that number, and nothing in it.
    fn is_in_calendar(&self, number: u64) -> bool
        ensures { result ≡ true → self.now ≡ record { component = component.Calendar; calendar = number; builder = builder.Calendar } ∷ bottom ∷ [] }
    {
        match self.outer.as_slice() {
            [lowest] => lowest.is_bottom() && self.top.is_calendar(number),
            _ => false,
        }
    }

    /// A calendar is open that begins on the line with that number, and nothing in it. Behind an event of it, all stands as it is.
    pub fn restart(&mut self, alloc: Global, number: u64) -> Result<(), AllocError>
        ensures { IfOk result (λ _. self.new ≡ record { component = component.Calendar; calendar = number; builder = builder.Calendar } ∷ bottom ∷ []) }
    {
        if self.is_in_calendar(number) {
            return Ok(());
        }
        let mut outer = Vec::new(alloc);
        outer.push(Frame::bottom(alloc))?;
        self.outer = outer;
        self.top = Frame {
            component: Component::Calendar,
            calendar: number,
            builder: Builder::Calendar,
        };
        Ok(())
    }

    /// Whether no component is open.
    pub fn is_lowest(&self) -> bool
        ensures { result ≡ is_lowest self.now }
    {
        self.outer.is_empty()
    }

    /// Opens the component that begins on the line with that number.
    ///
    /// What begins or ends takes much room, so this and `end` stand apart from `named_line`, which most lines pass without either.
    #[inline(never)]
    #[tactic(auto, unfolding(crate::specs::Lines::least_fault))]
    fn begin(&mut self, alloc: Global, number: u64, content: &Content<'_>) -> Result<(), Refused>
        ensures { Keeps result self.new (fault_on Begin content.now self.old) (behind number Begin content.now self.old) }
    {
        let component = Component::named(alloc, content.value())?;
        let lowest = self.is_lowest();
        let (context, calendar) = if lowest {
            (Context::Outside, number)
        } else {
            (self.top.builder.context(), self.top.calendar)
        };
        match (context, &component) {
            (Context::Outside, Component::Calendar) => {}
            (Context::Outside, _) => return Err(Refused::Fault(FaultKind::NotCalendar)),
            _ => {}
        }
        if self.outer.len() >= MAX_DEPTH {
            return Err(Refused::Fault(FaultKind::TooDeep));
        }
        let builder = Builder::fresh(alloc, &mut self.free, component.context_in(context))?;
        let inner = Frame {
            component,
            calendar,
            builder,
        };
        let outer = mem::replace(&mut self.top, inner);
        self.outer.push(outer)?;
        Ok(())
    }

    /// Closes the innermost component by an END on the line with that number, and adds what it is.
    #[inline(never)]
    #[tactic(auto, using(crate::proofs::Judgements::leaves_same), unfolding(crate::specs::Lines::least_fault))]
    fn end(
        &mut self,
        alloc: Global,
        parsed: &mut ParsedFile,
        number: u64,
        content: &Content<'_>,
    ) -> Result<(), Refused>
        ensures open { Keeps result self.new (fault_on End content.now self.old) (closed self.old) }
        ensures parsed { IfOk result (λ _. parsed.new ≡ and_line number (passing End content.now self.old) parsed.old) }
        ensures kept { Leaves result parsed.old parsed.new }
    {
        let Some(outer) = self.outer.pop() else {
            return Err(Refused::Fault(FaultKind::NotCalendar));
        };
        let inner = mem::replace(&mut self.top, outer);
        let line_result = inner.end(&mut self.top.builder, content.value())?;
        if let Some(free) = parsed.pass(alloc, number, line_result)? {
            self.free = Some(free);
        }
        Ok(())
    }

    /// Judges a line whose property is not read.
    pub fn pass_over(&self) -> Result<(), Refused>
        ensures { (number : ℕ) (content : Parts) → Passes result number Other content self.now }
    {
        if self.outer.is_empty() {
            return Err(Refused::Fault(FaultKind::NotCalendar));
        }
        Ok(())
    }

    /// Goes behind the line with that number, which is read by that name, and adds what is gathered there.
    #[tactic(auto, using(crate::proofs::Judgements::outside_line, crate::proofs::Judgements::leaves_same))]
    pub fn named_line(
        &mut self,
        alloc: Global,
        parsed: &mut ParsedFile,
        number: u64,
        name: Name,
        content: &Content<'_>,
    ) -> Result<(), Refused>
        ensures open { Keeps result self.new (fault_on name content.now self.old) (behind number name content.now self.old) }
        ensures parsed { IfOk result (λ _. parsed.new ≡ and_line number (passing name content.now self.old) parsed.old) }
        ensures kept { Leaves result parsed.old parsed.new }
    {
        match name {
            Name::Begin => self.begin(alloc, number, content),
            Name::End => self.end(alloc, parsed, number, content),
            _ if self.is_lowest() => Err(Refused::Fault(FaultKind::NotCalendar)),
            // most lines of long files are of properties that are not read
            Name::Other => Ok(()),
            name => {
                let tzids = &mut self.tzids;
                self.top.line(alloc, tzids, parsed, number, name, content)
            }
        }
    }
}
