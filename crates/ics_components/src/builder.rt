//! A component that is being built of its lines.
ghost use Rattle.std.specs.Prelude.{◌≡◌, [], None, false, true, IfOk};
ghost use Rattle.ics_components.specs.Builders.{builder_at, zone_ended};
ghost use Rattle.ics_components.specs.Lines.{Gives, Keeps, is_mark, line_fault, end_fault, zone_note, context_at, line_result};
ghost use Rattle.ics_components.specs.declared.builder.Builder.TheVariants.{Zone};
ghost use Rattle.ics_components.specs.declared.parsed_file.ClosedComponent.TheVariants as ended;

use crate::component::Context;
use crate::deferred_check::ZoneName;
use crate::fault::FaultKind;
use crate::listed::Listed;
use crate::name::Name;
use crate::observance_builder::ObservanceBuilder;
use crate::open_event::{FreePlace, OpenEvent};
use crate::parsed_file::{CalendarZone, ClosedComponent, LineResult};
use crate::refused::Refused;
use crate::tzid::{Tzid, Tzids};
use ics_text::Content;
use ics_values::Observance;
use std::alloc::{AllocError, Global};

/// What has been read of a component so far, by where its lines stand.
#[derive(Drop)]
pub enum Builder {
    Calendar,
    Event(OpenEvent),
    Zone(ZoneBuilder),
    Observance(ObservanceBuilder),
    Elsewhere,
}

/// The TZID of a time zone, and its observances that have ended.
#[derive(Drop)]
pub struct ZoneBuilder {
    pub name: Option<Tzid>,
    pub observances: Listed<Observance>,
}

impl ZoneBuilder {
    /// One line more of a time zone.
    #[tactic(auto, unfolding(crate::specs::Lines::least_fault))]
    pub fn line(
        &mut self,
        alloc: Global,
        tzids: &mut Tzids,
        name: Name,
        content: &Content<'_>,
    ) -> Result<(), Refused>
        requires { is_mark name ≡ false }
        ensures { Keeps result self.new (line_fault name content.now (Zone self.old)) (zone_note name content.now self.old) }
    {
        match name {
            Name::Tzid if self.name.is_some() => Err(Refused::Fault(FaultKind::ObservanceField)),
            Name::Tzid => {
                self.name = Some(tzids.of_value(alloc, content.value())?);
                Ok(())
            }
            _ => Ok(()),
        }
    }

    /// The time zone of that calendar, at its END.
    #[tactic(auto, unfolding(crate::specs::Lines::least_fault))]
    pub fn end(self, calendar: u64) -> Result<LineResult, Refused>
        ensures { Gives result (end_fault true (Zone self)) (line_result (ended.Zone (zone_ended calendar self)) None) }
    {
        let ZoneBuilder { name, observances } = self;
        if observances.values.is_empty() {
            return Err(Refused::Fault(FaultKind::NoObservance));
        }
        let Some(name) = name else {
            return Err(Refused::Fault(FaultKind::ObservanceField));
        };
        let name = ZoneName { calendar, name };
        Ok(LineResult {
            ended: ClosedComponent::Zone(CalendarZone { name, observances }),
            check: None,
        })
    }
}

impl Builder {
    /// Where the lines of the component stand.
    pub fn context(&self) -> Context
        ensures { result ≡ context_at self.now }
    {
        match self {
            Builder::Calendar => Context::Calendar,
            Builder::Event(_) => Context::Event,
            Builder::Zone(_) => Context::Zone,
            Builder::Observance(_) => Context::Observance,
            Builder::Elsewhere => Context::Elsewhere,
        }
    }

    /// What a component has that has only begun, by where its lines stand. An event takes the place that is free, if there is one.
    pub fn fresh(
        alloc: Global,
        free: &mut Option<FreePlace>,
        context: Context,
    ) -> Result<Builder, AllocError>
        ensures { IfOk result (λ builder. builder ≡ builder_at [] [] context) }
    {
        Ok(match context {
            Context::Calendar => Builder::Calendar,
            Context::Event => Builder::Event(OpenEvent::begun(alloc, free.take())?),
            Context::Zone => Builder::Zone(ZoneBuilder {
                name: None,
                observances: Listed {
                    values: Vec::new(alloc),
                },
            }),
            Context::Observance => Builder::Observance(ObservanceBuilder::nothing(alloc)),
            Context::Outside | Context::Elsewhere => Builder::Elsewhere,
        })
    }
}
