//! An observance that is being built of its lines (RFC 5545, section 3.6.5).
ghost use Rattle.std.specs.Prelude.{◌≡◌, [], None, Some, is_some, false, true, if◌then◌else◌};
ghost use Rattle.std.specs.Option.{option_or};
ghost use Rattle.ics_components.specs.Builders.{observance_of};
ghost use Rattle.ics_components.specs.Lines.{Keeps, Notes, is_mark, line_fault, end_fault, observance_note, joined, line_result};
ghost use Rattle.ics_components.specs.declared.builder.Builder.TheVariants as builder;
ghost use Rattle.ics_components.specs.declared.parsed_file.ClosedComponent.TheVariants.{Nothing};

use crate::builder::Builder;
use crate::fault::FaultKind;
use crate::listed::Listed;
use crate::name::Name;
use crate::observances::read_locals;
use crate::parsed_file::LineResult;
use crate::refused::Refused;
use crate::rule_value::daily_in;
use crate::time::local;
use ics_text::Content;
use ics_values::{KeptRule, Local, Observance, read_offset};
use std::alloc::Global;

/// The value of each property that an observance has once, and the values of all its RDATEs.
#[derive(Drop)]
pub struct ObservanceBuilder {
    pub start: Option<Local>,
    pub from: Option<i32>,
    pub to: Option<i32>,
    pub rule: Option<KeptRule>,
    pub rdates: Listed<Local>,
}

/// Keeps a value that stands only once, or answers the fault of one that stands before.
fn keep_once<T: Drop>(value: T, kept: &mut Option<T>, again: FaultKind) -> Result<(), Refused>
    ensures { Keeps result kept.new (if is_some kept.old then Some again else None) (option_or kept.old (Some value)) }
{
    if kept.is_some() {
        drop(value);
        return Err(Refused::Fault(again));
    }
    *kept = Some(value);
    Ok(())
}

impl ObservanceBuilder {
    /// What an observance has that has only begun.
    pub fn nothing(alloc: Global) -> ObservanceBuilder
        ensures { result ≡ observance_of [] }
    {
        ObservanceBuilder {
            start: None,
            from: None,
            to: None,
            rule: None,
            rdates: Listed {
                values: Vec::new(alloc),
            },
        }
    }

    /// One line more of an observance. A TZID beside a value is disregarded.
    #[tactic(auto, using(crate::proofs::Judgements::observance_line))]
    pub fn line(&mut self, alloc: Global, name: Name, content: &Content<'_>) -> Result<(), Refused>
        requires { is_mark name ≡ false }
        ensures { Keeps result self.new (line_fault name content.now (builder.Observance self.old)) (observance_note name content.now self.old) }
    {
        let value = content.value();
        let again = FaultKind::ObservanceField;
        match name {
            Name::Dtstart => keep_once(local(value)?, &mut self.start, again)?,
            Name::OffsetFrom => keep_once(read_offset(value)?, &mut self.from, again)?,
            Name::OffsetTo => keep_once(read_offset(value)?, &mut self.to, again)?,
            Name::Rrule => keep_once(daily_in(alloc, value)?, &mut self.rule, FaultKind::ZoneRule)?,
            Name::Rdate => self.rdates.append(read_locals(alloc, value)?)?,
            _ => {}
        }
        Ok(())
    }

    /// Goes at its END to the time zone in which it stands.
    #[tactic(auto, unfolding(crate::specs::Lines::least_fault))]
    pub fn join(self, outer: &mut Builder) -> Result<LineResult, Refused>
        ensures { Notes result outer.new (end_fault true (builder.Observance self)) (joined outer.old (builder.Observance self)) (line_result Nothing None) }
    {
        let (Some(start), Some(offset_from), Some(offset_to)) = (self.start, self.from, self.to)
        else {
            return Err(Refused::Fault(FaultKind::ObservanceField));
        };
        let observance = Observance {
            start,
            offset_from,
            offset_to,
            rule: self.rule,
            rdates: self.rdates.values,
        };
        if let Builder::Zone(zone) = outer {
            zone.observances.values.push(observance)?;
        }
        Ok(LineResult::nothing())
    }
}
