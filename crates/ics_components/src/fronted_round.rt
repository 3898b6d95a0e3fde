//! The parts' round over the lines before the first fault of a file, whose events the first round has gathered.
ghost use Rattle.std.specs.Prelude.{◌≡◌, [], IfOk, IfSome, None, Some};
ghost use Rattle.std.specs.Option.{option_and_then, option_or};
ghost use Rattle.ics_text.specs.ContentLines.{content_of};
ghost use Rattle.ics_components.specs.Fronts.{IsFrontOf};
ghost use Rattle.ics_components.specs.Inner.FrontedRound.{GoesFronted, StepsFronted, begun_still, closed_fronted, front_closed};
ghost use Rattle.ics_components.specs.Inner.FrontedRound.{front_past, fronted_over, parted_fronted};
ghost use Rattle.ics_components.specs.Inner.PartsPass.{Ends, by_part, here, if_sure, round_begun};
ghost use Rattle.ics_components.specs.Parted.{IsSoundParted, parted_of};
ghost use Rattle.ics_components.specs.PlacedLines.{named, placed, placed_from};

use crate::front::Front;
use crate::name::{Name, is_called, name_of};
use crate::open_part::OpenPart;
use crate::parted::PartedFile;
use crate::parts_round::{HasParts, PartsRound, if_sure};
use ics_text::{Content, Lines, content};
use std::alloc::{AllocError, Global};

impl PartsRound {
    /// Opens the event or the time zone that begins on a line, if one does and none is open. Of an event no line is read.
    #[tactic(auto, unfolding(crate::specs::PlacedLines::name_on))]
    fn begin_fronted(
        &mut self,
        alloc: Global,
        number: u64,
        name: Name,
        content: &Content<'_>,
    ) -> Result<(), AllocError>
        requires { name ≡ named content.now }
        ensures { IfOk result (λ _. self.new
            ≡ record self.old { part = option_or self.old.part (begun_still (here number (Some content.now) self.old.path)) }) }
    {
        if self.part.is_some() || !matches!(name, Name::Begin) {
            return Ok(());
        }
        let in_calendar = self.path.is_in_calendar();
        let is_event = (in_calendar || self.path.is_empty())
            && is_called(content.value(), b"VEVENT");
        if is_event {
            self.reader.stand_still();
        } else if in_calendar && is_called(content.value(), b"VTIMEZONE") {
            self.reader.restart(alloc, &self.path, false)?;
        } else {
            return Ok(());
        }
        let calendar = self.path.innermost();
        self.part = Some(OpenPart::new(alloc, number, calendar, is_event));
        Ok(())
    }

    /// Keeps the event or the time zone that ends on the line with that number.
    fn close_fronted(
        &mut self,
        alloc: Global,
        front: &mut Front,
        number: u64,
    ) -> Result<(), AllocError>
        ensures round { IfOk result (λ _. self.new ≡ closed_fronted number self.old.part front.old self.old) }
        ensures front { IfOk result (λ _. front.new ≡ front_closed number self.old.part front.old) }
    {
        let Some(part) = self.part.take() else {
            return Ok(());
        };
        if part.is_event {
            let read = front.take(alloc, number)?;
            self.parted.events.push(part.closed(Ok(read)))?;
        } else {
            let read = self.reader.take(alloc);
            self.parted.zones.push(part.closed(read))?;
        }
        Ok(())
    }

    /// Takes a line for the event or the time zone that is open, or for none.
    #[tactic(auto, unfolding(crate::specs::PlacedLines::name_on))]
    fn keep_fronted(
        &mut self,
        alloc: Global,
        front: &mut Front,
        number: u64,
        name: Name,
        content: &Content<'_>,
    ) -> Result<(), AllocError>
        requires { name ≡ named content.now }
        ensures round { IfOk result (λ _. self.new
            ≡ record (by_part self.old.part (here number (Some content.now) self.old.path) self.old) {
              parted = parted_fronted self.old.part (here number (Some content.now) self.old.path) (record { round = self.old; front = front.old });
            }) }
        ensures front { IfOk result (λ _. front.new ≡ front_past self.old.part (here number (Some content.now) self.old.path) front.old) }
    {
        let Some(part) = &mut self.part else {
            return self.outside(number, name, content);
        };
        let directly = self.path.innermost() == part.begun;
        if directly {
            part.note(alloc, &mut self.tzids, name, content)?;
        }
        self.reader.read(alloc, number, name, content)?;
        if directly && matches!(name, Name::End) {
            return self.close_fronted(alloc, front, number);
        }
        Ok(())
    }

    /// Takes a line.
    #[tactic(auto, using(crate::proofs::Rounds::content_goes_on, crate::proofs::FrontSteps::steps_fronted))]
    fn take_fronted(
        &mut self,
        alloc: Global,
        front: &mut Front,
        number: u64,
        line: &[u8],
    ) -> Result<HasParts, AllocError>
        ensures { IfOk result (λ has. StepsFronted has (here number (content_of line.now) self.old.path)
            (record { round = self.old; front = front.old }) (record { round = self.new; front = front.new })) }
    {
        let Ok(content) = content(line) else {
            return Ok(self.take_bad(number));
        };
        let name = name_of(content.name());
        if !self.path.nests(name, &content) {
            return Ok(false);
        }
        self.begin_fronted(alloc, number, name, &content)?;
        self.keep_fronted(alloc, front, number, name, &content)?;
        self.pass(alloc, number, name, &content)?;
        Ok(true)
    }

    /// Takes the lines of the front, and answers whether the file may still have parts behind them.
    #[tactic(auto, using(crate::proofs::FrontSteps::front_spent, crate::proofs::FrontSteps::front_goes_on, crate::proofs::FrontSteps::front_stops))]
    fn over_front(
        &mut self,
        alloc: Global,
        mut front: Front,
        lines: &mut Lines<'_>,
    ) -> Result<HasParts, AllocError>
        ensures { IfOk result (λ has. GoesFronted has (record { round = self.old; front = front }) (placed_from self.old.path lines.old)
            self.new (placed_from self.new.path lines.new)) }
    {
        'lines: while front.has_events() {
            let Some(line) = lines.next(alloc)? else {
                return Ok(true);
            };
            let number = line.number();
            let has_parts = self.take_fronted(alloc, &mut front, number, line.bytes());
            drop(line);
            if !has_parts? {
                return Ok(false);
            }
        }
        Ok(true)
    }

    /// Takes the lines, first those of the front. The answer is false where the file has no parts.
    #[tactic(auto, using(crate::proofs::FrontSteps::ends_behind))]
    fn lines_behind(
        &mut self,
        alloc: Global,
        front: Front,
        mut lines: Lines<'_>,
    ) -> Result<HasParts, AllocError>
        ensures { IfOk result (λ has. Ends has self.new.parted
            (fronted_over (record { round = self.old; front = front }) (placed_from self.old.path lines.entry))) }
    {
        if !self.over_front(alloc, front, &mut lines)? {
            return Ok(false);
        }
        self.lines(alloc, None, lines)
    }
}

/// What is gathered of the lines of a file, if it has parts.
fn fronted_parts(
    alloc: Global,
    front: Front,
    lines: Lines<'_>,
) -> Result<Option<PartedFile>, AllocError>
    ensures { IfOk result (λ parted. parted ≡ fronted_over (record { round = round_begun; front = front }) (placed_from [] lines.entry)) }
{
    let mut round = PartsRound::new(alloc);
    let has_parts = round.lines_behind(alloc, front, lines)?;
    let PartsRound { parted, .. } = round;
    if !has_parts {
        drop(parted);
        return Ok(None);
    }
    Ok(Some(parted))
}

/// The same, if it is certain whose each event is.
fn sure_behind(
    alloc: Global,
    front: Front,
    lines: Lines<'_>,
) -> Result<Option<PartedFile>, AllocError>
    ensures { IfOk result (λ parted. parted
        ≡ option_and_then (if_sure None) (fronted_over (record { round = round_begun; front = front }) (placed_from [] lines.entry))) }
{
    match fronted_parts(alloc, front, lines)? {
        Some(parted) => Ok(if_sure(None, parted)),
        None => Ok(None),
    }
}

/// The same as `parse_parts` says of a file without made UIDs. The lines of the events of the front are not read again.
#[inline(never)]
pub fn parse_parts_behind(
    alloc: Global,
    bytes: &[u8],
    front: Front,
) -> Result<Option<PartedFile>, AllocError>
    requires { IsFrontOf (placed bytes.now) front }
    ensures parted { IfOk result (λ parted. parted ≡ parted_of None bytes.now) }
    ensures sound { IfOk result (λ parted. IfSome parted IsSoundParted) }
{
    let Ok(lines) = Lines::new(bytes) else {
        return Ok(None);
    };
    sure_behind(alloc, front, lines)
}
