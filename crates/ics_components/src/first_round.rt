//! The first round over the lines of a file (RFC 5545, sections 3.4 and 3.6).
ghost use Rattle.std.specs.Prelude.{◌≡◌, ℕ, ◌+◌, ◌<◌, ◌≤◌, ◌^◌, ◌∷◌, [], List, length, IfOk, None, Some, IfSome};
ghost use Rattle.ics_text.specs.Parts.{last_number, lines_left};
ghost use Rattle.ics_text.specs.Passing.{IsPassed};
ghost use Rattle.ics_text.specs.ReadLines.{TakesRead};
ghost use Rattle.ics_text.specs.Unfolded.{Line, Within};
ghost use Rattle.ics_values.specs.KeptTexts.{KeptTexts};
ghost use Rattle.ics_components.specs.Fronts.{IsFirstRead};
ghost use Rattle.ics_components.specs.Inner.FrontedRound.{IsReadTo};
ghost use Rattle.ics_components.specs.Inner.GoingBehind.{GoesBehind, GoesOver};
ghost use Rattle.ics_components.specs.Known.{is_kept};
ghost use Rattle.ics_components.specs.KeptPass.{pass_on};
ghost use Rattle.ics_components.specs.PlacedLines.{Open, placed_from};
ghost use Rattle.ics_components.specs.Pass.{at_end, bottom, unless, Says};
ghost use Rattle.ics_components.specs.Inner.Passing.{GoesOn, ReadsOn};
ghost use Rattle.ics_components.specs.ParsedFiles.{nothing_parsed};

use crate::fault::{Fault, FaultKind, FileFault};
use crate::front::Front;
use crate::known::Known;
use crate::name::{kept_as, name_of};
use crate::parsed_file::ParsedFile;
use crate::refused::Refused;
use crate::stack::Stack;
use ics_text::{Logical, PartLines, ReadLine, content, part_numbers_within};
use ics_values::KeptTexts;
use std::alloc::{AllocError, Global};

/// The first round behind some lines: the components that are open, what is gathered, and the number of the last line.
#[derive(Drop)]
pub struct FirstRound {
    stack: Stack,
    parsed: ParsedFile,
    last: Option<u64>,
}

impl FirstRound {
    /// No line is read.
    pub fn new(alloc: Global) -> FirstRound
        ensures { result ≡ record { stack = bottom ∷ []; parsed = nothing_parsed; last = None } }
    {
        FirstRound {
            stack: Stack::new(alloc),
            parsed: ParsedFile::new(alloc),
            last: None,
        }
    }

    /// Takes one line, or answers its fault. A text that is not kept is taken for a property that is not read.
    #[tactic(auto, using(crate::proofs::ReadTo::goes_there, crate::proofs::ReadTo::reads_there, crate::proofs::ReadTo::reads_refused))]
    fn line(&mut self, alloc: Global, keep: KeptTexts, line: &Logical<'_>) -> Result<(), Refused>
        ensures behind { GoesBehind keep result line.now self.old self.new }
        ensures reads { ReadsOn keep result line.now self.old self.new }
        ensures last { IfOk result (λ _. self.new.last ≡ Some line.now.number) }
    {
        let number = line.number();
        let Ok(parts) = content(line.bytes()) else {
            return Err(Refused::Fault(FaultKind::BadLine));
        };
        let name = kept_as(keep, name_of(parts.name()));
        self.stack
            .named_line(alloc, &mut self.parsed, number, name, &parts)?;
        self.last = Some(number);
        Ok(())
    }

    /// Passes over the line with that number, whose property is not read.
    fn pass_over(&mut self, number: u64) -> Result<(), Refused>
        ensures { (keep : KeptTexts) (lines rest : List Line) → IsPassed (is_kept keep) number lines rest
            → GoesOn keep result number lines rest self.old self.new }
    {
        match self.stack.pass_over() {
            Ok(()) => {
                self.last = Some(number);
                Ok(())
            }
            Err(refused) => Err(refused),
        }
    }

    /// Takes the next line, and answers its number.
    fn take(
        &mut self,
        alloc: Global,
        keep: KeptTexts,
        line: ReadLine<'_>,
    ) -> (u64, Result<(), Refused>)
        ensures { (lines rest : List Line) → TakesRead (is_kept keep) lines (Some line.entry) rest
            → GoesOn keep result.1 result.0 lines rest self.old self.new }
    {
        match line {
            ReadLine::PassedOver(number) => (number, self.pass_over(number)),
            ReadLine::Whole(line) => {
                let number = line.number();
                let taken = self.line(alloc, keep, &line);
                drop(line);
                (number, taken)
            }
        }
    }

    /// The fault that stands where the lines end, if there is one.
    pub fn end(&self) -> Result<(), FileFault>
        requires { IfSome self.now.last (λ n. n + 1 < 2 ^ 64) }
        ensures { Says (λ _. self.now.parsed) result (unless (at_end self.now.stack self.now.last) self.now.parsed) }
    {
        let (line, kind) = match self.last {
            None => (1, FaultKind::NotCalendar),
            Some(_) if self.stack.is_lowest() => return Ok(()),
            Some(number) => (number + 1, FaultKind::BadNesting),
        };
        Err(FileFault::At { line, kind })
    }

    /// Takes the lines of a part of the file up to the first that has a fault. Answers the number of line ends behind them.
    #[inline(never)]
    pub fn lines(
        &mut self,
        alloc: Global,
        keep: KeptTexts,
        mut part: PartLines<'_>,
    ) -> Result<u64, FileFault>
        requires lines { (n : ℕ) × (n + 1 < 2 ^ 64) × Within n (lines_left part) }
        requires last { IfSome self.old.last (λ n. n + 1 < 2 ^ 64) }
        ensures over { GoesOver keep result (lines_left part.entry) self.old self.new }
        ensures front { (path : List Open) → IsReadTo keep result (placed_from path (lines_left part.entry)) self.old self.new }
        ensures last { IfOk result (λ _. IfSome self.new.last (λ n. n + 1 < 2 ^ 64)) }
        ensures counted { IfOk result (λ breaks. breaks + 1 ≡ last_number part.entry) }
    {
        'lines: while let Some(line) = part.next_read(alloc, &Known { keep })? {
            let (number, taken) = self.take(alloc, keep, line);
            match taken {
                Ok(()) => {}
                Err(Refused::Memory) => return Err(FileFault::Memory),
                Err(Refused::Fault(kind)) => return Err(FileFault::At { line: number, kind }),
            }
        }
        Ok(part.breaks())
    }

    /// Takes the lines of a whole file up to the first that has a fault. The fault that it answers may stand where they end.
    fn read(&mut self, alloc: Global, keep: KeptTexts, part: PartLines<'_>) -> Result<(), FileFault>
        requires lines { (n : ℕ) × (n + 1 < 2 ^ 64) × Within n (lines_left part) }
        requires last { IfSome self.old.last (λ n. n + 1 < 2 ^ 64) }
        ensures says { Says (λ _. self.new.parsed) result (pass_on keep self.old (lines_left part.entry)) }
        ensures front { (path : List Open) → IsReadTo keep result (placed_from path (lines_left part.entry)) self.old self.new }
    {
        self.lines(alloc, keep, part)?;
        self.end()
    }

    /// What is gathered of the lines.
    pub fn into_parsed(self) -> ParsedFile
        ensures { result ≡ self.parsed }
    {
        let FirstRound { stack, parsed, .. } = self;
        drop(stack);
        parsed
    }
}

/// What the first round reads: a file without a fault, or its first fault and the events before it. Texts that are not kept are left out.
#[derive(Drop)]
pub enum FirstRead {
    Whole(ParsedFile),
    Faulty(Fault, Front),
}

/// What the first round gathers of a file of at most 16,777,216 bytes, or the first fault of that round and the events before it. Of the texts of events those
/// are kept that `keep` names.
#[inline(never)]
pub fn read_first(alloc: Global, keep: KeptTexts, bytes: &[u8]) -> Result<FirstRead, AllocError>
    requires { length bytes.now ≤ 16_777_216 }
    ensures { IfOk result (IsFirstRead keep bytes.now) }
{
    part_numbers_within();
    let Ok(part) = PartLines::new(bytes) else {
        let fault = Fault {
            line: 1,
            kind: FaultKind::BadFold,
        };
        return Ok(FirstRead::Faulty(fault, Front::none(alloc)));
    };
    let mut round = FirstRound::new(alloc);
    match round.read(alloc, keep, part) {
        Ok(()) => Ok(FirstRead::Whole(round.into_parsed())),
        Err(FileFault::Memory) => Err(AllocError),
        Err(FileFault::At { line, kind }) => {
            let front = Front::of(round.into_parsed());
            Ok(FirstRead::Faulty(Fault { line, kind }, front))
        }
    }
}
