//! How far the first round has come in a file whose lines it takes part by part.
ghost use Rattle.std.specs.Prelude.{◌≡◌, ℕ, ◌+◌, ◌<◌, ◌≤◌, ◌^◌, ◌++◌, List, true, false, length, None, IfOk, IfSome, IsTrue};
ghost use Rattle.ics_text.specs.Bytes.{begins, is_blank};
ghost use Rattle.ics_text.specs.Cuts.{ends_line};
ghost use Rattle.ics_components.specs.declared.fault.Fault.{Fault};
ghost use Rattle.ics_components.specs.declared.taken_lines.Place.TheVariants.{Start, At};
ghost use Rattle.ics_components.specs.FileReading.{LastFits, breaks_at, says_then};
ghost use Rattle.ics_components.specs.Inner.TakenParts.{BeginsPart, HasRoom, SaysOver};
ghost use Rattle.ics_components.specs.KeptPass.{kept_of};
ghost use Rattle.ics_components.specs.Pass.{Says};

use crate::fault::{Fault, FaultKind, FileFault};
use crate::first_round::FirstRound;
use crate::parsed_file::ParsedFile;
use ics_text::{PartLines, lines_apart, part_numbers_within, unfolded_apart};
use ics_values::KeptTexts;
use std::alloc::{AllocError, Global};

/// Where the first round stands.
#[derive(Clone, Copy)]
pub enum Place {
    /// It has taken no line.
    Start,
    /// It has taken the lines before that many line ends.
    Behind(u64),
    /// It has found the first fault.
    At(Fault),
}

/// The first round, the texts that are kept, and the place where it stands.
#[derive(Drop)]
pub struct TakenLines {
    keep: KeptTexts,
    round: FirstRound,
    place: Place,
}

impl TakenLines {
    /// No line is taken.
    pub fn new(alloc: Global, keep: KeptTexts) -> TakenLines
        ensures says { (file : List ℕ) → kept_of keep file ≡ says_then result file }
        ensures start { result.place ≡ Start }
        ensures last { result.round.last ≡ None }
    {
        TakenLines {
            keep,
            round: FirstRound::new(alloc),
            place: Place::Start,
        }
    }

    /// Whether the first fault is found.
    pub fn is_faulty(&self) -> bool
        ensures { IsTrue result → (fault : Fault) × (self.now.place ≡ At fault) }
    {
        matches!(self.place, Place::At(_))
    }

    /// The next bytes of the file where no fault is found yet, or the first fault.
    fn part<'a>(&self, bytes: &'a [u8]) -> Result<PartLines<'a>, FileFault>
        requires { HasRoom self.now (length bytes.now) }
        ensures part { BeginsPart result bytes.now self.now }
        ensures shorter { IfOk result (λ part. part.breaks + length part.bytes ≤ breaks_at self.now.place + length bytes.now) }
    {
        match self.place {
            Place::Behind(breaks) => Ok(PartLines::behind(breaks, bytes)),
            Place::At(Fault { line, kind }) => Err(FileFault::At { line, kind }),
            Place::Start => match PartLines::new(bytes) {
                Ok(part) => Ok(part),
                Err(_) => Err(FileFault::At {
                    line: 1,
                    kind: FaultKind::BadFold,
                }),
            },
        }
    }

    /// Takes the lines of the next bytes up to the first that has a fault, and answers the number of line ends behind them.
    fn lines(&mut self, alloc: Global, bytes: &[u8]) -> Result<u64, FileFault>
        requires { HasRoom self.old (length bytes.now) }
        ensures over { SaysOver result bytes.now self.old self.new }
        ensures last { IfOk result (λ _. IfSome self.new.round.last (λ n. n + 1 < 2 ^ 64)) }
        ensures within { IfOk result (λ breaks. breaks ≤ breaks_at self.old.place + length bytes.now) }
    {
        part_numbers_within();
        let part = self.part(bytes)?;
        self.round.lines(alloc, self.keep, part)
    }

    /// Takes the lines of the next bytes. They end with a line end, and no line of them goes on behind it.
    pub fn take(&mut self, alloc: Global, head: &[u8]) -> Result<(), AllocError>
        requires { HasRoom self.old (length head.now) }
        ensures says { IfOk result (λ _. (rest : List ℕ) → ends_line head.now ≡ true → begins is_blank rest ≡ false
            → says_then self.old (head.now ++ rest) ≡ says_then self.new rest) }
        ensures within { IfOk result (λ _. breaks_at self.new.place ≤ breaks_at self.old.place + length head.now) }
        ensures last { IfOk result (λ _. LastFits self.new.place self.new.round) }
    {
        lines_apart();
        unfolded_apart();
        self.place = match self.lines(alloc, head) {
            Ok(breaks) => Place::Behind(breaks),
            Err(FileFault::At { line, kind }) => Place::At(Fault { line, kind }),
            Err(FileFault::Memory) => return Err(AllocError),
        };
        Ok(())
    }

    /// What is gathered of the file, whose last bytes these are, or its first fault.
    pub fn finish(mut self, alloc: Global, rest: &[u8]) -> Result<ParsedFile, FileFault>
        requires { HasRoom self (length rest.now) }
        ensures { Says (λ parsed. parsed) result (says_then self rest.now) }
    {
        self.lines(alloc, rest)?;
        self.round.end()?;
        Ok(self.round.into_parsed())
    }
}
