//! The first round over a file that comes in pieces.
ghost use Rattle.std.specs.Prelude.{◌≡◌, ℕ, List, [], ◌+◌, ◌≤◌, ◌++◌, length, IfOk};
ghost use Rattle.std.specs.Option.{option_copied};
ghost use Rattle.ics_values.specs.KeptTexts.{KeptTexts};
ghost use Rattle.ics_components.specs.FileReading.{HasRead, LastFits};
ghost use Rattle.ics_components.specs.Inner.TakenParts.{EndsLine, HasRoom, held_by, says_of};
ghost use Rattle.ics_components.specs.Kept.{SaysKept};
ghost use Rattle.ics_components.specs.ParsedFiles.{IsSoundParsed};
ghost use Rattle.ics_components.specs.Pass.{parsed_of};

use crate::fault::FileFault;
use crate::parsed_file::ParsedFile;
use crate::taken_lines::TakenLines;
use ics_text::{first_cut, last_cut};
use ics_values::KeptTexts;
use std::alloc::{AllocError, Global};

/// The first round over a file that comes in pieces: the lines that it has taken, and the bytes behind them. Of a line whose end has not come, only these
/// bytes are held.
#[derive(Drop)]
pub struct FileReader {
    taken: TakenLines,
    carry: Vec<u8>,
}

impl FileReader {
    /// Nothing is read. Of the texts of events those will be kept that `keep` names.
    pub fn new(alloc: Global, keep: KeptTexts) -> FileReader
        ensures { HasRead keep [] result }
    {
        FileReader {
            taken: TakenLines::new(alloc, keep),
            carry: Vec::new(alloc),
        }
    }

    /// Takes the line that is carried, if one is, where the piece ends it. Answers the bytes of the piece behind it. None if all of the piece is carried now.
    fn end_line<'a>(
        &mut self,
        alloc: Global,
        piece: &'a [u8],
    ) -> Result<Option<&'a [u8]>, AllocError>
        requires { HasRoom self.old.taken (length self.old.carry.items + length piece.now) }
        ensures says { IfOk result (λ rest. EndsLine piece.now self.old self.new (option_copied rest)) }
        ensures last { IfOk result (λ _. LastFits self.new.taken.place self.new.taken.round) }
    {
        if self.carry.is_empty() {
            return Ok(Some(piece));
        }
        let Some((head, rest)) = first_cut(&self.carry, piece) else {
            self.carry.extend_from_slice(piece)?;
            return Ok(None);
        };
        self.carry.extend_from_slice(head)?;
        self.taken.take(alloc, &self.carry)?;
        self.carry.clear();
        Ok(Some(rest))
    }

    /// Takes the lines that end in these bytes, and carries the bytes behind them. None were carried.
    fn take_ended(&mut self, alloc: Global, bytes: &[u8]) -> Result<(), AllocError>
        requires none { self.old.carry.items ≡ [] }
        requires room { HasRoom self.old.taken (length bytes.now) }
        ensures says { IfOk result (λ _. (more : List ℕ) → says_of self.old (bytes.now ++ more) ≡ says_of self.new more) }
        ensures held { IfOk result (λ _. held_by self.new ≤ held_by self.old + length bytes.now) }
        ensures last { IfOk result (λ _. LastFits self.new.taken.place self.new.taken.round) }
    {
        let Some((head, rest)) = last_cut(bytes) else {
            self.carry.extend_from_slice(bytes)?;
            return Ok(());
        };
        self.taken.take(alloc, head)?;
        self.carry.extend_from_slice(rest)?;
        Ok(())
    }

    /// Reads the next bytes of the file. Behind an error nothing more can be read.
    pub fn add(&mut self, alloc: Global, piece: &[u8]) -> Result<(), AllocError>
        requires { (keep : KeptTexts) × (bytes : List ℕ) × HasRead keep bytes self.old × (length bytes + length piece.now ≤ 16_777_216) }
        ensures { IfOk result (λ _. (keep : KeptTexts) (bytes : List ℕ) → HasRead keep bytes self.old → length bytes + length piece.now ≤ 16_777_216
            → HasRead keep (bytes ++ piece.now) self.new) }
    {
        if self.taken.is_faulty() {
            return Ok(());
        }
        match self.end_line(alloc, piece)? {
            Some(rest) => self.take_ended(alloc, rest),
            None => Ok(()),
        }
    }

    /// What the first round gathers of the file whose bytes were read, or its first fault (RFC 5545, sections 3.4 and 3.6).
    ///
    /// The fault is the one on the least line and, if that has several, of the least kind; the faults of zones and of instants are left to the deferred
    /// checks. What is gathered is sound: its stamps are in the years 0001 to 9899, each of its time zones has an observance, no rule of which is finer than
    /// daily, and a check is deferred for each time zone that a stamp of an event names. `Memory` if an allocation fails.
    pub fn finish(self, alloc: Global) -> Result<ParsedFile, FileFault>
        requires { (keep : KeptTexts) × (bytes : List ℕ) × HasRead keep bytes self }
        ensures parsed { (keep : KeptTexts) (bytes : List ℕ) → HasRead keep bytes self → SaysKept keep result (parsed_of bytes) }
        ensures sound { IfOk result IsSoundParsed }
    {
        let FileReader { taken, carry } = self;
        let parsed = taken.finish(alloc, &carry);
        drop(carry);
        parsed
    }
}
