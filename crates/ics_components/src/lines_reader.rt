//! What the lines of one component are read to.
ghost use Rattle.std.specs.Prelude.{◌≡◌, ◌∷◌, [], IfOk, None, Some};
ghost use Rattle.ics_components.specs.Parted.{Reads, frames_around, gathered_in, read_on};
ghost use Rattle.ics_components.specs.Inner.FrontedRound.{still};
ghost use Rattle.ics_components.specs.ParsedFiles.{nothing_parsed};
ghost use Rattle.ics_components.specs.Pass.{bottom};
ghost use Rattle.ics_components.specs.PlacedLines.{named};

use crate::fault::{Fault, FaultKind};
use crate::name::Name;
use crate::parsed_file::ParsedFile;
use crate::path::Path;
use crate::refused::Refused;
use crate::stack::Stack;
use ics_text::Content;
use std::alloc::{AllocError, Global};
use std::marker::Model;
use std::mem;

/// The first round over the lines of a component, up to its first fault.
#[derive(Drop)]
pub struct LinesReader {
    stack: Stack,
    parsed: ParsedFile,
    fault: Option<Fault>,
}

impl Model for LinesReader {
    ghost use Rattle.ics_components.specs.Parted.{LinesRead};
    ghost use Rattle.ics_components.specs.Inner.PartsPass.{read_seen};

    ghost Value = { LinesRead };

    ghost view = { λ a. read_seen a.fault a.stack a.parsed };
}

impl LinesReader {
    /// No line is read.
    pub fn new(alloc: Global) -> LinesReader
        ensures { result ≡ Reads (bottom ∷ []) nothing_parsed }
    {
        LinesReader {
            stack: Stack::new(alloc),
            parsed: ParsedFile::new(alloc),
            fault: None,
        }
    }

    /// No line of an event or a time zone is read that begins where these are open: a calendar, or none.
    pub fn restart(&mut self, alloc: Global, path: &Path, is_event: bool) -> Result<(), AllocError>
        ensures { IfOk result (λ _. self.new ≡ Reads (frames_around path.now) nothing_parsed) }
    {
        if path.is_empty() {
            self.stack.clear(alloc);
        } else {
            self.stack.restart(alloc, path.innermost())?;
        }
        // a list that grows by itself takes room for several
        self.parsed = ParsedFile::of_one(alloc, is_event)?;
        self.fault = None;
        Ok(())
    }

    /// Reads no line from here on: what is gathered of them is known.
    pub fn stand_still(&mut self)
        ensures { self.new ≡ still }
    {
        self.fault = Some(Fault {
            line: 0,
            kind: FaultKind::BadLine,
        });
    }

    /// Reads a line more.
    pub fn read(
        &mut self,
        alloc: Global,
        number: u64,
        name: Name,
        content: &Content<'_>,
    ) -> Result<(), AllocError>
        requires { name ≡ named content.now }
        ensures { IfOk result (λ _. self.new ≡ read_on number (Some content.now) self.old) }
    {
        if self.fault.is_some() {
            return Ok(());
        }
        let parsed = &mut self.parsed;
        match self.stack.named_line(alloc, parsed, number, name, content) {
            Ok(()) => Ok(()),
            Err(Refused::Memory) => Err(AllocError),
            Err(Refused::Fault(kind)) => {
                self.fault = Some(Fault { line: number, kind });
                self.parsed = ParsedFile::new(alloc);
                Ok(())
            }
        }
    }

    /// Reads a line that is no content line.
    pub fn read_bad(&mut self, number: u64)
        ensures { self.new ≡ read_on number None self.old }
    {
        if self.fault.is_none() {
            self.fault = Some(Fault {
                line: number,
                kind: FaultKind::BadLine,
            });
        }
    }

    /// What is gathered of the lines, or their first fault.
    pub fn take(&mut self, alloc: Global) -> Result<ParsedFile, Fault>
        ensures { result ≡ gathered_in self.old }
    {
        match self.fault {
            Some(fault) => Err(fault),
            None => Ok(mem::replace(&mut self.parsed, ParsedFile::new(alloc))),
        }
    }
}
