//! The lines of a part of a file.
ghost use Rattle.std.specs.Prelude.{◌≡◌, ◌↔◌, ◌+◌, ◌<◌, ◌≤◌, ◌^◌, [], length, None, IfOk, OnErr, IsTrue, IsErr};
ghost use Rattle.ics_text.specs.Parts.{last_number, lines_left};
ghost use Rattle.ics_text.specs.ReadLines.{TakesRead};
ghost use Rattle.ics_text.specs.Unfolded.{without_mark, begins_with_fold, BeginsFolded};

use crate::fault::BadFold;
use crate::folds::{FirstLine, first_line};
use crate::logical::Logical;
use crate::physical::{is_continued, without_mark};
use crate::read_line::ReadLine;
use crate::reads::Reads;
use std::alloc::{AllocError, Global};
use std::marker::Model;

/// The bytes of a part of a file that were not read yet, and the number of line ends before them.
#[derive(Drop)]
pub struct PartLines<'a> {
    rest: &'a [u8],
    breaks: u64,
}

impl<'a> Model for PartLines<'a> {
    ghost use Rattle.std.specs.Prelude.{◌+◌, ◌<◌, ◌^◌, length};
    ghost use Rattle.ics_text.specs.Parts.{Part};

    ghost Value = { Part };

    ghost view = { λ a. record { breaks = a.breaks; bytes = a.rest.now } };

    ghost invariant = { λ a. a.breaks + length a.rest.now < 2 ^ 64 };
}

impl<'a> PartLines<'a> {
    /// The first bytes of a file; a byte order mark before them is skipped. `BadFold` if the first line begins with SPACE or HTAB, as if it
    /// continued another.
    #[tactic(auto, using(crate::proofs::Rising::short))]
    pub fn new(bytes: &'a [u8]) -> Result<PartLines<'a>, BadFold>
        ensures part { IfOk result (λ part. part ≡ record { breaks = 0; bytes = without_mark bytes.now }) }
        ensures shorter { IfOk result (λ part. length part.bytes ≤ length bytes.now) }
        ensures refused { IsErr result ↔ IsTrue (begins_with_fold bytes.now) }
    {
        let rest = without_mark(bytes);
        if is_continued(rest) {
            return Err(BadFold);
        }
        Ok(PartLines { rest, breaks: 0 })
    }

    /// Bytes with that number of line ends before them.
    pub fn behind(breaks: u64, bytes: &'a [u8]) -> PartLines<'a>
        requires { breaks + length bytes.now < 2 ^ 64 }
        ensures { result ≡ record { breaks = breaks; bytes = bytes.now } }
    {
        PartLines {
            rest: bytes,
            breaks,
        }
    }

    /// The number of line ends before the bytes that were not read yet.
    pub fn breaks(&self) -> u64
        ensures { result ≡ self.now.breaks }
    {
        self.breaks
    }

    /// The next line, or None from the end on; a folded content line whose property is not read is passed over, and so not
    /// allocated. If an allocation fails, the answer is an `AllocError` and the lines still to come are unchanged.
    pub fn next_read<R: Reads>(
        &mut self,
        alloc: Global,
        reader: &R,
    ) -> Result<Option<ReadLine<'a>>, AllocError>
        ensures ok { IfOk result (λ line. TakesRead (R.reads reader.now) (lines_left self.old) line (lines_left self.new)) }
        ensures counted { IfOk result (λ _. last_number self.new ≡ last_number self.old) }
        ensures end { IfOk result (λ line. line ≡ None → self.new.bytes ≡ []) }
        ensures unchanged { OnErr result (lines_left self.new ≡ lines_left self.old) }
        ensures only_folded { OnErr result (BeginsFolded (lines_left self.old)) }
    {
        'lines: while !self.rest.is_empty() {
            let number = self.breaks + 1;
            let FirstLine {
                bytes,
                rest,
                breaks,
            } = first_line(alloc, reader, self.rest)?;
            self.rest = rest;
            self.breaks += breaks;
            let Some(bytes) = bytes else {
                return Ok(Some(ReadLine::PassedOver(number)));
            };
            if !bytes.as_slice().is_empty() {
                return Ok(Some(ReadLine::Whole(Logical { number, bytes })));
            }
        }
        Ok(None)
    }
}
