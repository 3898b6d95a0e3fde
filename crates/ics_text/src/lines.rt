ghost use Rattle.std.specs.Prelude.{◌≡◌, ◌↔◌, false, All, IfOk, OnErr, IsTrue, IsErr};
ghost use Rattle.ics_text.specs.Unfolded.{StandsIn, unfolded, begins_with_fold, BeginsFolded, Takes};
ghost use Rattle.ics_text.specs.ReadLines.{TakesRead};

use crate::fault::BadFold;
use crate::logical::Logical;
use crate::part_lines::PartLines;
use crate::read_line::ReadLine;
use crate::reads::{Every, Reads};
use std::alloc::{AllocError, Global};
use std::marker::Model;

/// The lines of a file that were not read yet, unfolded and without the empty ones (RFC 5545, section 3.1).
#[derive(Drop)]
pub struct Lines<'a> {
    part: PartLines<'a>,
}

impl<'a> Model for Lines<'a> {
    ghost use Rattle.std.specs.Prelude.{List};
    ghost use Rattle.ics_text.specs.Parts.{lines_left};
    ghost use Rattle.ics_text.specs.Unfolded.{Line};

    ghost Value = { List Line };

    ghost view = { λ a. lines_left a.part };
}

impl<'a> Lines<'a> {
    /// The lines of a file; a byte order mark before them is skipped. `BadFold` if the first line begins with SPACE or HTAB, as if it
    /// continued another.
    pub fn new(bytes: &'a [u8]) -> Result<Lines<'a>, BadFold>
        ensures lines { IfOk result (λ lines. lines ≡ unfolded bytes.now) }
        ensures places { IfOk result (λ lines. All (λ line. line.folded ≡ false → StandsIn bytes.now line) lines) }
        ensures refused { IsErr result ↔ IsTrue (begins_with_fold bytes.now) }
    {
        let part = PartLines::new(bytes)?;
        Ok(Lines { part })
    }

    /// The next line, or None from the end on. Only a folded line is allocated. If that fails, the answer
    /// is an `AllocError` and the lines still to come are unchanged.
    pub fn next(&mut self, alloc: Global) -> Result<Option<Logical<'a>>, AllocError>
        ensures ok { IfOk result (λ line. Takes self.old line self.new) }
        ensures unchanged { OnErr result (self.new ≡ self.old) }
        ensures only_folded { OnErr result (BeginsFolded self.old) }
    {
        match self.next_read(alloc, &Every)? {
            Some(ReadLine::Whole(line)) => Ok(Some(line)),
            _ => Ok(None),
        }
    }

    /// The next line, or None from the end on; a folded content line whose property is not read is passed over, and so not
    /// allocated. If an allocation fails, the answer is an `AllocError` and the lines still to come are unchanged.
    pub fn next_read<R: Reads>(
        &mut self,
        alloc: Global,
        reader: &R,
    ) -> Result<Option<ReadLine<'a>>, AllocError>
        ensures ok { IfOk result (λ line. TakesRead (R.reads reader.now) self.old line self.new) }
        ensures unchanged { OnErr result (self.new ≡ self.old) }
        ensures only_folded { OnErr result (BeginsFolded self.old) }
    {
        self.part.next_read(alloc, reader)
    }
}
