//! The line of an entry.
ghost use Rattle.std.specs.Prelude.{◌≡◌, ◌++◌, OnOk};
ghost use Rattle.ics_listing.specs.Entry.{entry_of};
ghost use Rattle.khal_words.specs.Formats.{shown_piece};
ghost use Rattle.khal_list.specs.Listed.{style_of};
ghost use Rattle.khal_list.specs.Text.{entry_field_text, line_text};

use crate::entry_text::add_field;
use crate::request::Request;
use ics_series::Occurrence;
use khal_words::{EntryField, Piece};
use std::alloc::{AllocError, Global};

/// Adds the line of an occurrence that is listed under this day, in the request's format.
pub(crate) fn add_line(
    alloc: Global,
    text: &mut Vec<u8>,
    request: &Request,
    day: i32,
    occurrence: &Occurrence<'_>,
) -> Result<(), AllocError>
    ensures { OnOk result (text.new.items
        ≡ text.old.items ++ line_text (style_of request.now) day (entry_of occurrence.now)) }
{
    for piece in &request.formats.entries.pieces {
        add_piece(alloc, text, request, day, occurrence, *piece)?;
    }
    text.push(b'\n')?;
    Ok(())
}

/// Adds the text of a piece of the line.
fn add_piece(
    alloc: Global,
    text: &mut Vec<u8>,
    request: &Request,
    day: i32,
    occurrence: &Occurrence<'_>,
    piece: Piece<EntryField>,
) -> Result<(), AllocError>
    ensures { OnOk result (text.new.items
        ≡ text.old.items ++ shown_piece (entry_field_text (style_of request.now) day (entry_of occurrence.now)) piece) }
{
    match piece {
        Piece::Byte(byte) => Ok(text.push(byte)?),
        Piece::Field(field) => add_field(alloc, text, request, day, occurrence, field),
    }
}
