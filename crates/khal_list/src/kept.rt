//! The texts of events that a request shows.
ghost use Rattle.std.specs.Prelude.{◌≡◌};
ghost use Rattle.khal_list.specs.Inner.Kept.{texts_named, with_piece};

use crate::request::Request;
use ics_values::KeptTexts;
use khal_words::{EntryField, Piece};

/// Keeps the text that a piece names, if it names one.
fn keep_named(keep: &mut KeptTexts, piece: Piece<EntryField>)
    ensures { keep.new ≡ with_piece keep.old piece }
{
    if let Piece::Field(EntryField::Text(name)) = piece {
        keep.put(name, true);
    }
}

/// The texts that the request's format names.
pub(crate) fn texts_named(request: &Request) -> KeptTexts
    ensures { result ≡ texts_named request.now.formats.entries.pieces.items }
{
    let mut keep = KeptTexts::none();
    for piece in &request.formats.entries.pieces {
        keep_named(&mut keep, *piece);
    }
    keep
}
