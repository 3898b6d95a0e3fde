//! What a listing draws its entries from.
ghost use Rattle.std.specs.Prelude.{◌≡◌, List, IfOk, IfSome, OnErr, map};
ghost use Rattle.ics_fields.specs.Days.{IsDayNumber};
ghost use Rattle.ics_series.specs.Ahead.{IsAhead};
ghost use Rattle.ics_listing.specs.DayKeys.{GivesOnDay, OnDay};
ghost use Rattle.khal_list.specs.Listed.{style_of};
ghost use Rattle.khal_list.specs.Text.{under};

use crate::entry::day_under;
use crate::request::Request;
use ics_series::{Days, Feed, Occurrence};
use std::alloc::AllocError;

/// A way to draw occurrences from a source, each under a day.
pub(crate) trait Draws<'a, X> {
    ghost use Rattle.std.specs.Prelude.{List};
    ghost use Rattle.ics_listing.specs.DayKeys.{OnDay};

    /// The source has this list to come.
    ghost comes: { Self → X → List OnDay → Type 0 };

    /// The first of the list still to come, with its day, which is then removed; None if the list is
    /// empty. After an `AllocError` the list is unchanged.
    fn draw(&self, source: &mut X) -> Result<Option<(i32, Occurrence<'a>)>, AllocError>
        ensures ok { (list : List OnDay) → Self.comes self.now source.old list
            → IfOk result (λ given. (rest : List OnDay) × GivesOnDay list given rest × Self.comes self.now source.new rest) }
        ensures err { (list : List OnDay) → Self.comes self.now source.old list
            → OnErr result (Self.comes self.now source.new list) }
        ensures within { IfOk result (λ given. IfSome given (λ entry. IsDayNumber entry.0)) };
}

/// Draws each occurrence of a feed once: under the day of the later of its start and the window's.
#[derive(Drop)]
pub(crate) struct Once<'r> {
    pub(crate) request: &'r Request,
}

impl<'a, 'r, F: Feed<'a>> Draws<'a, F> for Once<'r> {
    ghost comes = { λ once feed list. list ≡ map (under (style_of once.request.now)) (F.coming feed) };

    fn draw(&self, source: &mut F) -> Result<Option<(i32, Occurrence<'a>)>, AllocError> {
        let Some(occurrence) = source.next()? else {
            return Ok(None);
        };
        let day = day_under(self.request, &occurrence);
        Ok(Some((day, occurrence)))
    }
}

/// Draws each occurrence of a window under each of its days.
#[derive(Drop)]
pub(crate) struct EachDay;

impl<'a> Draws<'a, Days<'a>> for EachDay {
    ghost comes = { λ each days list. IsAhead days list };

    fn draw(&self, source: &mut Days<'a>) -> Result<Option<(i32, Occurrence<'a>)>, AllocError> {
        source.next()
    }
}
