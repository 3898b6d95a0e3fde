//! The marks of the versions that count, each at the place of its version.
ghost use Rattle.std.specs.Prelude.{◌≡◌, [], MatchOption, OnOk, Some, slice_get};
ghost use Rattle.ics_series.specs.Inner.Marks.{HasNoMark, IsPut};

use ics_starts::Mark;
use std::alloc::AllocError;

/// Makes places for marks, at which there is none.
pub(crate) fn add_places(marks: &mut Vec<Option<Mark>>, count: usize) -> Result<(), AllocError>
    requires { marks.old.items ≡ [] }
    ensures { OnOk result (HasNoMark marks.new.items) }
{
    marks.resize(count, None)?;
    Ok(())
}

/// The mark at a place.
pub(crate) fn mark_at(marks: &[Option<Mark>], place: usize) -> Option<&Mark>
    ensures { MatchOption result (Unit {0}) (λ m. slice_get marks.now place ≡ Some (Some m.now)) }
{
    match marks.get(place)? {
        None => None,
        Some(mark) => Some(mark),
    }
}

/// Puts a mark at a place, if there are both.
pub(crate) fn put_mark(marks: &mut Vec<Option<Mark>>, place: usize, mark: Option<Mark>)
    ensures { IsPut marks.old.items place mark marks.new.items }
{
    if mark.is_some() && place < marks.len() {
        marks[place] = mark;
    }
}
