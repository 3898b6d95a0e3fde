//! Laws of listings that go on from a key.
ghost use Rattle.khal_list.specs.Pages.{DayGoesOn, DayLineGoesOn, DayPages, DayTokenGoesOn, GoesOn, LastDayLineShows, LastLineShows, LineGoesOn};
ghost use Rattle.khal_list.specs.Pages.{Pages, TextGoesOn, TextSplits, TokenGoesOn};

use ics_series::{day_listing_behind, one_day_spelling, one_spelling};

/// After the key of an entry exactly the entries that follow it in the listing are listed.
pub fn goes_on()
    ensures { GoesOn }
{}

/// After the key of an entry under its day exactly the entries that follow it in the listing under
/// each day are listed.
pub fn day_goes_on()
    ensures { DayGoesOn }
{
    day_listing_behind();
}

/// If the words name `--after` with the token of an entry of the listing, and do not have
/// `--every-day`, they ask for exactly the entries that follow it.
pub fn token_goes_on()
    ensures { TokenGoesOn }
{
    one_spelling();
}

/// If the words have `--every-day`, and name `--after` with the token of an entry under its day, they
/// ask for exactly the entries that follow it.
pub fn day_token_goes_on()
    ensures { DayTokenGoesOn }
{
    one_day_spelling();
    day_listing_behind();
}

/// The token that a line shows for `{token}` is that of its entry: if the words name `--after` with it,
/// they ask for exactly the entries that follow that line, both without `--every-day` and with it.
pub fn line_goes_on()
    ensures once { LineGoesOn }
    ensures days { DayLineGoesOn }
{
    one_spelling();
    one_day_spelling();
    day_listing_behind();
}

/// If a limit cuts a listing, the token from which it continues is the one that its last line shows.
pub fn last_line_shows()
    ensures once { LastLineShows }
    ensures days { LastDayLineShows }
{}

/// The text of a listing is that of its first entries, and then that of the others after the last day
/// of the first. If the others are listed alone, their text is one heading and the same lines.
pub fn text_goes_on()
    ensures splits { TextSplits }
    ensures alone { TextGoesOn }
{}

/// Pages with any limits, each from the key that the one before names, join to the whole listing.
pub fn pages()
    ensures { Pages }
{}

/// The same of a listing under each day: pages with any limits join to the whole of it.
pub fn day_pages()
    ensures { DayPages }
{
    day_listing_behind();
}
