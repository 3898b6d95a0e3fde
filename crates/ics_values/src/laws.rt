//! Laws of values. Each is the contract of a function that has no other purpose.
ghost use Rattle.std.specs.Prelude.{◌≡◌, ◌≤◌, ℕ, true, List};
ghost use Rattle.ics_values.specs.Dates.{IsJiffsDate};
ghost use Rattle.ics_values.specs.Plain.{escaped, text_of};
ghost use Rattle.ics_values.specs.Stamps.{local_of, second_of, time_exists};

/// The dates that stamps may have, and their day numbers, are those of jiff's calendar.
pub fn dates_of_the_calendar()
    ensures { (y m d : ℕ) → y ≤ 9999 → IsJiffsDate y m d }
{}

/// The second that a valid time says is one of its day.
pub fn times_of_a_day()
    ensures { (text : List ℕ) → time_exists text ≡ true
        → (local_of text).second ≡ second_of text }
{}

/// Removing the escapes that a text was written with gives the text.
pub fn escapes_undone()
    ensures { (text : List ℕ) → text_of (escaped text) ≡ text }
{}
