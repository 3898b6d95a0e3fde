//! What the placeholders of formats name.
ghost use Rattle.std.specs.Prelude.{◌≡◌, ◌≢◌, ◌↔◌, IfSome, IsNone, IsTrue, List, ℕ, true};
ghost use Rattle.khal_words.specs.Formats.{entry_name, day_name, entry_names_plain, day_names_plain};

use ics_values::TextName;

/// The text below the help of `list`: all placeholders of entries, and examples.
pub(crate) const LIST_EXAMPLES: &str = "Without a time zone all times, and `today`, are in UTC.

Placeholders of --format:
  {cell} {title} {start-time} {end-time} {start-date} {end-date} {location}
  {description} {uid} {cancelled} {start-unix} {end-unix} {token} {url}

Examples:
  khal-list list ~/calendars --zone-file /etc/localtime
  khal-list list ~/calendars 2024-01-01 2024-01-31 --limit 10
  khal-list list ~/calendars --format '{start-time} {title}' --day-format ''";

/// What a placeholder names of an entry.
#[derive(Clone, Copy)]
pub enum EntryField {
    /// The times in eleven columns.
    Cell,
    /// `HH:MM` by the display zone's clock, and nothing for an event of dates.
    StartTime,
    /// The same of its finish.
    EndTime,
    /// The display date of its start.
    StartDate,
    /// The display date of its finish; of an event of dates its last day.
    EndDate,
    Uid,
    /// `CANCELLED ` for an event that is cancelled, and nothing for another.
    Cancelled,
    /// Its start, in seconds since 1970-01-01T00:00:00 UTC.
    StartUnix,
    /// The same of its finish.
    EndUnix,
    /// The token with which a listing continues after it.
    Token,
    /// The event's text of that name: what the first of its properties that are called so says.
    Text(TextName),
}

/// What a placeholder names of a day.
#[derive(Clone, Copy)]
pub enum DayField {
    /// The weekday, `Monday` to `Sunday`.
    Name,
    /// `YYYY-MM-DD`.
    Date,
}

/// What a placeholder can name.
pub trait Placeholder: Copy {
    ghost use Rattle.khal_words.specs.Formats.{is_plain};

    /// Its name in a format.
    ghost name: { Self → List ℕ };

    /// What this text names, if it is a name.
    fn named(text: &[u8]) -> Option<Self>
        ensures some { IfSome result (λ field. text.now ≡ Self.name field) }
        ensures none { IsNone result → (field : Self) → text.now ≢ Self.name field };

    /// No name has a brace.
    ghost plain: { (field : Self) → is_plain (name field) ≡ true };
}

/// Whether a text is this name.
fn is(text: &[u8], name: &str) -> bool
    ensures { IsTrue result ↔ (text.now ≡ name.now) }
{
    text == name.as_bytes()
}

impl Placeholder for EntryField {
    ghost name = { entry_name };

    fn named(text: &[u8]) -> Option<EntryField> {
        match text {
            _ if is(text, "cell") => Some(EntryField::Cell),
            _ if is(text, "title") => Some(EntryField::Text(TextName::Summary)),
            _ if is(text, "start-time") => Some(EntryField::StartTime),
            _ if is(text, "end-time") => Some(EntryField::EndTime),
            _ if is(text, "start-date") => Some(EntryField::StartDate),
            _ if is(text, "end-date") => Some(EntryField::EndDate),
            _ if is(text, "location") => Some(EntryField::Text(TextName::Location)),
            _ if is(text, "description") => Some(EntryField::Text(TextName::Description)),
            _ if is(text, "uid") => Some(EntryField::Uid),
            _ if is(text, "cancelled") => Some(EntryField::Cancelled),
            _ if is(text, "start-unix") => Some(EntryField::StartUnix),
            _ if is(text, "end-unix") => Some(EntryField::EndUnix),
            _ if is(text, "token") => Some(EntryField::Token),
            _ if is(text, "url") => Some(EntryField::Text(TextName::Url)),
            _ => None,
        }
    }

    ghost plain = { entry_names_plain };
}

impl Placeholder for DayField {
    ghost name = { day_name };

    fn named(text: &[u8]) -> Option<DayField> {
        match text {
            _ if is(text, "name") => Some(DayField::Name),
            _ if is(text, "date") => Some(DayField::Date),
            _ => None,
        }
    }

    ghost plain = { day_names_plain };
}
