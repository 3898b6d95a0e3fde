//! The formats that the words of the command line give.
ghost use Rattle.std.specs.Prelude.{◌≡◌, ◌⊎◌, IfOk, IsErrOf};
ghost use Rattle.clap.specs.Words.{subcommand_rows_of};
ghost use Rattle.khal_words.specs.Entries.{day_format_text, format_text};
ghost use Rattle.khal_words.specs.Formats.{day_name, entry_name, written, IsFormat};

use crate::field::{DayField, EntryField};
use crate::format::{Format, FormatFault};
use crate::words::text_or;
use clap::ArgMatches;
use std::alloc::Global;

/// How a listing is written.
#[derive(Drop)]
pub struct Formats {
    /// How an entry's line is written.
    pub entries: Format<EntryField>,
    /// How a day's heading is written.
    pub days: Format<DayField>,
}

/// The formats of entries and of days, by default `{cell} {title}` and `{name}, {date}`. BadFormat if
/// a text that is given is not a format; Memory if an allocation failed.
pub fn formats_of<'a>(alloc: Global, found: &ArgMatches<'a>) -> Result<Formats, FormatFault>
    ensures entries { IfOk result (λ formats. format_text (subcommand_rows_of found.now)
        ≡ written entry_name formats.entries.pieces.items) }
    ensures days { IfOk result (λ formats. day_format_text (subcommand_rows_of found.now)
        ≡ written day_name formats.days.pieces.items) }
    ensures bad { IsErrOf result FormatFault.BadFormat → (¬ IsFormat entry_name (format_text (subcommand_rows_of found.now)))
        ⊎ (¬ IsFormat day_name (day_format_text (subcommand_rows_of found.now))) }
{
    let entries = Format::parse(alloc, text_or(found, "format", "{cell} {title}"))?;
    let days = Format::parse(alloc, text_or(found, "day-format", "{name}, {date}"))?;
    Ok(Formats { entries, days })
}
