//! The window that the words ask for, as texts.
ghost use Rattle.std.specs.Prelude.{◌≡◌};
ghost use Rattle.clap.specs.Words.{subcommand_rows_of};
ghost use Rattle.khal_words.specs.Entries.{span_of};
ghost use Rattle.khal_words.specs.SpanTexts.{span_by};

use crate::words::{entry, text};
use clap::ArgMatches;

/// The window that the words ask for, as texts.
#[derive(Clone, Copy)]
pub enum Span<'a> {
    /// The window of a moment.
    At(&'a str),
    /// The window from START, if it is given, to END.
    FromTo {
        start: Option<&'a str>,
        end: &'a str,
    },
}

impl<'a> Span<'a> {
    /// The texts of the window in clap's entries.
    pub fn of(found: &ArgMatches<'a>) -> Span<'a>
        ensures { span_by result ≡ span_of (subcommand_rows_of found.now) }
    {
        match found.subcommand() {
            Some(("at", _)) => Span::At(text(found, "moment")),
            _ => Span::FromTo {
                start: entry(found, "start"),
                end: text(found, "end"),
            },
        }
    }
}
