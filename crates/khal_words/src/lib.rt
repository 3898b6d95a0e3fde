//! The words of a command line that asks for a listing, and the formats of a listing.
#![tactic(auto)]

mod command;
mod field;
mod format;
mod format_laws;
mod formats;
mod span;
mod window_text;
mod words;

pub use field::{DayField, EntryField, Placeholder};
pub use format::{Format, FormatFault, Piece};
pub use format_laws::one_format;
pub use formats::{Formats, formats_of};
pub use span::Span;
pub use window_text::WindowText;
pub use words::{entry, is_given, limit_of, matches, text, zone_file, zone_text};
