//! An event of an iCalendar file, and what holds of it.
#![tactic(auto)]

mod event;
mod more;
mod time;

pub use event::Event;
pub use ics_values::{KeptRule, KeptTexts, Text, TextName, is_zoned};
pub use more::More;
pub use time::{Length, Rdate, Time};
