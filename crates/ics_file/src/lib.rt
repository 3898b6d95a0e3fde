//! What a file of calendars says: its time zones and its events.
#![tactic(auto)]

mod events;

pub use events::FileEvents;
