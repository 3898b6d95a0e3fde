//! Recurrence rules of RFC 5545: which locals a rule keeps.
#![tactic(auto)]

mod count;
mod cursor;
mod day;
mod each_day;
mod filled;
mod given;
mod hour;
mod laws;
mod look;
mod never;
mod open_periods;
mod pass;
mod plain;
mod quiet;
mod rounds;
mod rule;
mod search;
mod table;
mod walk;

pub use cursor::Cursor;
pub use day::DayTimes;
pub use hour::HourTimes;
pub use ics_period::{Kind, numbered_weeks, ranks_are_places, weeks_from_monday, weeks_of_a_year};
pub use laws::{
    bounded_by_until, ended_by_count, few_steps, first_of_count, kept_locals, numbered_weekdays,
};
pub use plain::plain_reading;
pub use rule::Rule;
pub use table::rules_by_table;
