//! What one recurrence period of a rule holds (RFC 5545, 3.3.10).
#![tactic(auto)]

mod date;
mod days;
mod effective;
mod effective_rule;
mod kind;
mod laws;
mod left_out;
mod members;
mod near_days;
mod part;
mod recurrence_period;
mod runs;
mod step;
mod step_clock;
mod steps;
mod time;
mod weeks;

pub use date::{civil_at, goes_by_months, lets_date, month_length, names_weekdays_alone};
pub use effective::{
    fill, skips_hours, skips_minutes, skips_seconds, takes_month, takes_month_day, takes_weekday,
};
pub use effective_rule::EffectiveRule;
pub use kind::Kind;
pub use laws::{numbered_weeks, ranks_are_places, weeks_from_monday, weeks_of_a_year};
pub use left_out::{days_left_out, days_of_closed_month};
pub use members::{Members, members_below};
pub use near_days::{NearDays, lists_days};
pub use part::{PlacesPart, WeekdaysPart};
pub use recurrence_period::ranks::listed_below;
pub use recurrence_period::{RecurrencePeriod, clock_set, first_local, next_second};
pub use step::{in_step, period_of};
pub use steps::steps_out;
pub use time::{lets, lets_clock};
