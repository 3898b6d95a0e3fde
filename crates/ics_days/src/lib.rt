//! The days under which an occurrence of a window is shown, and what is searched of the window near a day.
#![tactic(auto)]

mod date;
mod near_days;
mod near_places;
mod occurrence_days;
mod span;

pub use date::{bounds_in, date_at, first_shown, last_shown};
pub use near_days::{last_near, near_day};
pub use near_places::{NearPlaces, all_places};
pub use occurrence_days::is_today;
pub use span::{Span, first_at};
