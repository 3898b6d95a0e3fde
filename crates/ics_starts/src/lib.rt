//! The recurrence set of one event: the starts that its rule and its RDATEs give and its EXDATEs leave, each with its finish.
#![tactic(auto)]

mod by_local;
mod clock_stretch;
mod ends;
mod exclusion;
mod finish;
mod instants;
mod kept_locals;
mod kind;
mod lasting;
mod laws;
mod listed;
mod mark;
mod occurrence;
mod placed_cursor;
mod replaced;
mod rule_starts;
mod series;
mod shared_rule;
mod single;
mod single_events;
mod starts;
mod told_ends;
mod zones;

pub use instants::instant;
pub use laws::{each_start, most_in_days, none_excluded, one_start, raw_counted, starts_by_until};
pub use mark::Mark;
pub use replaced::Replaced;
pub use series::Series;
pub use single::Single;
pub use single_events::is_single;
pub use zones::FileZones;
