//! The occurrences of a folder of calendar files that meet a window, as one list.
#![tactic(auto)]

mod agenda;
mod chosen;
mod day_laws;
mod days;
mod folder;
mod kept;
mod laws;
mod marks;
mod masters;
mod part;
mod prepare;
mod singles;
mod span;
mod spot;
mod version;
mod versions;

pub use agenda::Agenda;
pub use day_laws::{day_listing_behind, one_day_listing};
pub use days::Days;
pub use folder::Folder;
pub use ics_days::date_at;
pub use ics_listing::{
    Begins, Coming, DayKey, DayToken, Feed, Key, Merge, Occurrence, Token, TokenFault, Window,
    day_keys_as_listed, keys_as_listed, listing_merged, one_day_spelling, one_spelling,
};
pub use ics_starts::{
    each_start, most_in_days, none_excluded, one_start, raw_counted, starts_by_until,
};
pub use laws::{
    added_files, listing_after, listing_behind, listing_within, listings_join, lists_starts,
    lists_under_way, most_of_masters, one_listing, one_recurrence, one_version, order_of_files,
};
