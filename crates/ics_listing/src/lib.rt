//! Listings of occurrences: windows, keys and their tokens, and feeds and their merge.
#![tactic(auto)]

mod day_key;
mod day_token;
mod feed;
mod holding;
mod key;
mod key_order;
mod laws;
mod lead;
mod listed_starts;
mod merge;
mod occurrence;
mod queue;
mod start;
mod token;
mod tournament;
mod window;

pub use day_key::DayKey;
pub use day_token::DayToken;
pub use feed::{Begins, Coming, Feed};
pub use holding::Holding;
pub use key::{Key, is_after};
pub use key_order::{Keyed, order_of_keys};
pub use laws::{
    day_keys_as_listed, keys_as_listed, listing_merged, one_day_spelling, one_spelling,
};
pub use lead::Lead;
pub use listed_starts::{ListedStarts, firsts};
pub use merge::Merge;
pub use occurrence::Occurrence;
pub use queue::{Queue, Waiting};
pub use start::{Start, StartSource, date_of, local_of, time_at, time_of};
pub use token::{Token, TokenFault};
pub use window::Window;
