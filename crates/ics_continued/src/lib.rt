//! The occurrences of an event from search to search: what lasts is carried on, and what has ended is not searched for again.
#![tactic(auto)]

mod continued;
mod lasting;

pub use continued::Continued;
