//! `khal list` for programs in other languages: listings and recurrence rules (RFC 5545), by functions that C can call.
#![tactic(auto)]

mod clock;
mod conversions;
mod filling;
mod given;
mod handing;
mod listing;
mod requests;
mod rules;
mod times;
mod words;
