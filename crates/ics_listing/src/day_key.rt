//! The keys that order occurrences under each of their days.

use crate::key::Key;

/// Identifies an occurrence under one of its days, and orders it among the others: by the day, counted
/// from 1970-01-01, then by the key of the occurrence.
#[derive(Drop, PartialEq, Eq, PartialOrd, Ord)]
pub struct DayKey {
    pub day: i32,
    pub key: Key,
}
