//! The end of a recurrence rule.

use crate::local::Local;

/// UNTIL, by the form of its text (RFC 5545, 3.3.10).
#[derive(Clone, Copy)]
pub enum Until {
    /// A day, counted from 1970-01-01.
    Date(i32),
    /// A date and time without a zone.
    Local(Local),
    /// A date and time in UTC.
    Utc(Local),
}
