//! The kind of event that a rule belongs to.

/// Whether the event's stamps are dates or date-times (RFC 5545, 3.8.2.4).
#[derive(Clone, Copy)]
pub enum Kind {
    /// Days (RFC 5545, 3.3.4). Each local is at midnight, whatever the rule says of the time.
    Date,
    /// Days with a time (RFC 5545, 3.3.5).
    DateTime,
}
