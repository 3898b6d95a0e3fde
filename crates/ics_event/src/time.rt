/// A stamp and, for a local one with a TZID, the index of its zone among those of the file.
pub type Time = ics_values::Time<u32>;

/// The length of an event (RFC 5545, section 3.6.1): given by no property, by DTEND or by DURATION.
pub type Length = ics_values::Length<u32>;

/// A further start of an event, given by a value of an RDATE (RFC 5545, section 3.8.5.2): a stamp, or a PERIOD with its own
/// length.
pub type Rdate = ics_values::Rdate<u32>;
