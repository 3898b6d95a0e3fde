//! Days and times in their fields, and the parts of a recurrence rule (RFC 5545, sections 3.3.5 and 3.3.10).
#![tactic(auto)]

mod calendar;
mod clock;
mod fields;
mod frequency;
mod laws;
mod local;
mod ordinals;
mod parts;
mod sets;
mod until;

pub use calendar::civil;
pub use clock::{second_of_clock, two_digits};
pub use fields::Civil;
pub use frequency::Frequency;
pub use laws::order_of_locals;
pub use local::{EPOCH_DAY, Local, Moment};
pub use ordinals::{Ordinals, Side, Weekdays, WideOrdinals};
pub use parts::Parts;
pub use sets::{BitSet, WideBitSet};
pub use until::Until;
