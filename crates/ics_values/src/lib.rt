//! Values of iCalendar properties (RFC 5545, section 3.3), read from their texts. Locals, civil fields and the parts of a rule are those of `ics_fields`.
#![tactic(auto)]

mod amounts;
mod date;
mod digits;
mod duration;
mod halves;
mod integer;
mod kept_rule;
mod laws;
mod observance;
mod offset;
mod part_name;
mod period;
mod rule_law;
mod rule_text;
mod rule_value;
mod sign;
mod stamp;
mod text;
mod text_name;
mod text_value;
mod time;
mod zoned;

pub use duration::{Duration, DurationFault, read_duration};
pub use ics_fields::{
    BitSet, Civil, Frequency, Local, Moment, Ordinals, Parts, Until, Weekdays, WideBitSet,
    WideOrdinals, civil, order_of_locals,
};
pub use integer::{IntegerFault, read_integer};
pub use kept_rule::KeptRule;
pub use laws::{dates_of_the_calendar, escapes_undone, times_of_a_day};
pub use observance::{Observance, are_same_observances};
pub use offset::{BadOffset, read_offset};
pub use part_name::is_word;
pub use period::{Period, PeriodEnd, PeriodFault, read_period};
pub use rule_law::{absent_is_empty, rule_says};
pub use rule_text::{RuleFault, read_rule};
pub use stamp::{Stamp, StampFault, is_local_form, read_stamp};
pub use text::text_bytes;
pub use text_name::{KeptTexts, TextName, Texts};
pub use text_value::Text;
pub use time::{Length, Rdate, Time};
pub use zoned::is_zoned;
