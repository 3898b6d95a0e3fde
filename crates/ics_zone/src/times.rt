//! The times of an hour that a rule keeps.
ghost use Rattle.std.specs.Prelude.{◌≡◌, ℕ, ◌+◌, ◌*◌, ◌<◌, ◌&&◌, true, false};
ghost use Rattle.ics_fields.specs.Sets.{contains};
ghost use Rattle.ics_period.specs.PeriodNumbers.{minute_of, second_of};
ghost use Rattle.ics_zone.specs.Inner.Hours.{keeps_time};

use crate::sixty::word_of;
use ics_fields::BitSet;
use ics_rule::HourTimes;

/// Each of some minutes of an hour, with each of some seconds.
#[derive(Clone, Copy)]
pub(crate) struct Times {
    pub minutes: BitSet,
    /// The seconds, as a word.
    pub seconds: u64,
}

impl Times {
    /// The times that a rule gives for an hour.
    pub fn of(times: HourTimes) -> Times
        ensures { (n : ℕ) → keeps_time result n ≡ (contains times.minutes (minute_of n) && contains times.seconds (second_of n)) }
    {
        Times {
            minutes: times.minutes,
            seconds: word_of(times.seconds),
        }
    }

    /// Whether no time is kept for want of a second.
    pub fn is_empty(self) -> bool
        ensures { result ≡ true → (n : ℕ) → keeps_time self n ≡ false }
    {
        self.seconds == 0
    }

    /// The seconds of a minute.
    pub fn minute(self, minute: u64) -> u64
        ensures { (n : ℕ) → n < 60 → contains result n ≡ keeps_time self (minute * 60 + n) }
    {
        if self.minutes.contains((minute % 60) as u8) {
            self.seconds
        } else {
            0
        }
    }
}
