//! What a rule keeps in two hours that follow each other.
ghost use Rattle.std.specs.Prelude.{◌≡◌, ℕ, ◌+◌, ◌*◌, ◌<◌, ◌&&◌, int_lt, pos, IfSome};
ghost use Rattle.ics_fields.specs.Sets.{contains};
ghost use Rattle.ics_zone.specs.Inner.Hours.{keeps, AreHoursOf};
ghost use Rattle.ics_zone.specs.Inner.Marks.{is_marked};
ghost use Rattle.ics_period.specs.PeriodNumbers.{rules_end};

use crate::sixty::{first_of, front, shifted};
use crate::times::Times;
use ics_rule::Rule;

/// What a rule keeps in an hour of the clock and in the next.
#[derive(Clone, Copy)]
pub(crate) struct Hours {
    pub hour: u64,
    pub here: Times,
    pub next: Times,
}

impl Hours {
    /// The hour of a local and the next.
    pub fn of(rule: &Rule, local: u64) -> Option<Hours>
        requires { local + 7_200 < rules_end }
        ensures { IfSome result (AreHoursOf rule.now local) }
    {
        let hour = local / 3_600;
        let here = Times::of(rule.hour(hour)?);
        let next = Times::of(rule.hour(hour + 1)?);
        Some(Hours { hour, here, next })
    }

    /// The seconds of a minute of the clock.
    fn minute(&self, minute: u64) -> u64
        ensures { (n : ℕ) → n < 60 → contains result n ≡ keeps self.now (minute * 60 + n) }
    {
        if minute / 60 == self.hour {
            self.here.minute(minute)
        } else {
            self.next.minute(minute)
        }
    }

    /// The seconds of a minute that begins at a local.
    fn minute_from(&self, local: u64) -> u64
        ensures { (n : ℕ) → n < 60 → contains result n ≡ keeps self.now (local + n) }
    {
        let minute = local / 60;
        shifted(
            self.minute(minute),
            self.minute(minute + 1),
            (local % 60) as u32,
        )
    }

    /// The first seconds of the hour that begins at a local, so many, minute by minute.
    pub fn words(&self, local: u64, count: i64) -> [u64; 60]
        requires { local < rules_end }
        ensures { (k : ℕ) → k < 3_600 → is_marked result k ≡ (int_lt (pos k) count && keeps self.now (local + k)) }
    {
        let mut words = [0; 60];
        if self.here.is_empty() && self.next.is_empty() {
            return words;
        }
        for minute in 0..60 {
            let word = self.minute_from(local + minute as u64 * 60);
            words[minute] = front(word, first_of(minute, count));
        }
        words
    }
}
