//! The periods that locals are in.
ghost use Rattle.std.specs.Prelude.{◌≡◌, ◌<◌, ◌≤◌, ◌+◌, ◌*◌, ◌/◌, ◌^◌};
ghost use Rattle.ics_fields.specs.Locals.{calendar_end};
ghost use Rattle.ics_period.specs.Candidates.{in_step, period_in};

use crate::date::civil_at;
use crate::effective_rule::EffectiveRule;
use ics_fields::Frequency;

/// The number of the period that a local of the years 0000 to 9999 is in.
pub fn period_of(parts: &EffectiveRule, n: u64) -> u64
    requires { n < calendar_end }
    ensures value { result ≡ period_in parts.now n }
    ensures small { result < 2 ^ 40 }
{
    let day = n / 86_400;
    match parts.frequency {
        Frequency::Secondly => n,
        Frequency::Minutely => n / 60,
        Frequency::Hourly => n / 3_600,
        Frequency::Daily => day,
        Frequency::Weekly => (day + (12 - parts.week_start.index() as u64)) / 7,
        Frequency::Monthly => {
            let fields = civil_at(day as u32);
            fields.year as u64 * 12 + fields.month as u64
        }
        Frequency::Yearly => civil_at(day as u32).year as u64,
    }
}

/// Whether the period of `n` is that of the start or later, by a multiple of the interval. Both are locals of the years 0000 to 9999.
pub fn in_step(parts: &EffectiveRule, start: u64, n: u64) -> bool
    requires start_local { start < calendar_end }
    requires local { n < calendar_end }
    requires interval { 1 ≤ parts.now.interval }
    ensures { result ≡ in_step parts.now start n }
{
    let first = period_of(parts, start);
    let own = period_of(parts, n);
    first <= own && (own - first) % parts.interval as u64 == 0
}
