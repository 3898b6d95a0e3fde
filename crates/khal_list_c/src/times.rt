//! The locals of a rule, as C asks for them.
ghost use Rattle.std.specs.Prelude.{◌≡◌, ◌⊎◌, IfOk, IfErr, MatchOption};
ghost use Rattle.ics_rule.specs.Kept.{until_moment};
ghost use Rattle.khal_list_c.specs.Said.{said_of};
ghost use Rattle.khal_list_c.specs.Times.{FillsBy, IsRefused};

use crate::clock::clock_of;
use crate::filling::{RULES_END, fill};
use crate::rules::rule_of;
use std::alloc::Global;

/// How many were written, or the number of a fault: 1 BadRule, 2 NumberTooLarge, 3 BadStamp, 4 YearRange, 6 BadZone, 7 Memory.
#[repr(C)]
#[derive(Clone, Copy)]
pub struct KhalTimes {
    pub count: usize,
    pub fault: u32,
}

/// Writes the instances of a rule from `from` on and before `before` to `times`, in order, as many as there is room for. The rule is the
/// value of an RRULE, and its start that of a DTSTART. `zone` gives the start's zone, and may be empty: the bytes of a zone file, or of a
/// calendar, whose first VTIMEZONE it is. An UNTIL in UTC counts if the start is in UTC or a zone is given. No rule goes on past
/// 9801-01-01. Fewer than there is room for are all.
#[unsafe(no_mangle)]
pub extern "C" fn khal_rule_times(
    alloc: Global,
    rule: &[u8],
    start: &[u8],
    zone: &[u8],
    from: u64,
    before: u64,
    times: &mut [u64],
) -> KhalTimes
    ensures { ((result.fault ≡ 0) × FillsBy rule.now start.now zone.now from before times.new result.count)
        ⊎ IsRefused rule.now start.now zone.now times.old times.new result }
{
    match rule_of(rule, start) {
        Ok(said) => match clock_of(alloc, said.in_utc, zone) {
            Ok(clock) => {
                let count = fill(
                    &said,
                    &clock,
                    from.min(RULES_END),
                    before.min(RULES_END),
                    times,
                );
                drop(clock);
                KhalTimes { count, fault: 0 }
            }
            Err(fault) => KhalTimes { count: 0, fault },
        },
        Err(fault) => KhalTimes { count: 0, fault },
    }
}

/// The last instant of a rule, in seconds since 1970-01-01T00:00:00 UTC, if UNTIL is in UTC and the start has a time: such an UNTIL bounds
/// instants, and no local. Gives 0, or 5 if there is none, or the number of a fault.
#[unsafe(no_mangle)]
pub extern "C" fn khal_rule_until(rule: &[u8], start: &[u8], until: &mut i64) -> u32
    ensures until { IfOk (said_of rule.now start.now) (λ said. MatchOption (until_moment said.rule)
        ((result ≡ 5) × (until.new ≡ until.old)) (λ moment. (result ≡ 0) × (until.new ≡ moment))) }
    ensures fault { IfErr (said_of rule.now start.now) (λ fault. (result ≡ fault) × (until.new ≡ until.old)) }
{
    match rule_of(rule, start) {
        Ok(said) => match said.rule.until_moment() {
            Some(moment) => {
                *until = moment;
                0
            }
            None => 5,
        },
        Err(fault) => fault,
    }
}
