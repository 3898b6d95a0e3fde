//! The rule of two texts.
ghost use Rattle.std.specs.Prelude.{◌≡◌, IfOk, true, false};
ghost use Rattle.khal_list_c.specs.Said.{said_of, rule_fault, start_fault, start_local, start_kind, is_utc};
ghost use Rattle.ics_fields.specs.Days.{IsDayNumber, IsStampDay};
ghost use Rattle.ics_values.specs.Stamps.{stamp_day};

use ics_rule::{Kind, Rule};
use ics_values::{Local, RuleFault, Stamp, StampFault, read_rule, read_stamp};

/// A rule, its start, and whether that is in UTC.
#[derive(Clone, Copy)]
pub struct Said {
    pub rule: Rule,
    pub start: Local,
    pub in_utc: bool,
}

/// The number of a fault of a rule's text.
fn rule_fault(fault: RuleFault) -> u32
    ensures { result ≡ rule_fault fault }
{
    match fault {
        RuleFault::BadRule => 1,
        RuleFault::NumberTooLarge => 2,
    }
}

/// The number of a fault of a start's text.
fn start_fault(fault: StampFault) -> u32
    ensures { result ≡ start_fault fault }
{
    match fault {
        StampFault::BadStamp => 3,
        StampFault::YearRange => 4,
    }
}

/// The local at which an event with this stamp starts.
fn start_local(stamp: Stamp) -> Local
    requires { IsStampDay (stamp_day stamp) }
    ensures value { result ≡ start_local stamp }
    ensures day { IsDayNumber result.day }
{
    match stamp {
        Stamp::Date(day) => Local::at(day, 0),
        Stamp::Floating(local) | Stamp::Utc(local) | Stamp::Zoned(local) => local,
    }
}

/// Whether it has a time.
fn start_kind(stamp: Stamp) -> Kind
    ensures { result ≡ start_kind stamp }
{
    match stamp {
        Stamp::Date(_) => Kind::Date,
        _ => Kind::DateTime,
    }
}

/// Whether it is in UTC.
fn is_utc(stamp: Stamp) -> bool
    ensures { result ≡ is_utc stamp }
{
    match stamp {
        Stamp::Utc(_) => true,
        _ => false,
    }
}

/// The rule that the value of an RRULE and that of a DTSTART say, or the number of the first fault.
pub fn rule_of(rule: &[u8], start: &[u8]) -> Result<Said, u32>
    ensures said { result ≡ said_of rule.now start.now }
    ensures start { IfOk result (λ said. (said.start ≡ said.rule.start) × IsDayNumber said.start.day) }
{
    let parts = match read_rule(rule) {
        Ok(parts) => parts,
        Err(fault) => return Err(rule_fault(fault)),
    };
    match read_stamp(start, false) {
        Ok(stamp) => {
            let start = start_local(stamp);
            Ok(Said {
                rule: Rule::new(parts, start, start_kind(stamp)),
                start,
                in_utc: is_utc(stamp),
            })
        }
        Err(fault) => Err(start_fault(fault)),
    }
}
