//! The locals of a rule, and how many periods were looked at for them.
ghost use Rattle.std.specs.Prelude.{◌≤ℤ◌, pos, IfSome};
ghost use Rattle.ics_fields.specs.Days.{IsDayNumber};

use crate::requests::yes_no;
use crate::shown::{local_of, local_text, moment_text};
use crate::words::words_of;
use ics_rule::{Cursor, Kind, Rule};
use ics_values::{Local, read_rule};
use std::alloc::{AllocError, Global};
use std::io;

/// Prints the locals of a rule from a local on and before another, and whether so many periods were
/// looked at as two further words bound: `rule DTSTART RRULE FROM BEFORE [LEAST MOST]`.
pub fn rule(rt: HostRuntime, line: &str) -> io::Result<()> {
    let words = words_of(rt.alloc(), line)?;
    let [start, rule, from, before, bounds @ ..] = words.as_slice() else {
        return println!(rt; "too few words");
    };
    let (Some(rule), Some(from), Some(before)) = (
        rule_of(start, rule),
        day_local(from),
        day_local(before),
    ) else {
        return println!(rt; "BadRule");
    };
    let steps = print_locals(rt, &rule, from, before)?;
    print_bounds(rt, steps, bounds)
}

/// The rule of these texts.
fn rule_of(start: &str, rule: &str) -> Option<Rule> {
    let kind = if start.len() == 8 {
        Kind::Date
    } else {
        Kind::DateTime
    };
    let parts = read_rule(rule.as_bytes()).ok()?;
    Some(Rule::new(parts, day_local(start)?, kind))
}

/// The local of a text, if it lies before 9801.
fn day_local(text: &str) -> Option<Local>
    ensures { IfSome result (λ local. (IsDayNumber local.day) × (local.day ≤ℤ pos 2_860_213)) }
{
    let local = local_of(text)?;
    if local.day < -719_528 || local.day > 2_860_213 {
        return None;
    }
    Some(local)
}

/// Prints the locals, and answers how many periods were looked at.
fn print_locals(rt: HostRuntime, rule: &Rule, from: Local, before: Local) -> io::Result<u64>
    requires from { IsDayNumber from.day }
    requires before { IsDayNumber before.day }
    requires early { before.day ≤ℤ pos 2_860_213 }
{
    let mut cursor = Cursor::at(rule, from);
    for _ in 0..1_000 {
        match cursor.next(rule, before) {
            Some(local) => rt.println(local_text(rt.alloc(), local)?)?,
            None => break,
        }
    }
    Ok(cursor.steps())
}

/// Prints whether so many periods were looked at as two words bound.
pub fn print_bounds(rt: HostRuntime, steps: u64, bounds: &[&str]) -> io::Result<()> {
    let [least, most] = bounds else {
        return Ok(());
    };
    let is_within = least.parse().unwrap_or(0) <= steps && steps <= most.parse().unwrap_or(0);
    println!(rt; "{least} to {most} steps: {}", yes_no(is_within))
}

/// Whether a rule's parts admit a local, `admits DTSTART RRULE LOCAL`, or the instant that bounds it,
/// `until DTSTART RRULE`.
pub fn rule_value(alloc: Global, line: &str) -> Result<String, AllocError> {
    let words = words_of(alloc, line)?;
    let [start, rule, rest @ ..] = words.as_slice() else {
        return String::from_str(alloc, "too few words");
    };
    let Some(rule) = rule_of(start, rule) else {
        return String::from_str(alloc, "BadRule");
    };
    match rest {
        [local] => String::from_str(alloc, admits(&rule, local)),
        _ => match rule.until_moment() {
            Some(moment) => moment_text(alloc, moment),
            None => String::from_str(alloc, "none"),
        },
    }
}

/// Whether a rule gives a local, as `yes` or `no`.
fn admits(rule: &Rule, local: &str) -> &'static str {
    match day_local(local) {
        Some(local) => yes_no(rule.admits(local)),
        None => "no local",
    }
}
