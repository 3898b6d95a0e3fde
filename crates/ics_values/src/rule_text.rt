//! The text of a recurrence rule.
ghost use Rattle.std.specs.Prelude.{◌≡◌, ◌<◌, ◌-◌, List, ℕ, true, false, not, ◌&&◌, fold, Some};
ghost use Rattle.ics_values.specs.ValueFaultNames.{rule_fault_name};
ghost use Rattle.ics_values.specs.RuleTexts.{without_last, pieces};
ghost use Rattle.ics_values.specs.Rules.{rule_of};
ghost use Rattle.ics_values.specs.Inner.RuleDrafts.{walk, item_taken, value_taken, part_taken, no_parts, Takes};

use crate::halves::{cut, halves};
use crate::part_name::{ListName, PartName, part_name};
use crate::rule_value::{
    RuleNumber, number_between, read_day_item, read_frequency, read_place, read_rule_number,
    read_until, read_weekday,
};
use ics_fields::{BitSet, Frequency, Parts};
use thiserror::Error;

/// Why a text is not a recurrence rule.
#[derive(Clone, Copy, Debug, Error)]
#[error("{}", self.name())]
pub enum RuleFault {
    /// The text is not of the grammar, a part is out of its range or occurs twice, FREQ is missing, or both UNTIL and COUNT are there.
    BadRule,
    /// The text is otherwise valid, but COUNT or INTERVAL is past 4,294,967,295.
    NumberTooLarge,
}

impl RuleFault {
    /// The name of the fault, as it is printed.
    pub fn name(&self) -> &'static str
        ensures { result.now ≡ rule_fault_name self.now }
    {
        match self {
            RuleFault::BadRule => "BadRule",
            RuleFault::NumberTooLarge => "NumberTooLarge",
        }
    }
}

/// The parts read so far.
#[derive(Clone, Copy)]
struct Draft {
    parts: Parts,
    /// The numbers of the names that were read.
    seen: BitSet,
    /// Whether COUNT or INTERVAL was past the greatest number.
    too_large: bool,
}

/// Adds an item of a list.
fn take_item(parts: &mut Parts, list: ListName, item: &[u8]) -> Option<()>
    ensures { Takes (item_taken list parts.old item.now) result parts.new }
{
    match list {
        ListName::BySecond => {
            let n = number_between(item, 0, 60)?;
            parts.seconds.insert(n.min(59) as u8);
        }
        ListName::ByMinute => {
            let n = number_between(item, 0, 59)?;
            parts.minutes.insert(n as u8);
        }
        ListName::ByHour => {
            let n = number_between(item, 0, 23)?;
            parts.hours.insert(n as u8);
        }
        ListName::ByDay => take_day(parts, item)?,
        ListName::ByMonthDay => {
            let (side, n) = read_place(item, 31)?;
            parts.month_days.insert(side, n as u8);
        }
        ListName::ByYearDay => {
            let (side, n) = read_place(item, 366)?;
            parts.year_days.insert(side, n);
        }
        ListName::ByWeekNo => {
            let (side, n) = read_place(item, 53)?;
            parts.weeks.insert(side, n as u8);
        }
        ListName::ByMonth => {
            let n = number_between(item, 1, 12)?;
            parts.months.insert(n as u8);
        }
        ListName::BySetPos => {
            let (side, n) = read_place(item, 366)?;
            parts.positions.insert(side, n);
        }
    }
    Some(())
}

/// Adds an item of BYDAY.
fn take_day(parts: &mut Parts, item: &[u8]) -> Option<()>
    ensures { Takes (item_taken ListName.ByDay parts.old item.now) result parts.new }
{
    let day = read_day_item(item)?;
    match day.place {
        None => parts.weekdays.insert(day.weekday),
        Some((side, n)) => parts.weekdays.add_numbered(day.weekday, side, n as u8),
    }
    Some(())
}

/// Adds the items of a list.
fn take_items(parts: &mut Parts, list: ListName, value: &[u8]) -> Option<()>
    ensures { Takes (walk (item_taken list) parts.old (pieces 44 value.now)) result parts.new }
{
    let mut behind = Some(value);
    'items: while let Some(rest) = behind {
        let (item, next) = cut(rest, b',');
        take_item(parts, list, item)?;
        behind = next;
    }
    Some(())
}

impl Draft {
    /// Reads the value of a part. None if it is invalid.
    fn take_value(&mut self, name: PartName, value: &[u8]) -> Option<()>
        ensures { Takes (value_taken name value.now self.old) result self.new }
    {
        match name {
            PartName::Freq => self.parts.frequency = read_frequency(value)?,
            PartName::Until => self.parts.until = Some(read_until(value)?),
            PartName::Count => match read_rule_number(value)? {
                RuleNumber::Number(n) => self.parts.count = Some(n),
                RuleNumber::TooLarge => self.too_large = true,
            },
            PartName::Interval => match read_rule_number(value)? {
                RuleNumber::Number(n) => self.parts.interval = n,
                RuleNumber::TooLarge => self.too_large = true,
            },
            PartName::List(list) => take_items(&mut self.parts, list, value)?,
            PartName::Wkst => self.parts.week_start = read_weekday(value)?,
        }
        Some(())
    }

    /// Reads a part. None if it is invalid or not the first of its name.
    fn take(&mut self, part: &[u8]) -> Option<()>
        ensures { Takes (part_taken self.old part.now) result self.new }
    {
        let (name, value) = halves(part, b'=');
        let name = part_name(name)?;
        if self.seen.contains(name.row()) {
            return None;
        }
        self.seen.insert(name.row());
        self.take_value(name, value)
    }
}

/// What the parts of the text say, of which one `;` may be the end. None if a part is invalid or stands twice.
fn draft_of(text: &[u8]) -> Option<Draft>
    ensures { result ≡ walk part_taken no_parts (pieces 59 (without_last text.now)) }
{
    let mut draft = Draft {
        parts: Parts::new(Frequency::Yearly),
        seen: BitSet::new(),
        too_large: false,
    };
    let mut behind = Some(text.strip_suffix(b";").unwrap_or(text));
    'parts: while let Some(rest) = behind {
        let (part, next) = cut(rest, b';');
        draft.take(part)?;
        behind = next;
    }
    Some(draft)
}

/// The parts of a recurrence rule's text (RFC 5545, section 3.3.10), or the fault of the text.
///
/// The parts may be in any order. The text may end with one `;`, numbers may have leading zeros, and second 60 is read as 59.
pub fn read_rule(text: &[u8]) -> Result<Parts, RuleFault>
    ensures { result ≡ rule_of text.now }
{
    let draft = draft_of(text).ok_or(RuleFault::BadRule)?;
    let until = draft.seen.contains(PartName::Until.row());
    let count = draft.seen.contains(PartName::Count.row());
    if !draft.seen.contains(PartName::Freq.row()) || (until && count) {
        return Err(RuleFault::BadRule);
    }
    if draft.too_large {
        return Err(RuleFault::NumberTooLarge);
    }
    Ok(draft.parts)
}
