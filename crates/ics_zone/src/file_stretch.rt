//! Stretches of the clock of a zone file.
ghost use Rattle.std.specs.Prelude.{◌≡◌, ℕ, true, ◌≤◌, ◌+ℤ◌, ◌-ℤ◌, ◌≤ℤ◌, length};
ghost use Rattle.jiff_core.specs.Calendar.{IsWithin};
ghost use Rattle.jiff_tz.specs.Tzif.{tzif_view};
ghost use Rattle.jiff_tz.specs.TzifText.{civil_end, transition_text};
ghost use Rattle.jiff_tz.specs.declared.tzif.Tzif.{Tzif};
ghost use Rattle.ics_zone.specs.Inner.FileStretches.{left_at, IsLastOf, IsStretchAfter};
ghost use Rattle.ics_zone.specs.Seconds.{IsMoment};
ghost use Rattle.ics_zone.specs.Stretches.{IsStretch};
ghost use Rattle.ics_zone.specs.ZoneFiles.{file_offset, file_moment, offset_after};

use crate::Stretch;
use ics_fields::Moment;
use jiff::tz::Tzif;
use jiff_core::Offset;
use jiff_tz::tzif::Transition;

impl Stretch {
    /// All locals, on a clock with one offset.
    pub(crate) fn always(offset: Offset) -> Stretch
        ensures offset { result.offset ≡ offset.seconds }
        ensures shown { result.shown ≡ offset.seconds }
    {
        let offset = i64::from(offset.seconds);
        Stretch {
            from: Moment::MIN,
            to: Moment::MAX,
            offset,
            shown: offset,
        }
    }

    /// The locals about one, given by its seconds, that the clock of a zone file reads by the offset between two transitions, or those that it skips
    /// at one. A local that it shows twice belongs to the first time. After the table they are those of its rule.
    pub(crate) fn of_table(table: &Tzif, local: Moment) -> Stretch
        requires { IsMoment local }
        ensures { IsStretch (file_offset (tzif_view table.now)) (file_moment (tzif_view table.now)) result }
    {
        let rows = table.transitions();
        let count = rows.partition_point(|row| left_at(*row) <= local);
        let stretch = Stretch::before_row(table, count, local);
        if count == 0 {
            return stretch;
        }
        let row = rows[count - 1];
        if local < row.civil_end() {
            stretch.in_gap(row)
        } else {
            stretch.past(row)
        }
    }

    /// The locals before the transition that comes after so many, by the offset before it: up to its gap, or to the end of its fold. After the table
    /// they are those of its rule.
    fn before_row(table: &Tzif, count: usize, local: Moment) -> Stretch
        requires count { count ≤ length (tzif_view table.now).transitions }
        requires local { IsMoment local }
        ensures { IsStretchAfter (tzif_view table.now) count result }
    {
        let rows = table.transitions();
        if count < rows.len() {
            let row = rows[count];
            let offset = i64::from(row.before.seconds);
            return Stretch {
                from: Moment::MIN,
                to: left_at(row),
                offset,
                shown: offset,
            };
        }
        match table.posix_tz() {
            Some(rule) => Stretch::of_rule(rule, local),
            None => Stretch::always(last_offset(table)),
        }
    }

    /// The locals in the gap of a transition, by the offset before it, if the clock shows those of a stretch at the instants that they mean: the one
    /// that follows the transition.
    fn in_gap(self, row: Transition) -> Stretch
        requires { IsWithin 93_599 self.offset }
        ensures { (table : Tzif) (count : ℕ) → IsLastOf (tzif_view table) count (transition_text row) → IsStretchAfter (tzif_view table) count self
            → IsStretch (file_offset (tzif_view table)) (file_moment (tzif_view table)) result }
    {
        if self.shows(row.second, skipped_to(row)) {
            Stretch {
                from: left_at(row),
                to: row.civil_end(),
                offset: i64::from(row.before.seconds),
                shown: self.shown,
            }
        } else {
            Stretch::none()
        }
    }

    /// Whether it has the locals that its offset shows from an instant on and before another.
    fn shows(self, from: Moment, to: Moment) -> bool
        requires short { IsWithin 93_599 self.offset }
        requires from { IsWithin 1_000_000_000_000 from }
        requires to { IsWithin 1_000_000_000_000 to }
        ensures on { result ≡ true → self.from ≤ℤ (from +ℤ self.offset) }
        ensures end { result ≡ true → (to +ℤ self.offset) ≤ℤ self.to }
    {
        self.from <= from + self.offset && to + self.offset <= self.to
    }

    /// Those of the locals that are past a gap or fold and whose instants are not before the transition.
    fn past(self, row: Transition) -> Stretch
        requires { IsWithin 93_599 self.offset }
        ensures from { self.from ≤ℤ result.from }
        ensures end { civil_end (transition_text row) ≤ℤ result.from }
        ensures passed { (row.second +ℤ self.offset) ≤ℤ result.from }
        ensures to { result.to ≡ self.to }
        ensures offset { result.offset ≡ self.offset }
        ensures shown { result.shown ≡ self.shown }
    {
        let passed = row.civil_end().max(row.second + self.offset);
        Stretch {
            from: self.from.max(passed),
            to: self.to,
            offset: self.offset,
            shown: self.shown,
        }
    }
}

/// The local that the clock would show at a transition by the offset before it: where its gap begins, or where its fold ends.
fn left_at(row: Transition) -> Moment
    ensures { result ≡ left_at (transition_text row) }
{
    row.second + i64::from(row.before.seconds)
}

/// The instant that the end of a transition's gap means by the offset before it.
fn skipped_to(row: Transition) -> Moment
    ensures is { result ≡ civil_end (transition_text row) -ℤ row.before.seconds }
    ensures near { IsWithin 1_000_000_000_000 result }
{
    row.civil_end() - i64::from(row.before.seconds)
}

/// The offset after the last transition.
fn last_offset(table: &Tzif) -> Offset
    ensures { result.seconds ≡ offset_after (tzif_view table.now) (length (tzif_view table.now).transitions) }
{
    let rows = table.transitions();
    if rows.is_empty() {
        table.first().offset
    } else {
        let row = rows[rows.len() - 1];
        row.after.offset
    }
}
