//! Two offsets between which a clock stays.
ghost use Rattle.std.specs.Prelude.{◌≡◌, ◌≤ℤ◌};
ghost use Rattle.std.specs.Int.{int_max, int_min};
ghost use Rattle.jiff_core.specs.Calendar.{IsBetween, IsWithin};
ghost use Rattle.jiff_tz.specs.PosixText.{tz_view};
ghost use Rattle.jiff_tz.specs.Tzif.{tzif_view};
ghost use Rattle.ics_zone.specs.Bounds.{HasBounds};
ghost use Rattle.ics_zone.specs.Inner.FileBounds.{HoldsOfRule};
ghost use Rattle.ics_zone.specs.ZoneFiles.{file_offset, file_moment};

use jiff::tz::Tzif;
use jiff_core::Offset;
use jiff_tz::posix;

/// Two offsets, in seconds, between which all offsets of a clock lie.
#[derive(Clone, Copy)]
pub struct Bounds {
    pub least: i64,
    pub most: i64,
}

impl Bounds {
    /// The one offset.
    pub(crate) fn of_offset(offset: Offset) -> Bounds
        ensures least { result.least ≡ offset.seconds }
        ensures most { result.most ≡ offset.seconds }
    {
        let seconds = i64::from(offset.seconds);
        Bounds {
            least: seconds,
            most: seconds,
        }
    }

    /// The least and the greatest of the offsets that stand in a zone file's table, and in the rule for what comes after it.
    pub(crate) fn of_table(table: &Tzif) -> Bounds
        ensures { HasBounds (file_offset (tzif_view table.now)) (file_moment (tzif_view table.now)) result.least result.most }
    {
        let mut bounds = Bounds::of_offset(table.first().offset);
        for row in table.transitions() {
            bounds = bounds.with(row.before).with(row.after.offset);
        }
        match table.posix_tz() {
            None => bounds,
            Some(rule) => bounds.with_rule(rule),
        }
    }

    /// The closest about these and one offset more.
    fn with(self, offset: Offset) -> Bounds
        ensures least { result.least ≡ int_min self.least offset.seconds }
        ensures most { result.most ≡ int_max self.most offset.seconds }
    {
        let seconds = i64::from(offset.seconds);
        Bounds {
            least: self.least.min(seconds),
            most: self.most.max(seconds),
        }
    }

    /// The closest about these and the offsets of a rule.
    pub(crate) fn with_rule(self, rule: posix::TimeZone) -> Bounds
        ensures rule { HoldsOfRule (IsBetween result.least result.most) (tz_view rule) }
        ensures least { result.least ≤ℤ self.least }
        ensures most { self.most ≤ℤ result.most }
        ensures least_short { IsWithin 93_599 self.least → IsWithin 93_599 result.least }
        ensures most_short { IsWithin 93_599 self.most → IsWithin 93_599 result.most }
    {
        let bounds = self.with(rule.std_offset);
        match rule.dst {
            None => bounds,
            Some(dst) => bounds.with(dst.offset),
        }
    }
}
