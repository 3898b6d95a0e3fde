//! Laws of zones of jiff's, in which listings are shown and which zone files give.
ghost use Rattle.std.specs.Prelude.{◌≡◌, ℤ};
ghost use Rattle.jiff_tz.specs.declared.timezone.TimeZone.{TimeZone};
ghost use Rattle.ics_zone.specs.JiffZones.{offset_of, plain_said, IsCompatible};
ghost use Rattle.ics_zone.specs.Seconds.{IsDay};
ghost use Rattle.ics_zone.specs.ZoneSaid.{display_said, said_offset, said_moment};
ghost use Rattle.ics_fields.specs.Locals.{seconds_at};
ghost use Rattle.ics_zone.specs.declared.display.Display.{Display};

use crate::{Display, Place};
use ics_fields::Local;

/// For each of its zones jiff answers by what the zone says, be it one offset, a rule or a zone file: its offset at an instant, and the
/// instant of a local by its compatible strategy.
pub fn jiff_answers()
    ensures offset { (zone : TimeZone) (t : ℤ) → offset_of zone t ≡ said_offset (plain_said zone) t }
    ensures moment { (zone : TimeZone) (local t : ℤ) → IsCompatible zone local t → t ≡ said_moment (plain_said zone) local }
{}

/// Display zones with the same offset, the same rule or the same zone file have the same offset at each instant, and read
/// each local as the same instant. So a text names one display zone.
pub fn one_display()
    ensures offset { (a b : Display) (t : ℤ) → display_said a ≡ display_said b → said_offset (display_said a) t ≡ said_offset (display_said b) t }
    ensures moment { (a b : Display) (local : ℤ) → display_said a ≡ display_said b
        → said_moment (display_said a) local ≡ said_moment (display_said b) local }
{}

/// A display zone reads each local of the years 0000 to 9950 as the instant that jiff calls compatible, in each of its zones that says the
/// same: the first of two, and in a gap the one by the offset before.
pub fn compatible_moment(display: &Display, local: Local)
    requires { IsDay local.day }
    ensures { (zone : TimeZone) → plain_said zone ≡ display_said display.now
        → IsCompatible zone (seconds_at local.day local.second) (said_moment (display_said display.now) (seconds_at local.day local.second)) }
{
    display.moment(local);
}
