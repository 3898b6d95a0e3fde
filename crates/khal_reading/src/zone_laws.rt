//! Laws of zone files.
ghost use Rattle.std.specs.Prelude.{◌≡◌, Bool, List, ℕ, Some};
ghost use Rattle.std.specs.List.{AllByRecursion};
ghost use Rattle.ics_calendar.specs.GivenFiles.{no_files};
ghost use Rattle.khal_reading.specs.Asked.{Asked, FindsEach};
ghost use Rattle.khal_reading.specs.Gives.{given_by_file, read_gives};
ghost use Rattle.khal_ports.specs.Finds.{Found};
ghost use Rattle.khal_ports.specs.declared.no_zones.NoZones.{NoZones};

use khal_ports::{NoZones, ZoneSource};

/// With `NoZones` nothing is found for any name, and then a file gives what it gives
/// without zone files.
pub fn without_zones()
    ensures none { (before after : NoZones) (asked : List Asked)
        → FindsEach ⟦<NoZones as ZoneSource>⟧.finds before asked after → AllByRecursion (λ one. one.1 ≡ Found.Absent) asked }
    ensures same { (asked : List Asked) → AllByRecursion (λ one. one.1 ≡ Found.Absent) asked → (keep_going : Bool) (name bytes : List ℕ)
        → read_gives keep_going asked (name, Some bytes) ≡ (given_by_file keep_going name bytes).gives no_files }
{}
