//! Laws of time zones by observances.
ghost use Rattle.std.specs.Prelude.{◌≡◌, ◌≢◌, [], List, ℤ};
ghost use Rattle.ics_zone.specs.Observances.{ObservanceSaid, IsZone};
ghost use Rattle.ics_zone.specs.ZoneOffsets.{IsOffset, zone_offset};
ghost use Rattle.ics_zone.specs.Moments.{IsMomentOf, zone_moment};

/// A zone with at least one observance has exactly one offset at each instant: the one that the search finds.
pub fn one_offset()
    ensures most { (zone : List ObservanceSaid) (t a b : ℤ) → IsOffset zone t a → IsOffset zone t b → a ≡ b }
    ensures found { (zone : List ObservanceSaid) (t : ℤ) → IsZone zone → zone ≢ [] → IsOffset zone t (zone_offset zone t) }
{}

/// A local means exactly one instant: the one that the search finds.
pub fn one_moment()
    ensures most { (zone : List ObservanceSaid) (local s t : ℤ) → IsMomentOf zone local s → IsMomentOf zone local t → s ≡ t }
    ensures found { (zone : List ObservanceSaid) (local : ℤ) → IsZone zone → IsMomentOf zone local (zone_moment zone local) }
{}
