//! Laws of keys, tokens and merges. Each is the contract of a function that has no other purpose.
ghost use Rattle.std.specs.Prelude.{◌≡◌};
ghost use Rattle.ics_listing.specs.Entry.{key_rank, rank_cmp};
ghost use Rattle.ics_listing.specs.MergeLaws.{ListingMerged};
ghost use Rattle.ics_listing.specs.Tokens.{OneSpelling, OneDaySpelling};
ghost use Rattle.ics_listing.specs.declared.key.Key.{Key};
ghost use Rattle.ics_listing.specs.DayKeys.{day_key_rank, day_rank_cmp};
ghost use Rattle.ics_listing.specs.declared.day_key.DayKey.{DayKey};

use crate::day_key::DayKey;
use crate::key::Key;

/// The merge of rising lists is the listing of their entries. If several lists have a key, the entry of
/// the first of them counts.
pub fn listing_merged()
    ensures { ListingMerged }
{}

/// Keys have the order of the occurrences of a listing.
pub fn keys_as_listed()
    ensures { (a b : Key) → ⟦<Key as Ord>⟧.cmp a b ≡ rank_cmp (key_rank a) (key_rank b) }
{}

/// A key has one token, and no two keys have the same.
pub fn one_spelling()
    ensures { OneSpelling }
{}

/// Keys under days are ordered by day, and under one day as the occurrences of a listing.
pub fn day_keys_as_listed()
    ensures { (a b : DayKey) → ⟦<DayKey as Ord>⟧.cmp a b ≡ day_rank_cmp (day_key_rank a) (day_key_rank b) }
{}

/// A key under a day has one token, and no two keys have the same.
pub fn one_day_spelling()
    ensures { OneDaySpelling }
{}
