//! Laws of the listing under each day and of its keys. Each is the contract of a function that has no other purpose.
ghost use Rattle.ics_series.specs.OnDays.{DayListingBehind, OneDayListing};

/// A window of a folder has one listing under each day at most.
pub fn one_day_listing()
    ensures { OneDayListing }
{}

/// After the key of one of its entries that listing goes on with those that stand behind it.
pub fn day_listing_behind()
    ensures { DayListingBehind }
{}
