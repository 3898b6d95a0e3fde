//! Laws of the definitions. Each is the contract of a function that has no other purpose.
ghost use Rattle.ics_series.specs.Laws.{AddedFiles, ListingAfter, ListingBehind, MostOfMasters, OneListing, OneRecurrence, OneVersion, OrderOfFiles};
ghost use Rattle.ics_series.specs.WindowLaws.{ListingWithin, ListingsJoin, ListsStarts, ListsUnderWay};

/// A window of a folder has one listing at most.
pub fn one_listing()
    ensures { OneListing }
{}

/// A listing after a key has those entries of the whole listing whose keys are greater.
pub fn listing_after()
    ensures { ListingAfter }
{}

/// After the key of one of its entries a listing has exactly the entries that follow that one.
pub fn listing_behind()
    ensures { ListingBehind }
{}

/// Files that share no UID with those of a folder add exactly their own occurrences to each window.
pub fn added_files()
    ensures { AddedFiles }
{}

/// The order of files matters only between versions of one event that have equal SEQUENCE: if all such
/// versions stand in one file, the files of a folder list the same in any order.
pub fn order_of_files()
    ensures { OrderOfFiles }
{}

/// Of all versions of an event in a folder, that is the events of one UID without a RECURRENCE-ID, or
/// with one that names the same instant, exactly one counts.
pub fn one_version()
    ensures { OneVersion }
{}

/// No two occurrences of a folder have one UID and one recurrence.
pub fn one_recurrence()
    ensures { OneRecurrence }
{}

/// The bound on what a listing holds is no greater for its own masters than for all masters of the
/// folder that count.
pub fn most_of_masters()
    ensures { MostOfMasters }
{}

/// If what began before a window is left out, exactly the occurrences that start in the window are listed.
pub fn lists_starts()
    ensures { ListsStarts }
{}

/// In a window of one second, an occurrence with a length is listed exactly if it has begun by then and is not over.
pub fn lists_under_way()
    ensures { ListsUnderWay }
{}

/// The listing of a window within another has the entries of the other's listing that meet the inner window.
pub fn listing_within()
    ensures { ListingWithin }
{}

/// If what began before is left out, the listing of two adjoining windows is that of the first followed by that of the second.
pub fn listings_join()
    ensures { ListingsJoin }
{}
