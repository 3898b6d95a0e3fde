//! Laws of the definitions that the contract of `read_file` cites.
ghost use Rattle.std.specs.Prelude.{◌≡◌, ◌≢◌, ◌∷◌, [], true, false, List, ℕ, Result, Ok, Err};
ghost use Rattle.std.specs.List.{All, Contains};
ghost use Rattle.ics_components.specs.declared.fault.FaultKind.{FaultKind};
ghost use Rattle.ics_components.specs.DateValues.{OnePeriod};
ghost use Rattle.ics_components.specs.PartFaults.{IsLeastOfBoth, IsLeastOfParts, StandsAlone, StandsApart};
ghost use Rattle.ics_file.specs.File.{FileSaid};
ghost use Rattle.ics_components.specs.declared.fault.Fault.{Fault};
ghost use Rattle.ics_calendar.specs.GivenFiles.{GivenFiles, no_files};
ghost use Rattle.ics_calendar.specs.Files.{FaultsLookBack, IsFile, file_of, wanted_names};
ghost use Rattle.ics_components.specs.EventLines.{all_events, has_uid, with_uids};
ghost use Rattle.ics_components.specs.PlacedLines.{Placed, placed};
ghost use Rattle.ics_calendar.specs.Parts.{file_gives, is_parted, names_for_parts, nothing_said, IsGiven, IsGivenOrNamed};
ghost use Rattle.ics_calendar.specs.Wanted.{zones_with};
ghost use Rattle.ics_calendar.specs.Zones.{zones_on};

/// With given zone files each file is one thing: its first fault, or its events where none stands, and `file_of` computes it.
pub fn files_are_one_thing()
    ensures is { (files : GivenFiles) (file : List ℕ) → IsFile files file (file_of files file) }
    ensures only { (files : GivenFiles) (file : List ℕ) (answer : Result FileSaid Fault) → IsFile files file answer → file_of files file ≡ answer }
{}

/// A fault of the first round on a line looks back only: a longer file that begins with the same lines
/// has it as its first fault.
pub fn faults_look_back()
    ensures { FaultsLookBack }
{}

/// The first fault of a file is the least of those of its parts, or the one at its end; and a component is judged by itself: the first fault on its lines is
/// that of its lines alone, and the lines behind it stand where they stand without it.
pub fn parts_stand_alone()
    ensures parts { IsLeastOfParts }
    ensures both { IsLeastOfBoth }
    ensures alone { StandsAlone }
    ensures apart { StandsApart }
{}

/// With no zone files the time zones of a file are those of its VTIMEZONEs alone, and BadZoneFile is no fault of it.
pub fn without_zone_files()
    ensures zones { (lines : List Placed) → zones_with no_files lines ≡ zones_on lines }
    ensures faults { (file : List ℕ) (line : ℕ) → file_of no_files file ≢ Err (record { line = line; kind = FaultKind.BadZoneFile }) }
{}

/// A file is one thing with all zone files that agree on the names that it wants.
pub fn only_wanted_files_count()
    ensures { (files others : GivenFiles) (file : List ℕ) → All (λ name. files name ≡ others name) (wanted_names file)
        → file_of files file ≡ file_of others file }
{}

/// If `ics_values::read_period` and a file accept a text as the value of an RDATE, they read the same
/// PERIOD.
pub fn one_period()
    ensures { OnePeriod }
{}

/// A file that is accepted gives all its events where a listing goes on behind faults, and no fault is named; one that is refused
/// and has no parts gives none, and its first fault is named.
pub fn accepted_files_give_all()
    ensures accepted { (files : GivenFiles) (name file : List ℕ) (said : FileSaid) → file_of files file ≡ Ok said
        → file_gives files name file ≡ record { said = said; faults = [] } }
    ensures refused { (files : GivenFiles) (name file : List ℕ) (fault : Fault) → file_of files file ≡ Err fault → is_parted file ≡ false
        → file_gives files name file ≡ record { said = nothing_said; faults = fault ∷ [] } }
{}

/// Where a listing goes on behind faults, the first fault of each refused file is named too.
pub fn first_faults_are_named()
    ensures { (files : GivenFiles) (name file : List ℕ) (fault : Fault) → file_of files file ≡ Err fault → Contains (file_gives files name file).faults fault }
{}

/// Each event of a refused file that has parts lies in one that is accepted, or in one whose first fault is named.
pub fn events_are_given_or_named()
    ensures { (files : GivenFiles) (name file : List ℕ) (fault : Fault) → file_of files file ≡ Err fault → is_parted file ≡ true
        → (event : Placed) → Contains (all_events (with_uids name (placed file))) event
        → IsGivenOrNamed files (with_uids name (placed file)) (file_gives files name file).faults event }
{}

/// The events of one UID in a file are given all or not at all: if one is in a part that is accepted, so is each other.
pub fn events_of_one_uid_stand_together()
    ensures { (files : GivenFiles) (name file uid : List ℕ) (event other : Placed) → Contains (all_events (with_uids name (placed file))) event
        → Contains (all_events (with_uids name (placed file))) other → has_uid (with_uids name (placed file)) uid event ≡ true
        → has_uid (with_uids name (placed file)) uid other ≡ true → IsGiven files (with_uids name (placed file)) event
        → IsGiven files (with_uids name (placed file)) other }
{}

/// A file gives one thing with all zone files that agree on the names that its parts want.
pub fn only_names_for_parts_count()
    ensures { (files others : GivenFiles) (name file : List ℕ) → All (λ n. files n ≡ others n) (names_for_parts name file)
        → file_gives files name file ≡ file_gives others name file }
{}
