//! The time zones and the events of an iCalendar file, or its first fault.
#![tactic(auto)]

mod event;
mod file_parts;
mod given_file;
mod judged;
mod labels;
mod laws;
mod parsed_lists;
mod partial_file;
mod read;
mod rising;
mod shared_faults;
mod shared_zones;
mod summed_uid;
mod unknown_zones;
mod unresolved_file;
mod zone;
mod zone_files;
mod zone_table;

pub use given_file::GivenFile;
pub use ics_components::{Fault, FaultKind, FileFault, FileReader};
pub use ics_event::{Event, Length, Rdate, Text, Time};
pub use ics_file::FileEvents;
pub use laws::{
    accepted_files_give_all, events_are_given_or_named, events_of_one_uid_stand_together,
    faults_look_back, files_are_one_thing, first_faults_are_named, one_period,
    only_names_for_parts_count, only_wanted_files_count, parts_stand_alone, without_zone_files,
};
pub use partial_file::{PartialFile, read_sound_parts};
pub use read::read_file;
pub use shared_zones::SharedZones;
pub use unknown_zones::wanted;
pub use unresolved_file::UnresolvedFile;
pub use zone_files::ZoneFiles;
