//! Lists the events of a folder of calendar files: requests, the texts and the run.
#![tactic(auto)]

mod cell;
mod drawing;
mod entry;
mod entry_text;
mod every_day;
mod heading;
mod kept;
mod laws;
mod line;
mod more;
mod printing;
mod request;
mod request_fault;
mod resuming;
mod running;
mod window;
mod words;

pub use every_day::EveryDay;
pub use ics_zone::Display;
pub use khal_ports::{
    FolderSource, FolderZones, MOST_BYTES, MOST_ZONE_BYTES, MemoryFile, MemorySink, MemorySource,
    MemoryZone, MemoryZones, NoZones, Pieces, RunFault, Sink, SinkFault, Source, SourceFault,
    Stream, ZoneSource, read_zone_file,
};
pub use khal_reading::{Status, without_zones};
pub use khal_words::{
    DayField, EntryField, Format, FormatFault, Formats, Piece, Placeholder, one_format,
};
pub use laws::one_answer;
pub use printing::{print, print_days};
pub use request::Request;
pub use request_fault::RequestFault;
pub use resuming::{
    day_goes_on, day_pages, day_token_goes_on, goes_on, last_line_shows, line_goes_on, pages,
    text_goes_on, token_goes_on,
};
pub use running::{AtEnd, run};
pub use words::{Words, zone_of_file};
