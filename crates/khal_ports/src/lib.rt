//! What a listing reads from and writes to: sources of files and of zone files, and sinks.
#![tactic(auto)]

mod fault;
mod file_bytes;
mod file_pieces;
mod folder_source;
mod folder_zones;
mod memory_sink;
mod memory_source;
mod memory_zones;
mod no_zones;
mod pieces;
mod sink;
mod source;
mod stream;
mod zone_path;
mod zone_source;

pub use fault::{RunFault, SinkFault, SourceFault};
pub use folder_source::FolderSource;
pub use folder_zones::FolderZones;
pub use memory_sink::MemorySink;
pub use memory_source::{MemoryFile, MemorySource};
pub use memory_zones::{MemoryZone, MemoryZones};
pub use no_zones::NoZones;
pub use pieces::Pieces;
pub use sink::{Sink, flush_all, put_all};
pub use source::{MOST_BYTES, Source};
pub use stream::Stream;
pub use zone_path::read_zone_file;
pub use zone_source::{MOST_ZONE_BYTES, ZoneSource};
