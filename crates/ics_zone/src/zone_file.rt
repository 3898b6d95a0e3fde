//! Zone files that have been read (RFC 9636).
ghost use Rattle.std.specs.Prelude.{◌≡◌, ◌<◌, length, Err, Some, IfOk, None};
ghost use Rattle.jiff_core.specs.declared.error.TzifFault.{TzifFault};
ghost use Rattle.jiff_tz.specs.TzifReader.{read_tzif};
ghost use Rattle.ics_zone.specs.ZoneFiles.{zone_file};

use crate::ZoneFileFault;
use crate::shared_table::SharedTable;
use jiff::tz::Tzif;
use jiff_core::Error;
use std::alloc::Global;
use std::marker::Model;

/// The longest zone file, in bytes.
const LONGEST: usize = 1_048_576;

/// A zone file that has been read. Zones of it share its table. Contracts see what jiff read of it.
#[derive(Drop)]
pub struct ZoneFile {
    pub(crate) table: SharedTable,
}

impl Model for ZoneFile {
    ghost use Rattle.jiff_tz.specs.Tzif.{tzif_view};
    ghost use Rattle.jiff_tz.specs.TzifReader.{TzifText};

    ghost Value = { TzifText };

    ghost view = { λ a. tzif_view a.table };
}

impl ZoneFile {
    /// What jiff reads from the bytes of a zone file. `BadZoneFile` if there are more than 1,048,576, or if jiff refuses them for another
    /// cause than want of memory, else `Memory` if an allocation fails.
    pub fn read(alloc: Global, bytes: &[u8]) -> Result<ZoneFile, ZoneFileFault>
        ensures file { IfOk result (λ file. zone_file bytes.now ≡ Some file) }
        ensures bad { (result ≡ Err ZoneFileFault.BadZoneFile) → zone_file bytes.now ≡ None }
        ensures long { 1_048_576 < length bytes.now → result ≡ Err ZoneFileFault.BadZoneFile }
        ensures broken { (fault : TzifFault) → read_tzif bytes.now ≡ Err fault → result ≡ Err ZoneFileFault.BadZoneFile }
    {
        if bytes.len() > LONGEST {
            return Err(ZoneFileFault::BadZoneFile);
        }
        match Tzif::parse(alloc, None, bytes) {
            Ok(table) => match SharedTable::new(alloc, table) {
                Ok(table) => Ok(ZoneFile { table }),
                Err(_) => Err(ZoneFileFault::Memory),
            },
            Err(error) => match error {
                Error::OutOfMemory => Err(ZoneFileFault::Memory),
                _ => Err(ZoneFileFault::BadZoneFile),
            },
        }
    }
}
