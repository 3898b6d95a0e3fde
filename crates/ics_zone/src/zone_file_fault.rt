//! Why bytes are not a zone file.
ghost use Rattle.std.specs.Prelude.{◌≡◌};
ghost use Rattle.ics_zone.specs.ZoneFileFaults.{zone_file_fault_name};

/// Why bytes are not a zone file.
#[derive(Clone, Copy, Debug, thiserror::Error)]
pub enum ZoneFileFault {
    #[error("no zone file")]
    BadZoneFile,
    #[error("out of memory")]
    Memory,
}

impl ZoneFileFault {
    /// The name of the fault, as it is printed.
    pub fn name(&self) -> &'static str
        ensures { result.now ≡ zone_file_fault_name self.now }
    {
        match self {
            ZoneFileFault::BadZoneFile => "BadZoneFile",
            ZoneFileFault::Memory => "Memory",
        }
    }
}
