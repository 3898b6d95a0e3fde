//! No zone files.
ghost use Rattle.std.specs.Prelude.{◌≡◌};

use crate::fault::SourceFault;
use crate::zone_source::ZoneSource;
use std::alloc::Global;

/// No zone files: there is none for any name.
#[derive(Clone, Copy)]
pub struct NoZones;

impl ZoneSource for NoZones {
    ghost use Rattle.std.specs.Prelude.{◌≡◌, Ok, None};

    ghost finds = { λ before name answer after. (after ≡ before) × (answer ≡ Ok None) };

    ghost failed = { λ _. 0 };

    fn find(&mut self, _alloc: Global, _name: &[u8]) -> Result<Option<Vec<u8>>, SourceFault> {
        Ok(None)
    }

    /// No device fails.
    fn failures(&self) -> u64 {
        0
    }
}
