//! Why a text is not a display zone.
ghost use Rattle.std.specs.Prelude.{◌≡◌};
ghost use Rattle.ics_zone.specs.DisplayFaults.{display_fault_name};

use thiserror::Error;

/// Why a text is not a display zone.
#[derive(Clone, Copy, Debug, Error)]
pub enum DisplayFault {
    #[error("no display zone")]
    BadZone,
    #[error("out of memory")]
    Memory,
}

impl DisplayFault {
    /// The name of the fault, as it is printed.
    pub fn name(&self) -> &'static str
        ensures { result.now ≡ display_fault_name self.now }
    {
        match self {
            DisplayFault::BadZone => "BadZone",
            DisplayFault::Memory => "Memory",
        }
    }
}
