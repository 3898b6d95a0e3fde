//! Why observances do not make a zone.
ghost use Rattle.std.specs.Prelude.{◌≡◌};
ghost use Rattle.ics_zone.specs.ZoneFaults.{zone_fault_name};

use thiserror::Error;

/// Why observances do not make a zone.
#[derive(Clone, Copy, Debug, Error)]
pub enum ZoneFault {
    #[error("no STANDARD or DAYLIGHT part")]
    NoObservance,
    #[error("a rule finer than DAILY")]
    ZoneRule,
    #[error("out of memory")]
    Memory,
}

impl ZoneFault {
    /// The name of the fault, as it is printed.
    pub fn name(&self) -> &'static str
        ensures { result.now ≡ zone_fault_name self.now }
    {
        match self {
            ZoneFault::NoObservance => "NoObservance",
            ZoneFault::ZoneRule => "ZoneRule",
            ZoneFault::Memory => "Memory",
        }
    }
}
