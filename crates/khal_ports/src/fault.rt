//! Why a read, a write or a run failed.
ghost use Rattle.std.specs.Prelude.{◌≡◌};
ghost use Rattle.khal_ports.specs.ErrorNames.{source_fault_name, sink_fault_name, run_fault_name};
ghost use Rattle.khal_ports.specs.declared.fault.RunFault.TheVariants.{Memory};

use std::alloc::{AllocError, AllocFailed};
use thiserror::Error;

/// Why a file was not read.
#[derive(Clone, Copy, Debug, Error)]
#[error("{}", self.name())]
pub enum SourceFault {
    /// The device failed.
    Device,
    /// The file has more than 16,777,216 bytes.
    TooLarge,
    Memory,
}

impl SourceFault {
    /// The variant's name.
    pub fn name(&self) -> &'static str
        ensures { result.now ≡ source_fault_name self.now }
    {
        match self {
            SourceFault::Device => "Device",
            SourceFault::TooLarge => "TooLarge",
            SourceFault::Memory => "Memory",
        }
    }
}

/// Why a sink took no bytes.
#[derive(Clone, Copy, Debug, Error)]
#[error("{}", self.name())]
pub enum SinkFault {
    /// The device failed.
    Device,
    Memory,
}

impl SinkFault {
    /// The variant's name.
    pub fn name(&self) -> &'static str
        ensures { result.now ≡ sink_fault_name self.now }
    {
        match self {
            SinkFault::Device => "Device",
            SinkFault::Memory => "Memory",
        }
    }
}

/// Why a run ended before its end.
#[derive(Clone, Copy, Debug, Error)]
#[error("{}", self.name())]
pub enum RunFault {
    /// An output failed, or was given bytes and took none.
    WriteFault,
    Memory,
}

impl RunFault {
    /// The variant's name.
    pub fn name(&self) -> &'static str
        ensures { result.now ≡ run_fault_name self.now }
    {
        match self {
            RunFault::WriteFault => "WriteFault",
            RunFault::Memory => "Memory",
        }
    }
}

impl From<AllocError> for RunFault {
    ghost from_gives = { λ _ fault. fault ≡ Memory };

    fn from(_error: AllocError) -> RunFault {
        RunFault::Memory
    }
}

impl<T: Drop> From<AllocFailed<T>> for RunFault {
    ghost from_gives = { λ _ fault. fault ≡ Memory };

    fn from(_error: AllocFailed<T>) -> RunFault {
        RunFault::Memory
    }
}
