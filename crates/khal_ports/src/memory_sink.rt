//! Text in memory.
ghost use Rattle.std.specs.Prelude.{◌≡◌, []};

use crate::fault::SinkFault;
use crate::sink::Sink;
use std::alloc::Global;

/// Bytes in memory. It takes all that it is given, unless an allocation fails.
#[derive(Drop)]
pub struct MemorySink {
    pub bytes: Vec<u8>,
}

impl MemorySink {
    /// No bytes.
    pub fn new(alloc: Global) -> MemorySink
        ensures { result.bytes.items ≡ [] }
    {
        MemorySink {
            bytes: Vec::new(alloc),
        }
    }
}

impl Sink for MemorySink {
    ghost use Rattle.std.specs.Prelude.{◌≡◌, ◌++◌, ◌⊎◌, Some, Ok, Err, length};
    ghost use Rattle.khal_ports.specs.declared.fault.SinkFault.TheVariants.{Memory};

    ghost taken = { λ sink. Some sink.bytes.items };

    ghost puts = { λ before bytes answer after.
        ((answer ≡ Ok (length bytes)) × (after.bytes.items ≡ before.bytes.items ++ bytes))
        ⊎ ((answer ≡ Err Memory) × (after.bytes.items ≡ before.bytes.items)) };

    ghost flushes = { λ before answer after. (answer ≡ Ok tt) × (after ≡ before) };

    ghost failed = { λ _. 0 };

    fn put(&mut self, bytes: &[u8]) -> Result<usize, SinkFault> {
        match self.bytes.extend_from_slice(bytes) {
            Ok(()) => Ok(bytes.len()),
            Err(_) => Err(SinkFault::Memory),
        }
    }

    /// Nothing is kept back.
    fn flush(&mut self) -> Result<(), SinkFault> {
        Ok(())
    }

    /// No device fails.
    fn failures(&self) -> u64 {
        0
    }
}
