//! Where zone files come from.
ghost use Rattle.std.specs.Prelude.{◌≡◌, ◌≤◌, IfOk, IfSome, IsErrOf, vec_len};
ghost use Rattle.khal_ports.specs.Finds.{find_answer_of, most_zone_bytes};
ghost use Rattle.khal_ports.specs.Growth.{risen};

use crate::fault::SourceFault;
use std::alloc::Global;

/// The most bytes that a zone file may have.
pub const MOST_ZONE_BYTES: usize = 1_048_576;

/// Zone files, which are found by the names of time zones.
pub trait ZoneSource {
    ghost use Rattle.std.specs.Prelude.{ℕ, List};
    ghost use Rattle.khal_ports.specs.Finds.{FindAnswer};

    /// From a state, asking for this name may give this answer and leave this state.
    ghost finds: { Self → List ℕ → FindAnswer → Self → Type 0 };

    /// How many of these the device has failed.
    ghost failed: { Self → ℕ };

    /// The bytes of the zone file of a name, at most 1,048,576, or none if there is no such file. Device
    /// comes only if the count of failures rose by one.
    fn find(&mut self, alloc: Global, name: &[u8]) -> Result<Option<Vec<u8>>, SourceFault>
        ensures finds { finds self.old name.now (find_answer_of result) self.new }
        ensures bound { IfOk result (λ found. IfSome found (λ bytes. vec_len bytes ≤ most_zone_bytes)) }
        ensures device { IsErrOf result SourceFault.Device → failed self.new ≡ risen (failed self.old) };

    /// How many the device has failed; the count stops at its greatest value.
    fn failures(&self) -> u64
        ensures { result ≡ failed self.now };
}
