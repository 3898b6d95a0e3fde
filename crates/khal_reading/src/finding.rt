//! What is found for a name.
ghost use Rattle.std.specs.Prelude.{◌≡◌, IfErr};
ghost use Rattle.khal_ports.specs.Finds.{FindAnswer, found_of};
ghost use Rattle.khal_reading.specs.Inner.Learned.{found_by};

use khal_ports::{RunFault, SourceFault, ZoneSource};
use std::alloc::Global;

/// What is found for a name.
#[derive(Drop)]
pub(crate) enum Found {
    /// The bytes of a zone file.
    Given(Vec<u8>),
    /// There is none.
    Absent,
    /// It was not read.
    Unread,
}

/// Asks for a name. Only a failed allocation is a fault here.
pub(crate) fn find<Z: ZoneSource>(
    alloc: Global,
    zones: &mut Z,
    name: &[u8],
) -> Result<Found, RunFault>
    ensures found { (answer : FindAnswer) × Z.finds zones.old name.now answer zones.new × (found_by result ≡ found_of answer) }
    ensures err { IfErr result (λ fault. fault ≡ RunFault.Memory) }
{
    match zones.find(alloc, name) {
        Ok(Some(bytes)) => Ok(Found::Given(bytes)),
        Ok(None) => Ok(Found::Absent),
        Err(SourceFault::Memory) => Err(RunFault::Memory),
        Err(_) => Ok(Found::Unread),
    }
}
