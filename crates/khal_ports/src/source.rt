//! Where files come from.
ghost use Rattle.std.specs.Prelude.{◌≡◌, ◌<◌, ℕ, List, IsErrOf, OnOk, Some, length, slice_get};
ghost use Rattle.khal_ports.specs.Answers.{answer_of, HasNone, TakesFile};
ghost use Rattle.khal_ports.specs.Growth.{risen};

use crate::fault::SourceFault;
use crate::pieces::Pieces;
use std::alloc::Global;

/// The most bytes that a file may have.
pub const MOST_BYTES: usize = 16_777_216;

/// Named files, each of which may be read. Their number and their names never change.
pub trait Source {
    ghost use Rattle.std.specs.Prelude.{ℕ, List};
    ghost use Rattle.khal_ports.specs.Answers.{Answer};
    ghost use Rattle.khal_ports.specs.declared.fault.SourceFault.{SourceFault};

    /// The names, in order.
    ghost names: { Self → List (List ℕ) };

    /// From a state, a read of the file with this index may give this answer and leave this state.
    ghost reads: { Self → ℕ → Answer → Self → Type 0 };

    /// How many reads the device has failed.
    ghost failed: { Self → ℕ };

    /// How many files there are.
    fn count(&self) -> usize
        ensures { result ≡ length (names self.now) };

    /// The name of a file.
    fn name(&self, index: usize) -> &str
        requires { index < length (names self.now) }
        ensures { slice_get (names self.now) index ≡ Some result.now };

    /// Hands the bytes of a file, at most 16,777,216, to what takes them. Device comes only if the count of
    /// failures rose by one; Memory if an allocation failed, also of what takes them.
    fn read_into<P: Pieces>(
        &mut self,
        alloc: Global,
        index: usize,
        pieces: &mut P,
    ) -> Result<(), SourceFault>
        requires index { index < length (names self.old) }
        requires none { HasNone P.took pieces.old }
        ensures reads { (bytes : List ℕ) × reads self.old index (answer_of result bytes) self.new
            × OnOk result (TakesFile P.took pieces.old bytes pieces.new) }
        ensures names { names self.new ≡ names self.old }
        ensures device { IsErrOf result SourceFault.Device → failed self.new ≡ risen (failed self.old) };

    /// How many reads the device has failed; the count stops at its greatest value.
    fn failures(&self) -> u64
        ensures { result ≡ failed self.now };
}
