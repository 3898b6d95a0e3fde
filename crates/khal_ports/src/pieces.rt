//! What takes the bytes of a file, piece by piece.
ghost use Rattle.std.specs.Prelude.{OnOk};
ghost use Rattle.khal_ports.specs.Answers.{MayTake, Takes, TakesNone};

use std::alloc::{AllocError, Global};

/// Takes the bytes of a file, piece by piece.
pub trait Pieces {
    ghost use Rattle.std.specs.Prelude.{ℕ, List};

    /// What is settled before the first piece, such as what is kept of the file.
    type Setting;

    /// With this setting these bytes were taken so far.
    ghost took: { Self.Setting → List ℕ → Self → Type 0 };

    /// Makes room for that many bytes more, if they are kept in one place. It takes none.
    fn make_room(&mut self, alloc: Global, count: usize) -> Result<(), AllocError>
        ensures { OnOk result (TakesNone took self.old self.new) };

    /// Takes the next piece. The error means that an allocation failed.
    fn add(&mut self, alloc: Global, piece: &[u8]) -> Result<(), AllocError>
        requires { MayTake took self.old piece.now }
        ensures { OnOk result (Takes took self.old piece.now self.new) };
}

/// The bytes themselves.
impl Pieces for Vec<u8> {
    ghost use Rattle.std.specs.Prelude.{◌≡◌};

    type Setting = ();

    ghost took = { λ _ bytes held. held.items ≡ bytes };

    fn make_room(&mut self, _alloc: Global, count: usize) -> Result<(), AllocError> {
        self.reserve_exact(count)
    }

    fn add(&mut self, _alloc: Global, piece: &[u8]) -> Result<(), AllocError> {
        self.extend_from_slice(piece)
    }
}
