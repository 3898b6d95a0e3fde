//! Which properties a reader of lines reads.
ghost use Rattle.std.specs.Prelude.{◌≡◌};

/// Says of a property, by its name, whether it is read.
pub trait Reads {
    ghost use Rattle.std.specs.Prelude.{ℕ, Bool, List};

    /// Whether a property of that name is read.
    ghost reads: { Self → List ℕ → Bool };

    /// Whether a property of that name is read.
    fn is_read(&self, name: &[u8]) -> bool
        ensures { result ≡ reads self.now name.now };
}

/// Reads every property.
pub struct Every;

impl Reads for Every {
    ghost use Rattle.std.specs.Prelude.{true};

    ghost reads = { λ _ _. true };

    fn is_read(&self, _name: &[u8]) -> bool {
        true
    }
}
