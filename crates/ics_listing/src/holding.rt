//! How many built occurrences a feed holds, and how many periods of rules it has looked at.
ghost use Rattle.std.specs.Prelude.{◌≡◌, ℕ, List, length};
ghost use Rattle.ics_listing.specs.Entry.{Entry};

use crate::feed::Coming;

/// A feed that tells what it holds of the list still to come, and how many periods it looked at.
pub trait Holding: Coming {
    ghost use Rattle.std.specs.Prelude.{ℕ, List};
    ghost use Rattle.ics_listing.specs.Entry.{Entry};

    /// The built occurrences that it holds.
    ghost holds: { Self → List Entry };

    /// How many periods of rules it has looked at.
    ghost looked: { Self → ℕ };

    /// The number of built occurrences that it holds.
    fn held(&self) -> usize
        ensures { result ≡ length (Self.holds self.now) };

    /// The number of periods of rules that it has looked at.
    fn steps(&self) -> u64
        ensures { result ≡ Self.looked self.now };
}
