//! Why a line is not taken.
ghost use Rattle.std.specs.Prelude.{◌≡◌};
ghost use Rattle.ics_components.specs.declared.fault.FaultKind.TheVariants as kind;
ghost use Rattle.ics_components.specs.declared.refused.Refused.TheVariants.{Memory, Fault};
ghost use Rattle.ics_components.specs.Lines.{rule_kind};

use crate::fault::FaultKind;
use ics_values::{BadOffset, RuleFault};
use std::alloc::{AllocError, AllocFailed};

/// Why a line is not taken: memory is refused, or a fault stands on it.
#[derive(Clone, Copy)]
pub enum Refused {
    Memory,
    Fault(FaultKind),
}

impl From<AllocError> for Refused {
    ghost from_gives = { λ _ e. e ≡ Memory };

    fn from(_error: AllocError) -> Refused {
        Refused::Memory
    }
}

impl<T: Drop> From<AllocFailed<T>> for Refused {
    ghost from_gives = { λ _ e. e ≡ Memory };

    fn from(_error: AllocFailed<T>) -> Refused {
        Refused::Memory
    }
}

impl From<FaultKind> for Refused {
    ghost from_gives = { λ kind e. e ≡ Fault kind };

    fn from(kind: FaultKind) -> Refused {
        Refused::Fault(kind)
    }
}

impl From<RuleFault> for Refused {
    ghost from_gives = { λ fault e. e ≡ Fault (rule_kind fault) };

    fn from(fault: RuleFault) -> Refused {
        match fault {
            RuleFault::BadRule => Refused::Fault(FaultKind::BadRule),
            RuleFault::NumberTooLarge => Refused::Fault(FaultKind::NumberTooLarge),
        }
    }
}

impl From<BadOffset> for Refused {
    ghost from_gives = { λ _ e. e ≡ Fault kind.BadOffset };

    fn from(_fault: BadOffset) -> Refused {
        Refused::Fault(FaultKind::BadOffset)
    }
}
