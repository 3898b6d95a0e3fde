//! The properties that a file is read for.
use crate::name::{Name, kept_as, name_of};
use ics_text::Reads;
use ics_values::KeptTexts;

/// Reads the properties that have a name here, but for the texts that are not kept.
#[derive(Clone, Copy)]
pub struct Known {
    pub keep: KeptTexts,
}

impl Reads for Known {
    ghost use Rattle.ics_components.specs.Known.{is_kept};

    ghost reads = { λ known. is_kept known.keep };

    fn is_read(&self, name: &[u8]) -> bool {
        !matches!(kept_as(self.keep, name_of(name)), Name::Other)
    }
}

/// Reads all properties that have a name here. The search for a UID goes over the lines by it, so that the steps of the first round are inlined into its
/// loop alone.
pub struct Sought;

impl Reads for Sought {
    ghost use Rattle.ics_components.specs.Known.{is_known};

    ghost reads = { λ _. is_known };

    fn is_read(&self, name: &[u8]) -> bool {
        !matches!(name_of(name), Name::Other)
    }
}
