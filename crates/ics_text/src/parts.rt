ghost use Rattle.std.specs.Prelude.{◌≡◌, List};
ghost use Rattle.std.specs.Option.{option_copied};
ghost use Rattle.ics_text.specs.ContentLines.{Param, IsParams, first_value, param_of};

use crate::param::param_of;
use std::marker::Model;

/// The parts of a content line, each a slice of it (RFC 5545, section 3.1).
#[derive(Drop)]
pub struct Content<'a> {
    pub(crate) name: &'a [u8],
    pub(crate) params: &'a [u8],
    pub(crate) value: &'a [u8],
}

impl<'a> Model for Content<'a> {
    ghost use Rattle.ics_text.specs.ContentLines.{Parts};

    ghost Value = { Parts };

    ghost view = { λ a. record { name = a.name.now; params = a.params.now; value = a.value.now } };
}

impl<'a> Content<'a> {
    /// The property's name, in upper or lower case as in the file.
    pub fn name(&self) -> &'a [u8]
        ensures { result.now ≡ self.now.name }
    {
        self.name
    }

    /// The text of the parameters, including the `;` before each of them.
    pub fn params(&self) -> &'a [u8]
        ensures { result.now ≡ self.now.params }
    {
        self.params
    }

    /// Everything after the colon.
    pub fn value(&self) -> &'a [u8]
        ensures { result.now ≡ self.now.value }
    {
        self.value
    }

    /// The first value of the first parameter with that name, without its quotes; None if there is no such parameter. Names are compared
    /// without regard to the case of letters.
    pub fn param(&self, name: &[u8]) -> Option<&'a [u8]>
        ensures first { (ps : List Param) → IsParams self.now.params ps → option_copied result ≡ first_value name.now ps }
        ensures computes { option_copied result ≡ param_of name.now self.now.params }
    {
        param_of(self.params, name)
    }
}
