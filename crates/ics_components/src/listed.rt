//! Values in their order.
ghost use Rattle.std.specs.Prelude.{◌≡◌, ◌++◌, [], IfOk};

use std::alloc::{AllocError, Global};
use std::marker::Model;

/// Several values in their order, seen as a list.
#[derive(Drop)]
pub struct Listed<T> {
    pub values: Vec<T>,
}

impl<T> Model for Listed<T> {
    ghost use Rattle.std.specs.Prelude.{List};

    ghost Value = { List T };

    ghost view = { λ a. a.values.items };
}

impl<T: Drop> Listed<T> {
    /// No values.
    pub(crate) fn nothing(alloc: Global) -> Listed<T>
        ensures { result ≡ [] }
    {
        Listed {
            values: Vec::new(alloc),
        }
    }

    /// Adds more values behind these. Where there are none yet, no memory is asked for.
    pub(crate) fn append(&mut self, more: Listed<T>) -> Result<(), AllocError>
        ensures { IfOk result (λ _. self.new ≡ self.old ++ more) }
    {
        if self.values.is_empty() {
            *self = more;
            return Ok(());
        }
        let Listed { mut values } = more;
        self.values.append(&mut values)
    }
}
