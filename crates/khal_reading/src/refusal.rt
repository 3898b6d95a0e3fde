//! The lines of files that are not listed.
ghost use Rattle.std.specs.Prelude.{◌≡◌, ◌++◌, OnOk, map};
ghost use Rattle.khal_reading.specs.Errors.{refusal_text, lines_of};
ghost use Rattle.khal_reading.specs.Inner.Outcomes.{refusal_by, refusal_of};

use crate::shown::add_shown;
use ics_calendar::{Fault, FaultKind};
use std::alloc::{AllocError, Global};

/// Why a file is not listed, or not whole.
#[derive(Clone, Copy)]
pub(crate) enum Refusal {
    /// A fault in it.
    At { line: u64, kind: FaultKind },
    /// It was not read.
    Unread,
}

impl Refusal {
    /// By a fault of the file.
    pub(crate) fn of(fault: Fault) -> Refusal
        ensures { result ≡ refusal_by fault }
    {
        let Fault { line, kind } = fault;
        Refusal::At { line, kind }
    }
}

/// Adds what a line says of a refusal.
fn add_refusal(alloc: Global, text: &mut Vec<u8>, refusal: Refusal) -> Result<(), AllocError>
    ensures { OnOk result (text.new.items ≡ text.old.items ++ refusal_text (refusal_of refusal)) }
{
    match refusal {
        Refusal::At { line, kind } => {
            let kind = kind.name();
            let fault = format!(in alloc; "line {line}: {kind}")?;
            text.extend_from_slice(fault.as_bytes())?;
        }
        Refusal::Unread => text.extend_from_slice(b"ReadFault")?,
    }
    Ok(())
}

/// Adds a line for each refusal of a file: `khal-list: NAME: line N: KIND`, or `khal-list: NAME: ReadFault`.
pub(crate) fn add_refusal_lines(
    alloc: Global,
    text: &mut Vec<u8>,
    name: &str,
    refusals: &[Refusal],
) -> Result<(), AllocError>
    ensures { OnOk result (text.new.items
        ≡ text.old.items ++ lines_of name.now (map refusal_of refusals.now)) }
{
    for refusal in refusals {
        text.extend_from_slice(b"khal-list: ")?;
        add_shown(alloc, text, name.as_bytes())?;
        text.extend_from_slice(b": ")?;
        add_refusal(alloc, text, *refusal)?;
        text.push(b'\n')?;
    }
    Ok(())
}
