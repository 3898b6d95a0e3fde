//! The line with the token from which a listing continues.
ghost use Rattle.std.specs.Prelude.{◌≡◌, Some, IfOk, OnOk, OnErr, IsErrOf};
ghost use Rattle.std.specs.Io.KnownBytes.{Appends};
ghost use Rattle.std.specs.Option.{option_map};
ghost use Rattle.std.specs.String.{string_bytes};
ghost use Rattle.khal_ports.specs.Growth.{TookFront, LeftByFault};
ghost use Rattle.khal_list.specs.Headline.{more_line};

use khal_ports::{RunFault, Sink, put_all};
use std::alloc::{AllocError, Global};

/// The line of a token: `more: TOKEN` and LF.
fn more_line(alloc: Global, token: &str) -> Result<String, AllocError>
    ensures { IfOk result (λ line. string_bytes line ≡ more_line (Some token.now)) }
{
    format!(in alloc; "more: {token}\n")
}

/// Writes the line of the token from which a listing continues, if there is one.
///
/// WriteFault comes only if the sink failed, or was given bytes and took none.
pub(crate) fn put_more<E: Sink>(
    alloc: Global,
    err: &mut E,
    token: &Option<String>,
) -> Result<(), RunFault>
    ensures ok { OnOk result (Appends (E.taken err.old) (E.taken err.new)
        (more_line (option_map string_bytes token.now))) }
    ensures err { OnErr result (TookFront (E.taken err.old) (E.taken err.new)
        (more_line (option_map string_bytes token.now))) }
    ensures cause { IsErrOf result RunFault.WriteFault → LeftByFault E.puts err.new }
{
    if let Some(token) = token {
        let line = more_line(alloc, token.as_str())?;
        put_all(err, line.as_bytes())?;
    }
    Ok(())
}
