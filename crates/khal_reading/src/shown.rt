//! Bytes as they are shown.
ghost use Rattle.std.specs.Prelude.{◌≡◌, ◌++◌, IsTrue, OnOk};
ghost use Rattle.khal_reading.specs.Shown.{shown};

use bstr::ByteSlice;
use std::alloc::{AllocError, Global};

/// Whether all bytes are printed ASCII, which is shown as it is.
fn is_plain(bytes: &[u8]) -> bool
    ensures { IsTrue result → shown bytes.now ≡ bytes.now }
{
    for byte in bytes {
        if *byte < b' ' || *byte > b'~' {
            return false;
        }
    }
    true
}

/// Adds what is shown of these bytes: those that are not UTF-8 replaced by U+FFFD, one for each maximal piece
/// of them, and controls as spaces. An error if an allocation failed.
pub fn add_shown(alloc: Global, text: &mut Vec<u8>, bytes: &[u8]) -> Result<(), AllocError>
    ensures { OnOk result (text.new.items ≡ text.old.items ++ shown bytes.now) }
{
    if is_plain(bytes) {
        return text.extend_from_slice(bytes);
    }
    let readable = bytes.to_str_lossy(alloc)?;
    for byte in readable.as_str().as_bytes() {
        text.push(if byte.is_ascii_control() { b' ' } else { *byte })?;
    }
    Ok(())
}
