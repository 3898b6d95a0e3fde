//! The lines of a file, and the parts of a content line.

use crate::row::shown_bytes;
use ics_text::{Lines, Logical, content};
use percent_encoding::{CONTROLS, percent_encode};
use std::alloc::{AllocError, Global};
use std::io;

/// Prints the lines of a file, each with the number of its first physical line. Bytes that are controls or not of ASCII stand as `%0D`.
pub fn lines(rt: HostRuntime, file: &[u8]) -> io::Result<()> {
    let Ok(mut lines) = Lines::new(file) else {
        return println!(rt; "BadFold");
    };
    for _ in 0..1_000 {
        match lines.next(rt.alloc())? {
            Some(line) => print_line(rt, &line)?,
            None => break,
        }
    }
    Ok(())
}

/// Prints a line.
fn print_line(rt: HostRuntime, line: &Logical<'_>) -> io::Result<()> {
    let folds = if line.borrowed().is_some() {
        ""
    } else {
        " folded"
    };
    let mut shown = String::new(rt.alloc());
    percent_encode(line.bytes(), CONTROLS).append_to(&mut shown)?;
    println!(rt; "{}{folds}: {shown}", line.number())
}

/// The parts of a content line.
pub fn parts(alloc: Global, line: &str) -> Result<String, AllocError> {
    match content(line.as_bytes()) {
        Ok(parts) => {
            let name = shown_bytes(parts.name());
            let params = shown_bytes(parts.params());
            format!(in alloc; "{name}, {params}, {}", shown_bytes(parts.value()))
        }
        Err(fault) => String::from_str(alloc, fault.name()),
    }
}

/// The value of a parameter of a content line.
pub fn param(alloc: Global, line: &str) -> Result<String, AllocError> {
    let (name, line) = line.split_once(' ').unwrap_or(("", line));
    match content(line.as_bytes()) {
        Ok(parts) => {
            let value = parts.param(name.as_bytes()).unwrap_or(b"none");
            String::from_str(alloc, shown_bytes(value))
        }
        Err(fault) => String::from_str(alloc, fault.name()),
    }
}
