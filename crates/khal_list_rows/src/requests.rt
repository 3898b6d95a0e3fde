//! The requests of words.

use crate::runs::{print_fault, request};
use crate::shown::moment_text;
use ics_series::{DayToken, Token};
use khal_list::{Request, RequestFault};
use std::alloc::{AllocError, Global};
use std::io;

/// Prints the request of these words, or its fault in brackets.
pub fn show_request(rt: HostRuntime, words: &str, now: i64) -> io::Result<()> {
    match request(rt.alloc(), words, now) {
        Ok(request) => rt.println(request_text(rt.alloc(), &request)?),
        Err(fault) => print_fault(rt, fault),
    }
}

/// The window as instants in UTC, the folder, and what else is set.
fn request_text(alloc: Global, request: &Request) -> Result<String, AllocError> {
    let from = moment_text(alloc, request.window.from)?;
    let to = moment_text(alloc, request.window.to)?;
    let mut text = format!(in alloc; "{from} to {to} of {}", request.folder())?;
    add_set(alloc, request, &mut text)?;
    Ok(text)
}

/// Adds what else is set.
fn add_set(alloc: Global, request: &Request, text: &mut String) -> Result<(), AllocError> {
    if let Some(zones) = request.zones() {
        write!(text, ", zones of {zones}")?;
    }
    if request.keep_going {
        text.push_str(", keep going")?;
    }
    if request.window.notstarted {
        text.push_str(", not started")?;
    }
    if let Some(limit) = request.limit {
        write!(text, ", at most {limit}")?;
    }
    if let Some(key) = &request.after {
        write!(text, ", after {}", Token::write(alloc, key)?)?;
    }
    if let Some(every_day) = &request.every_day {
        text.push_str(", each day")?;
        if let Some(key) = &every_day.after {
            write!(text, ", after {}", DayToken::write(alloc, key)?)?;
        }
    }
    Ok(())
}

/// Prints whether the text that clap gives for some words has a part: `usage PART of WORDS`.
pub fn usage_has(rt: HostRuntime, line: &str, now: i64) -> io::Result<()> {
    let (part, words) = line.split_once(" of ").unwrap_or((line, ""));
    match request(rt.alloc(), words, now) {
        Err(RequestFault::Usage { text, help }) => {
            let kind = if help { "help" } else { "usage" };
            println!(rt; "{kind}: {}", yes_no(text.as_str().contains(part)))
        }
        _ => println!(rt; "no usage"),
    }
}

/// `yes` or `no`.
pub fn yes_no(is_so: bool) -> &'static str {
    if is_so { "yes" } else { "no" }
}
