//! A row: its files, its clock, and what its lines ask.

use crate::counts::{days, entries, pages, print_none};
use crate::faults::Tried;
use crate::lines::{lines, param, parts};
use crate::narrow::run_narrow;
use crate::requests::{show_request, usage_has};
use crate::rules::{rule, rule_value};
use crate::runs::{cuts, run_disk, run_over};
use crate::shown::moment_of;
use crate::unfound::run_unfound;
use crate::unread::run_unread;
use crate::values::value;
use crate::zones::{in_display, in_file};
use khal_list::{MemoryFile, MemorySource, MemoryZone, MemoryZones};
use percent_encoding::percent_decode;
use std::alloc::{AllocError, Global};
use std::io;

/// 2024-01-05T00:00:00 UTC, the instant that a row's clock shows where it is not set.
const NOW: i64 = 1_704_412_800;

/// The files and zone files of a row, the instant that its clock shows, and what was tried of this row and those before it.
#[derive(Drop)]
pub struct Row {
    source: MemorySource,
    zones: MemoryZones,
    now: i64,
    tried: Tried,
}

impl Row {
    /// A row without files.
    pub fn new(alloc: Global) -> Row {
        let source = MemorySource {
            files: Vec::new(alloc),
        };
        let zones = MemoryZones {
            files: Vec::new(alloc),
        };
        Row {
            source,
            zones,
            now: NOW,
            tried: Tried::none(),
        }
    }

    /// Takes a line of a row. A line that asks for something is printed, and then what came.
    pub fn take(&mut self, rt: HostRuntime, line: &str) -> io::Result<()> {
        let Some((mark, rest)) = line.split_once(' ') else {
            return Ok(self.add_line(line)?);
        };
        match mark {
            ">" => Ok(self.begin_file(rt.alloc(), rest)?),
            ">>" => Ok(self.add_bytes(rest)?),
            "+" => Ok(self.add_zone(rt.alloc(), rest)?),
            "=" | "$" | "@" | "?" | ":" => {
                println!(rt; "{line}")?;
                self.ask(rt, mark, rest)
            }
            _ => Ok(self.add_line(line)?),
        }
    }

    /// Does what a line asks for by its mark.
    fn ask(&mut self, rt: HostRuntime, mark: &str, rest: &str) -> io::Result<()> {
        match mark {
            "$" => {
                run_over(rt, &mut self.source, &mut self.zones, rest, self.now)?;
                self.tried
                    .run(rt, &mut self.source, &mut self.zones, rest, self.now)
            }
            "@" => run_disk(rt, rest, self.now),
            "?" => show_request(rt, rest, self.now),
            ":" => self.call(rt, rest),
            _ => {
                self.source.files.clear();
                self.zones.files.clear();
                self.now = NOW;
                Ok(())
            }
        }
    }

    /// Begins a file.
    fn begin_file(&mut self, alloc: Global, name: &str) -> Result<(), AllocError> {
        let mut decoded = Vec::new(alloc);
        percent_decode(name.as_bytes()).append_to(&mut decoded)?;
        let name = String::from_str(alloc, shown_bytes(decoded.as_slice()))?;
        let bytes = Vec::new(alloc);
        self.source.files.push(MemoryFile { name, bytes })?;
        Ok(())
    }

    /// Adds a zone file: its name and its bytes.
    fn add_zone(&mut self, alloc: Global, line: &str) -> Result<(), AllocError> {
        let (name, text) = line.split_once(' ').unwrap_or((line, ""));
        let name = Vec::from_slice(alloc, name.as_bytes())?;
        let mut bytes = Vec::new(alloc);
        percent_decode(text.as_bytes()).append_to(&mut bytes)?;
        self.zones.files.push(MemoryZone { name, bytes })?;
        Ok(())
    }

    /// Adds bytes to the last file.
    fn add_bytes(&mut self, text: &str) -> Result<(), AllocError> {
        match self.source.files.last_mut() {
            Some(file) => percent_decode(text.as_bytes()).append_to(&mut file.bytes),
            None => Ok(()),
        }
    }

    /// Adds a line to the last file.
    fn add_line(&mut self, line: &str) -> Result<(), AllocError> {
        if let Some(file) = self.source.files.last_mut() {
            file.bytes.extend_from_slice(line.as_bytes())?;
            file.bytes.extend_from_slice(b"\r\n")?;
        }
        Ok(())
    }

    /// Asks a call by its name.
    fn call(&mut self, rt: HostRuntime, call: &str) -> io::Result<()> {
        let (name, rest) = call.split_once(' ').unwrap_or((call, ""));
        match name {
            "now" => {
                self.now = moment_of(rest);
                Ok(())
            }
            "usage" => usage_has(rt, rest, self.now),
            "entries" => entries(rt, &self.source, rest, self.now),
            "days" => days(rt, &self.source, rest, self.now),
            "cuts" => cuts(rt, &mut self.source, rest, self.now),
            "tried" => self.tried.print(rt),
            "unfound" => run_unfound(rt, &mut self.source, rest, self.now),
            "unread" => run_unread(rt, &self.source, rest, self.now),
            "prints-none" => print_none(rt, &self.source, rest, self.now),
            "pages" => pages(rt, &mut self.source, rest, self.now),
            "out-takes" => run_narrow(rt, &mut self.source, rest, self.now, false),
            "err-takes" => run_narrow(rt, &mut self.source, rest, self.now, true),
            "lines" => lines(rt, self.last_bytes()),
            "rule" => rule(rt, rest),
            _ => rt.println(self.answer(rt.alloc(), name, rest)?),
        }
    }

    /// What a call answers in one line.
    fn answer(&self, alloc: Global, name: &str, rest: &str) -> Result<String, AllocError> {
        match name {
            "content" => parts(alloc, rest),
            "param" => param(alloc, rest),
            "admits" | "until" => rule_value(alloc, rest),
            "clock" | "instant" => {
                let (value, zone) = rest.split_once(' ').unwrap_or((rest, ""));
                if zone.is_empty() {
                    return in_file(alloc, self.last_bytes(), name, value);
                }
                in_display(alloc, zone, name, value)
            }
            _ => value(alloc, name, rest),
        }
    }

    /// The bytes of the last file.
    fn last_bytes(&self) -> &[u8] {
        match self.source.files.last() {
            Some(file) => file.bytes.as_slice(),
            None => b"",
        }
    }
}

/// Bytes as text.
pub fn shown_bytes(bytes: &[u8]) -> &str {
    str::from_utf8(bytes).unwrap_or("not UTF-8\n")
}
