//! Worked examples as data. Standard input has the rows, and what came of each is printed.
//!
//! - `= NAME` begins a row, without files.
//! - `> NAME` begins a file, whose lines follow, each ended by CRLF. `>> TEXT` adds bytes without a line
//!   end. In both `%0a` stands for the byte 10.
//! - `+ NAME BYTES` is a zone file, in the same spelling, and the one that `--zone-file NAME` names.
//! - `$ WORDS` runs the program's words over the files, and `@ WORDS` over the folder on disk that they
//!   name. What they write is printed, then the status in brackets, and then what standard error has. The
//!   words of `$` are then run with each read failing in turn, and with each output ending after each of
//!   its bytes: a run that is not as it must be is printed.
//! - `? WORDS` shows the request of the words.
//! - `: CALL VALUES` asks a call by its name.
//!
//! Words are parted by spaces, or by `|` where one stands before the first. The calls are:
//!
//! - `now TIME` sets the row's clock; `usage PART of WORDS` asks whether clap's text has a part.
//! - `cuts WORDS` runs the words over the last file, cut after each of its bytes, `pages LIMIT WORDS` page
//!   by page, and `entries HELD LEAST MOST WORDS` bounds what their agenda holds and looks at.
//! - `out-takes ROOM WORDS` and `err-takes ROOM WORDS` run them where that output has room for few bytes.
//! - `unfound WORDS` runs them where asking for a zone file fails.
//! - `unread INDEX WORDS` runs them where one file is not read, and `prints-none LEAST MOST WORDS` where the
//!   output takes no byte, and bounds what is looked at. `tried` counts the reads and bytes of all `$` so far.
//! - `lines` are those of the last file; `content LINE` and `param NAME LINE` are parts of a line.
//! - `rule DTSTART RRULE FROM BEFORE [LEAST MOST]` lists a rule's locals, and bounds the periods that were
//!   looked at; `admits DTSTART RRULE LOCAL` asks one, and `until DTSTART RRULE` for its last instant.
//! - `clock TIME [ZONE]` and `instant LOCAL [ZONE]` ask a display zone, or else the last file's first zone.
//! - `stamp`, `zoned`, `duration`, `offset`, `period`, `integer`, `recur` and `text` read a value.
#![tactic(auto)]

mod counts;
mod faults;
mod lines;
mod narrow;
mod requests;
mod row;
mod rules;
mod runs;
mod shown;
mod unfound;
mod unread;
mod values;
mod words;
mod zones;

use row::Row;
use std::io;

/// Takes the lines of standard input, one by one.
fn main(rt: HostRuntime) -> io::Result<()> {
    let mut row = Row::new(rt.alloc());
    for line in rt.lines(rt.alloc()) {
        let line = line?;
        row.take(rt, line.as_str())?;
    }
    Ok(())
}
