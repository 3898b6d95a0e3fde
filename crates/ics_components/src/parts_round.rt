//! The first round over the lines of a file, event by event and time zone by time zone. It goes on behind a fault.
ghost use Rattle.std.specs.Prelude.{◌≡◌, ◌++◌, codes, drop, [], IfOk, IfSome, None, Some, true};
ghost use Rattle.std.specs.Option.{option_and_then, option_copied, option_or};
ghost use Rattle.ics_text.specs.ContentLines.{content_of};
ghost use Rattle.ics_components.specs.EventLines.{as_text, is_uid, made_uid, nests, uid_line, with_uid};
ghost use Rattle.ics_components.specs.Parted.{IsSoundParted, fault_there, lines_with, parted_of};
ghost use Rattle.ics_components.specs.Inner.PartsPass.{Ends, GoesOver, IsUidLine, Steps, and_closed, and_outside, by_part, closed_by, here, part_begun};
ghost use Rattle.ics_components.specs.Inner.PartsPass.{part_closed, round_behind};
ghost use Rattle.ics_components.specs.Inner.PartsPass.{ended, if_sure, round_begun, round_over};
ghost use Rattle.ics_components.specs.PlacedLines.{named, path_behind, placed_from};

use crate::fault::{Fault, FaultKind};
use crate::lines_reader::LinesReader;
use crate::name::{Name, is_called, name_of};
use crate::open_part::OpenPart;
use crate::parted::PartedFile;
use crate::path::Path;
use crate::tzid::Tzids;
use ics_text::{Content, Lines, content};
use std::alloc::{AllocError, Global};
use std::marker::Model;

/// The round behind some lines.
#[derive(Drop)]
pub struct PartsRound {
    pub path: Path,
    /// The event or the time zone that is open, and the reader of its lines.
    pub part: Option<OpenPart>,
    pub reader: LinesReader,
    pub tzids: Tzids,
    /// The last line is a UID of an event.
    pub is_behind_uid: bool,
    /// One of the lines is of no event and no time zone.
    pub has_outside: bool,
    pub parted: PartedFile,
}

impl Model for PartsRound {
    ghost use Rattle.std.specs.Prelude.{option_map};
    ghost use Rattle.ics_components.specs.Inner.PartsPass.{RoundSeen};

    ghost Value = { RoundSeen };

    ghost view = { λ a. record {
      path = a.path;
      part = option_map (λ notes. record { notes = notes; read = a.reader }) a.part;
      is_behind_uid = a.is_behind_uid;
      has_outside = a.has_outside;
      parted = a.parted;
    } };
}

/// Whether a file may still have parts behind a line.
pub type HasParts = bool;

/// A line of a UID of that text.
fn uid_line(alloc: Global, text: &[u8]) -> Result<Vec<u8>, AllocError>
    ensures { IfOk result (λ line. line.items ≡ codes "UID:" ++ as_text text.now) }
{
    let mut line = Vec::with_capacity(alloc, text.len().saturating_add(4))?;
    line.extend_from_slice(b"UID:")?;
    let mut rest = text;
    while let [byte, behind @ ..] = rest {
        if *byte == b'\\' {
            line.push(b'\\')?;
        }
        line.push(*byte)?;
        rest = behind;
    }
    Ok(line)
}

/// The parts of a line of a UID.
fn uid_parts<'a>(line: &'a [u8]) -> Option<Content<'a>>
    requires { IsUidLine line.now }
    ensures { result ≡ Some (record { name = codes "UID"; params = []; value = drop 4 line.now }) }
{
    match content(line) {
        Ok(uid) => Some(uid),
        Err(_) => None,
    }
}

impl PartsRound {
    /// The round before the first line.
    pub fn new(alloc: Global) -> PartsRound
        ensures { result ≡ round_begun }
    {
        PartsRound {
            path: Path::new(alloc),
            part: None,
            reader: LinesReader::new(alloc),
            tzids: Tzids::new(alloc),
            is_behind_uid: false,
            has_outside: false,
            parted: PartedFile::new(alloc),
        }
    }

    /// Opens the event or the time zone that begins on a line, if one does and none is open.
    #[tactic(auto, unfolding(crate::specs::PlacedLines::name_on))]
    fn begin(
        &mut self,
        alloc: Global,
        number: u64,
        name: Name,
        content: &Content<'_>,
    ) -> Result<(), AllocError>
        requires { name ≡ named content.now }
        ensures { IfOk result (λ _. self.new
            ≡ record self.old { part = option_or self.old.part (part_begun (here number (Some content.now) self.old.path)) }) }
    {
        if self.part.is_some() || !matches!(name, Name::Begin) {
            return Ok(());
        }
        let in_calendar = self.path.is_in_calendar();
        let is_event = (in_calendar || self.path.is_empty())
            && is_called(content.value(), b"VEVENT");
        if is_event || in_calendar && is_called(content.value(), b"VTIMEZONE") {
            self.reader.restart(alloc, &self.path, is_event)?;
            let calendar = self.path.innermost();
            self.part = Some(OpenPart::new(alloc, number, calendar, is_event));
        }
        Ok(())
    }

    /// Keeps the event or the time zone that has ended.
    fn close(&mut self, alloc: Global) -> Result<(), AllocError>
        ensures { IfOk result (λ _. self.new ≡ closed_by self.old.part self.old) }
    {
        let Some(part) = self.part.take() else {
            return Ok(());
        };
        let read = self.reader.take(alloc);
        if part.is_event {
            self.parted.events.push(part.closed(read))?;
        } else {
            self.parted.zones.push(part.closed(read))?;
        }
        Ok(())
    }

    /// Adds a fault of a line that is none of an event or of a time zone.
    fn outside_fault(&mut self, line: u64, kind: FaultKind)
        ensures { self.new ≡ record self.old {
          parted = record self.old.parted {
            outside = option_or self.old.parted.outside (Some (record { line = line; kind = kind }));
          };
        } }
    {
        if self.parted.outside.is_none() {
            self.parted.outside = Some(Fault { line, kind });
        }
    }

    /// Takes a line that is none of an event or of a time zone.
    #[tactic(auto, unfolding(crate::specs::PlacedLines::name_on))]
    pub fn outside(
        &mut self,
        number: u64,
        name: Name,
        content: &Content<'_>,
    ) -> Result<(), AllocError>
        requires { name ≡ named content.now }
        ensures { IfOk result (λ _. self.new
            ≡ record self.old {
              has_outside = true;
              parted = and_outside (here number (Some content.now) self.old.path) self.old.parted;
            }) }
    {
        self.has_outside = true;
        if self.path.is_empty() {
            if !matches!(name, Name::Begin) || !is_called(content.value(), b"VCALENDAR") {
                self.outside_fault(number, FaultKind::NotCalendar);
            }
        } else if self.path.is_in_calendar()
            && matches!(name, Name::Version)
            && content.value() == b"1.0".as_slice()
        {
            let kind = FaultKind::OldVersion;
            let fault = Fault { line: number, kind };
            self.parted.calendars.push((self.path.innermost(), fault))?;
            self.outside_fault(number, kind);
        }
        Ok(())
    }

    /// Takes a line for the event or the time zone that is open, or for none.
    #[tactic(auto, unfolding(crate::specs::PlacedLines::name_on))]
    fn keep(
        &mut self,
        alloc: Global,
        number: u64,
        name: Name,
        content: &Content<'_>,
    ) -> Result<(), AllocError>
        requires { name ≡ named content.now }
        ensures { IfOk result (λ _. self.new ≡ by_part self.old.part (here number (Some content.now) self.old.path) self.old) }
    {
        let Some(part) = &mut self.part else {
            return self.outside(number, name, content);
        };
        let directly = self.path.innermost() == part.begun;
        if directly {
            part.note(alloc, &mut self.tzids, name, content)?;
        }
        self.reader.read(alloc, number, name, content)?;
        if directly && matches!(name, Name::End) {
            return self.close(alloc);
        }
        Ok(())
    }

    /// Goes behind a content line.
    pub fn pass(
        &mut self,
        alloc: Global,
        number: u64,
        name: Name,
        content: &Content<'_>,
    ) -> Result<(), AllocError>
        requires { name ≡ named content.now }
        ensures { IfOk result (λ _. self.new ≡ record self.old {
          path = path_behind (here number (Some content.now) self.old.path);
          is_behind_uid = is_uid (here number (Some content.now) self.old.path);
        }) }
    {
        self.is_behind_uid = self.path.is_uid(name, content);
        self.path.pass(alloc, number, name, content)
    }

    /// Takes a content line.
    #[tactic(auto, using(crate::proofs::Rounds::content_goes_on))]
    fn take(
        &mut self,
        alloc: Global,
        number: u64,
        name: Name,
        content: &Content<'_>,
    ) -> Result<HasParts, AllocError>
        requires { name ≡ named content.now }
        ensures { IfOk result (λ has. Steps has (here number (Some content.now) self.old.path) self.old self.new) }
    {
        if !self.path.nests(name, content) {
            return Ok(false);
        }
        self.begin(alloc, number, name, content)?;
        self.keep(alloc, number, name, content)?;
        self.pass(alloc, number, name, content)?;
        Ok(true)
    }

    /// Takes a line that is no content line.
    #[tactic(auto, unfolding(crate::specs::PlacedLines::name_on))]
    pub fn take_bad(&mut self, number: u64) -> HasParts
        ensures { Steps result (here number None self.old.path) self.old self.new }
    {
        if self.is_behind_uid {
            return false;
        }
        match &mut self.part {
            Some(part) => {
                if self.path.innermost() == part.begun {
                    part.is_doubtful = true;
                }
                self.reader.read_bad(number);
            }
            None => {
                self.has_outside = true;
                self.outside_fault(number, FaultKind::BadLine);
            }
        }
        true
    }

    /// Takes the line of the UID that is made for an event that ends on the line with that number.
    fn take_made(&mut self, alloc: Global, file: &str, number: u64) -> Result<HasParts, AllocError>
        ensures { IfOk result (λ has. Steps has (uid_line file.now (here number None self.old.path)) self.old self.new) }
    {
        // with room for all of it: a text that grows by itself is moved several times
        let mut text = String::with_capacity(alloc, file.len().saturating_add(27))?;
        write!(text, "{file}: line {number}")?;
        let line = uid_line(alloc, text.as_bytes())?;
        match uid_parts(&line) {
            Some(uid) => {
                let name = name_of(uid.name());
                self.take(alloc, number, name, &uid)
            }
            None => Ok(false),
        }
    }

    /// Takes a content line as it stands.
    #[tactic(auto, using(crate::proofs::Rounds::as_is_result))]
    fn take_as_is(
        &mut self,
        alloc: Global,
        number: u64,
        content: &Content<'_>,
    ) -> Result<HasParts, AllocError>
        ensures { IfOk result (λ has. GoesOver has None (here number (Some content.now) self.old.path) self.old self.new) }
    {
        let name = name_of(content.name());
        self.take(alloc, number, name, content)
    }

    /// Takes a content line, or what stands in its place where each event gets a UID of that name.
    #[tactic(auto, using(crate::proofs::Rounds::steps_dropped, crate::proofs::Rounds::plain_result, crate::proofs::Rounds::made_none))]
    fn take_for(
        &mut self,
        alloc: Global,
        file: &str,
        number: u64,
        content: &Content<'_>,
    ) -> Result<HasParts, AllocError>
        ensures { IfOk result (λ has. GoesOver has (Some file.now) (here number (Some content.now) self.old.path) self.old self.new) }
    {
        let name = name_of(content.name());
        if self.path.is_event_uid(name, content) {
            return Ok(true);
        }
        if !self.path.ends_event(name, content) {
            return self.take(alloc, number, name, content);
        }
        if !self.take_made(alloc, file, number)? {
            return Ok(false);
        }
        self.take(alloc, number, name, content)
    }

    /// Takes a line, or what stands in its place where each event gets a UID of that name.
    fn line(
        &mut self,
        alloc: Global,
        file: Option<&str>,
        number: u64,
        line: &[u8],
    ) -> Result<HasParts, AllocError>
        ensures { IfOk result (λ has. GoesOver has (option_copied file.entry) (here number (content_of line.now) self.old.path) self.old self.new) }
    {
        let Ok(content) = content(line) else {
            return Ok(self.take_bad(number));
        };
        match file {
            Some(file) => self.take_for(alloc, file, number, &content),
            None => self.take_as_is(alloc, number, &content),
        }
    }

    /// Ends the lines. A file of events alone is no calendar without them.
    fn end(&mut self)
        ensures { self.new ≡ record self.old { parted = ended self.old.has_outside self.old.parted } }
    {
        if !self.has_outside && self.parted.zones.is_empty() {
            let kind = FaultKind::NotCalendar;
            self.parted.outside = Some(Fault { line: 1, kind });
        }
    }

    /// Takes the lines. The answer is false where the file has no parts.
    pub fn lines(
        &mut self,
        alloc: Global,
        file: Option<&str>,
        mut lines: Lines<'_>,
    ) -> Result<HasParts, AllocError>
        ensures { IfOk result (λ has. Ends has self.new.parted
            (round_over self.old (lines_with (option_copied file.entry) (placed_from self.old.path lines.entry)))) }
    {
        'lines: while let Some(line) = lines.next(alloc)? {
            let number = line.number();
            let has_parts = self.line(alloc, file, number, line.bytes());
            drop(line);
            if !has_parts? {
                return Ok(false);
            }
        }
        self.end();
        Ok(self.path.is_empty())
    }
}

/// What is gathered of the lines of a file, if it has parts.
fn parts_over(
    alloc: Global,
    file: Option<&str>,
    lines: Lines<'_>,
) -> Result<Option<PartedFile>, AllocError>
    ensures { IfOk result (λ parted. parted ≡ round_over round_begun (lines_with (option_copied file.entry) (placed_from [] lines.entry))) }
{
    let mut round = PartsRound::new(alloc);
    let has_parts = round.lines(alloc, file, lines)?;
    let PartsRound { parted, .. } = round;
    if !has_parts {
        drop(parted);
        return Ok(None);
    }
    Ok(Some(parted))
}

/// What is gathered, if it is certain whose each event is, or each gets a UID.
pub fn if_sure(file: Option<&str>, parted: PartedFile) -> Option<PartedFile>
    ensures { result ≡ if_sure (option_copied file.entry) parted }
{
    if file.is_some() || parted.is_certain() {
        return Some(parted);
    }
    drop(parted);
    None
}

/// What is gathered of the lines of a file, if it has parts and it is certain whose each event is, or each gets a UID.
fn sure_parts(
    alloc: Global,
    file: Option<&str>,
    lines: Lines<'_>,
) -> Result<Option<PartedFile>, AllocError>
    ensures { IfOk result (λ parted. parted
        ≡ option_and_then (if_sure (option_copied file.entry)) (round_over round_begun (lines_with (option_copied file.entry) (placed_from [] lines.entry)))) }
{
    match parts_over(alloc, file, lines)? {
        Some(parted) => Ok(if_sure(file, parted)),
        None => Ok(None),
    }
}

/// What is gathered of a file of at most 16,777,216 bytes event by event and time zone by time zone, if it has parts. `file`
/// gives each event the UID `FILE: line N`, where N is the number of its END line, in the place of those that it has.
#[inline(never)]
#[tactic(auto, using(crate::proofs::Placing::parted_whole))]
pub fn parse_parts(
    alloc: Global,
    bytes: &[u8],
    file: Option<&str>,
) -> Result<Option<PartedFile>, AllocError>
    ensures parted { IfOk result (λ parted. parted ≡ parted_of (option_copied file.entry) bytes.now) }
    ensures sound { IfOk result (λ parted. IfSome parted IsSoundParted) }
{
    let Ok(lines) = Lines::new(bytes) else {
        return Ok(None);
    };
    sure_parts(alloc, file, lines)
}
