//! Whether it is plain that a file has parts and that none of its events has a UID. Such a file is read once, with made UIDs.
ghost use Rattle.std.specs.Prelude.{◌≡◌, List, [], IfOk, None, Some, true};
ghost use Rattle.ics_text.specs.ContentLines.{content_of};
ghost use Rattle.ics_text.specs.ReadLines.{TakesRead};
ghost use Rattle.ics_text.specs.Unfolded.{Line};
ghost use Rattle.ics_components.specs.Inner.BareLines.{GoesBare, StepsBare, bare_over, is_bare, leaves_doubt};
ghost use Rattle.ics_components.specs.Known.{is_known};
ghost use Rattle.ics_components.specs.Inner.PartsPass.{here};
ghost use Rattle.ics_components.specs.Parted.{LacksUids};
ghost use Rattle.ics_components.specs.PlacedLines.{named, placed_from};

use crate::known::Sought;
use crate::name::{Name, name_of};
use crate::path::Path;
use ics_text::{Content, Lines, ReadLine, content};
use std::alloc::{AllocError, Global};

/// The search behind some lines.
#[derive(Drop)]
struct UidSearch {
    path: Path,
}

/// Whether a content line is a UID in an event, or may stand for one.
#[tactic(auto, unfolding(crate::specs::PlacedLines::name_on))]
fn leaves_doubt(name: Name, content: &Content<'_>) -> bool
    requires { name ≡ named content.now }
    ensures { result ≡ leaves_doubt (here 0 (Some content.now) []) }
{
    match name {
        Name::RecurrenceId => true,
        Name::Uid => !content.value().is_empty(),
        _ => false,
    }
}

impl UidSearch {
    /// Whether a content line is bare.
    fn is_bare(&self, name: Name, content: &Content<'_>) -> bool
        requires { name ≡ named content.now }
        ensures { result ≡ is_bare (here 0 (Some content.now) self.now.path) }
    {
        if !self.path.nests(name, content) {
            return false;
        }
        if !leaves_doubt(name, content) {
            return true;
        }
        !self.path.is_in_any_event()
    }

    /// Goes behind a content line that is bare.
    fn take(
        &mut self,
        alloc: Global,
        number: u64,
        content: &Content<'_>,
    ) -> Result<bool, AllocError>
        ensures { IfOk result (λ bare. StepsBare bare (here number (Some content.now) self.old.path) self.old.path self.new.path) }
    {
        let name = name_of(content.name());
        if !self.is_bare(name, content) {
            return Ok(false);
        }
        self.path.pass(alloc, number, name, content)?;
        Ok(true)
    }

    /// Goes behind a line that is no content line, but bare.
    fn take_bad(&self, number: u64) -> bool
        ensures { StepsBare result (here number None self.now.path) self.now.path self.now.path }
    {
        if self.path.is_in_any_event() {
            return false;
        }
        true
    }

    /// Goes behind a line that is bare.
    fn take_line(&mut self, alloc: Global, number: u64, line: &[u8]) -> Result<bool, AllocError>
        ensures { IfOk result (λ bare. StepsBare bare (here number (content_of line.now) self.old.path) self.old.path self.new.path) }
    {
        let Ok(content) = content(line) else {
            return Ok(self.take_bad(number));
        };
        self.take(alloc, number, &content)
    }

    /// Goes behind the next line, if it is bare. One whose property is not read is.
    fn take_next(&mut self, alloc: Global, line: ReadLine<'_>) -> Result<bool, AllocError>
        ensures { IfOk result (λ bare. (lines rest : List Line) → TakesRead is_known lines (Some line.entry) rest
            → GoesBare bare lines rest self.old.path self.new.path) }
    {
        match line {
            ReadLine::PassedOver(_) => Ok(true),
            ReadLine::Whole(line) => {
                let bare = self.take_line(alloc, line.number(), line.bytes());
                drop(line);
                bare
            }
        }
    }

    /// Goes behind the lines, up to the first that is not bare.
    fn over_all(&mut self, alloc: Global, mut lines: Lines<'_>) -> Result<bool, AllocError>
        ensures { IfOk result (λ bare. bare ≡ bare_over self.old.path (placed_from self.old.path lines.entry)) }
    {
        'lines: while let Some(line) = lines.next_read(alloc, &Sought)? {
            let bare = self.take_next(alloc, line)?;
            if !bare {
                return Ok(false);
            }
        }
        Ok(self.path.is_empty())
    }
}

/// Whether all lines are bare, and none of them leaves a component open.
fn are_bare(alloc: Global, lines: Lines<'_>) -> Result<bool, AllocError>
    ensures { IfOk result (λ bare. bare ≡ bare_over [] (placed_from [] lines.entry)) }
{
    let mut search = UidSearch {
        path: Path::new(alloc),
    };
    search.over_all(alloc, lines)
}

/// Whether it is plain that a file has parts and that none of its events has a UID. One line that says otherwise ends the search.
#[inline(never)]
pub fn lacks_uids(alloc: Global, bytes: &[u8]) -> Result<bool, AllocError>
    ensures { IfOk result (λ lacks. lacks ≡ true → LacksUids bytes.now) }
{
    let Ok(lines) = Lines::new(bytes) else {
        return Ok(false);
    };
    are_bare(alloc, lines)
}
