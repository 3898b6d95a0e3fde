//! The offset of a clock at each second of some days.
ghost use Rattle.std.specs.Prelude.{◌≡◌, ◌≢◌, ◌≤◌, ℤ, pos, neg_ℤ, true, false, ◌+ℤ◌, ◌-ℤ◌, ◌<ℤ◌, ◌≤ℤ◌, IfSome, MatchBool};
ghost use Rattle.std.specs.List.{Contains};
ghost use Rattle.ics_zone.specs.Moments.{moment_by};
ghost use Rattle.ics_zone.specs.Seconds.{IsMoment};
ghost use Rattle.ics_zone.specs.Stretches.{IsStretch};
ghost use Rattle.ics_zone.specs.Inner.EachSecond.{TellsOffsets};
ghost use Rattle.ics_zone.specs.Inner.GapStretches.{AreUnshown, IsJumpRead};
ghost use Rattle.ics_zone.specs.Inner.Narrowed.{IsNarrowed};
ghost use Rattle.ics_zone.specs.Inner.OnsetSets.{IsSearched};
ghost use Rattle.ics_zone.specs.Inner.Walks.{IsShort};
ghost use Rattle.ics_zone.specs.Inner.ZoneOnsets.{IsSteady};

use crate::Stretch;
use crate::gap_stretch::{Jump, greatest, skipped};
use crate::latest::Steady;
use crate::stretches::NO_OFFSET;
use ics_fields::Moment;
use std::alloc::{AllocError, Global};

/// How many seconds are looked at for a stretch, of all offsets together.
const LOOKED_AT: usize = 3_600;

/// A stretch of fewer seconds is short.
const FEW: i64 = 3;

/// How many seconds are looked at for the first that shows a later local.
const WALKED: usize = 1_024;

/// The offset of a clock at each second from an instant on.
#[derive(Drop)]
pub(crate) struct OffsetEachSecond {
    pub from: Moment,
    pub offsets: Vec<i32>,
    /// Whether the clock turns so often that most stretches are short.
    pub is_often: bool,
}

/// How many seconds an instant is after another, or zero if it is before it.
fn seconds_after(from: Moment, moment: Moment) -> usize
    ensures after { from ≤ℤ moment → moment ≡ from +ℤ pos result }
    ensures before { moment <ℤ from → result ≡ 0 }
{
    if moment < from {
        return 0;
    }
    moment.abs_diff(from) as usize
}

/// The instant at which a clock with an offset shows a local, given by its seconds.
fn instant_at(local: i64, offset: i32) -> Moment
    requires { IsSearched local }
    ensures { result ≡ local -ℤ offset }
{
    local - i64::from(offset)
}

/// The local, by its seconds, that a clock with an offset shows at an instant.
fn local_at(moment: Moment, offset: i32) -> i64
    requires { IsSearched moment }
    ensures { result ≡ moment +ℤ offset }
{
    moment + i64::from(offset)
}

/// The instant that is some seconds after another.
fn later_by(at: Moment, seconds: usize) -> Moment
    requires at { IsSearched at }
    requires few { seconds ≤ 1_024 }
    ensures { result ≡ at +ℤ pos seconds }
{
    at + seconds as i64
}

/// Whether a clock shows, at an instant, a later local than one, given by its seconds.
fn shows_later(turn: Jump, seconds: i64) -> bool
    requires { IsSearched turn.at }
    ensures { MatchBool result (seconds <ℤ (turn.at +ℤ turn.offset)) ((turn.at +ℤ turn.offset) ≤ℤ seconds) }
{
    local_at(turn.at, turn.offset) > seconds
}

/// The locals from one on, given by its seconds, that are looked at for a stretch in a zone of so many offsets, before it is known which shows them.
fn looked_at(seconds: i64, offsets: usize) -> Stretch
    requires { IsMoment seconds }
    ensures from { result.from ≡ seconds }
    ensures order { result.from ≤ℤ result.to }
    ensures to { result.to ≤ℤ (seconds +ℤ pos 3_600) }
    ensures offset { result.offset ≡ neg_ℤ (pos 86_400) }
{
    let ahead = LOOKED_AT / offsets.max(1);
    Stretch {
        from: seconds,
        to: seconds + ahead as i64,
        offset: NO_OFFSET,
        shown: NO_OFFSET,
    }
}

impl OffsetEachSecond {
    /// None yet, with room for those up to another instant, if no allocation fails.
    pub fn with_room(
        alloc: Global,
        from: Moment,
        to: Moment,
        is_often: bool,
    ) -> Option<OffsetEachSecond>
        ensures { (offset : ℤ → ℤ) → IfSome result (TellsOffsets offset) }
    {
        let Ok(offsets) = Vec::with_capacity(alloc, seconds_after(from, to)) else {
            return None;
        };
        Some(OffsetEachSecond {
            from,
            offsets,
            is_often,
        })
    }

    /// Adds the offset of a span at each second up to its end, if the seconds before it are told.
    pub fn add(&mut self, span: Steady) -> Result<(), AllocError>
        ensures { (offset : ℤ → ℤ) → TellsOffsets offset self.old → IsSteady offset span.from span.next span.offset → TellsOffsets offset self.new }
    {
        let first = seconds_after(self.from, span.from);
        let count = seconds_after(self.from, span.next);
        if self.offsets.len() < first {
            return Ok(());
        }
        while self.offsets.len() < count {
            self.offsets.push(span.offset)?;
        }
        Ok(())
    }

    /// The offset at an instant. None if it is not told.
    pub fn offset_at(&self, moment: Moment) -> Option<i32>
        ensures { (offset : ℤ → ℤ) → TellsOffsets offset self.now → IfSome result (λ told. told ≡ offset moment) }
    {
        if moment < self.from {
            return None;
        }
        let k = seconds_after(self.from, moment);
        if k >= self.offsets.len() {
            return None;
        }
        Some(self.offsets[k])
    }

    /// Whether it tells the offsets from an instant to another.
    pub fn reaches(&self, from: Moment, to: Moment) -> bool {
        self.offset_at(from).is_some() && self.offset_at(to).is_some()
    }

    /// Whether the offset at an instant is told to be one or, if it is to have another, to be another.
    fn is_told(&self, at: Moment, offset: i32, has: bool) -> bool
        ensures { result ≡ true → (clock : ℤ → ℤ) → TellsOffsets clock self.now → MatchBool has (clock at ≡ offset) (clock at ≢ offset) }
    {
        match self.offset_at(at) {
            None => false,
            Some(told) => { if has { told == offset } else { told != offset } }
        }
    }

    /// The end of the instants from one on, and before another, at which the offset is told to be one, or to be another than that.
    fn same_to(&self, at: Moment, end: Moment, offset: i32, has: bool) -> Moment
        requires at { IsSearched at }
        requires end { IsSearched end }
        requires order { at ≤ℤ end }
        ensures from { at ≤ℤ result }
        ensures end { result ≤ℤ end }
        ensures same { (clock : ℤ → ℤ) → TellsOffsets clock self.now → (t : ℤ) → at ≤ℤ t → t <ℤ result
            → MatchBool has (clock t ≡ offset) (clock t ≢ offset) }
    {
        let mut next = at;
        while next < end {
            if !self.is_told(next, offset, has) {
                return next;
            }
            next += 1;
        }
        next
    }

    /// The end of the locals from one on, and before another, that an offset shows, or that it does not.
    fn shown_to(&self, from: i64, to: i64, offset: i32, has: bool) -> i64
        requires from { IsMoment from }
        requires order { from ≤ℤ to }
        requires to { to ≤ℤ (from +ℤ pos 3_600) }
        ensures from { from ≤ℤ result }
        ensures to { result ≤ℤ to }
        ensures same { (clock : ℤ → ℤ) → TellsOffsets clock self.now → (local : ℤ) → from ≤ℤ local → local <ℤ result
            → MatchBool has (clock (local -ℤ offset) ≡ offset) (clock (local -ℤ offset) ≢ offset) }
    {
        let begin = instant_at(from, offset);
        let end = instant_at(to, offset);
        let last = self.same_to(begin, end, offset, has);
        local_at(last, offset)
    }

    /// A stretch cut to those of its locals that an offset shows, or to those that it does not. None if that is not told of its first local.
    fn narrowed(&self, stretch: Stretch, offset: i32) -> Option<Stretch>
        requires from { IsMoment stretch.from }
        requires order { stretch.from ≤ℤ stretch.to }
        requires to { stretch.to ≤ℤ (stretch.from +ℤ pos 3_600) }
        ensures from { IfSome result (λ now. now.from ≡ stretch.from) }
        ensures order { IfSome result (λ now. now.from ≤ℤ now.to) }
        ensures to { IfSome result (λ now. now.to ≤ℤ stretch.to) }
        ensures shown { (clock : ℤ → ℤ) → TellsOffsets clock self.now → IfSome result (IsNarrowed clock offset stretch) }
    {
        let seconds = i64::from(offset);
        if self.offset_at(instant_at(stretch.from, offset))? == offset {
            let shown = self.shown_to(stretch.from, stretch.to, offset, true);
            Some(Stretch {
                from: stretch.from,
                to: shown,
                offset: seconds,
                shown: seconds,
            })
        } else {
            let unshown = self.shown_to(stretch.from, stretch.to, offset, false);
            Some(Stretch {
                from: stretch.from,
                to: unshown,
                offset: stretch.offset,
                shown: stretch.offset,
            })
        }
    }

    /// Whether a stretch is of so few seconds that a look at each local is sooner done.
    fn is_short(&self, stretch: Stretch) -> bool
        requires { IsMoment stretch.from }
        ensures { result ≡ false → stretch.from <ℤ stretch.to }
    {
        if stretch.to <= stretch.from {
            return true;
        }
        self.is_often && stretch.to < stretch.from + FEW
    }

    /// A stretch of locals from one on, given by its seconds, that the clock shows, or skips, by one offset, if it has no offset but these. It is empty
    /// where it would be short: to ask for each local is sooner done then. None if it is not told.
    pub fn stretch(&self, offsets: &[i32], seconds: i64) -> Option<Stretch>
        requires { IsMoment seconds }
        ensures { (offset : ℤ → ℤ) → IsShort offset → TellsOffsets offset self.now → ((t : ℤ) → Contains offsets.now (offset t))
            → IfSome result (IsStretch offset (moment_by offset)) }
    {
        let mut stretch = looked_at(seconds, offsets.len());
        for offset in offsets {
            if i64::from(*offset) <= stretch.offset {
                continue;
            }
            stretch = self.narrowed(stretch, *offset)?;
        }
        if self.is_short(stretch) {
            return Some(Stretch::none());
        }
        if stretch.offset <= NO_OFFSET {
            return self.gap(offsets, stretch);
        }
        Some(stretch.as_shown())
    }

    /// A stretch of locals that the clock skips, of those that it does not show. None if it is not told.
    fn gap(&self, offsets: &[i32], unshown: Stretch) -> Option<Stretch>
        requires { IsMoment unshown.from }
        ensures { (offset : ℤ → ℤ) → IsShort offset → TellsOffsets offset self.now → ((t : ℤ) → Contains offsets.now (offset t)) → AreUnshown offset unshown
            → IfSome result (IsStretch offset (moment_by offset)) }
    {
        let seconds = unshown.from;
        let jump = self.jump(seconds, greatest(offsets))?;
        let at = seconds - i64::from(jump.before);
        let offset = self.offset_at(at)?;
        let next = self.same_to(at, at + LOOKED_AT as i64, offset, true);
        let span = Steady {
            from: at,
            next,
            offset,
        };
        if at < next {
            Some(skipped(unshown, &jump, &span))
        } else {
            None
        }
    }

    /// An instant with the offsets just before it and at it, if they are told.
    fn turn_at(&self, at: Moment) -> Option<Jump>
        requires { IsSearched at }
        ensures at { IfSome result (λ turn. turn.at ≡ at) }
        ensures before { (offset : ℤ → ℤ) → TellsOffsets offset self.now → IfSome result (λ turn. turn.before ≡ offset (at -ℤ pos 1)) }
        ensures after { (offset : ℤ → ℤ) → TellsOffsets offset self.now → IfSome result (λ turn. turn.offset ≡ offset at) }
    {
        let before = self.offset_at(at - 1)?;
        let offset = self.offset_at(at)?;
        Some(Jump { at, before, offset })
    }

    /// The first instant at which the clock shows a later local than one, given by its seconds, if its greatest offset is not greater than this one. None
    /// if it is not told soon after the local less that.
    pub fn jump(&self, seconds: i64, most: i32) -> Option<Jump>
        requires { IsMoment seconds }
        ensures later { IfSome result (λ jump. seconds <ℤ (jump.at +ℤ jump.offset)) }
        ensures jump { (offset : ℤ → ℤ) → TellsOffsets offset self.now → ((t : ℤ) → offset t ≤ℤ most) → IfSome result (IsJumpRead offset seconds) }
    {
        let begun = instant_at(seconds, most);
        for k in 0..WALKED {
            let at = later_by(begun, k);
            let turn = self.turn_at(at)?;
            if shows_later(turn, seconds) {
                return Some(turn);
            }
        }
        None
    }
}
