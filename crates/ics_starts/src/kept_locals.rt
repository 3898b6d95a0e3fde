//! A rule with the locals that searches of it have found, so that a later search need not make it, nor look for them, again.
ghost use Rattle.std.specs.Prelude.{◌≡◌, ◌<◌, ◌≤◌, ℕ, Some, MatchOption, IfOk, IfSome, slice_get};
ghost use Rattle.std.specs.Int.{int_min};
ghost use Rattle.std.specs.Option.{option_map};
ghost use Rattle.ics_fields.specs.Days.{IsDayNumber};
ghost use Rattle.ics_fields.specs.Locals.{number};
ghost use Rattle.ics_period.specs.PeriodNumbers.{rules_end};
ghost use Rattle.ics_period.specs.Recurrence.{Recurrence};
ghost use Rattle.ics_rule.specs.Calls.{IsAnswer};
ghost use Rattle.ics_rule.specs.Cursors.{known_to, place_of, HasLooked, IsCursorOf};
ghost use Rattle.ics_rule.specs.Next.{NoneKept};
ghost use Rattle.ics_starts.specs.Inner.Finds.{IsCounting, IsFound, IsNextLocal, IsStep, LooksOn};
ghost use Rattle.ics_starts.specs.Inner.KeptFinds.{counting-prop, finds-prop, AreFinds, HasCounting, IsFind};
ghost use Rattle.ics_starts.specs.RuleMarks.{IsBegun, IsCountMark};
ghost use Rattle.ics_starts.specs.RuleStartLaws.{cursor-prop, rule-prop};
ghost use Rattle.ics_starts.specs.RuleStarts.{midnight_number, HasLookedTo};
ghost use Rattle.ics_starts.specs.Starts.{recurrence_of};

use crate::kind::kind_of;
use crate::lasting::day_of;
use crate::mark::{Mark, begin, is_counted};
use crate::placed_cursor::PlacedCursor;
use crate::shared_rule::SharedRule;
use ics_event::{Event, Length, Rdate, Time};
use ics_fields::{Frequency, Parts, civil};
use ics_listing::local_of;
use ics_period::members_below;
use ics_rule::{Cursor, Rule};
use ics_values::Local;
use std::alloc::{AllocError, Global};
use std::mem;

/// 9801-01-01T00:00:00, the end of the rules.
const RULES_END: u64 = 309_289_708_800;

/// A look at a year is dear beside so few times of a day.
const FEW: u64 = 24;

/// After each so many seconds in vain, a rule is asked how long it keeps no local: 32 days.
const IN_VAIN: u64 = 2_764_800;

/// At most so many finds are kept.
const MOST: usize = 1_024;

/// The finds of an event or a PERIOD that lasts so many days or longer are worth their place.
const LONG: u64 = 4;

/// What is known of the locals from one on and before another, given by their numbers: the rule keeps the last of them and
/// no other, if that is given, and else none.
#[derive(Clone, Copy)]
struct Find {
    from: u64,
    to: u64,
    local: Option<Local>,
}

/// The rule of an event and, if the event lasts long or a period of the rule is dear to look at, the locals that searches of it have found. A search
/// follows what the one before it has found, and finds the rest.
#[derive(Drop)]
pub struct KeptLocals<'a> {
    event: &'a Event,
    rule: SharedRule,
    /// Whether the event lasts so long, or a period of the rule is so dear, that finds are worth their place.
    keeps: bool,
    /// What the searches before have found, in the order of the locals.
    known: Vec<Find>,
    /// The first of these that this search has not passed.
    at: usize,
    /// What this search has passed and found.
    found: Vec<Find>,
    /// Under COUNT, the cursor that went furthest or, if finds are not kept, one from which a later search goes on.
    counting: Option<PlacedCursor>,
    /// Whether more is found at once than is searched for, since a period of the rule is dear to look at. Under COUNT it is not.
    learns: bool,
    /// The cursor that went furthest so.
    last: Cursor,
    /// From where on the searches up to the next have found nothing, or since the rule was asked how long it keeps no local.
    vain_from: u64,
    /// The end of the last search that has found nothing.
    vain_to: u64,
    ghost of: { recurrence_of event.now ≡ Some rule } by { rule-prop (recurrence_of event.now) (Some rule) },
    ghost known_are: { AreFinds rule known.items } by { finds-prop rule known.items },
    ghost found_are: { AreFinds rule found.items } by { finds-prop rule found.items },
    ghost counts: { HasCounting rule counting } by { counting-prop rule counting },
    ghost own: { IsCursorOf rule last } by { cursor-prop rule last },
}

/// Whether an event or one of its PERIODs lasts so long that many days are searched for its starts again.
fn is_long(event: &Event) -> bool {
    is_long_from(event.start, event.length)
        || event.rdates().iter().any(|rdate| is_long_span(*rdate))
}

/// Whether a value of an RDATE is a PERIOD that lasts so long.
fn is_long_span(rdate: Rdate) -> bool {
    match rdate {
        Rdate::At(_) => false,
        Rdate::Span(start, length) => is_long_from(start, length),
    }
}

/// Whether what begins at a time and has this length lasts so long: by its days or its seconds, or from the day of its start to that of its end.
fn is_long_from(start: Time, length: Length) -> bool {
    match length {
        Length::Open => false,
        Length::Until(end) => {
            let first = i64::from(day_of(start.stamp));
            i64::from(day_of(end.stamp)) - first >= LONG as i64
        }
        Length::Lasting(duration) => duration.days >= LONG || duration.seconds >= LONG * 86_400,
    }
}

/// How many times of a day a rule names, and one for each part that it does not name.
pub(crate) fn times_of_day(parts: &Parts) -> u64 {
    let hours = members_below(&parts.hours, 24).max(1);
    let minutes = members_below(&parts.minutes, 60).max(1);
    let seconds = members_below(&parts.seconds, 60).max(1);
    hours.saturating_mul(minutes).saturating_mul(seconds)
}

/// Whether single days of a year are tested under a rule, or many can be allowed.
fn names_days(parts: &Parts) -> bool {
    let no_dates = parts.month_days.is_empty();
    let no_weekdays = parts.weekdays.is_empty();
    let counts = !parts.weeks.is_empty() || !parts.year_days.is_empty();
    if parts.months.is_empty() {
        counts || !no_dates || !no_weekdays
    } else {
        counts || !(no_dates || no_weekdays)
    }
}

/// Whether a period of a rule is dear to look at for what is kept of it.
fn is_dear(parts: &Parts) -> bool {
    if !matches!(parts.frequency, Frequency::Yearly) {
        return false;
    }
    !parts.positions.is_empty() || (names_days(parts) && times_of_day(parts) <= FEW)
}

/// The end of the year of a local or, in a leap year, of its last day but one, if that is later than the local. The end of the rules if that is earlier.
fn year_after(local: u64) -> u64
    requires { local < rules_end }
    ensures later { local < result }
    ensures early { result ≤ rules_end }
{
    let date = civil(Local::numbered(local).day);
    let rest = 365_u64.saturating_sub(u64::from(date.year_day));
    ((local / 86_400 + rest + 1) * 86_400).min(RULES_END)
}

/// The find at a place of a list.
fn find_at(finds: &[Find], at: usize) -> Option<Find>
    ensures { MatchOption result (Unit {0}) (λ find. slice_get finds.now at ≡ Some find) }
{
    Some(*finds.get(at)?)
}

/// The first place of a list, from one on, at which a find reaches past a local.
fn reaching(finds: &[Find], at: usize, local: u64) -> usize {
    let mut reaching = at;
    while let Some(find) = find_at(finds, reaching) {
        if local < find.to {
            break;
        }
        reaching += 1;
    }
    reaching
}

/// The last find of a list and the next find as one, if the rule keeps none of the locals of the last.
fn joined(finds: &[Find], next: Find) -> Option<Find>
    ensures { (rule : Recurrence) → AreFinds rule finds.now → IsFind rule next → IfSome result (IsFind rule) }
{
    let last = find_at(finds, finds.len().wrapping_sub(1))?;
    if last.local.is_some() || last.to != next.from || last.to < last.from {
        return None;
    }
    Some(Find {
        from: last.from,
        to: next.to,
        local: next.local,
    })
}

/// Adds a find to a list, if there is room.
fn push(finds: &mut Vec<Find>, find: Find)
    ensures { (rule : Recurrence) → AreFinds rule finds.old.items → IsFind rule find → AreFinds rule finds.new.items }
{
    if finds.len() < MOST {
        let _pushed = finds.push(find);
    }
}

/// Adds a find to a list, as one with the last if they can be one.
fn note(finds: &mut Vec<Find>, find: Find)
    ensures { (rule : Recurrence) → AreFinds rule finds.old.items → IsFind rule find → AreFinds rule finds.new.items }
{
    match joined(finds, find) {
        None => push(finds, find),
        Some(one) => {
            finds.truncate(finds.len().saturating_sub(1));
            push(finds, one);
        }
    }
}

/// Adds the finds of a list from a place on to another.
fn append(finds: &mut Vec<Find>, more: &[Find], from: usize)
    ensures { (rule : Recurrence) → AreFinds rule finds.old.items → AreFinds rule more.now → AreFinds rule finds.new.items }
{
    for at in from..more.len() {
        note(finds, more[at]);
    }
}

impl<'a> KeptLocals<'a> {
    /// Those of an event with a rule: no local is known.
    pub fn new(alloc: Global, event: &'a Event) -> Option<Box<KeptLocals<'a>>>
        ensures { MatchOption result (Unit {0}) (λ kept. kept.value.event ≡ event.entry) }
    {
        let parts = *event.rule.as_ref()?.parts();
        let first = local_of(event.start.stamp);
        let rule = Rule::new(parts, first, kind_of(event.start.stamp));
        let dear = is_dear(&parts);
        let last = Cursor::at(&rule, first);
        let counting = match parts.count {
            None => None,
            Some(_) => Some(PlacedCursor {
                cursor: Cursor::at(&rule, first),
                place: first.number(),
            }),
        };
        Box::new(
            alloc,
            KeptLocals {
                event,
                rule: SharedRule::new(alloc, rule).ok()?,
                keeps: dear || is_long(event),
                known: Vec::new(alloc),
                at: 0,
                found: Vec::new(alloc),
                counting,
                learns: dear && parts.count.is_none(),
                last,
                vain_from: 0,
                vain_to: 0,
            },
        )
        .ok()
    }

    /// Its rule, in the same memory.
    pub(crate) fn rule(&self) -> Result<SharedRule, AllocError>
        ensures { IfOk result (λ rule. recurrence_of self.now.event.now ≡ Some rule) }
    {
        self.rule.share()
    }

    /// Ends a search: what it has passed and found is known to the next, and so is what it has not reached.
    fn end(&mut self)
        ensures { self.new.event ≡ self.old.event }
    {
        append(&mut self.found, &self.known, self.at);
        mem::swap(&mut self.known, &mut self.found);
        self.found.clear();
        self.at = 0;
    }

    /// The first find that reaches past a place. Those that do not are dropped.
    fn known_at(&mut self, place: u64) -> Option<Find>
        ensures rule { self.new.rule ≡ self.old.rule }
        ensures event { self.new.event ≡ self.old.event }
        ensures find { IfSome result (IsFind self.old.rule) }
        ensures later { IfSome result (λ find. place < find.to) }
    {
        self.at = reaching(&self.known, self.at, place);
        let find = find_at(&self.known, self.at)?;
        if place < find.to { Some(find) } else { None }
    }

    /// The next local that the rule keeps from a place on, if what is known tells it.
    fn tell(&mut self, place: u64) -> Option<Local>
        ensures rule { self.new.rule ≡ self.old.rule }
        ensures event { self.new.event ≡ self.old.event }
        ensures next { IfSome result (IsNextLocal self.old.rule place) }
    {
        let find = self.known_at(place)?;
        if place < find.from {
            return None;
        }
        find.local
    }

    /// The next local that the rule keeps from a cursor's place on, if it was found. Else a local before which it keeps none, as far as the year that was
    /// looked at last tells, or the parts of the rule.
    fn quiet(&self, cursor: &Cursor, place: u64) -> Local
        requires place { place ≡ place_of cursor.now }
        requires own { IsCursorOf self.now.rule cursor.now }
        ensures none { NoneKept self.now.rule place (number result) }
        ensures day { IsDayNumber result.day }
    {
        if let Some(find) = find_at(&self.known, reaching(&self.known, self.at, place)) {
            if let Some(local) = find.local {
                if find.from <= place {
                    return local;
                }
            }
        }
        let mut held = *cursor;
        held.hold(self.rule.get(), &self.last);
        held.quiet(self.rule.get())
    }

    /// Passes over the find that was told last. It stays known.
    fn leave(&mut self)
        ensures rule { self.new.rule ≡ self.old.rule }
        ensures event { self.new.event ≡ self.old.event }
    {
        if let Some(find) = find_at(&self.known, self.at) {
            note(&mut self.found, find);
            self.at = self.at.saturating_add(1);
        }
    }

    /// Follows a find from a cursor's place in it on: the local that it has before `end`, if there is one.
    fn follow(&mut self, cursor: &mut PlacedCursor, find: Find, end: u64) -> Option<Local>
        requires find { IsFind self.old.rule find }
        requires from { find.from ≤ cursor.old.place }
        requires to { cursor.old.place < find.to }
        requires more { cursor.old.place < end }
        requires early { end ≤ rules_end }
        requires own { IsCursorOf self.old.rule cursor.old.cursor }
        ensures rule { self.new.rule ≡ self.old.rule }
        ensures event { self.new.event ≡ self.old.event }
        ensures step { IsStep self.old.rule end result cursor.old.cursor cursor.new.cursor }
    {
        cursor.pass(self.rule.get(), find.to.min(end));
        if end < find.to {
            return None;
        }
        note(&mut self.found, find);
        self.at = self.at.saturating_add(1);
        find.local
    }

    /// The end of what a search from a local on has found, by the cursor that made it: the cursor's place. After each 32 days in vain it is the end of what
    /// is quiet from there on.
    fn found_to(&mut self, cursor: &mut PlacedCursor, from: u64, local: Option<Local>) -> u64
        requires own { IsCursorOf self.old.rule cursor.old.cursor }
        requires found { IsFound self.old.rule from cursor.old.place local }
        ensures rule { self.new.rule ≡ self.old.rule }
        ensures event { self.new.event ≡ self.old.event }
        ensures found { IsFound self.old.rule from result local }
        ensures place { cursor.new.place ≡ cursor.old.place }
        ensures own { IsCursorOf self.old.rule cursor.new.cursor }
        ensures looked { (a b : ℕ) → HasLooked self.old.rule cursor.old.cursor a b → HasLooked self.old.rule cursor.new.cursor a b }
    {
        let place = cursor.place;
        if local.is_some() {
            return place;
        }
        if from != self.vain_to {
            self.vain_from = from;
        }
        self.vain_to = place;
        if place.saturating_sub(self.vain_from) < IN_VAIN {
            return place;
        }
        self.vain_from = place;
        cursor.cursor.quiet(self.rule.get()).number().max(place)
    }

    /// A cursor holds the year that was looked at last, if it is that of its place.
    fn hold_last(&self, cursor: &mut PlacedCursor)
        requires own { IsCursorOf self.now.rule cursor.old.cursor }
        ensures place { cursor.new.place ≡ cursor.old.place }
        ensures own { IsCursorOf self.now.rule cursor.new.cursor }
        ensures looked { (a b : ℕ) → cursor.old.place < b → HasLooked self.now.rule cursor.old.cursor a b
            → HasLooked self.now.rule cursor.new.cursor a b }
    {
        if self.learns {
            cursor.hold(self.rule.get(), &self.last);
        }
    }

    /// Searches for the next local that the rule keeps, from a cursor's place on and before another, which is later.
    fn search(&mut self, cursor: &mut PlacedCursor, end: u64) -> Option<Local>
        requires early { end ≤ rules_end }
        requires more { cursor.old.place < end }
        requires own { IsCursorOf self.old.rule cursor.old.cursor }
        ensures rule { self.new.rule ≡ self.old.rule }
        ensures event { self.new.event ≡ self.old.event }
        ensures step { IsStep self.old.rule end result cursor.old.cursor cursor.new.cursor }
    {
        let from = cursor.place;
        if let Some(counting) = self.counting {
            if counting.place <= from {
                return self.count(cursor, counting, end);
            }
        }
        self.hold_last(cursor);
        let local = cursor.next(self.rule.get(), end);
        let to = self.found_to(cursor, from, local);
        let find = Find { from, to, local };
        note(&mut self.found, find);
        local
    }

    /// The same under COUNT, by the cursor that went furthest.
    fn count(
        &mut self,
        cursor: &mut PlacedCursor,
        mut counting: PlacedCursor,
        end: u64,
    ) -> Option<Local>
        requires early { end ≤ rules_end }
        requires more { cursor.old.place < end }
        requires counting { IsCounting self.old.rule counting.cursor }
        requires behind { counting.place ≤ cursor.old.place }
        ensures rule { self.new.rule ≡ self.old.rule }
        ensures event { self.new.event ≡ self.old.event }
        ensures step { IsStep self.old.rule end result cursor.old.cursor cursor.new.cursor }
    {
        let from = cursor.place;
        counting.pass(self.rule.get(), from);
        let local = counting.next(self.rule.get(), end);
        let to = self.found_to(&mut counting, from, local);
        *cursor = counting;
        self.counting = Some(counting);
        let find = Find { from, to, local };
        note(&mut self.found, find);
        local
    }

    /// Keeps a cursor under COUNT, moved on to the midnight of a day from which on it has looked at no period. If finds are kept, searches keep their own.
    #[inline(never)]
    fn keep(&mut self, rule: &Rule, from: Local, cursor: &Cursor, place: u64, day: i32)
        requires rule { self.old.rule ≡ rule.now }
        requires own { IsCursorOf rule.now cursor.now }
        requires place { place ≡ place_of cursor.now }
        requires looked { HasLookedTo rule.now from day cursor.now }
        requires day { IsDayNumber day }
        ensures rule { self.new.rule ≡ self.old.rule }
        ensures event { self.new.event ≡ self.old.event }
    {
        let to = Local::at(day, 0).number();
        if self.keeps || to < place || cursor.steps() == 0 {
            return;
        }
        if !is_counted(self.event) {
            return;
        }
        let mut counting = PlacedCursor {
            cursor: *cursor,
            place,
        };
        counting.pass(rule, to);
        self.counting = Some(counting);
    }

    /// Finds the next local that the rule keeps from a cursor's place on, in its year or a part of it, where nothing is known from there on. It is known then.
    /// The cursor holds the period that was looked at for it.
    fn learn(&mut self, cursor: &mut PlacedCursor) -> Find
        requires early { cursor.old.place < rules_end }
        requires own { IsCursorOf self.old.rule cursor.old.cursor }
        ensures rule { self.new.rule ≡ self.old.rule }
        ensures event { self.new.event ≡ self.old.event }
        ensures find { IsFind self.old.rule result }
        ensures from { result.from ≡ cursor.old.place }
        ensures to { cursor.old.place < result.to }
        ensures place { cursor.new.place ≡ cursor.old.place }
        ensures own { IsCursorOf self.old.rule cursor.new.cursor }
        ensures looked { (a b : ℕ) → cursor.old.place < b → HasLooked self.old.rule cursor.old.cursor a b
            → HasLooked self.old.rule cursor.new.cursor a b }
    {
        let from = cursor.place;
        let mut far = PlacedCursor {
            cursor: Cursor::at(self.rule.get(), Local::numbered(from)),
            place: from,
        };
        far.hold(self.rule.get(), &self.last);
        let local = far.next(self.rule.get(), year_after(from));
        cursor.hold(self.rule.get(), &far.cursor);
        self.last = far.cursor;
        let find = Find {
            from,
            to: far.place,
            local,
        };
        push(&mut self.known, find);
        find
    }

    /// A step of a search: up to the end of what is known, or of what is not known.
    fn step(&mut self, cursor: &mut PlacedCursor, end: u64) -> Option<Local>
        requires early { end ≤ rules_end }
        requires more { cursor.old.place < end }
        requires own { IsCursorOf self.old.rule cursor.old.cursor }
        ensures rule { self.new.rule ≡ self.old.rule }
        ensures event { self.new.event ≡ self.old.event }
        ensures step { IsStep self.old.rule end result cursor.old.cursor cursor.new.cursor }
    {
        match self.known_at(cursor.place) {
            None if self.learns => {
                let find = self.learn(cursor);
                self.follow(cursor, find, end)
            }
            None => self.search(cursor, end),
            Some(find) => {
                if cursor.place < find.from {
                    self.search(cursor, find.from.min(end))
                } else {
                    self.follow(cursor, find, end)
                }
            }
        }
    }

    /// The next local that the rule keeps, from a cursor's place on and before another.
    fn next(&mut self, cursor: &mut PlacedCursor, end: u64) -> Option<Local>
        requires early { end ≤ rules_end }
        requires more { cursor.old.place < end }
        requires own { IsCursorOf self.old.rule cursor.old.cursor }
        ensures rule { self.new.rule ≡ self.old.rule }
        ensures event { self.new.event ≡ self.old.event }
        ensures next { IsAnswer self.old.rule end result cursor.old.cursor cursor.new.cursor }
        ensures day { IfSome result (λ local. IsDayNumber local.day) }
        ensures own { IsCursorOf self.old.rule cursor.new.cursor }
        ensures looked { LooksOn self.old.rule (known_to (option_map number result) end) cursor.old.cursor cursor.new.cursor }
    {
        while cursor.place < end {
            let local = self.step(cursor, end);
            if local.is_some() {
                return local;
            }
        }
        None
    }
}

/// Whether something is kept of a rule, of which each search looks for the locals anew.
pub(crate) fn is_searched(kept: &Option<Box<KeptLocals<'_>>>) -> bool {
    match kept {
        None => false,
        Some(kept) => !kept.keeps,
    }
}

/// Keeps a cursor of a search under COUNT, if that asks for it, for later searches of the rule.
#[inline(always)]
pub(crate) fn keep_cursor(
    kept: &mut Option<Box<KeptLocals<'_>>>,
    rule: &Rule,
    from: Local,
    cursor: &Cursor,
    place: u64,
    day: i32,
    asks: bool,
)
    requires kept { MatchOption kept.old (Unit {0}) (λ k. k.value.rule ≡ rule.now) }
    requires own { IsCursorOf rule.now cursor.now }
    requires place { place ≡ place_of cursor.now }
    requires looked { HasLookedTo rule.now from day cursor.now }
    requires day { IsDayNumber day }
    ensures rule { MatchOption kept.new (Unit {0}) (λ k. k.value.rule ≡ rule.now) }
    ensures same { MatchOption kept.new (Unit {0}) (λ k. MatchOption kept.old ⊥ (λ j. k.value.event ≡ j.value.event)) }
{
    if let Some(kept) = kept {
        if asks && kept.counting.is_some() {
            kept.keep(rule, from, cursor, place, day);
        }
    }
}

/// A mark at a midnight, of a cursor that is kept under COUNT, if it went further than the mark and is not past the midnight. What it has passed is not
/// counted again. If finds are kept, searches go on from that cursor themselves, and it may be before the mark. None if there is no mark yet.
fn furthest(
    kept: &Option<Box<KeptLocals<'_>>>,
    rule: &Rule,
    from: Local,
    mark: Option<&Mark>,
) -> Option<Mark>
    requires kept { MatchOption kept.now (Unit {0}) (λ k. k.value.rule ≡ rule.now) }
    requires from { IsDayNumber from.day }
    requires mark { MatchOption mark (Unit {0}) (λ m. IsCountMark rule.now m.now) }
    ensures { MatchOption result (Unit {0}) (IsCountMark rule.now) }
{
    let counted = mark?;
    let kept = kept.as_ref()?;
    let counting = kept.counting.as_ref()?;
    let is_known = !kept.keeps && counting.place <= counted.from.number();
    if is_known || from.second != 0 || from.number() < counting.place {
        return None;
    }
    let mut cursor = counting.cursor;
    cursor.pass(rule, from);
    Some(Mark { from, cursor })
}

/// Sets the cursor of a search of a rule to a local, where the next one up to the midnight of day `end` begins. Under COUNT that goes on from a mark or, if
/// it is further on, from where a search before it was kept, or ended: it had looked at no period from the midnight of `day` on.
pub(crate) fn go_on(
    kept: &mut Option<Box<KeptLocals<'_>>>,
    cursor: &mut Cursor,
    rule: &Rule,
    before: Local,
    place: u64,
    day: i32,
    from: Local,
    end: i32,
    mark: Option<&Mark>,
)
    requires kept { MatchOption kept.old (Unit {0}) (λ k. k.value.rule ≡ rule.now) }
    requires own { IsCursorOf rule.now cursor.old }
    requires place { place ≡ place_of cursor.old }
    requires looked { HasLookedTo rule.now before day cursor.old }
    requires day { IsDayNumber day }
    requires from { IsDayNumber from.day }
    requires end { IsDayNumber end }
    requires early { midnight_number end ≤ rules_end }
    requires mark { MatchOption mark (Unit {0}) (λ m. IsCountMark rule.now m.now) }
    ensures same { MatchOption kept.new (Unit {0}) (λ k. MatchOption kept.old ⊥ (λ j. k.value.event ≡ j.value.event)) }
    ensures begun { IsBegun rule.now from cursor.new }
    ensures looked { HasLookedTo rule.now from (int_min from.day end) cursor.new }
{
    keep_cursor(kept, rule, before, cursor, place, day, day <= from.day);
    let further = furthest(kept, rule, from, mark);
    begin(cursor, rule, from, end, further.as_ref().or(mark));
}

/// Ends a search of a rule, of which something is kept.
pub(crate) fn end(kept: &mut Option<Box<KeptLocals<'_>>>)
    ensures { MatchOption kept.new (Unit {0}) (λ k. MatchOption kept.old ⊥ (λ j. k.value.event ≡ j.value.event)) }
{
    if let Some(kept) = kept {
        kept.end();
    }
}

/// The next local that a rule keeps from a place on, if what is known of the rule tells it.
pub(crate) fn known_next(
    kept: &mut Option<Box<KeptLocals<'_>>>,
    rule: &Rule,
    place: u64,
) -> Option<Local>
    requires kept { MatchOption kept.old (Unit {0}) (λ k. k.value.rule ≡ rule.now) }
    ensures same { MatchOption kept.new (Unit {0}) (λ k. MatchOption kept.old ⊥ (λ j. k.value.event ≡ j.value.event)) }
    ensures next { IfSome result (IsNextLocal rule.now place) }
{
    match kept {
        None => None,
        Some(kept) => kept.tell(place),
    }
}

/// Passes over the local that was told last. It stays known.
pub(crate) fn leave(kept: &mut Option<Box<KeptLocals<'_>>>)
    ensures { MatchOption kept.new (Unit {0}) (λ k. MatchOption kept.old ⊥ (λ j. k.value.event ≡ j.value.event)) }
{
    if let Some(kept) = kept {
        kept.leave();
    }
}

/// The next local that a rule keeps, from a cursor's place on and before another, by what is known of the rule, if that is kept.
pub(crate) fn next(
    kept: &mut Option<Box<KeptLocals<'_>>>,
    cursor: &mut Cursor,
    place: u64,
    rule: &Rule,
    to: Local,
) -> Option<Local>
    requires kept { MatchOption kept.old (Unit {0}) (λ k. k.value.rule ≡ rule.now) }
    requires place { place ≡ place_of cursor.old }
    requires bound { IsDayNumber to.day }
    requires early { number to ≤ rules_end }
    requires own { IsCursorOf rule.now cursor.old }
    ensures same { MatchOption kept.new (Unit {0}) (λ k. MatchOption kept.old ⊥ (λ j. k.value.event ≡ j.value.event)) }
    ensures next { IsAnswer rule.now (number to) result cursor.old cursor.new }
    ensures day { IfSome result (λ local. IsDayNumber local.day) }
    ensures own { IsCursorOf rule.now cursor.new }
    ensures looked { LooksOn rule.now (known_to (option_map number result) (number to)) cursor.old cursor.new }
{
    match kept {
        Some(kept) if kept.keeps && place < to.number() => {
            let mut placed = PlacedCursor {
                cursor: *cursor,
                place,
            };
            let local = kept.next(&mut placed, to.number());
            *cursor = placed.cursor;
            local
        }
        _ => cursor.next(rule, to),
    }
}

/// A local before which a rule keeps none from a cursor's place on, by what is known of the rule, or as far as its parts tell. The cursor keeps what it
/// learns.
pub(crate) fn quiet(
    kept: &Option<Box<KeptLocals<'_>>>,
    cursor: &mut Cursor,
    place: u64,
    rule: &Rule,
) -> Local
    requires kept { MatchOption kept.now (Unit {0}) (λ k. k.value.rule ≡ rule.now) }
    requires place { place ≡ place_of cursor.old }
    requires own { IsCursorOf rule.now cursor.old }
    ensures none { NoneKept rule.now (place_of cursor.old) (number result) }
    ensures day { IsDayNumber result.day }
    ensures place { place_of cursor.new ≡ place_of cursor.old }
    ensures own { IsCursorOf rule.now cursor.new }
    ensures looked { (a b : ℕ) → HasLooked rule.now cursor.old a b → HasLooked rule.now cursor.new a b }
{
    match kept {
        Some(kept) if kept.learns => kept.quiet(cursor, place),
        _ => cursor.quiet(rule),
    }
}
