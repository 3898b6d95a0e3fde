//! Why a file is refused.
ghost use Rattle.std.specs.Prelude.{◌≡◌, Some};
ghost use Rattle.ics_components.specs.FaultNames.{kind_name, file_fault_name};
ghost use Rattle.ics_components.specs.declared.fault.FileFault.TheVariants.{Memory};

use std::alloc::AllocError;
use std::error::Error;
use std::fmt;

/// What is wrong on a line. If a line has several faults, the first in this order counts.
#[derive(Clone, Copy, Debug, PartialEq, Eq, PartialOrd, Ord)]
pub enum FaultKind {
    /// A line that is not a content line.
    BadLine,
    /// The file begins with a space or a tab. This fault comes before all others.
    BadFold,
    /// A stamp in none of its forms, or a date or time that does not exist.
    BadStamp,
    /// A text that is not a duration, or a duration that is negative or longer than 36,525 days.
    BadDuration,
    /// A text that is not an offset from UTC.
    BadOffset,
    /// A text that is not a recurrence rule, or has a part out of its range.
    BadRule,
    /// A stamp outside the years 0001 to 9899.
    YearRange,
    /// A number past 4,294,967,295 in a value that is otherwise valid.
    NumberTooLarge,
    /// A time zone without observances.
    NoObservance,
    /// A property of a time zone or of an observance that is missing, occurs twice, or has another form.
    ObservanceField,
    /// An observance with two recurrence rules, or with one finer than daily.
    ZoneRule,
    /// A line outside a calendar, or a file without lines.
    NotCalendar,
    /// An END that does not match the innermost BEGIN, or a file that ends inside a component.
    BadNesting,
    /// A component at depth 33.
    TooDeep,
    /// An event without a UID, or with an empty one.
    MissingUid,
    /// An event without a DTSTART.
    MissingStart,
    /// The second of a property that an event may have once.
    Repeated,
    /// A DTEND in an event with a DURATION, or of another kind than DTSTART, before it, or more than 36,525 days after it.
    BadEnd,
    /// A TZID that no time zone of the calendar defines and no zone file is given for.
    UnknownZone,
    /// A RECURRENCE-ID with a RANGE.
    ThisAndFuture,
    /// An EXRULE in an event.
    Exrule,
    /// A calendar of version 1.0.
    OldVersion,
    /// A TZID that no time zone of the calendar defines, for which a file is given that is no zone file.
    BadZoneFile,
}

/// Why a file is refused: its first fault, or a failed allocation.
#[derive(Clone, Copy, Debug, thiserror::Error)]
pub enum FileFault {
    #[error("{}", self.name())]
    Memory,
    /// The first fault and its line, counted from 1. A file that ends too early has its fault on the line after its last one.
    #[error("line {line}: {kind}")]
    At { line: u64, kind: FaultKind },
}

impl From<AllocError> for FileFault {
    ghost from_gives = { λ _ e. e ≡ Memory };

    fn from(_error: AllocError) -> FileFault {
        FileFault::Memory
    }
}

/// A fault and the number of its line. Faults are ordered by their lines, and on one line by their kinds.
#[derive(Clone, Copy, PartialEq, Eq, PartialOrd, Ord)]
pub struct Fault {
    pub line: u64,
    pub kind: FaultKind,
}

impl FaultKind {
    /// The name of the fault, as it is printed.
    pub fn name(&self) -> &'static str
        ensures { result.now ≡ kind_name self.now }
    {
        match self {
            FaultKind::BadLine => "BadLine",
            FaultKind::BadFold => "BadFold",
            FaultKind::BadStamp => "BadStamp",
            FaultKind::BadDuration => "BadDuration",
            FaultKind::BadOffset => "BadOffset",
            FaultKind::BadRule => "BadRule",
            FaultKind::YearRange => "YearRange",
            FaultKind::NumberTooLarge => "NumberTooLarge",
            FaultKind::NoObservance => "NoObservance",
            FaultKind::ObservanceField => "ObservanceField",
            FaultKind::ZoneRule => "ZoneRule",
            FaultKind::NotCalendar => "NotCalendar",
            FaultKind::BadNesting => "BadNesting",
            FaultKind::TooDeep => "TooDeep",
            FaultKind::MissingUid => "MissingUid",
            FaultKind::MissingStart => "MissingStart",
            FaultKind::Repeated => "Repeated",
            FaultKind::BadEnd => "BadEnd",
            FaultKind::UnknownZone => "UnknownZone",
            FaultKind::ThisAndFuture => "ThisAndFuture",
            FaultKind::Exrule => "Exrule",
            FaultKind::OldVersion => "OldVersion",
            FaultKind::BadZoneFile => "BadZoneFile",
        }
    }
}

impl fmt::Display for FaultKind {
    ghost output = { λ kind. Some (kind_name kind) };

    fn fmt<W: fmt::Write>(&self, f: &mut fmt::Formatter<W>) -> fmt::Result {
        f.write_str(self.name())
    }
}

impl Error for FaultKind {}

impl FileFault {
    /// The name of the fault, as it is printed; for a fault on a line, that of its kind.
    pub fn name(&self) -> &'static str
        ensures { result.now ≡ file_fault_name self.now }
    {
        match self {
            FileFault::Memory => "Memory",
            FileFault::At { kind, .. } => kind.name(),
        }
    }
}
