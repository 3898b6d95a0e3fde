//! The names of a rule's parts.
ghost use Rattle.std.specs.Prelude.{◌≡◌, ◌==◌, ◌<◌, map};
ghost use Rattle.std.specs.Str.{bytes_eq};
ghost use Rattle.ics_values.specs.Digits.{upper as upper_of};
ghost use Rattle.ics_values.specs.RuleTexts.{name_of, by_word, row};

/// The parts of a rule that are lists.
#[derive(Clone, Copy)]
pub enum ListName {
    BySecond,
    ByMinute,
    ByHour,
    ByDay,
    ByMonthDay,
    ByYearDay,
    ByWeekNo,
    ByMonth,
    BySetPos,
}

/// The parts that a rule may have.
#[derive(Clone, Copy)]
pub enum PartName {
    Freq,
    Until,
    Count,
    Interval,
    List(ListName),
    Wkst,
}

impl PartName {
    /// The number of the name among all of them, from 0.
    pub fn row(self) -> u8
        ensures value { result ≡ row self }
        ensures bound { result < 64 }
    {
        match self {
            PartName::Freq => 0,
            PartName::Until => 1,
            PartName::Count => 2,
            PartName::Interval => 3,
            PartName::List(list) => 4 + list as u8,
            PartName::Wkst => 13,
        }
    }
}

/// Whether the byte, taken in upper case if it is a letter, is that of a word.
#[inline(always)]
fn is_byte_of(b: u8, of_word: u8) -> bool
    ensures { result ≡ (upper_of b == of_word) }
{
    (b == of_word && !of_word.is_ascii_lowercase())
        || (of_word.is_ascii_uppercase() && b == of_word + 32)
}

/// Whether the text, its ASCII letters taken in upper case, is the word. Beside a word that is written out, a byte is one or two comparisons.
#[inline(always)]
pub fn is_word(text: &[u8], word: &[u8]) -> bool
    ensures { result ≡ bytes_eq (map upper_of text.now) word.now }
{
    if text.len() != word.len() {
        return false;
    }
    for (i, b) in text.iter().enumerate() {
        if !is_byte_of(*b, word[i]) {
            return false;
        }
    }
    true
}

/// The value beside the first word of a table that the text is. None if the text is none of the words.
pub fn by_word<T: Copy>(text: &[u8], table: &[(&[u8], T)]) -> Option<T>
    ensures { result ≡ by_word text.now table.now }
{
    for row in table {
        if is_word(text, row.0) {
            return Some(row.1);
        }
    }
    None
}

/// The parts by their names.
static PART_NAMES: [(&[u8], PartName); 14] = [
    (b"FREQ", PartName::Freq),
    (b"UNTIL", PartName::Until),
    (b"COUNT", PartName::Count),
    (b"INTERVAL", PartName::Interval),
    (b"BYSECOND", PartName::List(ListName::BySecond)),
    (b"BYMINUTE", PartName::List(ListName::ByMinute)),
    (b"BYHOUR", PartName::List(ListName::ByHour)),
    (b"BYDAY", PartName::List(ListName::ByDay)),
    (b"BYMONTHDAY", PartName::List(ListName::ByMonthDay)),
    (b"BYYEARDAY", PartName::List(ListName::ByYearDay)),
    (b"BYWEEKNO", PartName::List(ListName::ByWeekNo)),
    (b"BYMONTH", PartName::List(ListName::ByMonth)),
    (b"BYSETPOS", PartName::List(ListName::BySetPos)),
    (b"WKST", PartName::Wkst),
];

/// The part with that name, which may be in upper or lower case. None if no part has it.
pub fn part_name(name: &[u8]) -> Option<PartName>
    ensures { result ≡ name_of name.now }
{
    by_word(name, &PART_NAMES)
}
