//! UIDs as keys that compare by a number first.
ghost use Rattle.std.specs.Prelude.{◌≡◌};
ghost use Rattle.ics_calendar.specs.Inner.SummedUids.{sum_of, sum_with, summed};

use ics_event::Text;

/// A UID behind a sum of its bytes. Few UIDs of a file have the same, so most are told apart by a number.
#[derive(Drop, PartialEq, Eq, PartialOrd, Ord)]
pub struct SummedUid {
    pub sum: u64,
    pub uid: Text,
}

/// The sum of a text with a byte more.
fn sum_with(sum: u64, byte: u8) -> u64
    ensures { result ≡ sum_with sum byte }
{
    sum % 1_000_000_007 * 257 + u64::from(byte)
}

/// The sum of a text.
fn sum_of(text: &[u8]) -> u64
    ensures { result ≡ sum_of text.now }
{
    let mut sum = 0;
    for byte in text {
        sum = sum_with(sum, *byte);
    }
    sum
}

impl SummedUid {
    /// A UID with its sum.
    pub fn of(uid: Text) -> SummedUid
        ensures { result ≡ summed uid }
    {
        let sum = sum_of(uid.as_slice());
        SummedUid { sum, uid }
    }
}
