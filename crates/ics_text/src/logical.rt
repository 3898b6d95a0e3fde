ghost use Rattle.std.specs.Prelude.{◌≡◌, ◌↔◌, false, IfSome, IsSome};
ghost use Rattle.ics_text.specs.Inner.Reading.{line_bytes};

use std::marker::Model;

/// The bytes of a line, borrowed from the file unless the line was folded.
#[derive(Drop)]
pub enum LineBytes<'a> {
    Borrowed(&'a [u8]),
    Owned(Vec<u8>),
}

impl LineBytes<'_> {
    /// The bytes.
    pub fn as_slice(&self) -> &[u8]
        ensures { result.now ≡ line_bytes self.now }
    {
        match self {
            LineBytes::Borrowed(bytes) => bytes,
            LineBytes::Owned(bytes) => bytes.as_slice(),
        }
    }
}

/// An unfolded line of a file. It is not empty (RFC 5545, section 3.1).
#[derive(Drop)]
pub struct Logical<'a> {
    pub(crate) number: u64,
    pub(crate) bytes: LineBytes<'a>,
}

impl<'a> Model for Logical<'a> {
    ghost use Rattle.ics_text.specs.Unfolded.{Line};

    ghost Value = { Line };

    ghost use Rattle.ics_text.specs.Inner.Reading.{line_by};

    ghost view = { λ a. line_by a.number a.bytes };
}

impl<'a> Logical<'a> {
    /// The bytes of the line, unfolded.
    pub fn bytes(&self) -> &[u8]
        ensures { result.now ≡ self.now.bytes }
    {
        self.bytes.as_slice()
    }

    /// The number of its first physical line, counted from 1.
    pub fn number(&self) -> u64
        ensures { result ≡ self.now.number }
    {
        self.number
    }

    /// The bytes, borrowed from the file. None if the line was folded.
    pub fn borrowed(&self) -> Option<&'a [u8]>
        ensures same { IfSome result (λ bytes. bytes.now ≡ self.now.bytes) }
        ensures unless_folded { IsSome result ↔ (self.now.folded ≡ false) }
    {
        match self.bytes {
            LineBytes::Borrowed(bytes) => Some(bytes),
            LineBytes::Owned(_) => None,
        }
    }
}
