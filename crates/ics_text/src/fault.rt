ghost use Rattle.std.specs.Prelude.{◌≡◌, codes};

/// The file begins with SPACE or HTAB, so its first line continues no line (RFC 5545, section 3.1).
#[derive(Clone, Copy)]
pub struct BadFold;

impl BadFold {
    /// The name of the fault, as it is printed.
    pub fn name(&self) -> &'static str
        ensures { result.now ≡ codes "BadFold" }
    {
        "BadFold"
    }
}

/// The line is not a content line (RFC 5545, section 3.1).
#[derive(Clone, Copy)]
pub struct BadLine;

impl BadLine {
    /// The name of the fault, as it is printed.
    pub fn name(&self) -> &'static str
        ensures { result.now ≡ codes "BadLine" }
    {
        "BadLine"
    }
}
