//! How a run ended.
ghost use Rattle.std.specs.Prelude.{◌≡◌};
ghost use Rattle.khal_reading.specs.Status.{code_of};

/// How a run ended that wrote all its texts.
#[derive(Clone, Copy)]
pub enum Status {
    /// Every file was read and accepted.
    Clean,
    /// Some file was not read, or was refused.
    Faulty,
}

impl Status {
    /// The exit status: 0, or 1 if it is faulty.
    pub fn code(self) -> u8
        ensures { result ≡ code_of self }
    {
        match self {
            Status::Clean => 0,
            Status::Faulty => 1,
        }
    }
}
