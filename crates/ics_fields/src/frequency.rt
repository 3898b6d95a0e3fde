//! How often a recurrence rule repeats.
ghost use Rattle.std.specs.Prelude.{◌≡◌};

/// FREQ, the length of a rule's periods (RFC 5545, 3.3.10).
#[derive(Clone, Copy)]
pub enum Frequency {
    Secondly,
    Minutely,
    Hourly,
    Daily,
    Weekly,
    Monthly,
    Yearly,
}

impl Frequency {
    ghost use Rattle.ics_fields.specs.Observances.{is_finer_than_daily};

    /// Whether it repeats more often than daily.
    pub fn is_finer_than_daily(self) -> bool
        ensures { result ≡ is_finer_than_daily self }
    {
        matches!(
            self,
            Frequency::Secondly | Frequency::Minutely | Frequency::Hourly
        )
    }
}
