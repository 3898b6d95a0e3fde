//! Why words are not a request.
ghost use Rattle.std.specs.Prelude.{◌≡◌};
ghost use Rattle.clap.specs.Words.{kind_of};

use clap::Error;
use clap::error::ErrorKind;
use ics_series::TokenFault;
use khal_words::FormatFault;
use std::alloc::{AllocError, Global};
use thiserror::Error as ErrorText;

/// Why words are not a request.
#[derive(Debug, Drop, ErrorText)]
#[error("{}", self.name())]
pub enum RequestFault {
    /// The words are refused, and `text` says why. `help` is set if they ask for help.
    #[error("{text}")]
    Usage { text: String, help: bool },
    /// `--zone` does not name a display zone, or jiff refuses the bytes of a zone file.
    BadZone,
    /// The words do not name a window, or name one that is empty or out of bounds.
    BadWindow,
    /// `--after` is not a token.
    BadToken,
    /// `--format` or `--day-format` is not a format.
    BadFormat,
    /// An allocation failed.
    Memory,
}

impl RequestFault {
    ghost use Rattle.khal_list.specs.RequestFaults.{request_fault_name, IsFaultOf};

    /// The name of the fault, as it is printed.
    pub fn name(&self) -> &'static str
        ensures { result.now ≡ request_fault_name self.now }
    {
        match self {
            RequestFault::Usage { .. } => "Usage",
            RequestFault::BadZone => "BadZone",
            RequestFault::BadWindow => "BadWindow",
            RequestFault::BadToken => "BadToken",
            RequestFault::BadFormat => "BadFormat",
            RequestFault::Memory => "Memory",
        }
    }

    /// What clap says of words that it refuses.
    pub(crate) fn of_clap(alloc: Global, error: Error) -> RequestFault
        ensures { IsFaultOf (kind_of error) result }
    {
        if error.kind() == ErrorKind::OutOfMemory {
            return RequestFault::Memory;
        }
        let help = error.kind() == ErrorKind::DisplayHelp;
        match error.to_string(alloc) {
            Ok(text) => RequestFault::Usage { text, help },
            Err(_) => RequestFault::Memory,
        }
    }
}

impl From<AllocError> for RequestFault {
    ghost use Rattle.std.specs.Prelude.{◌≡◌};
    ghost use Rattle.khal_list.specs.declared.request_fault.RequestFault.TheVariants.{Memory};

    ghost from_gives = { λ _ fault. fault ≡ Memory };

    fn from(_error: AllocError) -> RequestFault {
        RequestFault::Memory
    }
}

impl From<TokenFault> for RequestFault {
    ghost use Rattle.std.specs.Prelude.{◌≡◌};
    ghost use Rattle.khal_list.specs.RequestFaults.{token_fault};

    ghost from_gives = { λ token fault. fault ≡ token_fault token };

    fn from(fault: TokenFault) -> RequestFault {
        match fault {
            TokenFault::BadToken => RequestFault::BadToken,
            TokenFault::Memory => RequestFault::Memory,
        }
    }
}

impl From<FormatFault> for RequestFault {
    ghost use Rattle.std.specs.Prelude.{◌≡◌};
    ghost use Rattle.khal_list.specs.RequestFaults.{format_fault};

    ghost from_gives = { λ format fault. fault ≡ format_fault format };

    fn from(fault: FormatFault) -> RequestFault {
        match fault {
            FormatFault::BadFormat => RequestFault::BadFormat,
            FormatFault::Memory => RequestFault::Memory,
        }
    }
}
