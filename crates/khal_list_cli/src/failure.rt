//! Why the program ended before its end, and what it says of it.
ghost use Rattle.std.specs.Prelude.{◌≡◌, ◌≢◌};
ghost use Rattle.std.specs.IoError.{error_kind};

use khal_list::{RequestFault, RunFault};
use std::alloc::{AllocError, AllocFailed};
use std::io::{self, ErrorKind};

/// Why the program ended before its end.
#[derive(Drop)]
pub enum Failure {
    /// The words are no request.
    Request(RequestFault),
    /// A word is not UTF-8.
    Words,
    /// The folder was not listed, or the zone file or the clock not read.
    Read,
    /// An output failed.
    Write,
    Memory,
}

impl Failure {
    ghost use Rattle.khal_list_cli.specs.Failures.{failure_code, failure_name, IsReported};

    /// Why the words were not given.
    pub fn of_words(error: io::Error) -> Failure
        ensures memory { error_kind error ≡ ErrorKind.OutOfMemory → result ≡ Failure.Memory }
        ensures words { error_kind error ≢ ErrorKind.OutOfMemory → result ≡ Failure.Words }
    {
        if error.kind() == ErrorKind::OutOfMemory {
            Failure::Memory
        } else {
            Failure::Words
        }
    }

    /// Why the folder was not listed.
    pub fn of_folder(error: io::Error) -> Failure
        ensures memory { error_kind error ≡ ErrorKind.OutOfMemory → result ≡ Failure.Memory }
        ensures read { error_kind error ≢ ErrorKind.OutOfMemory → result ≡ Failure.Read }
    {
        if error.kind() == ErrorKind::OutOfMemory {
            Failure::Memory
        } else {
            Failure::Read
        }
    }

    /// Why a run ended.
    pub fn of_run(fault: RunFault) -> Failure
        ensures write { fault ≡ RunFault.WriteFault → result ≡ Failure.Write }
        ensures memory { fault ≡ RunFault.Memory → result ≡ Failure.Memory }
    {
        match fault {
            RunFault::WriteFault => Failure::Write,
            RunFault::Memory => Failure::Memory,
        }
    }

    /// The exit status.
    pub fn code(&self) -> u8
        ensures { result ≡ failure_code self.now }
    {
        match self {
            Failure::Request(RequestFault::Usage { help: true, .. }) => 0,
            Failure::Request(RequestFault::Memory) => 3,
            Failure::Request(_) | Failure::Words => 2,
            Failure::Read | Failure::Write | Failure::Memory => 3,
        }
    }

    /// The name, as it is printed where no usage text is.
    pub fn name(&self) -> &'static str
        ensures { result.now ≡ failure_name self.now }
    {
        match self {
            Failure::Request(fault) => fault.name(),
            Failure::Words => "Usage",
            Failure::Read => "ReadFault",
            Failure::Write => "WriteFault",
            Failure::Memory => "Memory",
        }
    }

    /// Reports it on standard error and returns the exit status. Help goes to standard output, with
    /// status 0.
    pub fn report(&self, rt: &(impl Print + Eprint)) -> u8
        ensures { IsReported self.now result }
    {
        match self {
            Failure::Request(RequestFault::Usage { text, help: true }) => {
                match rt.print(text.as_str()) {
                    Ok(()) => self.code(),
                    Err(_) => Failure::Write.say(rt),
                }
            }
            Failure::Request(RequestFault::Usage { text, .. }) => {
                let _ = rt.eprint(text.as_str());
                self.code()
            }
            Failure::Words => {
                let _ = rt.eprint("error: a word is not UTF-8\n");
                self.code()
            }
            _ => self.say(rt),
        }
    }

    /// Names it on standard error.
    fn say(&self, rt: &(impl Print + Eprint)) -> u8
        ensures { result ≡ failure_code self.now }
    {
        let _ = rt.eprint("khal-list: ");
        let _ = rt.eprintln(self.name());
        self.code()
    }
}

impl From<AllocError> for Failure {
    ghost use Rattle.std.specs.Prelude.{◌≡◌};
    ghost use Rattle.khal_list_cli.specs.declared.failure.Failure.TheVariants.{Memory};

    ghost from_gives = { λ _ failure. failure ≡ Memory };

    fn from(_error: AllocError) -> Failure {
        Failure::Memory
    }
}

impl<T: Drop> From<AllocFailed<T>> for Failure {
    ghost use Rattle.std.specs.Prelude.{◌≡◌};
    ghost use Rattle.khal_list_cli.specs.declared.failure.Failure.TheVariants.{Memory};

    ghost from_gives = { λ _ failure. failure ≡ Memory };

    fn from(_error: AllocFailed<T>) -> Failure {
        Failure::Memory
    }
}
