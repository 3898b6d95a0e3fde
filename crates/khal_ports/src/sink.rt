//! Outputs.
ghost use Rattle.std.specs.Prelude.{◌≡◌, ◌≤◌, Ok, Err, IfOk, OnOk, OnErr, IsErrOf, length};
ghost use Rattle.std.specs.Io.KnownBytes.{Appends, Keeps, WriteAppends};
ghost use Rattle.khal_ports.specs.Growth.{risen, TookPart, LeftByFault, LeftByFlush};

use crate::fault::{RunFault, SinkFault};

/// Takes bytes: the first of what it is given, and says how many.
pub trait Sink {
    ghost use Rattle.std.specs.Prelude.{ℕ, List, Option, Result};
    ghost use Rattle.khal_ports.specs.declared.fault.SinkFault.{SinkFault};

    /// The bytes taken so far, if the sink reports them.
    ghost taken: { Self → Option (List ℕ) };

    /// From a state, a call with these bytes may give this answer and leave this state.
    ghost puts: { Self → List ℕ → Result ℕ SinkFault → Self → Type 0 };

    /// From a state, a flush may give this answer and leave this state.
    ghost flushes: { Self → Result Unit SinkFault → Self → Type 0 };

    /// How many calls the device has failed.
    ghost failed: { Self → ℕ };

    /// Takes the first bytes and says how many, or fails and takes none. Device comes only if the
    /// count of failures rose by one.
    fn put(&mut self, bytes: &[u8]) -> Result<usize, SinkFault>
        ensures puts { puts self.old bytes.now result self.new }
        ensures bound { IfOk result (λ count. count ≤ length bytes.now) }
        ensures took { WriteAppends (taken self.old) (taken self.new) result bytes.now }
        ensures device { IsErrOf result SinkFault.Device → failed self.new ≡ risen (failed self.old) };

    /// Hands on what the sink has taken and keeps back, if it does. It takes nothing. Device comes only if
    /// the count of failures rose by one.
    fn flush(&mut self) -> Result<(), SinkFault>
        ensures flushes { flushes self.old result self.new }
        ensures kept { Keeps (taken self.old) (taken self.new) }
        ensures device { IsErrOf result SinkFault.Device → failed self.new ≡ risen (failed self.old) };

    /// How many calls the device has failed; the count stops at its greatest value.
    fn failures(&self) -> u64
        ensures { result ≡ failed self.now };
}

/// Hands the whole text to the sink, or fails after the sink took a prefix of it and not all of it:
/// WriteFault if the device failed or the sink took no byte, Memory if an allocation failed.
pub fn put_all<O: Sink>(sink: &mut O, text: &[u8]) -> Result<(), RunFault>
    ensures ok { OnOk result (Appends (O.taken sink.old) (O.taken sink.new) text.now) }
    ensures err { OnErr result (TookPart (O.taken sink.old) (O.taken sink.new) text.now) }
    ensures cause { IsErrOf result RunFault.WriteFault → LeftByFault O.puts sink.new }
{
    let mut done = 0;
    while done < text.len() {
        match sink.put(&text[done..]) {
            Ok(0) => return Err(RunFault::WriteFault),
            Ok(count) => done += count,
            Err(SinkFault::Device) => return Err(RunFault::WriteFault),
            Err(SinkFault::Memory) => return Err(RunFault::Memory),
        }
    }
    Ok(())
}

/// Flushes the sink, or fails: WriteFault if the device failed, Memory if an allocation failed.
pub fn flush_all<O: Sink>(sink: &mut O) -> Result<(), RunFault>
    ensures ok { OnOk result (LeftByFlush O.flushes (Ok tt) sink.new) }
    ensures kept { Keeps (O.taken sink.old) (O.taken sink.new) }
    ensures cause { IsErrOf result RunFault.WriteFault → LeftByFlush O.flushes (Err SinkFault.Device) sink.new }
{
    match sink.flush() {
        Ok(()) => Ok(()),
        Err(SinkFault::Device) => Err(RunFault::WriteFault),
        Err(SinkFault::Memory) => Err(RunFault::Memory),
    }
}
