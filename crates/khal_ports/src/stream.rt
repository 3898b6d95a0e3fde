//! A stream of the program as a sink.
ghost use Rattle.std.specs.Prelude.{◌≡◌, [], IfErr, OnOk, OnErr};
ghost use Rattle.std.specs.Io.Buffered.{writer_buffer};
ghost use Rattle.std.specs.Io.KnownBytes.{Keeps};
ghost use Rattle.khal_ports.specs.Growth.{risen};

use crate::fault::{RunFault, SinkFault};
use crate::sink::Sink;
use std::alloc::Global;
use std::io::{BufWriter, Write};

/// A writer as a sink. It reports the bytes that the writer holds, if the writer reports them.
#[derive(Drop)]
pub struct Stream<W> {
    writer: W,
    failures: u64,
}

impl<W: Write + Drop> Stream<W> {
    /// The sink of a writer. It has counted no failure.
    pub fn new(writer: W) -> Stream<W>
        ensures taken { ⟦<Stream<W> as Sink>⟧.taken result ≡ W.contents writer }
        ensures failed { ⟦<Stream<W> as Sink>⟧.failed result ≡ 0 }
    {
        Stream {
            writer,
            failures: 0,
        }
    }

    /// The writer.
    pub fn into_writer(self) -> W
        ensures { W.contents result ≡ ⟦<Stream<W> as Sink>⟧.taken self }
    {
        self.writer
    }

    /// Counts a failure of the writer.
    fn fail(&mut self)
        ensures taken { ⟦<Stream<W> as Sink>⟧.taken self.new ≡ ⟦<Stream<W> as Sink>⟧.taken self.old }
        ensures risen { ⟦<Stream<W> as Sink>⟧.failed self.new ≡ risen (⟦<Stream<W> as Sink>⟧.failed self.old) }
    {
        self.failures = self.failures.saturating_add(1);
    }
}

impl<W: Write + Drop> Stream<BufWriter<W, Global>> {
    /// Writes out what waits in the buffer. If that fails, it is WriteFault and counts as a failure.
    pub fn finish(&mut self) -> Result<(), RunFault>
        ensures written { OnOk result (writer_buffer self.new.writer ≡ []) }
        ensures taken { Keeps (⟦<Stream<BufWriter<W, Global>> as Sink>⟧.taken self.old) (⟦<Stream<BufWriter<W, Global>> as Sink>⟧.taken self.new) }
        ensures ok { OnOk result (⟦<Stream<BufWriter<W, Global>> as Sink>⟧.failed self.new ≡ ⟦<Stream<BufWriter<W, Global>> as Sink>⟧.failed self.old) }
        ensures fault { IfErr result (λ fault. fault ≡ RunFault.WriteFault) }
        ensures counted { OnErr result (⟦<Stream<BufWriter<W, Global>> as Sink>⟧.failed self.new
            ≡ risen (⟦<Stream<BufWriter<W, Global>> as Sink>⟧.failed self.old)) }
    {
        match self.writer.flush() {
            Ok(()) => Ok(()),
            Err(_) => {
                self.fail();
                Err(RunFault::WriteFault)
            }
        }
    }
}

impl<W: Write + Drop> Sink for Stream<W> {
    ghost use Rattle.std.specs.Prelude.{◌≡◌, IsErrOf, OnOk};
    ghost use Rattle.std.specs.Io.KnownBytes.{Keeps, WriteAppends};
    ghost use Rattle.khal_ports.specs.Growth.{risen};
    ghost use Rattle.khal_ports.specs.declared.fault.SinkFault.TheVariants.{Device};

    ghost taken = { λ stream. W.contents stream.writer };

    ghost puts = { λ before bytes answer after. WriteAppends (W.contents before.writer) (W.contents after.writer) answer bytes
        × OnOk answer (after.failures ≡ before.failures)
        × (IsErrOf answer Device → after.failures ≡ risen before.failures) };

    ghost flushes = { λ before answer after. Keeps (W.contents before.writer) (W.contents after.writer)
        × OnOk answer (after.failures ≡ before.failures)
        × (IsErrOf answer Device → after.failures ≡ risen before.failures) };

    ghost failed = { λ stream. stream.failures };

    fn put(&mut self, bytes: &[u8]) -> Result<usize, SinkFault> {
        match self.writer.write(bytes) {
            Ok(count) => Ok(count),
            Err(_) => {
                self.fail();
                Err(SinkFault::Device)
            }
        }
    }

    fn flush(&mut self) -> Result<(), SinkFault> {
        match self.writer.flush() {
            Ok(()) => Ok(()),
            Err(_) => {
                self.fail();
                Err(SinkFault::Device)
            }
        }
    }

    fn failures(&self) -> u64 {
        self.failures
    }
}
