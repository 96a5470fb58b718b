//! Standard output and standard error, and any other writer, as sinks.
//!
//! TRUSTED: that the system shows the bytes that it says it took, in order; no contract can say what a terminal shows.
ghost use Rattle.std.specs.Prelude.{◌≡◌, ◌≤◌, IfOk, length};
ghost use Rattle.std.specs.Io.KnownBytes.{WriteAppends};

use job_base::{Sink, SinkFault};
use std::io::Write;

/// What a writer takes. A writer whose bytes are known makes a sink whose bytes are known; those of standard output and
/// standard error aren't.
#[derive(Drop)]
pub struct WriterSink<W> {
    writer: W,
    faults: u64,
}

impl<W: Write> WriterSink<W> {
    /// No write has failed yet.
    pub fn new(writer: W) -> WriterSink<W>
        ensures faults { ⟦<WriterSink<W> as Sink>⟧.faults result ≡ 0 }
        ensures taken { ⟦<WriterSink<W> as Sink>⟧.taken result ≡ W.contents writer }
    {
        WriterSink { writer, faults: 0 }
    }
}

impl<W: Write> Sink for WriterSink<W> {
    ghost taken = { λ s. W.contents s.writer };

    ghost faults = { λ s. s.faults };

    fn write(&mut self, bytes: &[u8]) -> Result<usize, SinkFault> {
        let answer = write_some(&mut self.writer, bytes);
        if answer.is_err() {
            self.faults = self.faults.saturating_add(1);
        }
        answer
    }
}

// One write to a writer, which takes some first bytes; one that takes nothing is a fault.
fn write_some<W: Write>(out: &mut W, bytes: &[u8]) -> Result<usize, SinkFault>
    ensures at_least_one { IfOk result (λ n. 1 ≤ n) }
    ensures at_most { IfOk result (λ n. n ≤ length bytes.now) }
    ensures taken { WriteAppends (W.contents out.old) (W.contents out.new) result bytes.now }
{
    match out.write(bytes) {
        Ok(count) if count > 0 => Ok(count),
        Ok(_) | Err(_) => Err(SinkFault),
    }
}
