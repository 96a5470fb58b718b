// Texts that go to a sink at once, with nothing that waits.
ghost use Rattle.std.specs.Prelude.{◌≡◌, ◌≤◌, OnOk, OnErr};
ghost use Rattle.job_base.specs.Faults.{Rose};
ghost use Rattle.job_base.specs.Texts.{Writes};
ghost use Rattle.frame_print.specs.Gathering.{joined};

use job_base::{Sink, SinkFault};

/// Writes a text as it is, with the line feeds that it has: write by write, until all of it is taken or a write fails.
pub fn print_text<S: Sink>(text: &[u8], sink: &mut S) -> Result<(), SinkFault>
    ensures text { Writes (S.taken sink.old) (S.taken sink.new) result text.now }
    ensures count { OnOk result (S.faults sink.new ≡ S.faults sink.old) }
    ensures cause { OnErr result (Rose (S.faults sink.old) (S.faults sink.new)) }
    ensures later { S.faults sink.old ≤ S.faults sink.new }
{
    let mut rest = text;
    while !rest.is_empty() {
        match sink.write(rest) {
            Ok(n) => rest = &rest[n..],
            Err(fault) => return Err(fault),
        }
    }
    Ok(())
}

/// Writes some parts of a text, one after the other, each by writes of its own.
pub fn print_parts<S: Sink>(parts: &[&[u8]], sink: &mut S) -> Result<(), SinkFault>
    ensures text { Writes (S.taken sink.old) (S.taken sink.new) result (joined parts.now) }
    ensures count { OnOk result (S.faults sink.new ≡ S.faults sink.old) }
    ensures cause { OnErr result (Rose (S.faults sink.old) (S.faults sink.new)) }
    ensures later { S.faults sink.old ≤ S.faults sink.new }
{
    for part in parts {
        print_text(part, sink)?;
    }
    Ok(())
}
