// What is on its way to a sink.
ghost use Rattle.std.specs.Prelude.{◌≡◌, ◌≤◌, [], ◌∷◌, IfOk, OnOk, OnErr};
ghost use Rattle.job_base.specs.Faults.{Rose};
ghost use Rattle.job_base.specs.Texts.{Writes};
ghost use Rattle.frame_print.specs.Gathering.{Gathers, joined};

use crate::waiting::Waiting;
use job_base::limits::MOST_PAIRS;
use job_base::{NoMemory, Sink, SinkFault};
use std::alloc::Global;
use std::marker::Model;

/// The bytes of a run's lines that no sink has taken yet, in the order of the lines. A sink is called once for many
/// lines: where a part no longer fits, and by [`Outgoing::flush`]. What still waits when it is dropped is lost, so end
/// with a flush.
///
/// All of its memory is taken when it is made: 64 KiB for bytes, and 64 KiB in which the pairs of a map are sorted.
#[derive(Drop)]
pub struct Outgoing {
    pub(crate) waiting: Waiting,
    pub(crate) pairs: Vec<(i64, i64)>,
}

impl Model for Outgoing {
    ghost use Rattle.std.specs.Prelude.{ℕ, List};

    ghost Value = { List ℕ };

    ghost view = { λ o. o.waiting };
}

impl Outgoing {
    /// With nothing that waits.
    pub fn new(alloc: Global) -> Result<Outgoing, NoMemory>
        ensures { IfOk result (λ o. o ≡ []) }
    {
        Ok(Outgoing {
            waiting: Waiting::new(alloc)?,
            pairs: Vec::with_capacity(alloc, MOST_PAIRS as usize)?,
        })
    }

    /// Hands the bytes that wait to the sink.
    pub fn flush<S: Sink>(&mut self, sink: &mut S) -> Result<(), SinkFault>
        ensures text { Writes (S.taken sink.old) (S.taken sink.new) result self.old }
        ensures none { OnOk result (self.new ≡ []) }
        ensures count { OnOk result (S.faults sink.new ≡ S.faults sink.old) }
        ensures cause { OnErr result (Rose (S.faults sink.old) (S.faults sink.new)) }
        ensures later { S.faults sink.old ≤ S.faults sink.new }
    {
        self.waiting.flush(sink)
    }

    /// Puts a part of the text after what waits.
    pub fn put<S: Sink>(&mut self, part: &[u8], sink: &mut S) -> Result<(), SinkFault>
        ensures text { Gathers (S.taken sink.old) self.old (S.taken sink.new) self.new result part.now }
        ensures count { OnOk result (S.faults sink.new ≡ S.faults sink.old) }
        ensures cause { OnErr result (Rose (S.faults sink.old) (S.faults sink.new)) }
        ensures later { S.faults sink.old ≤ S.faults sink.new }
    {
        self.waiting.put(part, sink)
    }

    // Puts a byte after what waits.
    pub(crate) fn put_byte<S: Sink>(&mut self, byte: u8, sink: &mut S) -> Result<(), SinkFault>
        ensures text { Gathers (S.taken sink.old) self.old (S.taken sink.new) self.new result (byte ∷ []) }
        ensures count { OnOk result (S.faults sink.new ≡ S.faults sink.old) }
        ensures cause { OnErr result (Rose (S.faults sink.old) (S.faults sink.new)) }
        ensures later { S.faults sink.old ≤ S.faults sink.new }
    {
        self.waiting.put_byte(byte, sink)
    }

    /// Puts some parts of the text, one after the other.
    pub fn put_all<S: Sink>(&mut self, parts: &[&[u8]], sink: &mut S) -> Result<(), SinkFault>
        ensures text { Gathers (S.taken sink.old) self.old (S.taken sink.new) self.new result (joined parts.now) }
        ensures count { OnOk result (S.faults sink.new ≡ S.faults sink.old) }
        ensures cause { OnErr result (Rose (S.faults sink.old) (S.faults sink.new)) }
        ensures later { S.faults sink.old ≤ S.faults sink.new }
    {
        self.waiting.put_all(parts, sink)
    }
}
