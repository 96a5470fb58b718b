// The lines that end a frame and a run: overdue containers, and traps.
ghost use Rattle.std.specs.Prelude.{◌≡◌, ◌≤◌, ◌++◌, List, codes, decimal, OnOk, OnErr};
ghost use Rattle.job_base.specs.Faults.{Rose};
ghost use Rattle.frame_ast.specs.States.{JobTrap};
ghost use Rattle.frame_ast.specs.Texts.{overdue_line, trap_text, traps_text};
ghost use Rattle.frame_print.specs.Gathering.{Gathers};
ghost use Rattle.frame_core.specs.Reports.{IsReportOf};

use crate::numbers::LONGEST_NUMBER;
use crate::outgoing::Outgoing;
use crate::waiting::Waiting;
use frame_core::Report;
use itoa::Buffer;
use job_base::{Sink, SinkFault, Trap};

// The text of a trap.
fn trap_words(trap: Trap) -> &'static [u8]
    ensures { result.now ≡ trap_text trap }
{
    match trap {
        Trap::Overflow => b"overflow",
        Trap::ZeroDivisor => b"zero-divisor",
        Trap::Range => b"range",
        Trap::OwnIndex => b"own-index",
        Trap::Full => b"full",
        Trap::MissingKey => b"missing-key",
        Trap::PresentKey => b"present-key",
        Trap::Written => b"written",
        Trap::Budget => b"budget",
    }
}

impl Waiting {
    // Puts where an overdue container was made, which ends its line.
    fn put_made<S: Sink>(&mut self, made: u32, sink: &mut S) -> Result<(), SinkFault>
        ensures text { Gathers (S.taken sink.old) self.old (S.taken sink.new) self.new result
            (codes " made on line " ++ decimal made ++ codes "\n") }
        ensures count { OnOk result (S.faults sink.new ≡ S.faults sink.old) }
        ensures cause { OnErr result (Rose (S.faults sink.old) (S.faults sink.new)) }
        ensures later { S.faults sink.old ≤ S.faults sink.new }
    {
        self.make_room(15 + LONGEST_NUMBER, sink)?;
        self.keep(b" made on line ");
        self.keep_count(made);
        self.keep_byte(b'\n');
        Ok(())
    }

    // Puts the line of an overdue container.
    fn put_overdue_line<S: Sink>(
        &mut self,
        line: u32,
        name: &[u8],
        made: u32,
        sink: &mut S,
    ) -> Result<(), SinkFault>
        ensures text { Gathers (S.taken sink.old) self.old (S.taken sink.new) self.new result
            (overdue_line line name.now made) }
        ensures count { OnOk result (S.faults sink.new ≡ S.faults sink.old) }
        ensures cause { OnErr result (Rose (S.faults sink.old) (S.faults sink.new)) }
        ensures later { S.faults sink.old ≤ S.faults sink.new }
    {
        self.make_room(10 + LONGEST_NUMBER, sink)?;
        self.keep(b"overdue ");
        self.keep_count(line);
        self.keep(b": ");
        self.put(name, sink)?;
        self.put_made(made, sink)
    }
}

impl Outgoing {
    /// Puts the line of a container that is overdue at the `frame` of line `line`: `name` and `made` are those of the
    /// statement that made it.
    pub fn put_overdue<S: Sink>(
        &mut self,
        line: u32,
        name: &[u8],
        made: u32,
        sink: &mut S,
    ) -> Result<(), SinkFault>
        ensures text { Gathers (S.taken sink.old) self.old (S.taken sink.new) self.new result
            (overdue_line line name.now made) }
        ensures count { OnOk result (S.faults sink.new ≡ S.faults sink.old) }
        ensures cause { OnErr result (Rose (S.faults sink.old) (S.faults sink.new)) }
        ensures later { S.faults sink.old ≤ S.faults sink.new }
    {
        self.waiting.put_overdue_line(line, name, made, sink)
    }

    /// Puts the two lines of a run with traps: the first trap, and how many there are. Without a trap it puts nothing.
    pub fn put_traps<S: Sink>(&mut self, report: &Report, sink: &mut S) -> Result<(), SinkFault>
        ensures text { (traps : List JobTrap) → IsReportOf traps report.now →
            Gathers (S.taken sink.old) self.old (S.taken sink.new) self.new result (traps_text traps) }
        ensures count { OnOk result (S.faults sink.new ≡ S.faults sink.old) }
        ensures cause { OnErr result (Rose (S.faults sink.old) (S.faults sink.new)) }
        ensures later { S.faults sink.old ≤ S.faults sink.new }
    {
        if report.traps == 0 {
            return Ok(());
        }
        let mut job_digits = Buffer::new();
        let mut index_digits = Buffer::new();
        let mut number_digits = Buffer::new();
        let job_text = job_digits.format(report.job.0).as_bytes();
        let index_text = index_digits.format(report.index).as_bytes();
        let number_text = number_digits.format(report.traps).as_bytes();
        let parts = [
            b"trap job ",
            job_text,
            b" index ",
            index_text,
            b": ",
            trap_words(report.trap),
            b"\ntraps ",
            number_text,
            b"\n",
        ];
        self.put_all(&parts, sink)
    }
}
