// The line of a refused statement.
ghost use Rattle.std.specs.Prelude.{◌≡◌, ◌≤◌, ◌+◌, ◌++◌, length, codes, OnOk, OnErr, IsOk};
ghost use Rattle.job_base.specs.Faults.{Rose};
ghost use Rattle.frame_ast.specs.Texts.{refusal_text, refused_line};
ghost use Rattle.frame_print.specs.Gathering.{Gathers};
ghost use Rattle.frame_print.specs.declared.waiting.TheConstants.{ROOM};
ghost use Rattle.frame_print.specs.declared.numbers.TheConstants.{LONGEST_NUMBER};

use crate::numbers::LONGEST_NUMBER;
use crate::outgoing::Outgoing;
use crate::waiting::Waiting;
use job_base::{Refusal, Sink, SinkFault};

// A line is put in as few parts as numbers and names leave, after one look for room for all but the name.
impl Waiting {
    // Lets the words wait that end a line, for which there is room.
    #[inline(always)]
    fn keep_end(&mut self, words: &[u8]) -> Result<(), SinkFault>
        requires { length self.old + length words.now ≤ ROOM }
        ensures ok { IsOk result }
        ensures text { self.new ≡ self.old ++ words.now }
    {
        self.keep(words);
        Ok(())
    }

    // Puts the name that ends a line.
    fn put_last_name<S: Sink>(&mut self, name: &[u8], sink: &mut S) -> Result<(), SinkFault>
        ensures text { Gathers (S.taken sink.old) self.old (S.taken sink.new) self.new result
            (name.now ++ codes "\n") }
        ensures count { OnOk result (S.faults sink.new ≡ S.faults sink.old) }
        ensures cause { OnErr result (Rose (S.faults sink.old) (S.faults sink.new)) }
        ensures later { S.faults sink.old ≤ S.faults sink.new }
    {
        self.put(name, sink)?;
        self.put_byte(b'\n', sink)
    }

    // Puts words, for which there is room, and the name that ends their line.
    #[inline(always)]
    fn put_named<S: Sink>(
        &mut self,
        words: &[u8],
        name: &[u8],
        sink: &mut S,
    ) -> Result<(), SinkFault>
        requires { length self.old + length words.now ≤ ROOM }
        ensures text { Gathers (S.taken sink.old) self.old (S.taken sink.new) self.new result
            (words.now ++ (name.now ++ codes "\n")) }
        ensures count { OnOk result (S.faults sink.new ≡ S.faults sink.old) }
        ensures cause { OnErr result (Rose (S.faults sink.old) (S.faults sink.new)) }
        ensures later { S.faults sink.old ≤ S.faults sink.new }
    {
        self.keep(words);
        self.put_last_name(name, sink)
    }

    // Puts the text of a refusal that names `name`, from the colon before it to the line's end. There is room for all
    // but the name.
    fn put_refusal_text<S: Sink>(
        &mut self,
        refusal: Refusal,
        name: &[u8],
        sink: &mut S,
    ) -> Result<(), SinkFault>
        requires { length self.old + (18 + LONGEST_NUMBER) ≤ ROOM }
        ensures text { Gathers (S.taken sink.old) self.old (S.taken sink.new) self.new result
            (codes ": " ++ refusal_text refusal name.now ++ codes "\n") }
        ensures count { OnOk result (S.faults sink.new ≡ S.faults sink.old) }
        ensures cause { OnErr result (Rose (S.faults sink.old) (S.faults sink.new)) }
        ensures later { S.faults sink.old ≤ S.faults sink.new }
    {
        match refusal {
            Refusal::Disposed => self.put_named(b": disposed ", name, sink),
            Refusal::StaleView => self.put_named(b": stale view ", name, sink),
            Refusal::NotParallel => self.put_named(b": not parallel ", name, sink),
            Refusal::Alias => self.put_named(b": alias ", name, sink),
            Refusal::Pending(job) => {
                self.keep(b": pending job ");
                self.keep_count(job.0);
                self.put_named(b" on ", name, sink)
            }
            Refusal::StoreFull => self.keep_end(b": store full\n"),
            Refusal::Range => self.keep_end(b": range\n"),
            Refusal::Full => self.keep_end(b": full\n"),
            Refusal::MissingKey => self.keep_end(b": missing key\n"),
            Refusal::PresentKey => self.keep_end(b": present key\n"),
            Refusal::TempInJob => self.put_named(b": temp ", name, sink),
            Refusal::Busy(job) => {
                self.keep(b": busy job ");
                self.keep_count(job.0);
                self.keep_end(b"\n")
            }
        }
    }

    // Puts the line of a refusal.
    fn put_refused_line<S: Sink>(
        &mut self,
        line: u32,
        refusal: Refusal,
        name: &[u8],
        sink: &mut S,
    ) -> Result<(), SinkFault>
        ensures text { Gathers (S.taken sink.old) self.old (S.taken sink.new) self.new result
            (refused_line line refusal name.now) }
        ensures count { OnOk result (S.faults sink.new ≡ S.faults sink.old) }
        ensures cause { OnErr result (Rose (S.faults sink.old) (S.faults sink.new)) }
        ensures later { S.faults sink.old ≤ S.faults sink.new }
    {
        self.make_room(26 + 2 * LONGEST_NUMBER, sink)?;
        self.keep(b"refused ");
        self.keep_count(line);
        self.put_refusal_text(refusal, name, sink)
    }
}

impl Outgoing {
    /// Puts the line of a statement of line `line` that was refused. `name` is the value that the refusal names, where
    /// it names one.
    pub fn put_refusal<S: Sink>(
        &mut self,
        line: u32,
        refusal: Refusal,
        name: &[u8],
        sink: &mut S,
    ) -> Result<(), SinkFault>
        ensures text { Gathers (S.taken sink.old) self.old (S.taken sink.new) self.new result
            (refused_line line refusal name.now) }
        ensures count { OnOk result (S.faults sink.new ≡ S.faults sink.old) }
        ensures cause { OnErr result (Rose (S.faults sink.old) (S.faults sink.new)) }
        ensures later { S.faults sink.old ≤ S.faults sink.new }
    {
        self.waiting.put_refused_line(line, refusal, name, sink)
    }
}
