// The elements of an array or a list.
ghost use Rattle.std.specs.Prelude.{◌≡◌, ◌<◌, ◌≤◌, ◌+◌, ◌++◌, ◌^◌, OnOk, OnErr};
ghost use Rattle.std.specs.Fmt.{signed_decimal};
ghost use Rattle.job_base.specs.Cells.{cell_list};
ghost use Rattle.job_base.specs.Faults.{Rose};
ghost use Rattle.job_base.specs.Forms.{AreAllowed};
ghost use Rattle.frame_ast.specs.Texts.{numbers_text};
ghost use Rattle.frame_print.specs.Gathering.{Gathers, comma_before};

use crate::numbers::LONGEST_NUMBER;
use crate::waiting::Waiting;
use job_base::{Mem, Sink, SinkFault, Word};

impl Waiting {
    /// Puts a number of a list, after what comes before its place. There is one look for room.
    #[inline(always)]
    pub fn put_number<S: Sink>(
        &mut self,
        place: usize,
        n: i64,
        sink: &mut S,
    ) -> Result<(), SinkFault>
        ensures text { Gathers (S.taken sink.old) self.old (S.taken sink.new) self.new result
            (comma_before place ++ signed_decimal n) }
        ensures count { OnOk result (S.faults sink.new ≡ S.faults sink.old) }
        ensures cause { OnErr result (Rose (S.faults sink.old) (S.faults sink.new)) }
        ensures later { S.faults sink.old ≤ S.faults sink.new }
    {
        self.make_room(2 + LONGEST_NUMBER, sink)?;
        self.keep_comma(place);
        self.keep_number(n);
        Ok(())
    }

    /// Puts the numbers of the cells from a word on.
    pub fn put_cells<M: Mem, S: Sink>(
        &mut self,
        start: u32,
        len: u32,
        mem: &mut M,
        sink: &mut S,
    ) -> Result<(), SinkFault>
        requires fits { start + len < 2 ^ 32 }
        requires readable { AreAllowed start (start + len) (M.readable mem.old) }
        ensures text { Gathers (S.taken sink.old) self.old (S.taken sink.new) self.new result
            (numbers_text (cell_list (M.cells mem.old) start len)) }
        ensures count { OnOk result (S.faults sink.new ≡ S.faults sink.old) }
        ensures cause { OnErr result (Rose (S.faults sink.old) (S.faults sink.new)) }
        ensures later { S.faults sink.old ≤ S.faults sink.new }
        ensures cells { M.cells mem.new ≡ M.cells mem.old }
        ensures readable { M.readable mem.new ≡ M.readable mem.old }
        ensures writable { M.writable mem.new ≡ M.writable mem.old }
    {
        self.put_byte(b'[', sink)?;
        for i in 0..len {
            let n = mem.load(Word(start + i));
            self.put_number(i as usize, n, sink)?;
        }
        self.put_byte(b']', sink)
    }
}
