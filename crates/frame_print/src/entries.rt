// The entries of a stream.
ghost use Rattle.std.specs.Prelude.{◌≡◌, ℕ, ℤ, List, Option, ◌<◌, ◌≤◌, ◌+◌, ◌++◌, ◌^◌, codes, OnOk, OnErr};
ghost use Rattle.job_base.specs.Cells.{cell_list};
ghost use Rattle.job_base.specs.Faults.{Rose};
ghost use Rattle.job_base.specs.Forms.{AreAllowed};
ghost use Rattle.frame_ast.specs.Texts.{listed, numbers_text, entry_text};
ghost use Rattle.native_stream.specs.Layout.{HoldsEntries, mark_word, end_of};
ghost use Rattle.native_stream.specs.Words.{item_count};
ghost use Rattle.frame_print.specs.Gathering.{Gathers};

use crate::waiting::Waiting;
use job_base::{Mem, Sink, SinkFault};
use native_stream::StreamAt;

impl Waiting {
    // Puts the items of index `k`.
    fn put_items<M: Mem, S: Sink>(
        &mut self,
        at: &StreamAt,
        k: u32,
        mem: &mut M,
        sink: &mut S,
    ) -> Result<(), SinkFault>
        requires fits { end_of at.now < 2 ^ 32 }
        requires index { k < at.now.count }
        requires readable { AreAllowed at.now.start (end_of at.now) (M.readable mem.old) }
        ensures text { Gathers (S.taken sink.old) self.old (S.taken sink.new) self.new result
            (numbers_text (cell_list (M.cells mem.old) (mark_word at.now k + 1)
            (item_count at.now (M.cells mem.old) k))) }
        ensures count { OnOk result (S.faults sink.new ≡ S.faults sink.old) }
        ensures cause { OnErr result (Rose (S.faults sink.old) (S.faults sink.new)) }
        ensures later { S.faults sink.old ≤ S.faults sink.new }
        ensures cells { M.cells mem.new ≡ M.cells mem.old }
        ensures readable { M.readable mem.new ≡ M.readable mem.old }
        ensures writable { M.writable mem.new ≡ M.writable mem.old }
    {
        let Ok(items) = at.items(mem, i64::from(k)) else {
            unreachable!()
        };
        self.put_cells(at.start + k * (at.room + 1) + 1, items, mem, sink)
    }

    /// Puts the items of each index of a stream in foreach order.
    pub fn put_entries<M: Mem, S: Sink>(
        &mut self,
        at: &StreamAt,
        mem: &mut M,
        sink: &mut S,
    ) -> Result<(), SinkFault>
        requires fits { end_of at.now < 2 ^ 32 }
        requires readable { AreAllowed at.now.start (end_of at.now) (M.readable mem.old) }
        ensures text { (es : List (Option (List ℤ))) → HoldsEntries at.now (M.cells mem.old) es →
            Gathers (S.taken sink.old) self.old (S.taken sink.new) self.new result
            (codes "[" ++ listed entry_text es ++ codes "]") }
        ensures count { OnOk result (S.faults sink.new ≡ S.faults sink.old) }
        ensures cause { OnErr result (Rose (S.faults sink.old) (S.faults sink.new)) }
        ensures later { S.faults sink.old ≤ S.faults sink.new }
        ensures cells { M.cells mem.new ≡ M.cells mem.old }
        ensures readable { M.readable mem.new ≡ M.readable mem.old }
        ensures writable { M.writable mem.new ≡ M.writable mem.old }
    {
        self.put_byte(b'[', sink)?;
        for k in 0..at.count {
            self.put_comma(k as usize, sink)?;
            self.put_items(at, k, mem, sink)?;
        }
        self.put_byte(b']', sink)
    }
}
