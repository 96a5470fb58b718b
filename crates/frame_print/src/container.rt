// The line of a container.
ghost use Rattle.std.specs.Prelude.{◌≡◌, ◌≢◌, ◌<◌, ◌≤◌, ◌+◌, ◌++◌, ◌^◌, ℤ, List, codes, OnOk, OnErr};
ghost use Rattle.job_base.specs.Faults.{Rose};
ghost use Rattle.job_base.specs.Forms.{AreAllowed};
ghost use Rattle.frame_ast.specs.declared.kernel.ParamKind.TheVariants.{Int as IntKind};
ghost use Rattle.frame_ast.specs.Contents.{Contents, elements};
ghost use Rattle.frame_ast.specs.Texts.{contents_text, numbers_text, print_line};
ghost use Rattle.native_list.specs.Layout.{HoldsItems, end_of as list_end};
ghost use Rattle.kernel_exec.specs.Binds.{kind_of, start_of, end_of};
ghost use Rattle.kernel_exec.specs.Layout.{Holds};
ghost use Rattle.frame_print.specs.Gathering.{Gathers};

use crate::outgoing::Outgoing;
use crate::waiting::Waiting;
use job_base::{Mem, Sink, SinkFault};
use kernel_exec::Bind;
use native_list::ListAt;

impl Waiting {
    // Puts the name of a container, and the sign after it.
    fn put_name<S: Sink>(&mut self, name: &[u8], sink: &mut S) -> Result<(), SinkFault>
        ensures text { Gathers (S.taken sink.old) self.old (S.taken sink.new) self.new result
            (name.now ++ codes " = ") }
        ensures count { OnOk result (S.faults sink.new ≡ S.faults sink.old) }
        ensures cause { OnErr result (Rose (S.faults sink.old) (S.faults sink.new)) }
        ensures later { S.faults sink.old ≤ S.faults sink.new }
    {
        self.put(name, sink)?;
        self.make_room(3, sink)?;
        self.keep(b" = ");
        Ok(())
    }

    // Puts the elements that a list has.
    fn put_list<M: Mem, S: Sink>(
        &mut self,
        at: &ListAt,
        mem: &mut M,
        sink: &mut S,
    ) -> Result<(), SinkFault>
        requires fits { list_end at.now < 2 ^ 32 }
        requires readable { AreAllowed at.now.start (list_end at.now) (M.readable mem.old) }
        ensures text { (xs : List ℤ) → HoldsItems at.now (M.cells mem.old) xs →
            Gathers (S.taken sink.old) self.old (S.taken sink.new) self.new result (numbers_text xs) }
        ensures count { OnOk result (S.faults sink.new ≡ S.faults sink.old) }
        ensures cause { OnErr result (Rose (S.faults sink.old) (S.faults sink.new)) }
        ensures later { S.faults sink.old ≤ S.faults sink.new }
        ensures cells { M.cells mem.new ≡ M.cells mem.old }
        ensures readable { M.readable mem.new ≡ M.readable mem.old }
        ensures writable { M.writable mem.new ≡ M.writable mem.old }
    {
        let elements = at.as_array(mem);
        self.put_cells(elements.start, elements.len, mem, sink)
    }

    // Puts what the words of a container stand for. In `pairs` those of a map are sorted.
    fn put_contents<M: Mem, S: Sink>(
        &mut self,
        at: &Bind,
        pairs: &mut Vec<(i64, i64)>,
        mem: &mut M,
        sink: &mut S,
    ) -> Result<(), SinkFault>
        requires container { kind_of at.now ≢ IntKind }
        requires fits { end_of at.now < 2 ^ 32 }
        requires readable { AreAllowed (start_of at.now) (end_of at.now) (M.readable mem.old) }
        requires stands { (contents : Contents) × Holds (M.cells mem.old) at.now contents }
        ensures text { (contents : Contents) → Holds (M.cells mem.old) at.now contents →
            Gathers (S.taken sink.old) self.old (S.taken sink.new) self.new result
            (contents_text (elements contents) contents) }
        ensures count { OnOk result (S.faults sink.new ≡ S.faults sink.old) }
        ensures cause { OnErr result (Rose (S.faults sink.old) (S.faults sink.new)) }
        ensures later { S.faults sink.old ≤ S.faults sink.new }
        ensures cells { M.cells mem.new ≡ M.cells mem.old }
        ensures readable { M.readable mem.new ≡ M.readable mem.old }
        ensures writable { M.writable mem.new ≡ M.writable mem.old }
    {
        match at {
            Bind::Int(_) => unreachable!(),
            Bind::Array { at, .. } => self.put_cells(at.start, at.len, mem, sink),
            Bind::View { at, .. } => self.put_list(at, mem, sink),
            Bind::List(at) => self.put_list(at, mem, sink),
            Bind::Ref(at) => {
                let value = at.value(mem);
                self.put_number(0, value, sink)
            }
            Bind::Map(at) => self.put_pairs(at, pairs, mem, sink),
            Bind::Stream { at, .. } => self.put_entries(at, mem, sink),
        }
    }
}

impl Outgoing {
    // Puts the name of a container, and the sign after it.
    fn put_name<S: Sink>(&mut self, name: &[u8], sink: &mut S) -> Result<(), SinkFault>
        ensures text { Gathers (S.taken sink.old) self.old (S.taken sink.new) self.new result
            (name.now ++ codes " = ") }
        ensures count { OnOk result (S.faults sink.new ≡ S.faults sink.old) }
        ensures cause { OnErr result (Rose (S.faults sink.old) (S.faults sink.new)) }
        ensures later { S.faults sink.old ≤ S.faults sink.new }
    {
        self.waiting.put_name(name, sink)
    }

    /// Puts the line of a container: its name, and what its words stand for. It only reads the memory.
    ///
    /// An array, a view and a list are their elements, a reference is its value, a map its pairs in rising key order,
    /// and a stream the items of each index in foreach order. A view has the length that its list has now.
    pub fn put_container<M: Mem, S: Sink>(
        &mut self,
        name: &[u8],
        at: &Bind,
        mem: &mut M,
        sink: &mut S,
    ) -> Result<(), SinkFault>
        requires container { kind_of at.now ≢ IntKind }
        requires fits { end_of at.now < 2 ^ 32 }
        requires readable { AreAllowed (start_of at.now) (end_of at.now) (M.readable mem.old) }
        requires stands { (contents : Contents) × Holds (M.cells mem.old) at.now contents }
        ensures text { (contents : Contents) → Holds (M.cells mem.old) at.now contents →
            Gathers (S.taken sink.old) self.old (S.taken sink.new) self.new result
            (print_line name.now (elements contents) contents) }
        ensures count { OnOk result (S.faults sink.new ≡ S.faults sink.old) }
        ensures cause { OnErr result (Rose (S.faults sink.old) (S.faults sink.new)) }
        ensures later { S.faults sink.old ≤ S.faults sink.new }
        ensures cells { M.cells mem.new ≡ M.cells mem.old }
        ensures readable { M.readable mem.new ≡ M.readable mem.old }
        ensures writable { M.writable mem.new ≡ M.writable mem.old }
    {
        self.put_name(name, sink)?;
        self.waiting.put_contents(at, &mut self.pairs, mem, sink)?;
        self.put_byte(b'\n', sink)
    }
}
