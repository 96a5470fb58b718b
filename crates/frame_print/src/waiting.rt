// The bytes that wait for a sink.
ghost use Rattle.std.specs.Prelude.{◌≡◌, ◌<◌, ◌≤◌, ◌+◌, ◌∷◌, ◌++◌, [], length, IfOk, OnOk, OnErr};
ghost use Rattle.job_base.specs.Faults.{Rose};
ghost use Rattle.job_base.specs.Texts.{Writes};
ghost use Rattle.frame_print.specs.Gathering.{Gathers, joined, comma_before};

use crate::texts::print_text;
use job_base::{NoMemory, Sink, SinkFault};
use std::alloc::Global;
use std::marker::Model;

/// How many bytes wait at most.
pub const ROOM: usize = 65_536;

/// Bytes that no sink has taken yet. A part for which there is room joins them; else all of them are written first.
#[derive(Drop)]
pub struct Waiting {
    bytes: Vec<u8>,
}

impl Model for Waiting {
    ghost use Rattle.std.specs.Prelude.{ℕ, ◌≤◌, List, vec_len, vec_capacity};
    ghost use Rattle.frame_print.specs.declared.waiting.TheConstants.{ROOM};

    ghost Value = { List ℕ };

    ghost view = { λ o. o.bytes.items };

    ghost invariant = { λ o. (vec_len o.bytes ≤ ROOM) × (ROOM ≤ vec_capacity o.bytes) };
}

impl Waiting {
    /// None, with all the memory that they will take.
    pub fn new(alloc: Global) -> Result<Waiting, NoMemory>
        ensures { IfOk result (λ o. o ≡ []) }
    {
        Ok(Waiting {
            bytes: Vec::with_capacity(alloc, ROOM)?,
        })
    }

    // For how many more bytes there is room.
    #[inline]
    fn room(&self) -> usize
        ensures { result + length self.now ≡ ROOM }
    {
        ROOM - self.bytes.len()
    }

    /// Lets a part wait for which there is room. Fixed words are written in place, without a copy's call.
    #[inline(always)]
    pub fn keep(&mut self, part: &[u8])
        requires { length self.old + length part.now ≤ ROOM }
        ensures text { self.new ≡ self.old ++ part.now }
        ensures most { length self.new ≡ length self.old + length part.now }
    {
        let Ok(()) = self.bytes.extend_from_slice(part) else {
            unreachable!()
        };
    }

    /// Lets a byte wait for which there is room.
    #[inline(always)]
    pub fn keep_byte(&mut self, byte: u8)
        requires { length self.old < ROOM }
        ensures { self.new ≡ self.old ++ byte ∷ [] }
    {
        self.bytes.push_reserved(byte);
    }

    /// Hands the bytes to the sink.
    pub fn flush<S: Sink>(&mut self, sink: &mut S) -> Result<(), SinkFault>
        ensures text { Writes (S.taken sink.old) (S.taken sink.new) result self.old }
        ensures none { OnOk result (self.new ≡ []) }
        ensures count { OnOk result (S.faults sink.new ≡ S.faults sink.old) }
        ensures cause { OnErr result (Rose (S.faults sink.old) (S.faults sink.new)) }
        ensures later { S.faults sink.old ≤ S.faults sink.new }
    {
        print_text(&self.bytes, sink)?;
        self.bytes.clear();
        Ok(())
    }

    /// Makes room for so many bytes.
    #[inline]
    pub fn make_room<S: Sink>(&mut self, bytes: usize, sink: &mut S) -> Result<(), SinkFault>
        requires { bytes ≤ ROOM }
        ensures room { OnOk result (length self.new + bytes ≤ ROOM) }
        ensures text { Gathers (S.taken sink.old) self.old (S.taken sink.new) self.new result [] }
        ensures count { OnOk result (S.faults sink.new ≡ S.faults sink.old) }
        ensures cause { OnErr result (Rose (S.faults sink.old) (S.faults sink.new)) }
        ensures later { S.faults sink.old ≤ S.faults sink.new }
    {
        if bytes <= self.room() {
            return Ok(());
        }
        self.flush(sink)
    }

    /// Puts a part of the text after what waits.
    pub fn put<S: Sink>(&mut self, part: &[u8], sink: &mut S) -> Result<(), SinkFault>
        ensures text { Gathers (S.taken sink.old) self.old (S.taken sink.new) self.new result part.now }
        ensures count { OnOk result (S.faults sink.new ≡ S.faults sink.old) }
        ensures cause { OnErr result (Rose (S.faults sink.old) (S.faults sink.new)) }
        ensures later { S.faults sink.old ≤ S.faults sink.new }
    {
        if part.len() > ROOM {
            self.flush(sink)?;
            return print_text(part, sink);
        }
        self.make_room(part.len(), sink)?;
        self.keep(part);
        Ok(())
    }

    /// Puts one byte after what waits.
    #[inline]
    pub fn put_byte<S: Sink>(&mut self, byte: u8, sink: &mut S) -> Result<(), SinkFault>
        ensures text { Gathers (S.taken sink.old) self.old (S.taken sink.new) self.new result (byte ∷ []) }
        ensures count { OnOk result (S.faults sink.new ≡ S.faults sink.old) }
        ensures cause { OnErr result (Rose (S.faults sink.old) (S.faults sink.new)) }
        ensures later { S.faults sink.old ≤ S.faults sink.new }
    {
        self.make_room(1, sink)?;
        self.keep_byte(byte);
        Ok(())
    }

    /// Puts some parts of the text, one after the other.
    pub fn put_all<S: Sink>(&mut self, parts: &[&[u8]], sink: &mut S) -> Result<(), SinkFault>
        ensures text { Gathers (S.taken sink.old) self.old (S.taken sink.new) self.new result (joined parts.now) }
        ensures count { OnOk result (S.faults sink.new ≡ S.faults sink.old) }
        ensures cause { OnErr result (Rose (S.faults sink.old) (S.faults sink.new)) }
        ensures later { S.faults sink.old ≤ S.faults sink.new }
    {
        for part in parts {
            self.put(part, sink)?;
        }
        Ok(())
    }

    /// Puts what comes before a place of a list.
    pub fn put_comma<S: Sink>(&mut self, place: usize, sink: &mut S) -> Result<(), SinkFault>
        ensures text { Gathers (S.taken sink.old) self.old (S.taken sink.new) self.new result (comma_before place) }
        ensures count { OnOk result (S.faults sink.new ≡ S.faults sink.old) }
        ensures cause { OnErr result (Rose (S.faults sink.old) (S.faults sink.new)) }
        ensures later { S.faults sink.old ≤ S.faults sink.new }
    {
        if place == 0 {
            return Ok(());
        }
        self.put(b", ", sink)
    }

    /// Lets what comes before a place of a list wait, for which there is room.
    #[inline(always)]
    pub fn keep_comma(&mut self, place: usize)
        requires { length self.old + 2 ≤ ROOM }
        ensures { self.new ≡ self.old ++ comma_before place }
    {
        if place > 0 {
            self.keep_byte(b',');
            self.keep_byte(b' ');
        }
    }
}
