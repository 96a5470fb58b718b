// The caller's buffer as a sink.
ghost use Rattle.std.specs.Prelude.{◌≡◌, ◌≤◌, ◌+◌, ◌∷◌, ◌++◌, [], Some, length};
ghost use Rattle.frame_calls.specs.Filled.{IsFilled};

use crate::copying::copy_items;
use crate::written::{Part, Written};
use job_base::{Sink, SinkFault};

/// Writes a text straight into a buffer, as far as there is room, and counts all of it.
#[derive(Drop)]
pub struct BufferSink<'a> {
    pub buffer: &'a mut [u8],
    /// How many bytes the text has, those for which there was no room too.
    pub len: usize,
    /// How many writes would have made the text longer than a number can say.
    pub faults: u64,
    pub written: Written,
    pub ghost filled: { IsFilled buffer.now written.text len },
}

impl<'a> BufferSink<'a> {
    /// A buffer into which nothing was written yet.
    pub fn over(buffer: &'a mut [u8]) -> BufferSink<'a>
        ensures same_reference { result.buffer.ghost_name ≡ buffer.entry.ghost_name }
        ensures bytes { result.buffer.now ≡ buffer.old }
        ensures text { result.written.text ≡ [] }
    {
        BufferSink {
            buffer,
            len: 0,
            faults: 0,
            written: Written::nothing(),
        }
    }

    // Writes a part for which there is room.
    fn keep(&mut self, part: &[u8])
        requires room { self.old.len + length part.now ≤ length self.old.buffer.now }
        ensures text { self.new.written.text ≡ self.old.written.text ++ part.now }
        ensures same_reference { self.new.buffer.ghost_name ≡ self.old.buffer.ghost_name }
        ensures room { length self.new.buffer.now ≡ length self.old.buffer.now }
        ensures faults { self.new.faults ≡ self.old.faults }
    {
        copy_items(part, self.len, self.buffer);
        self.len += part.len();
        self.written = self.written.and(&Part { bytes: part });
    }

    // Counts a part for which there is no room. The text has so many bytes with it.
    fn count(&mut self, part: &[u8], len: usize)
        requires full { length self.old.buffer.now ≤ self.old.len }
        requires len { len ≡ self.old.len + length part.now }
        ensures text { self.new.written.text ≡ self.old.written.text ++ part.now }
        ensures same_reference { self.new.buffer.ghost_name ≡ self.old.buffer.ghost_name }
        ensures room { length self.new.buffer.now ≡ length self.old.buffer.now }
        ensures faults { self.new.faults ≡ self.old.faults }
    {
        self.len = len;
        self.written = self.written.and(&Part { bytes: part });
    }
}

impl Sink for BufferSink<'_> {
    // The name of the reference, how many bytes have room, and the text.
    ghost taken = { λ s. Some (s.buffer.ghost_name ∷ length s.buffer.now ∷ s.written.text) };

    ghost faults = { λ s. s.faults };

    fn write(&mut self, bytes: &[u8]) -> Result<usize, SinkFault> {
        let room = self.buffer.len();
        if self.len < room {
            let count = bytes.len().min(room - self.len);
            self.keep(&bytes[..count]);
            return Ok(count);
        }
        let Some(len) = self.len.checked_add(bytes.len()) else {
            self.faults = self.faults.saturating_add(1);
            return Err(SinkFault);
        };
        self.count(bytes, len);
        Ok(bytes.len())
    }
}
