// A text that is kept in memory.
ghost use Rattle.std.specs.Prelude.{◌≡◌, ◌<◌, ◌≤◌, [], Some, length, IfOk, OnErr, OnOk};
ghost use Rattle.std.specs.Io.KnownBytes.{WriteAppends};
ghost use Rattle.job_base.specs.Faults.{Rose};

use job_base::{Sink, SinkFault};
use std::alloc::Global;

/// Takes all bytes, as long as memory is found for them.
#[derive(Drop)]
pub struct KeptText {
    pub bytes: Vec<u8>,
    /// How many writes found no memory.
    pub faults: u64,
}

impl KeptText {
    /// No text.
    pub fn new(alloc: Global) -> KeptText
        ensures { result.bytes.items ≡ [] }
    {
        KeptText {
            bytes: Vec::new(alloc),
            faults: 0,
        }
    }
}

impl Sink for KeptText {
    ghost taken = { λ s. Some s.bytes.items };

    ghost faults = { λ s. s.faults };

    fn write(&mut self, bytes: &[u8]) -> Result<usize, SinkFault>
        requires { 0 < length bytes.now }
        ensures at_least_one { IfOk result (λ n. 1 ≤ n) }
        ensures at_most { IfOk result (λ n. n ≤ length bytes.now) }
        ensures taken { WriteAppends (Some self.old.bytes.items) (Some self.new.bytes.items) result bytes.now }
        ensures count { OnOk result (self.new.faults ≡ self.old.faults) }
        ensures cause { OnErr result (Rose self.old.faults self.new.faults) }
        ensures later { self.old.faults ≤ self.new.faults }
    {
        match self.bytes.extend_from_slice(bytes) {
            Ok(()) => Ok(bytes.len()),
            Err(_) => {
                self.faults = self.faults.saturating_add(1);
                Err(SinkFault)
            }
        }
    }
}
