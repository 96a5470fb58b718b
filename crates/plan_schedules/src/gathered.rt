// What a schedule gathers before it is accepted or refused.

use crate::uses::NamedUse;
use job_handle::Handle;
use std::alloc::Global;

/// What a schedule gathers: the uses of its arguments, and what its job waits for. It is handed from one schedule to
/// the next, so that most of them take no memory; what it has from the one before says nothing.
#[derive(Drop)]
pub struct Gathered {
    pub(crate) uses: Vec<NamedUse>,
    pub(crate) deps: Handle,
}

impl Gathered {
    /// Nothing yet.
    pub fn none(alloc: Global) -> Gathered {
        Gathered {
            uses: Vec::new(alloc),
            deps: Handle::empty(),
        }
    }
}
