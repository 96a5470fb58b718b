// A script that was read.

use frame_ast::script::Script;
use std::alloc::Global;
use std::sync::Arc;

/// A script that was read. Any number of frames run it, at the same time too.
#[derive(Drop)]
pub struct FrameScript {
    pub(crate) tree: Arc<Script, Global>,
}
