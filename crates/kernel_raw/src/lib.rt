//! Kernels in raw form: each part by its token, no name looked up.
//!
//! `raw_kernel` makes the raw form of the events of one kernel; `parse_kernel` parses the kernel that begins at a token
//! of a file, and makes it. A raw kernel names tokens by their places: `text_at` and its like say what stands there. No
//! more nodes are kept than one more than a kernel may have: of later ones only how many there are, and what they say
//! of the depths of kept ones. So a long text takes no more memory here than its events do, and no call stack.
#![tactic(auto)]

mod changes;
mod depths;
mod fault;
mod first;
mod kernel;
mod late;
mod part;
mod raw;
mod reader;
mod texts;

pub use depths::{are_shallow, depth_at};
pub use fault::{KernelFault, StaticFault};
pub use kernel::{parse_kernel, raw_kernel};
pub use raw::{RawForm, RawKernel, RawNode, RawParam, node_at};
pub use texts::{is_above, is_spelled, kind_at, line_at, text_at, value_at};
