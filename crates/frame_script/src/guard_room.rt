//! Whether a kernel has room for the guard of a deferred job.

ghost use Rattle.std.specs.Prelude.{◌≡◌, ◌-◌};
ghost use Rattle.job_base.specs.declared.limits.TheConstants.{MOST_DEPTH, GUARD_DEPTH};
ghost use Rattle.frame_ast.specs.Checked.{IsChecked, body_depth};
ghost use Rattle.frame_ast.specs.Accepted.{guard_fits, up_to};
ghost use Rattle.frame_script.specs.GuardRooms.{HasNodesOf};

use frame_ast::kernel::Kernel;
use job_base::limits::{
    GUARD_DEPTH, GUARD_NODES, GUARD_PARAMS, MOST_DEPTH, MOST_NODES, MOST_PARAMS,
};
use kernel_code::{RawKernel, are_shallow};
use kernel_trees::size_of;

/// Whether the kernel that a raw form became has room for the guard of a deferred job.
///
/// The raw form says it of nearly every kernel, in one pass over a list. A tree is gone over only where many of its
/// nodes are wide.
pub fn has_guard_room(raw: &RawKernel<'_>, kernel: &Kernel) -> bool
    requires checked { IsChecked kernel.now }
    requires nodes { HasNodesOf raw.now kernel.now }
    ensures { result ≡ guard_fits kernel.now }
{
    kernel.params.len() <= (MOST_PARAMS - GUARD_PARAMS) as usize
        && raw.nodes.len() <= (MOST_NODES - GUARD_NODES) as usize
        && has_guard_depth(raw, kernel)
}

// Whether no node of the kernel stands too deep to have one more over it.
fn has_guard_depth(raw: &RawKernel<'_>, kernel: &Kernel) -> bool
    requires checked { IsChecked kernel.now }
    requires nodes { HasNodesOf raw.now kernel.now }
    ensures { result ≡ up_to (MOST_DEPTH - GUARD_DEPTH) (body_depth kernel.now.body.statements.items) }
{
    are_shallow(&raw.nodes, MOST_DEPTH - GUARD_DEPTH)
        || size_of(kernel).depth <= MOST_DEPTH - GUARD_DEPTH
}
