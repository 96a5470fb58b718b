// How much work an index of a kernel is, where that is known before it runs.
ghost use Rattle.std.specs.Prelude.{◌≡◌};
ghost use Rattle.frame_ast.specs.Checked.{IsChecked};
ghost use Rattle.plan_state.specs.Works.{body_has_loop, has_loop, work_of};

use frame_ast::kernel::{Kernel, Stmt};
use kernel_trees::size_of;

/// How much is little work, in nodes of kernels: some 10 µs, less than it costs to share a job among workers.
pub const SMALL_WORK: u32 = 2_048;

/// How many nodes an index of a checked kernel evaluates at most: all that its statements have. It isn't known where a
/// `for` or a `while` repeats some of them.
pub fn work_of(kernel: &Kernel) -> Option<u32>
    requires checked { IsChecked kernel.now }
    ensures work { result ≡ work_of kernel.now }
{
    if body_has_loop(&kernel.body.statements) {
        None
    } else {
        Some(size_of(kernel).nodes)
    }
}

// Whether a statement repeats others: itself, or one in its blocks.
#[cycle(loops)]
fn has_loop(s: &Stmt) -> bool
    ensures { result ≡ has_loop s.now }
{
    match s {
        Stmt::Assign(_, _)
        | Stmt::SetValue(_, _)
        | Stmt::Store(_, _, _)
        | Stmt::Add(_, _)
        | Stmt::AddPair(_, _, _)
        | Stmt::TryAdd(_, _, _, _)
        | Stmt::RemoveAt(_, _)
        | Stmt::RemoveKey(_, _, _)
        | Stmt::Clear(_)
        | Stmt::Write(_, _) => false,
        Stmt::Begin(_, _, body) => body_has_loop(body),
        Stmt::If(_, body, other) => body_has_loop(body) || body_has_loop(other),
        Stmt::For(_, _, _, _) | Stmt::While(_, _) => true,
    }
}

// Whether one of some statements does.
#[cycle(loops)]
fn body_has_loop(body: &[Stmt]) -> bool
    ensures { result ≡ body_has_loop body.now }
{
    for s in body {
        if has_loop(s) {
            return true;
        }
    }
    false
}
