// Whether binds suit a kernel and stand in a memory, as a test.
ghost use Rattle.std.specs.Prelude.{◌≡◌, length, IsTrue};
ghost use Rattle.kernel_exec.specs.Binds.{kind_of};
ghost use Rattle.kernel_exec.specs.Conditions.{BindsFit};
ghost use Rattle.kernel_rows.specs.Standing.{AreBelow, AreOfKinds, Apart, ApartFrom, AreApart};

use frame_ast::kernel::{Kernel, Param, ParamKind};
use kernel_exec::Bind;

// Whether a bind is of that kind.
fn is_of_kind(bind: Bind, kind: ParamKind) -> bool
    ensures { IsTrue result → kind_of bind ≡ kind }
{
    bind.kind() == kind
}

// Whether no word is of both.
fn is_apart(a: Bind, b: Bind) -> bool
    ensures { IsTrue result → Apart a b }
{
    a.end() <= u64::from(b.start()) || b.end() <= u64::from(a.start())
}

fn is_apart_from(a: Bind, binds: &[Bind]) -> bool
    ensures { IsTrue result → ApartFrom a binds.now }
{
    for b in binds {
        if !is_apart(a, *b) {
            return false;
        }
    }
    true
}

fn are_apart(binds: &[Bind]) -> bool
    ensures { IsTrue result → AreApart binds.now }
{
    for (x, a) in binds.iter().enumerate() {
        if !is_apart_from(*a, &binds[..x]) {
            return false;
        }
    }
    true
}

fn are_below(binds: &[Bind], n: u32) -> bool
    ensures { IsTrue result → AreBelow binds.now n }
{
    for b in binds {
        if b.end() > u64::from(n) {
            return false;
        }
    }
    true
}

fn are_of_kinds(params: &[Param], binds: &[Bind]) -> bool
    requires { length binds.now ≡ length params.now }
    ensures { IsTrue result → AreOfKinds params.now binds.now }
{
    for (x, b) in binds.iter().enumerate() {
        if !is_of_kind(*b, params[x].kind) {
            return false;
        }
    }
    true
}

/// Whether binds fit a kernel, no two share a word, and all their words are among `n` ones.
pub fn fits(kernel: &Kernel, binds: &[Bind], n: u32) -> bool
    ensures fit { IsTrue result → BindsFit kernel.now binds.now }
    ensures below { IsTrue result → AreBelow binds.now n }
{
    if binds.len() != kernel.params.len() {
        return false;
    }
    if !are_of_kinds(&kernel.params, binds) {
        return false;
    }
    are_below(binds, n) && are_apart(binds)
}
