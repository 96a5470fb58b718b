// The containers that two jobs contest: words of both, which one of them may write.
ghost use Rattle.std.specs.Prelude.{◌≡◌, slice_get};
ghost use Rattle.frame_view.specs.Contests.{shares, clashes, clash_at, is_contested};

use frame_ast::kernel::{Param, writes_to};
use job_base::Access;
use kernel_exec::Bind;

// Whether two arguments have a word in common.
fn shares(one: Bind, other: Bind) -> bool
    ensures { result ≡ shares one other }
{
    u64::from(one.start().max(other.start())) < one.end().min(other.end())
}

// Whether two arguments have a word in common that one of the two may write.
fn clashes(access: Access, bind: Bind, other: Access, other_bind: Bind) -> bool
    ensures { result ≡ clashes access bind other other_bind }
{
    (writes_to(access) || writes_to(other)) && shares(bind, other_bind)
}

// The same of the argument at a place, where there is one.
fn clash_at(binds: &[Bind], i: usize, access: Access, other: Access, other_bind: Bind) -> bool
    ensures { result ≡ clash_at (slice_get binds.now i) access other other_bind }
{
    match binds.get(i) {
        Some(bind) => clashes(access, *bind, other, other_bind),
        None => false,
    }
}

/// Whether an argument clashes with one of those of a job, whose kernel has these parameters.
pub(crate) fn is_contested(params: &[Param], binds: &[Bind], access: Access, bind: Bind) -> bool
    ensures { result ≡ is_contested binds.now access bind 0 params.now }
{
    for i in 0..params.len() {
        if clash_at(binds, i, params[i].access, access, bind) {
            return true;
        }
    }
    false
}
