// What an Execute stands on: the kernel, its arguments and the index.
ghost use Rattle.std.specs.Prelude.{◌≡◌, ◌<◌, ◌≤◌, length};
ghost use Rattle.job_base.specs.declared.limits.TheConstants.{MOST_PARAMS};
ghost use Rattle.kernel_exec.specs.Binds.{IsTable, bind_at, own_array};

use crate::binds::Bind;
use frame_ast::kernel::Kernel;
use job_base::limits::MOST_PARAMS;
use native_array::ArrayAt;

const PARAMS: usize = MOST_PARAMS as usize;

const NONE: ArrayAt = ArrayAt { start: 0, len: 0 };

/// A kernel with its arguments, at an index.
#[derive(Clone, Copy)]
pub struct Call<'a> {
    pub kernel: &'a Kernel,
    pub binds: &'a [Bind],
    pub index: u32,
    /// For each parameter the array in which the element at the index is found by one comparison, else one of no
    /// length.
    pub own: [ArrayAt; PARAMS],
    ghost table: { IsTable own binds.now },
}

impl<'a> Call<'a> {
    /// A kernel with its arguments, at an index. It is made once for all indexes of a piece.
    pub fn new(kernel: &'a Kernel, binds: &'a [Bind], index: u32) -> Call<'a>
        requires few { length binds.now ≤ MOST_PARAMS }
        ensures kernel { result.kernel.now ≡ kernel.now }
        ensures binds { result.binds.now ≡ binds.now }
        ensures index { result.index ≡ index }
    {
        let own = own_arrays(binds);
        Call {
            kernel,
            binds,
            index,
            own,
        }
    }
}

// The array of a bind in which an index's own element needs one comparison.
fn own_array_at(x: usize, binds: &[Bind]) -> ArrayAt
    requires { x < length binds.now }
    ensures { result ≡ own_array (bind_at binds.now x) }
{
    match &binds[x] {
        Bind::Array { at, own } => { if *own <= 1 { *at } else { NONE } }
        Bind::Int(_)
        | Bind::View { .. }
        | Bind::List(_)
        | Bind::Ref(_)
        | Bind::Map(_)
        | Bind::Stream { .. } => NONE,
    }
}

// Those of all binds.
fn own_arrays(binds: &[Bind]) -> [ArrayAt; PARAMS]
    requires few { length binds.now ≤ MOST_PARAMS }
    ensures { IsTable result binds.now }
{
    let mut own = [NONE; PARAMS];
    for x in 0..binds.len() {
        own[x] = own_array_at(x, binds);
    }
    own
}

/// The argument of parameter x.
pub fn bind_of(x: u32, call: &Call<'_>) -> Bind
    requires { x < length call.now.binds.now }
    ensures { result ≡ bind_at call.now.binds.now x }
{
    call.binds[x as usize]
}

/// The array of parameter x where the element at the index needs one comparison.
#[inline(always)]
pub fn own_array_of(x: u32, call: &Call<'_>) -> ArrayAt
    requires { x < MOST_PARAMS }
    ensures { result ≡ own_array (bind_at call.now.binds.now x) }
{
    call.own[x as usize]
}
