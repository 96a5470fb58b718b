// Places of which an index may own some alone: elements of arrays, and indexes of streams.
ghost use Rattle.std.specs.Prelude.{◌≡◌, ◌^◌, ◌<◌, ◌+◌, ℕ, Ok, IsTrue, OnErr, IfOk};
ghost use Rattle.frame_ast.specs.Contents.{place_in};
ghost use Rattle.frame_ast.specs.Arguments.{owns, if_owned};
ghost use Rattle.native_array.specs.Layout.{end_of};
ghost use Rattle.native_array.specs.Words.{get_words, set_words};
ghost use Rattle.native_stream.specs.Layout.{end_of as stream_end};
ghost use Rattle.native_stream.specs.Words.{MayUse};
ghost use Rattle.kernel_exec.specs.Binds.{width_if};
ghost use Rattle.kernel_exec.specs.Words.{refusal_at, after_call, begin_word};
ghost use Rattle.kernel_exec.specs.Conditions.{IsBegun};

use crate::binds::Bind;
use job_base::{Mem, Trap};
use native_array::ArrayAt;
use native_stream::StreamAt;

/// Whether an index owns a place, of `width` each; every place where the width is 0.
pub fn owns(width: u32, index: u32, i: i64) -> bool
    ensures { result ≡ owns width index i }
{
    if width == 0 {
        return true;
    }
    if i < 0 {
        return false;
    }
    let first = u64::from(index) * u64::from(width);
    let place = i as u64;
    first <= place && place - first < u64::from(width)
}

/// Why a place that the index doesn't own is refused.
pub fn refusal(len: u32, i: i64) -> Trap
    ensures { result ≡ refusal_at (place_in len i) }
{
    if i < 0 || i >= i64::from(len) {
        Trap::Range
    } else {
        Trap::OwnIndex
    }
}

/// The element at a place. `Range` where there is none, else `OwnIndex` where the index doesn't own it.
pub fn element<M: Mem>(
    at: ArrayAt,
    width: u32,
    index: u32,
    i: i64,
    mem: &mut M,
) -> Result<i64, Trap>
    requires fits { end_of at < 2 ^ 32 }
    requires readable { (k : ℕ) → place_in at.len i ≡ Ok k → IsTrue (owns width index i)
        → IsTrue (M.readable mem.old (at.start + k)) }
    ensures value { result ≡ if_owned width index i (get_words at (M.cells mem.old) i) }
    ensures cells { M.cells mem.new ≡ M.cells mem.old }
    ensures readable { M.readable mem.new ≡ M.readable mem.old }
    ensures writable { M.writable mem.new ≡ M.writable mem.old }
{
    if owns(width, index, i) {
        at.get(mem, i)
    } else {
        Err(refusal(at.len, i))
    }
}

/// Sets the element at a place. `Range` where there is none, else `OwnIndex` where the index doesn't own it.
pub fn set_element<M: Mem>(
    at: ArrayAt,
    width: u32,
    index: u32,
    i: i64,
    v: i64,
    mem: &mut M,
) -> Result<(), Trap>
    requires fits { end_of at < 2 ^ 32 }
    requires writable { (k : ℕ) → place_in at.len i ≡ Ok k → IsTrue (owns width index i)
        → IsTrue (M.writable mem.old (at.start + k)) }
    ensures value { after_call (result, M.cells mem.new) ≡ if_owned width index i (after_call (set_words at
        (M.cells mem.old) i v)) }
    ensures err { OnErr result (M.cells mem.new ≡ M.cells mem.old) }
    ensures readable { M.readable mem.new ≡ M.readable mem.old }
    ensures writable { M.writable mem.new ≡ M.writable mem.old }
{
    if owns(width, index, i) {
        at.set(mem, i, v)
    } else {
        Err(refusal(at.len, i))
    }
}

/// Begins an index of a stream. `Range` where there is none, else `OwnIndex` where the index of the Execute doesn't own
/// it, else `Written`.
pub fn begin_index<M: Mem>(
    at: StreamAt,
    own: bool,
    index: u32,
    i: i64,
    mem: &mut M,
) -> Result<(), Trap>
    requires fits { stream_end at < 2 ^ 32 }
    requires readable { (k : ℕ) → place_in at.count i ≡ Ok k → IsTrue (owns (width_if own) index i)
        → MayUse at k (M.readable mem.old) }
    requires writable { (k : ℕ) → place_in at.count i ≡ Ok k → IsTrue (owns (width_if own) index i)
        → MayUse at k (M.writable mem.old) }
    ensures value { after_call (result, M.cells mem.new) ≡ begin_word index i (Bind.Stream at own) (M.cells mem.old) }
    ensures err { OnErr result (M.cells mem.new ≡ M.cells mem.old) }
    ensures begun { IfOk result (λ _. IsBegun (Bind.Stream at own) index i) }
    ensures readable { M.readable mem.new ≡ M.readable mem.old }
    ensures writable { M.writable mem.new ≡ M.writable mem.old }
{
    if owns(u32::from(own), index, i) {
        at.begin(mem, i)
    } else {
        Err(refusal(at.count, i))
    }
}
