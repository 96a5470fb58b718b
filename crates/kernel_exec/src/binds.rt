// Where arguments stand.
ghost use Rattle.std.specs.Prelude.{◌≡◌};
ghost use Rattle.kernel_exec.specs.Binds.{kind_of, start_of, end_of};

use frame_ast::kernel::ParamKind;
use native_array::{ArrayAt, RefAt};
use native_list::ListAt;
use native_map::MapAt;
use native_stream::StreamAt;

/// An argument of a kernel: a number, or the words of a container.
///
/// `own` of an array is its width where each index of a parallel job answers for so many places of its own, and 0 where
/// every index may use every place. Index i owns the places from i times the width to before i + 1 times the width.
/// `own` of a stream says that index i answers for index i of the stream alone.
///
/// <https://docs.unity3d.com/ScriptReference/Unity.Collections.NativeDisableParallelForRestrictionAttribute.html>
#[derive(Clone, Copy, Debug, PartialEq, Eq)]
pub enum Bind {
    /// The value of an `int`.
    Int(i64),
    Array { at: ArrayAt, own: u32 },
    /// The elements of a list as an array. It has the list's length at the time of each use.
    View { at: ListAt, own: u32 },
    List(ListAt),
    Ref(RefAt),
    Map(MapAt),
    Stream { at: StreamAt, own: bool },
}

impl Bind {
    /// The kind of parameter that it is for.
    pub fn kind(self) -> ParamKind
        ensures { result ≡ kind_of self }
    {
        match self {
            Bind::Int(_) => ParamKind::Int,
            Bind::Array { .. } | Bind::View { .. } => ParamKind::Array,
            Bind::List(_) => ParamKind::List,
            Bind::Ref(_) => ParamKind::Ref,
            Bind::Map(_) => ParamKind::Map,
            Bind::Stream { .. } => ParamKind::Stream,
        }
    }

    /// Its first word, or 0 for an `int`, which has none.
    pub fn start(self) -> u32
        ensures { result ≡ start_of self }
    {
        match self {
            Bind::Int(_) => 0,
            Bind::Array { at, .. } => at.start,
            Bind::View { at, .. } | Bind::List(at) => at.start,
            Bind::Ref(at) => at.start,
            Bind::Map(at) => at.start,
            Bind::Stream { at, .. } => at.start,
        }
    }

    /// The word behind its last one, or 0 for an `int`. It may be past the last word that there is.
    pub fn end(self) -> u64
        ensures { result ≡ end_of self }
    {
        let start = u64::from(self.start());
        match self {
            Bind::Int(_) => 0,
            Bind::Array { at, .. } => start + u64::from(at.len),
            Bind::View { at, .. } | Bind::List(at) => start + (u64::from(at.cap) + 1),
            Bind::Ref(_) => start + 1,
            Bind::Map(at) => start + native_map::words_of(at.cap),
            Bind::Stream { at, .. } => start + native_stream::words_of(at.count, at.room),
        }
    }
}
