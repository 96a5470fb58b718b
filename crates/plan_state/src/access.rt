// Why the script's own statements may not use a container now, and its words where they may.
ghost use Rattle.std.specs.Prelude.{◌≡◌, ◌<◌, ◌≤◌, Some, vec_len};
ghost use Rattle.job_base.specs.declared.limits.TheConstants.{MOST_ELEMENTS};
ghost use Rattle.plan_state.specs.Stands.{IsThere};
ghost use Rattle.plan_state.specs.Accesses.{tag_in, tag_for, slice_in, view_in, bind_by, is_gone, AreThere, IsCause, IsGone, MayUse};

use crate::blocked::refusal_of_blocked;
use crate::state::{Container, Value, World};
use job_base::Refusal;
use kernel_exec::Bind;
use native_array::ArrayAt;
use safety_handle::Tag;

impl World {
    /// The tag of a container that there is.
    pub fn tag_of(&self, number: u32, view: Option<u32>) -> Tag
        requires { number < vec_len self.now.containers }
        ensures { Some result ≡ tag_in self.now.containers.items number view }
    {
        let container = &self.containers[number as usize];
        Tag {
            slot: container.slot,
            version: container.version,
            view,
        }
    }

    /// How the container of a name is used, or none where the name stands for no container.
    pub fn tag(&self, value: Value) -> Option<Tag>
        requires there { IsThere (vec_len self.now.containers) (vec_len self.now.handles) value }
        ensures { result ≡ tag_for self.now.containers.items value }
    {
        match value {
            Value::Dead | Value::Jobs(_) => None,
            Value::Whole(number) => Some(self.tag_of(number, None)),
            Value::Slice { of, .. } => Some(self.tag_of(of, None)),
            Value::View { of, number } => Some(self.tag_of(of, Some(number))),
        }
    }

    /// Why the script's own statements may not use the container of a name now.
    pub fn blocked(&self, name: u32, writes: bool) -> Option<Refusal>
        requires name { name < vec_len self.now.values }
        requires there { AreThere (vec_len self.now.containers) (vec_len self.now.handles) self.now.values.items }
        ensures { MayUse self.now name writes result }
    {
        let value = self.values[name as usize];
        match self.tag(value) {
            None => Some(Refusal::Disposed),
            Some(tag) => self.refusal_of(&tag, writes),
        }
    }

    /// Whether a name stands for no container, or for one that was disposed.
    pub fn is_disposed(&self, name: u32) -> bool
        requires name { name < vec_len self.now.values }
        requires there { AreThere (vec_len self.now.containers) (vec_len self.now.handles) self.now.values.items }
        ensures { IsGone self.now name result }
    {
        match self.blocked(name, false) {
            None => false,
            Some(refusal) => says_disposed(refusal),
        }
    }

    /// What the safety book answers to a use that waits for nothing.
    fn refusal_of(&self, tag: &Tag, writes: bool) -> Option<Refusal>
        ensures { IsCause self.now tag.now writes result }
    {
        let nobody = self.jobs.nobody();
        let answer = if writes {
            self.safety.check_write(tag, nobody, &self.jobs)
        } else {
            self.safety.check_read(tag, nobody, &self.jobs)
        };
        match answer {
            Ok(()) => None,
            Err(blocked) => Some(refusal_of_blocked(blocked)),
        }
    }

    /// The words that a value stands for.
    pub fn bind(&self, value: Value) -> Bind
        requires there { IsThere (vec_len self.now.containers) (vec_len self.now.handles) value }
        ensures { result ≡ bind_by self.now.containers.items value }
    {
        match value {
            Value::Dead | Value::Jobs(_) => NO_WORDS,
            Value::Whole(number) => self.containers[number as usize].bind,
            Value::Slice { of, start, len } => slice_of(self.containers[of as usize], start, len),
            Value::View { of, .. } => view_of(self.containers[of as usize].bind),
        }
    }
}

/// Whether a cause is that there is no container.
fn says_disposed(refusal: Refusal) -> bool
    ensures { result ≡ is_gone refusal }
{
    match refusal {
        Refusal::Disposed => true,
        Refusal::StaleView
        | Refusal::NotParallel
        | Refusal::Alias
        | Refusal::Pending(_)
        | Refusal::StoreFull
        | Refusal::Range
        | Refusal::Full
        | Refusal::MissingKey
        | Refusal::PresentKey
        | Refusal::TempInJob
        | Refusal::Busy(_) => false,
    }
}

// What stands for no container has no words.
const NO_WORDS: Bind = Bind::Int(0);

/// A part of an array's words.
fn slice_of(container: Container, from: u32, len: u32) -> Bind
    requires { from ≤ MOST_ELEMENTS }
    ensures { result ≡ slice_in from len container.bind }
{
    match container.bind {
        Bind::Array { at, .. } => Bind::Array {
            at: ArrayAt {
                start: at.start + from,
                len,
            },
            own: 0,
        },
        Bind::Int(_)
        | Bind::View { .. }
        | Bind::List(_)
        | Bind::Ref(_)
        | Bind::Map(_)
        | Bind::Stream { .. } => container.bind,
    }
}

/// A list's words as those of its elements.
fn view_of(bind: Bind) -> Bind
    ensures { result ≡ view_in bind }
{
    match bind {
        Bind::List(at) => Bind::View { at, own: 0 },
        Bind::Int(_)
        | Bind::Array { .. }
        | Bind::View { .. }
        | Bind::Ref(_)
        | Bind::Map(_)
        | Bind::Stream { .. } => bind,
    }
}
