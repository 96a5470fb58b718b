//! What one operation touches, and what some indexes touch through one bind.
ghost use Rattle.std.specs.Prelude.{◌≡◌, ◌+◌, ◌*◌, ◌^◌, ◌<◌, ◌≤◌, min};
ghost use Rattle.kernel_exec.specs.Binds.{end_of};
ghost use Rattle.frame_core.specs.declared.plan.Plan.{Plan};
ghost use Rattle.frame_core.specs.Touches.{end_place, owned, whole, used, through, span_touch, act_touches};
ghost use Rattle.frame_core.specs.Spans.{listed};
ghost use Rattle.frame_core.specs.Ordered.{ActFits};

use crate::plan::Act;
use crate::touch::{AtMostTwo, Touch};
use frame_ast::kernel::Param;
use job_base::{Access, Span};
use kernel_exec::Bind;

// Of so many places, the first one that the indexes from `index` on own.
fn first_place(count: u32, index: u32, width: u32) -> u32
    ensures { result ≡ min count (index * width) }
{
    let n = u64::from(index) * u64::from(width);
    if n < u64::from(count) {
        n as u32
    } else {
        count
    }
}

// The place before which the indexes before `to` own.
fn end_place(count: u32, width: u32, to: u32) -> u32
    ensures below { result ≤ count }
    ensures is { result ≡ end_place count width to }
{
    if width == 0 {
        count
    } else {
        first_place(count, to, width)
    }
}

fn owned_touch(start: u32, size: u64, count: u32, width: u32, from: u32, to: u32) -> Touch
    requires fits { start + count * size < 2 ^ 32 }
    ensures { result ≡ owned start size count width from to }
{
    let first = u64::from(start) + u64::from(first_place(count, from, width)) * size;
    let end = u64::from(start) + u64::from(end_place(count, width, to)) * size;
    Touch {
        from: first as u32,
        end: end as u32,
        written: true,
    }
}

// How many words an index of a stream has.
fn index_words(room: u32) -> u64
    ensures { result ≡ room + 1 }
{
    u64::from(room) + 1
}

// All words of a bind.
fn whole_touch(bind: &Bind, written: bool) -> Touch
    requires fits { end_of bind.now < 2 ^ 32 }
    ensures { result ≡ whole bind.now written }
{
    Touch {
        from: bind.start(),
        end: bind.end() as u32,
        written,
    }
}

// Through a bind that a kernel may write.
fn write_touches(parallel: bool, bind: &Bind, from: u32, to: u32) -> AtMostTwo
    requires fits { end_of bind.now < 2 ^ 32 }
    ensures { listed result ≡ used parallel bind.now from to }
{
    match *bind {
        Bind::Int(_) => AtMostTwo::Zero,
        Bind::Array { at, own } => {
            let width = if parallel { own } else { 0 };
            AtMostTwo::One(owned_touch(at.start, 1, at.len, width, from, to))
        }
        Bind::View { at, own } => {
            let width = if parallel { own } else { 0 };
            let items = owned_touch(at.start + 1, 1, at.cap, width, from, to);
            let length = Touch {
                from: at.start,
                end: at.start + 1,
                written: false,
            };
            AtMostTwo::Two(items, length)
        }
        Bind::Stream { at, own } => {
            let width = if parallel && own { 1 } else { 0 };
            AtMostTwo::One(owned_touch(at.start, index_words(at.room), at.count, width, from, to))
        }
        Bind::List(_) | Bind::Ref(_) | Bind::Map(_) => AtMostTwo::One(whole_touch(bind, true)),
    }
}

// Through the bind of a parameter.
pub(crate) fn bind_touches(
    parallel: bool,
    param: &Param,
    bind: &Bind,
    from: u32,
    to: u32,
) -> AtMostTwo
    requires fits { end_of bind.now < 2 ^ 32 }
    ensures { listed result ≡ through parallel param.now bind.now from to }
{
    if param.access == Access::Read {
        AtMostTwo::One(whole_touch(bind, false))
    } else {
        write_touches(parallel, bind, from, to)
    }
}

fn span_touch(span: &Span) -> Touch
    requires fits { span.now.start + span.now.len < 2 ^ 32 }
    ensures { result ≡ span_touch span.now }
{
    Touch {
        from: span.start,
        end: span.start + span.len,
        written: true,
    }
}

pub(crate) fn act_touches(act: &Act) -> AtMostTwo
    requires fits { (plan : Plan) × ActFits plan act.now × (plan.cells < 2 ^ 32) }
    ensures { listed result ≡ act_touches act.now }
{
    match *act {
        Act::Fill { span, literal: _ } => AtMostTwo::One(span_touch(&span)),
        Act::Move { from, to } => AtMostTwo::Two(span_touch(&from), span_touch(&to)),
        Act::Say { refusal: _ } | Act::Report { made: _ } => AtMostTwo::Zero,
        Act::Set { at, i: _, v: _ } => AtMostTwo::One(whole_touch(&at, true)),
        Act::AddTo { at, k: _, v: _ } => AtMostTwo::One(whole_touch(&at, true)),
        Act::Put { at, k: _, v: _ } => AtMostTwo::One(whole_touch(&at, true)),
        Act::Remove { at, i: _ } => AtMostTwo::One(whole_touch(&at, true)),
        Act::Clear { at } => AtMostTwo::One(whole_touch(&at, true)),
        Act::Print { at } => AtMostTwo::One(whole_touch(&at, false)),
    }
}
