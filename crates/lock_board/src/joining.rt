//! Fewer and longer spans for what a piece touches.
ghost use Rattle.std.specs.Prelude.{◌≡◌, [], IfOk};
ghost use Rattle.lock_board.specs.Rooms.{hull, joined_to, meet, with_touch};

use frame_core::Touch;
use std::alloc::{AllocError, Global};

// Whether two spans of one kind overlap, or one ends where the other begins.
fn meet(a: &Touch, b: &Touch) -> bool
    ensures { result ≡ meet a.now b.now }
{
    a.written == b.written && a.from <= b.end && b.from <= a.end
}

// From where the first of two spans begins to where the last one ends.
fn hull(a: &Touch, b: &Touch) -> Touch
    ensures { result ≡ hull a.now b.now }
{
    Touch {
        from: a.from.min(b.from),
        end: a.end.max(b.end),
        written: a.written,
    }
}

// Adds a span to a list: it makes the first one that it meets longer, or is one more.
fn add_touch(spans: &mut Vec<Touch>, t: &Touch) -> Result<(), AllocError>
    ensures { IfOk result (λ _. spans.new.items ≡ with_touch spans.old.items t.now) }
{
    for i in 0..spans.len() {
        if meet(&spans[i], t) {
            spans[i] = hull(&spans[i], t);
            return Ok(());
        }
    }
    spans.push(*t)?;
    Ok(())
}

/// The same words in fewer spans.
pub fn join(alloc: Global, touches: &[Touch]) -> Result<Vec<Touch>, AllocError>
    ensures { IfOk result (λ v. v.items ≡ joined_to [] touches.now) }
{
    let mut spans = Vec::new(alloc);
    for i in 0..touches.len() {
        add_touch(&mut spans, &touches[i])?;
    }
    Ok(spans)
}
