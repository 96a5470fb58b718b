//! The spans of words that a piece may read and write.
ghost use Rattle.std.specs.Prelude.{IfOk, ◌≡◌, ◌&&◌, ◌++◌};
ghost use Rattle.frame_core.specs.Touches.{has_word, counts, hits};
ghost use Rattle.frame_core.specs.Spans.{listed};

use job_base::NoMemory;

/// Words that a piece may read: those from `from` to before `end`. Where `written` holds it may write them too.
#[derive(Clone, Copy, Debug, PartialEq, Eq)]
pub struct Touch {
    pub from: u32,
    pub end: u32,
    pub written: bool,
}

impl Touch {
    // Whether it has a word, and is of the kind asked for: with `written_only` one that is written.
    pub(crate) fn is_hit(&self, written_only: bool, w: u32) -> bool
        ensures { result ≡ (counts written_only self.now && has_word self.now w) }
    {
        (self.written || !written_only) && self.from <= w && w < self.end
    }
}

// What one operation or one bind touches.
#[derive(Clone, Copy)]
pub(crate) enum AtMostTwo {
    Zero,
    One(Touch),
    Two(Touch, Touch),
}

impl AtMostTwo {
    // Whether one of them has a word, and is of the kind asked for.
    pub(crate) fn is_hit(&self, written_only: bool, w: u32) -> bool
        ensures { result ≡ hits written_only (listed self.now) w }
    {
        match self {
            AtMostTwo::Zero => false,
            AtMostTwo::One(touch) => touch.is_hit(written_only, w),
            AtMostTwo::Two(first, second) => first.is_hit(written_only, w)
                || second.is_hit(written_only, w),
        }
    }

    // Adds them to a list.
    pub(crate) fn push_to(&self, out: &mut Vec<Touch>) -> Result<(), NoMemory>
        ensures { IfOk result (λ _. out.new.items ≡ out.old.items ++ listed self.now) }
    {
        match self {
            AtMostTwo::Zero => {}
            AtMostTwo::One(touch) => out.push(*touch)?,
            AtMostTwo::Two(first, second) => {
                out.push(*first)?;
                out.push(*second)?;
            }
        }
        Ok(())
    }
}
