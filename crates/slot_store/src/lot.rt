// What is kept of a slot.
ghost use Rattle.std.specs.Prelude.{◌≡◌, ◌<◌};
ghost use Rattle.job_handle.specs.declared.handle.Handle.{Handle};

use job_base::Span;

/// The name of a slot's state.
#[derive(Clone, Copy, PartialEq, Eq)]
pub(crate) enum Standing {
    Free,
    Taken,
    Held,
}

/// The parts of a place, but for the jobs for whose sake its range is held: a set of jobs has 528 bytes, and few slots
/// need one.
#[derive(Clone, Copy)]
pub(crate) struct Lot {
    pub(crate) standing: Standing,
    pub(crate) version: u32,
    pub(crate) span: Span,
}

impl Lot {
    ghost use Rattle.slot_store.specs.Places.{placed, unused};
    ghost use Rattle.slot_store.specs.Stores.{freed, given, held, taken};

    /// A slot that was never taken.
    pub(crate) fn unused() -> Lot
        ensures { (users : Handle) → placed result users ≡ unused }
    {
        Lot {
            standing: Standing::Free,
            version: 0,
            span: Span { start: 0, len: 0 },
        }
    }

    /// A container has the slot, with this range.
    pub(crate) fn set_taken(&mut self, span: Span)
        ensures { (users : Handle) → placed self.new users ≡ taken self.old.version span }
    {
        self.standing = Standing::Taken;
        self.span = span;
    }

    /// It is given back.
    pub(crate) fn set_given(&mut self)
        requires { self.old.version < 4294967295 }
        ensures { (users : Handle) → placed self.new users ≡ given (placed self.old users) }
    {
        self.standing = Standing::Free;
        self.version += 1;
    }

    /// Its range is held for the sake of the jobs of its set, which the slot may have got since.
    pub(crate) fn set_held(&mut self)
        requires { self.old.version < 4294967295 }
        ensures { (before users : Handle) → placed self.new users ≡ held (placed self.old before) users }
    {
        self.standing = Standing::Held;
        self.version += 1;
    }

    /// Its range came back after it was held.
    pub(crate) fn set_freed(&mut self)
        ensures { (users : Handle) → placed self.new users ≡ freed (placed self.old users) }
    {
        self.standing = Standing::Free;
    }
}
