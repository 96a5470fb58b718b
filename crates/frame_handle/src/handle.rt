// A value behind a pointer, or none.
ghost use Rattle.std.specs.Prelude.{◌≡◌};
ghost use Rattle.std.specs.Option.{MatchOption};
ghost use Rattle.std.specs.declared.option.Option.{Option};
ghost use Rattle.std.specs.declared.option.Option.TheVariants.{None, Some};
ghost use Rattle.std.specs.Coded.{coded_option};
ghost use Rattle.frame_handle.specs.Handles.{held};

use crate::loose::Loose;
use std::alloc::Global;
use std::marker::Model;
use std::ptr::null_mut;

/// A value in a block of its own, or none. It is given up by taking its value out: [`Handle::into_box`].
pub struct Handle<T> {
    pub at: *mut T,
    pub alloc: Global,
    pub ghost value: { Option T } by { coded_option T.code },
}

impl<T> Model for Handle<T> {
    ghost also_owns = { λ h. held T.row h.alloc h.at h.value };
}

impl<T> Handle<T> {
    /// A handle without a value.
    pub fn empty(alloc: Global) -> Handle<T>
        ensures { result.value ≡ None }
    {
        Handle {
            at: null_mut(),
            alloc,
        }
    }

    fn of_loose(loose: Loose<T, Global>) -> Handle<T>
        ensures { result.value ≡ Some loose.value }
    {
        let Loose { at, alloc } = loose;
        Handle { at, alloc }
    }

    fn into_loose(self) -> Option<Loose<T, Global>>
        ensures { MatchOption result (self.value ≡ None) (λ loose. self.value ≡ Some loose.value) }
    {
        let Handle { at, alloc } = self;
        if at.is_null() {
            None
        } else {
            Some(Loose { at, alloc })
        }
    }
}

impl<T: Drop> Handle<T> {
    /// A handle of the value in the box. It takes no memory.
    pub fn of(value: Box<T>) -> Handle<T>
        ensures { result.value ≡ Some value.value }
    {
        Handle::of_loose(Loose::of(value))
    }

    /// Its value in a box again, if it has one.
    pub fn into_box(self) -> Option<Box<T>>
        ensures { MatchOption result (self.value ≡ None) (λ value. self.value ≡ Some value.value) }
    {
        match self.into_loose() {
            None => None,
            Some(loose) => Some(loose.into_box()),
        }
    }
}

unsafe impl<T: Send> Send for Handle<T> {}
