// The handle that a host keeps.
ghost use Rattle.std.specs.Prelude.{◌≡◌, ◌⊎◌};
ghost use Rattle.std.specs.Option.{MatchOption};
ghost use Rattle.std.specs.Coded.{coded_option};
ghost use Rattle.std.specs.declared.option.Option.{Option};
ghost use Rattle.std.specs.declared.option.Option.TheVariants.{None, Some};
ghost use Rattle.frame_top.specs.declared.status.TheConstants.{NO_MEMORY};
ghost use Rattle.frame_calls.specs.contracts.held.Held.{the_row};
ghost use Rattle.frame_calls.specs.declared.held.Held.{Held};
ghost use Rattle.frame_calls.specs.Holding.{IsSound};

use crate::held::Held;
use frame_handle::Handle;
use frame_top::status::NO_MEMORY;
use std::alloc::Global;
use std::marker::Model;
use std::mem;

/// A script, a frame, a helper of one, or arrays for one; or nothing, where it is null.
#[repr(C)]
pub struct HostHandle {
    at: *mut u8,
    alloc: Global,
    pub ghost value: { Option Held } by { coded_option the_row.coded },
}

impl Model for HostHandle {
    ghost use base.Fml.{fsep, fex, ftrue};
    ghost use Rattle.frame_handle.specs.Handles.{held};
    ghost use Rattle.frame_calls.specs.contracts.held.Held.{the_row};
    ghost use Rattle.frame_calls.specs.Holding.{IsSound};

    ghost also_owns = { λ h. fsep (held the_row h.alloc h.at h.value) (fex (IsSound h.value) (λ _. ftrue)) };
}

impl HostHandle {
    /// A handle that has nothing.
    pub fn empty(alloc: Global) -> HostHandle
        ensures { result.value ≡ None }
    {
        HostHandle::of(Handle::empty(alloc))
    }

    fn of(handle: Handle<Held>) -> HostHandle
        requires sound { IsSound handle.value }
        ensures { result.value ≡ handle.value }
    {
        let Handle { at, alloc } = handle;
        HostHandle {
            at: at as *mut u8,
            alloc,
        }
    }

    fn into_handle(self) -> Handle<Held>
        ensures value { result.value ≡ self.value }
        ensures sound { IsSound self.value }
    {
        let HostHandle { at, alloc } = self;
        Handle {
            at: at as *mut Held,
            alloc,
        }
    }

    /// Takes out what the handle has, with its block.
    pub fn take_out(&mut self, alloc: Global) -> Option<(Box<Held>, Held)>
        ensures taken { MatchOption result (self.old.value ≡ None) (λ r. self.old.value ≡ Some r.1) }
        ensures sound { IsSound self.old.value }
        ensures empty { self.new.value ≡ None }
    {
        let taken = mem::replace(self, HostHandle::empty(alloc));
        let mut block = taken.into_handle().into_box()?;
        let held = mem::replace(&mut *block, Held::Lost);
        Some((block, held))
    }

    /// Puts something into an empty handle, in a block that was taken out of one.
    pub fn put_back(&mut self, block: Box<Held>, held: Option<Held>)
        requires empty { self.old.value ≡ None }
        requires sound { IsSound held }
        ensures { self.new.value ≡ held }
    {
        if let Some(held) = held {
            let mut block = block;
            *block = held;
            *self = HostHandle::of(Handle::of(block));
        }
    }

    /// Puts something into an empty handle, in a block of its own, and answers the status; another one where memory
    /// isn't found for the block.
    pub fn put(&mut self, alloc: Global, held: Option<Held>, status: u8) -> u8
        requires empty { self.old.value ≡ None }
        requires sound { IsSound held }
        ensures { (self.new.value ≡ held) × (result ≡ status) ⊎ (self.new.value ≡ None) × (result ≡ NO_MEMORY) }
    {
        match Box::new(alloc, Held::Lost) {
            Ok(block) => {
                self.put_back(block, held);
                status
            }
            Err(_) => NO_MEMORY,
        }
    }
}

impl Drop for HostHandle {
    fn drop(self) {
        drop(self.into_handle().into_box());
    }
}

unsafe impl Send for HostHandle {}

fn sent_to_threads<T: Send>(_it: &T) {}

// A handle may go to another thread, whatever it has. Nothing calls this: that it is accepted shows it.
fn crosses(handle: &HostHandle) {
    sent_to_threads(handle);
}
