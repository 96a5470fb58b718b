//! The kernels of a script, in the order of the text.

ghost use Rattle.std.specs.Prelude.{◌≡◌, ◌<◌, ◌≤◌, ◌-◌, ◌^◌, Some, None, List, [], ◌∷◌, ◌++◌, length, map, IfOk, slice_index_or, slice_get, string_bytes, IfSome};
ghost use Rattle.frame_ast.specs.declared.kernel.Kernel.{Kernel};
ghost use Rattle.std.specs.Coded.{codes};
ghost use Rattle.frame_ast.specs.contracts.kernel.Stmt as e;
ghost use Rattle.frame_ast.specs.contracts.kernel.Expr as f;
ghost use Rattle.frame_ast.specs.Accepted.{guard_fits};
ghost use Rattle.script_checks.specs.KernelIndex.{IsKernelIndex, kernel_at};

use frame_ast::kernel::Kernel;
use job_base::NoMemory;
use job_base::limits::MOST_PARAMS;
use std::alloc::Global;
use std::collections::BTreeMap;
use std::marker::Model;

/// The kernels that are known. A kernel's place is its number among them.
#[derive(Drop)]
pub struct Kernels<'a> {
    places: BTreeMap<&'a [u8], u32>,
    kernels: Vec<Kernel>,
    // Whether each of them has room for the guard of a deferred job.
    rooms: Vec<bool>,
}

impl<'a> Model for Kernels<'a> {
    ghost Value = { List Kernel };

    ghost coded = { Prim.hlevel (codes, e.the_row.coded, f.the_row.coded) };

    ghost view = { λ s. s.kernels.items };

    ghost invariant = { λ s. IsKernelIndex s.places s.kernels.items s.rooms.items };
}

impl<'a> Kernels<'a> {
    /// No kernels.
    pub fn new(alloc: Global) -> Self
        ensures { result ≡ [] }
    {
        Kernels {
            places: BTreeMap::new(alloc),
            kernels: Vec::new(alloc),
            rooms: Vec::new(alloc),
        }
    }

    /// The place of the kernel of this name.
    pub fn find(&self, text: &[u8]) -> Option<u32>
        ensures place { result ≡ kernel_at self.now text.now }
        ensures within { IfSome result (λ place. place < length self.now) }
    {
        self.places.get(text).copied()
    }

    /// The kernel at a place.
    pub fn kernel(&self, place: u32) -> &Kernel
        requires { place < length self.now }
        ensures kernel { slice_get self.now place ≡ Some result.now }
        ensures few { length result.now.params.items ≤ MOST_PARAMS }
    {
        &self.kernels[place as usize]
    }

    /// Whether the kernel at a place has room for the guard of a deferred job.
    pub fn has_room(&self, place: u32) -> bool
        requires { place < length self.now }
        ensures { IfSome (slice_get self.now place) (λ k. result ≡ guard_fits k) }
    {
        self.rooms[place as usize]
    }

    /// All kernels.
    pub fn as_slice(&self) -> &[Kernel]
        ensures { result.now ≡ self.now }
    {
        &self.kernels
    }

    /// All kernels, to be kept.
    pub fn into_vec(self) -> Vec<Kernel>
        ensures { result.items ≡ self.entry }
    {
        self.kernels
    }

    /// Adds a kernel after the others. No other one has its name.
    pub fn add(&mut self, text: &'a [u8], kernel: Kernel, has_room: bool) -> Result<(), NoMemory>
        requires name { text.now ≡ string_bytes kernel.name }
        requires other { kernel_at self.old text.now ≡ None }
        requires few { length self.old < 2 ^ 32 - 1 }
        requires small { length kernel.params.items ≤ MOST_PARAMS }
        requires room { has_room ≡ guard_fits kernel }
        ensures { IfOk result (λ _. self.new ≡ self.old ++ kernel ∷ []) }
    {
        let place = self.kernels.len() as u32;
        self.rooms.push(has_room)?;
        if self.kernels.push(kernel).is_err() {
            self.rooms.pop();
            return Err(NoMemory);
        }
        if self.places.insert(text, place).is_err() {
            self.kernels.pop();
            self.rooms.pop();
            return Err(NoMemory);
        }
        Ok(())
    }
}
