// The plan's kernels: copies of the script's, each with its code. Jobs run plain ones, and with `defer` guarded ones.
ghost use Rattle.std.specs.Prelude.{◌≡◌, ◌<◌, ◌^◌, IfOk, vec_len};
ghost use Rattle.frame_ast.specs.Checked.{IsChecked};
ghost use Rattle.plan_state.specs.Copies.{IsAdded, IsCopied, IsGuardOf, IsGuardedAt, IsKernelChecked, IsKernelGuardable, MayBeGuarded};

use crate::state::Draft;
use frame_ast::kernel::Kernel;
use frame_ast::script::Script;
use job_base::NoMemory;
use job_defer::{GuardFault, guard};
use kernel_bytecode::compile;
use kernel_trees::copy_kernel;
use std::alloc::Global;

impl Draft {
    /// The place of a kernel's copy among the plan's kernels. The plan gets a copy when it is asked for the first time.
    pub(crate) fn plain_copy_of(
        &mut self,
        alloc: Global,
        script: &Script,
        kernel: u32,
    ) -> Result<u32, NoMemory>
        requires kernel { kernel < vec_len script.now.kernels }
        requires each { vec_len self.old.copies_of ≡ vec_len script.now.kernels }
        requires few { vec_len self.old.kernels < 2 ^ 32 }
        requires checked { IsKernelChecked script.now kernel }
        ensures { IfOk result (λ place. IsCopied script.now self.old self.new kernel place) }
    {
        if let Some(place) = self.copies_of[kernel as usize] {
            return Ok(place);
        }
        let copy = copy_kernel(alloc, &script.kernels[kernel as usize])?;
        let place = self.add_kernel(alloc, copy)?;
        self.copies_of[kernel as usize] = Some(place);
        Ok(place)
    }

    /// The place of a kernel's guarded copy among the plan's kernels. The plan gets one when it is asked for the first
    /// time.
    pub(crate) fn guarded_copy_of(
        &mut self,
        alloc: Global,
        script: &Script,
        kernel: u32,
    ) -> Result<u32, NoMemory>
        requires kernel { kernel < vec_len script.now.kernels }
        requires each { vec_len self.old.guards_of ≡ vec_len script.now.kernels }
        requires few { vec_len self.old.kernels < 2 ^ 32 }
        requires guardable { IsKernelGuardable script.now kernel }
        ensures { IfOk result (λ place. IsGuardedAt script.now self.old self.new kernel place) }
    {
        if let Some(place) = self.guards_of[kernel as usize] {
            return Ok(place);
        }
        let copy = make_guarded(alloc, &script.kernels[kernel as usize])?;
        let place = self.add_kernel(alloc, copy)?;
        self.guards_of[kernel as usize] = Some(place);
        Ok(place)
    }

    /// The plan gets a kernel more, and its code at the same place, which is answered. A kernel is compiled here alone,
    /// so its code is made once for all jobs that run it.
    fn add_kernel(&mut self, alloc: Global, kernel: Kernel) -> Result<u32, NoMemory>
        requires few { vec_len self.old.kernels < 2 ^ 32 }
        requires checked { IsChecked kernel }
        ensures { IfOk result (λ place. IsAdded self.old self.new kernel place) }
    {
        let code = compile(alloc, &kernel)?;
        let place = self.kernels.len() as u32;
        self.kernels.push(kernel)?;
        self.codes.push(code)?;
        Ok(place)
    }
}

fn make_guarded(alloc: Global, kernel: &Kernel) -> Result<Kernel, NoMemory>
    requires { MayBeGuarded kernel.now }
    ensures { IfOk result (λ copy. IsGuardOf kernel.now copy) }
{
    match guard(alloc, kernel) {
        Ok(copy) => Ok(copy),
        Err(GuardFault::NoMemory) => Err(NoMemory),
        // There is room for the guard.
        Err(GuardFault::TooLarge) => unreachable!(),
    }
}
