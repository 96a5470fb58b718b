//! The kernel of a job whose length is deferred.

ghost use Rattle.std.specs.Prelude.{◌≡◌, ◌↔◌, ◌≤◌, true, false, IfOk, Err, Some, length};
ghost use Rattle.job_base.specs.declared.Access.TheVariants.{Read};
ghost use Rattle.frame_ast.specs.Checked.{IsChecked};
ghost use Rattle.frame_ast.specs.Accepted.{guard_fits};
ghost use Rattle.job_defer.specs.Guarded.{IsBelow, IsLengthParam, IsGuarded};
ghost use Rattle.job_defer.specs.Guarded.{GuardsContents, GuardsFootprint, GuardsWords};

use frame_ast::kernel::{Body, Expr, Kernel, Operator, Param, ParamKind, Stmt};
use job_base::limits::{
    GUARD_DEPTH, GUARD_NODES, GUARD_PARAMS, MOST_DEPTH, MOST_NODES, MOST_PARAMS,
};
use job_base::{Access, NoMemory};
use kernel_trees::{copy_params, copy_statements, size_of};
use std::alloc::Global;

/// Why there is no such kernel.
#[derive(Clone, Copy, Debug, PartialEq, Eq)]
pub enum GuardFault {
    /// It would pass a limit of kernels: [`MOST_PARAMS`], [`MOST_NODES`] or [`MOST_DEPTH`].
    TooLarge,
    NoMemory,
}

impl From<NoMemory> for GuardFault {
    ghost use Rattle.job_defer.specs.declared.guarding.GuardFault.TheVariants as fault;

    ghost from_gives = { λ _ f. f ≡ fault.NoMemory };

    fn from(_none: NoMemory) -> GuardFault {
        GuardFault::NoMemory
    }
}

/// A kernel that does what a parallel kernel does, with one step less, at the indexes below the first element of one
/// more `ro` array, and nothing at the others. The array is its last parameter.
///
/// <https://docs.unity3d.com/ScriptReference/Unity.Jobs.IJobParallelForDefer.html>
pub fn guard(alloc: Global, kernel: &Kernel) -> Result<Kernel, GuardFault>
    requires checked { IsChecked kernel.now }
    requires parallel { kernel.now.parallel ≡ true }

    // When it is answered, and what it is.
    ensures too_large { (result ≡ Err GuardFault.TooLarge) ↔ (guard_fits kernel.now ≡ false) }
    ensures is { IfOk result (λ new. IsGuarded kernel.now new) }
    ensures checked { IfOk result (λ new. IsChecked new) }

    // What it does.
    ensures contents { IfOk result (λ new. GuardsContents kernel.now new) }
    ensures words { IfOk result (λ new. GuardsWords kernel.now new) }

    // Which words it uses.
    ensures footprint { IfOk result (λ new. GuardsFootprint kernel.now new) }
{
    if !has_room(kernel) {
        return Err(GuardFault::TooLarge);
    }
    Ok(guarded(alloc, kernel)?)
}

// Whether there is room for one more parameter, and for the test around the statements.
fn has_room(kernel: &Kernel) -> bool
    requires { IsChecked kernel.now }
    ensures { result ≡ guard_fits kernel.now }
{
    let size = size_of(kernel);
    kernel.params.len() <= (MOST_PARAMS - GUARD_PARAMS) as usize
        && size.nodes <= MOST_NODES - GUARD_NODES
        && size.depth <= MOST_DEPTH - GUARD_DEPTH
}

fn guarded(alloc: Global, kernel: &Kernel) -> Result<Kernel, NoMemory>
    requires few { length kernel.now.params.items ≤ MOST_PARAMS }
    requires parallel { kernel.now.parallel ≡ true }
    ensures { IfOk result (λ new. IsGuarded kernel.now new) }
{
    let mut params = copy_params(alloc, &kernel.params)?;
    params.push(length_param(alloc)?)?;
    let test = is_below(alloc, kernel.params.len() as u32)?;
    let body = copy_statements(alloc, &kernel.body.statements)?;
    let mut statements = Vec::new(alloc);
    statements.push(Stmt::If(test, body, Vec::new(alloc)))?;
    Ok(Kernel {
        name: String::from_str(alloc, kernel.name.as_str())?,
        parallel: true,
        params,
        locals: kernel.locals,
        body: Body { statements },
    })
}

// `length: ro array`
fn length_param(alloc: Global) -> Result<Param, NoMemory>
    ensures { IfOk result (λ p. IsLengthParam p) }
{
    Ok(Param {
        name: String::from_str(alloc, "length")?,
        kind: ParamKind::Array,
        access: Access::Read,
        by: 1,
    })
}

// `index < x[0]`
fn is_below(alloc: Global, x: u32) -> Result<Expr, NoMemory>
    ensures { IfOk result (λ e. IsBelow x e) }
{
    let first = Expr::Element(x, Box::new(alloc, Expr::Number(0))?);
    let sides = Box::new(alloc, (Expr::Index, first))?;
    Ok(Expr::Binary(Operator::Less, sides))
}
