//! The kernel that asks at each index whether a list has it.

ghost use Rattle.std.specs.Prelude.{◌≡◌, true, IfOk};
ghost use Rattle.frame_ast.specs.Checked.{IsChecked};

use frame_ast::kernel::{Body, Expr, Kernel, Param, ParamKind, Stmt};
use job_base::Access;
use job_defer::guard;
use std::alloc::{AllocError, Global};
use std::test::Fail;

// parallel marks(a: rw array) { a[index] = 7; }
fn marks(alloc: Global) -> Result<Kernel, AllocError>
    ensures checked { IfOk result (λ k. IsChecked k) }
    ensures parallel { IfOk result (λ k. k.parallel ≡ true) }
{
    let a = Param {
        name: String::from_str(alloc, "a")?,
        kind: ParamKind::Array,
        access: Access::Both,
        by: 1,
    };
    let statements = vec![in alloc; Stmt::Store(0, Expr::Index, Expr::Number(7))]?;
    Ok(Kernel {
        name: String::from_str(alloc, "marks")?,
        parallel: true,
        params: vec![in alloc; a]?,
        locals: 0,
        body: Body { statements },
    })
}

#[test]
fn a_guard_adds_the_length(rt: HostRuntime) -> Result<(), Fail> {
    let alloc = rt.alloc();
    let kernel = marks(alloc)?;
    let new = guard(alloc, &kernel)?;
    assert_eq!(rt; new.params.len(), 2);
    assert_eq!(rt; new.body.statements.len(), 1);
    Ok(())
}
