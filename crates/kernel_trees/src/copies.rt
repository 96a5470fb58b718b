//! Copies of a kernel and of its parts, each in memory of its own.

ghost use Rattle.std.specs.Prelude.{◌≡◌, IfOk, string_bytes};
ghost use Rattle.tree_laws.specs.Same.{SameExpr, SameStmt, SameBody, SameParam, SameKernel, Pairwise};

use frame_ast::kernel::{Body, Expr, Kernel, Param, Stmt};
use job_base::NoMemory;
use std::alloc::Global;

/// A whole kernel.
pub fn copy_kernel(alloc: Global, kernel: &Kernel) -> Result<Kernel, NoMemory>
    ensures { IfOk result (λ copy. SameKernel kernel.now copy) }
{
    Ok(Kernel {
        name: String::from_str(alloc, kernel.name.as_str())?,
        parallel: kernel.parallel,
        params: copy_params(alloc, &kernel.params)?,
        locals: kernel.locals,
        body: Body {
            statements: copy_statements(alloc, &kernel.body.statements)?,
        },
    })
}

/// Parameters.
pub fn copy_params(alloc: Global, params: &[Param]) -> Result<Vec<Param>, NoMemory>
    ensures { IfOk result (λ copy. Pairwise SameParam params.now copy.items) }
{
    let mut copy = Vec::new(alloc);
    for p in params {
        copy.push(param(alloc, p)?)?;
    }
    Ok(copy)
}

fn param(alloc: Global, p: &Param) -> Result<Param, NoMemory>
    ensures { IfOk result (λ copy. SameParam p.now copy) }
{
    Ok(Param {
        name: String::from_str(alloc, p.name.as_str())?,
        kind: p.kind,
        access: p.access,
        by: p.by,
    })
}

// The two parts of an expression.
#[cycle(expr)]
fn pair(alloc: Global, parts: &(Expr, Expr)) -> Result<Box<(Expr, Expr)>, NoMemory>
    ensures { IfOk result (λ copy. SameExpr parts.now.0 copy.value.0 × SameExpr parts.now.1 copy.value.1) }
{
    let first = expr(alloc, &parts.0)?;
    let second = expr(alloc, &parts.1)?;
    Ok(Box::new(alloc, (first, second))?)
}

#[cycle(expr)]
fn expr(alloc: Global, e: &Expr) -> Result<Expr, NoMemory>
    ensures { IfOk result (λ copy. SameExpr e.now copy) }
{
    match e {
        Expr::Number(n) => Ok(Expr::Number(*n)),
        Expr::Index => Ok(Expr::Index),
        Expr::Local(k) => Ok(Expr::Local(*k)),
        Expr::Value(x) => Ok(Expr::Value(*x)),
        Expr::Element(x, e) => Ok(Expr::Element(*x, Box::new(alloc, expr(alloc, e)?)?)),
        Expr::Length(x) => Ok(Expr::Length(*x)),
        Expr::Has(x, e) => Ok(Expr::Has(*x, Box::new(alloc, expr(alloc, e)?)?)),
        Expr::Count(x, e) => Ok(Expr::Count(*x, Box::new(alloc, expr(alloc, e)?)?)),
        Expr::Item(x, both) => Ok(Expr::Item(*x, pair(alloc, both)?)),
        Expr::Negative(e) => Ok(Expr::Negative(Box::new(alloc, expr(alloc, e)?)?)),
        Expr::Not(e) => Ok(Expr::Not(Box::new(alloc, expr(alloc, e)?)?)),
        Expr::And(sides) => Ok(Expr::And(pair(alloc, sides)?)),
        Expr::Or(sides) => Ok(Expr::Or(pair(alloc, sides)?)),
        Expr::Binary(op, sides) => Ok(Expr::Binary(*op, pair(alloc, sides)?)),
    }
}

#[cycle(copy)]
fn statement(alloc: Global, s: &Stmt) -> Result<Stmt, NoMemory>
    ensures { IfOk result (λ copy. SameStmt s.now copy) }
{
    match s {
        Stmt::Assign(k, e) => Ok(Stmt::Assign(*k, expr(alloc, e)?)),
        Stmt::SetValue(x, e) => Ok(Stmt::SetValue(*x, expr(alloc, e)?)),
        Stmt::Store(x, e, f) => Ok(Stmt::Store(*x, expr(alloc, e)?, expr(alloc, f)?)),
        Stmt::Add(x, e) => Ok(Stmt::Add(*x, expr(alloc, e)?)),
        Stmt::AddPair(x, e, f) => Ok(Stmt::AddPair(*x, expr(alloc, e)?, expr(alloc, f)?)),
        Stmt::TryAdd(y, x, e, f) => Ok(Stmt::TryAdd(*y, *x, expr(alloc, e)?, expr(alloc, f)?)),
        Stmt::RemoveAt(x, e) => Ok(Stmt::RemoveAt(*x, expr(alloc, e)?)),
        Stmt::RemoveKey(y, x, e) => Ok(Stmt::RemoveKey(*y, *x, expr(alloc, e)?)),
        Stmt::Clear(x) => Ok(Stmt::Clear(*x)),
        Stmt::Write(x, e) => Ok(Stmt::Write(*x, expr(alloc, e)?)),
        Stmt::Begin(x, e, body) => Ok(Stmt::Begin(
            *x,
            expr(alloc, e)?,
            copy_statements(alloc, body)?,
        )),
        Stmt::If(e, body, other) => {
            let e = expr(alloc, e)?;
            let body = copy_statements(alloc, body)?;
            Ok(Stmt::If(e, body, copy_statements(alloc, other)?))
        }
        Stmt::For(k, e, f, body) => {
            let e = expr(alloc, e)?;
            let f = expr(alloc, f)?;
            Ok(Stmt::For(*k, e, f, copy_statements(alloc, body)?))
        }
        Stmt::While(e, body) => Ok(Stmt::While(expr(alloc, e)?, copy_statements(alloc, body)?)),
    }
}

/// Statements, one after another.
#[cycle(copy)]
pub fn copy_statements(alloc: Global, body: &[Stmt]) -> Result<Vec<Stmt>, NoMemory>
    ensures { IfOk result (λ copy. SameBody body.now copy.items) }
{
    let mut copy = Vec::new(alloc);
    for s in body {
        copy.push(statement(alloc, s)?)?;
    }
    Ok(copy)
}
