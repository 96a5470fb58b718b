//! How many nodes a checked kernel's statements have, and how deep the deepest is.

ghost use Rattle.std.specs.Prelude.{◌≡◌, ◌≤◌, ◌+◌, ◌<◌};
ghost use Rattle.job_base.specs.declared.limits.TheConstants.{MOST_NODES};
ghost use Rattle.frame_ast.specs.Checked.{IsChecked, expr_nodes, body_nodes};
ghost use Rattle.kernel_trees.specs.Sizes.{size_of, expr_size, statement_nodes, statement_size, body_size, beside, over};

use frame_ast::kernel::{Expr, Kernel, Stmt};

/// How many nodes statements have, and how deep the deepest is.
#[derive(Clone, Copy, Debug, PartialEq, Eq)]
pub struct Size {
    pub nodes: u32,
    pub depth: u32,
}

const LEAF: Size = Size { nodes: 1, depth: 1 };

/// How many nodes the statements of a checked kernel have, and how deep the deepest is.
pub fn size_of(kernel: &Kernel) -> Size
    requires { IsChecked kernel.now }
    ensures { result ≡ size_of kernel.now }
{
    block(&kernel.body.statements)
}

// Two trees side by side.
fn beside(a: Size, b: Size) -> Size
    requires small { a.nodes + b.nodes ≤ MOST_NODES }
    requires shallow { a.depth ≤ a.nodes }
    requires shallow_too { b.depth ≤ b.nodes }
    ensures size { result ≡ beside a b }
    ensures shallow { result.depth ≤ result.nodes }
{
    Size {
        nodes: a.nodes + b.nodes,
        depth: a.depth.max(b.depth),
    }
}

// A node over a tree.
fn over(a: Size) -> Size
    requires small { a.nodes < MOST_NODES }
    requires shallow { a.depth ≤ a.nodes }
    ensures size { result ≡ over a }
    ensures shallow { result.depth ≤ result.nodes }
{
    Size {
        nodes: 1 + a.nodes,
        depth: 1 + a.depth,
    }
}

fn expr(e: &Expr) -> Size
    requires { expr_nodes e.now ≤ MOST_NODES }
    ensures size { result ≡ expr_size e.now }
    ensures shallow { result.depth ≤ result.nodes }
{
    match e {
        Expr::Number(_) => LEAF,
        Expr::Index => LEAF,
        Expr::Local(_) => LEAF,
        Expr::Value(_) => LEAF,
        Expr::Element(_, e) => over(expr(e)),
        Expr::Length(_) => LEAF,
        Expr::Has(_, e) => over(expr(e)),
        Expr::Count(_, e) => over(expr(e)),
        Expr::Negative(e) => over(expr(e)),
        Expr::Not(e) => over(expr(e)),
        Expr::Item(_, sides) | Expr::And(sides) | Expr::Or(sides) | Expr::Binary(_, sides) => {
            let (e, f) = &**sides;
            over(beside(expr(e), expr(f)))
        }
    }
}

#[cycle(measure)]
fn statement(s: &Stmt) -> Size
    requires { statement_nodes s.now ≤ MOST_NODES }
    ensures size { result ≡ statement_size s.now }
    ensures shallow { result.depth ≤ result.nodes }
{
    match s {
        Stmt::Assign(_, e) => over(expr(e)),
        Stmt::SetValue(_, e) => over(expr(e)),
        Stmt::Store(_, e, f) => over(beside(expr(e), expr(f))),
        Stmt::Add(_, e) => over(expr(e)),
        Stmt::AddPair(_, e, f) => over(beside(expr(e), expr(f))),
        Stmt::TryAdd(_, _, e, f) => over(beside(expr(e), expr(f))),
        Stmt::RemoveAt(_, e) => over(expr(e)),
        Stmt::RemoveKey(_, _, e) => over(expr(e)),
        Stmt::Clear(_) => LEAF,
        Stmt::Write(_, e) => over(expr(e)),
        Stmt::Begin(_, e, body) => over(beside(expr(e), block(body))),
        Stmt::If(e, body, other) => over(beside(expr(e), beside(block(body), block(other)))),
        Stmt::For(_, e, f, body) => over(beside(expr(e), beside(expr(f), block(body)))),
        Stmt::While(e, body) => over(beside(expr(e), block(body))),
    }
}

// Statements side by side.
#[cycle(measure)]
fn block(body: &[Stmt]) -> Size
    requires { body_nodes body.now ≤ MOST_NODES }
    ensures size { result ≡ body_size body.now }
    ensures shallow { result.depth ≤ result.nodes }
{
    let mut size = Size { nodes: 0, depth: 0 };
    for s in body {
        size = beside(size, statement(s));
    }
    size
}
