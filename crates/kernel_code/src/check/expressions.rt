//! The expressions of a kernel without faults.
//!
//! The nodes of an expression stand in the order of their tokens. A part that is no operator between
//! two sides has what is under it after it. After the left side of an operator stands the operator
//! itself, which says how many nodes its left side has, and then the right side.

ghost use Rattle.std.specs.Prelude.{◌≡◌, ◌≤◌, ◌<◌, ◌+◌, ◌-◌, ◌↔◌, ℕ, pos, min, if◌then◌else◌, length, slice_get, IfOk, IfSome, MatchOption, Some, IsTrue};
ghost use Rattle.kernel_raw.specs.declared.raw.RawNode.{RawNode};
ghost use Rattle.kernel_code.specs.declared.check.names.Meaning.{Meaning};
ghost use Rattle.frame_ast.specs.declared.kernel.Expr.TheVariants.{Negative', Not'};
ghost use Rattle.kernel_raw.specs.Raw.{RawExpr};
ghost use Rattle.kernel_raw.specs.RawTexts.{value_at};
ghost use Rattle.kernel_code.specs.Known.{number_named};
ghost use Rattle.kernel_code.specs.Trees.{joint_of, joins};
ghost use Rattle.kernel_code.specs.Places.{value_named, leaf_of, IsOneOf, IsJoint, IsHere, IsAtomHere, Begins, IsBuilt, IsResolved};

use crate::check::names::{Meaning, Named};
use crate::check::nodes::MOST_NUMBER;
use crate::check::operators::{is_minus, operator_of};
use frame_ast::kernel::Expr;
use frame_grammar::{TokenAt, TokenKind};
use job_base::NoMemory;
use kernel_raw::{RawForm, RawKernel, RawNode, kind_at, node_at, value_at};
use std::alloc::Global;

/// What was built of nodes, and the place of the node after them.
#[derive(Drop)]
pub struct Built {
    pub expr: Expr,
    pub next: usize,
}

// The number of what a name stands for. Where there is no fault each name stands for something.
pub fn number_of(named: Option<Named>) -> u32
    ensures { result ≡ number_named named }
{
    match named {
        Some(Named::Parameter(x)) => x,
        Some(Named::Variable(k)) => k,
        Some(Named::LoopVariable(k)) => k,
        None => 0,
    }
}

/// What the names of a node stand for.
pub fn meaning_at(meanings: &[Meaning], number: usize) -> Meaning
    ensures { (m : Meaning) → slice_get meanings.now number ≡ Some m → result ≡ m }
{
    match meanings.get(number) {
        Some(meaning) => *meaning,
        None => Meaning {
            answer: None,
            name: None,
        },
    }
}

// The value of a Number. Where there is no fault it is an i64.
fn number_at(raw: &RawKernel<'_>, at: TokenAt) -> i64
    ensures { result ≡ pos (min 9223372036854775807 (value_at raw.now at)) }
{
    value_at(raw, at).min(MOST_NUMBER) as i64
}

// The expression of a name as a value.
fn value_named(named: Option<Named>) -> Expr
    ensures { result ≡ value_named named }
{
    match named {
        Some(Named::Parameter(x)) => Expr::Value(x),
        Some(Named::Variable(k)) => Expr::Local(k),
        Some(Named::LoopVariable(k)) => Expr::Local(k),
        None => Expr::Index,
    }
}

// The expression of a node with nothing under it. Of the forms of the last arm only `index` is one.
fn leaf_expression(raw: &RawKernel<'_>, node: RawNode, named: Option<Named>) -> Expr
    ensures { result ≡ leaf_of raw.now node.form node.at named }
{
    match node.form {
        RawForm::Number => Expr::Number(number_at(raw, node.at)),
        RawForm::Name => value_named(named),
        RawForm::Length => Expr::Length(number_of(named)),
        RawForm::Index
        | RawForm::Element
        | RawForm::Has
        | RawForm::Count
        | RawForm::Item
        | RawForm::Unary
        | RawForm::Binary
        | RawForm::Var
        | RawForm::SetName
        | RawForm::SetPlace
        | RawForm::SetTryAdd
        | RawForm::SetRemove
        | RawForm::AddItem
        | RawForm::AddPair
        | RawForm::Remove
        | RawForm::Clear
        | RawForm::Write
        | RawForm::Begin
        | RawForm::If
        | RawForm::IfElse
        | RawForm::For
        | RawForm::While => Expr::Index,
    }
}

// The expression of a unary operator.
fn unary(is_minus: bool, inner: Box<Expr>) -> Expr
    ensures { (p : _) × (result ≡ (if is_minus then Negative' p inner.value else Not' p inner.value)) }
{
    if is_minus {
        Expr::Negative(inner)
    } else {
        Expr::Not(inner)
    }
}

// The expression of a node with one expression under it. Of the forms of the last arm only a unary operator is one.
fn one_operand(
    alloc: Global,
    raw: &RawKernel<'_>,
    node: RawNode,
    named: Option<Named>,
    inner: Expr,
) -> Result<Expr, NoMemory>
    ensures { IfOk result (λ x. IsOneOf raw.now node.form node.at named inner x) }
{
    let inner = Box::new(alloc, inner)?;
    match node.form {
        RawForm::Element => Ok(Expr::Element(number_of(named), inner)),
        RawForm::Has => Ok(Expr::Has(number_of(named), inner)),
        RawForm::Count => Ok(Expr::Count(number_of(named), inner)),
        RawForm::Unary
        | RawForm::Number
        | RawForm::Index
        | RawForm::Name
        | RawForm::Length
        | RawForm::Item
        | RawForm::Binary
        | RawForm::Var
        | RawForm::SetName
        | RawForm::SetPlace
        | RawForm::SetTryAdd
        | RawForm::SetRemove
        | RawForm::AddItem
        | RawForm::AddPair
        | RawForm::Remove
        | RawForm::Clear
        | RawForm::Write
        | RawForm::Begin
        | RawForm::If
        | RawForm::IfElse
        | RawForm::For
        | RawForm::While => { Ok(unary(is_minus(kind_at(raw, node.at)), inner)) }
    }
}

// The expression of an operator between two sides.
fn binary(alloc: Global, kind: TokenKind, left: Expr, right: Expr) -> Result<Expr, NoMemory>
    requires { IsTrue (joins kind) }
    ensures { IfOk result (λ x. IsJoint (joint_of kind) left right x) }
{
    let sides = Box::new(alloc, (left, right))?;
    match kind {
        TokenKind::AndAnd => Ok(Expr::And(sides)),
        TokenKind::OrOr => Ok(Expr::Or(sides)),
        _ => match operator_of(kind) {
            Some(operator) => Ok(Expr::Binary(operator, sides)),
            None => unreachable!(),
        },
    }
}

// The operator that takes the nodes from `start` to `next` as its left side.
fn infix_at(raw: &RawKernel<'_>, start: usize, next: usize) -> Option<RawNode>
    requires { start ≤ next }
    ensures cases { MatchOption result
        ((node : RawNode) → slice_get raw.now.nodes.items next ≡ Some node → node.form ≡ RawForm.Binary →
        node.before ≡ next - start → ⊥)
        (λ node. (slice_get raw.now.nodes.items next ≡ Some node) × (node.form ≡ RawForm.Binary)
        × (node.before ≡ next - start)) }
    ensures within { IfSome result (λ node. next < length raw.now.nodes.items) }
{
    let node = node_at(raw, next)?;
    if is_binary(node.form) && node.before as usize == next - start {
        Some(node)
    } else {
        None
    }
}

fn is_binary(form: RawForm) -> bool
    ensures { IsTrue result ↔ (form ≡ RawForm.Binary) }
{
    matches!(form, RawForm::Binary)
}

// The part of an expression from a node on that is no operator between two sides.
#[cycle(expression)]
fn atom(
    alloc: Global,
    raw: &RawKernel<'_>,
    meanings: &[Meaning],
    at: usize,
) -> Result<Built, NoMemory>
    requires resolved { IsResolved raw.now meanings.now }
    requires within { at ≤ length raw.now.nodes.items }
    ensures next { IfOk result (λ r. (at ≤ r.next) × (r.next ≤ length raw.now.nodes.items)) }
    ensures built { IfOk result (λ r. (e : RawExpr) → IsAtomHere raw.now at e →
        IsBuilt raw.now at e r.expr r.next) }
{
    let Some(node) = node_at(raw, at) else {
        return Ok(Built {
            expr: Expr::Index,
            next: at,
        });
    };
    let named = meaning_at(meanings, at).name;
    match node.form {
        RawForm::Element | RawForm::Has | RawForm::Count | RawForm::Unary => {
            let inner = expression(alloc, raw, meanings, at + 1)?;
            Ok(Built {
                expr: one_operand(alloc, raw, node, named, inner.expr)?,
                next: inner.next,
            })
        }
        RawForm::Item => {
            let first = expression(alloc, raw, meanings, at + 1)?;
            let second = expression(alloc, raw, meanings, first.next)?;
            let both = Box::new(alloc, (first.expr, second.expr))?;
            Ok(Built {
                expr: Expr::Item(number_of(named), both),
                next: second.next,
            })
        }
        RawForm::Number
        | RawForm::Index
        | RawForm::Name
        | RawForm::Length
        | RawForm::Binary
        | RawForm::Var
        | RawForm::SetName
        | RawForm::SetPlace
        | RawForm::SetTryAdd
        | RawForm::SetRemove
        | RawForm::AddItem
        | RawForm::AddPair
        | RawForm::Remove
        | RawForm::Clear
        | RawForm::Write
        | RawForm::Begin
        | RawForm::If
        | RawForm::IfElse
        | RawForm::For
        | RawForm::While => Ok(Built {
            expr: leaf_expression(raw, node, named),
            next: at + 1,
        }),
    }
}

// The expression from a node on whose left side, or its left side and so on, was built.
#[cycle(expression)]
fn chain(
    alloc: Global,
    raw: &RawKernel<'_>,
    meanings: &[Meaning],
    start: usize,
    left: Built,
) -> Result<Built, NoMemory>
    requires resolved { IsResolved raw.now meanings.now }
    requires start { start ≤ left.next }
    requires within { left.next ≤ length raw.now.nodes.items }
    ensures next { IfOk result (λ r. (left.next ≤ r.next) × (r.next ≤ length raw.now.nodes.items)) }
    ensures built { IfOk result (λ r. (l e : RawExpr) → Begins l e →
        IsHere raw.now start e → IsBuilt raw.now start l left.expr left.next → IsBuilt raw.now start e r.expr r.next) }
{
    let Some(node) = infix_at(raw, start, left.next) else {
        return Ok(left);
    };
    let Built { expr, next } = left;
    let right = expression(alloc, raw, meanings, next + 1)?;
    let both = Built {
        next: right.next,
        expr: binary(alloc, kind_at(raw, node.at), expr, right.expr)?,
    };
    chain(alloc, raw, meanings, start, both)
}

/// The expression from a node on.
#[cycle(expression)]
pub fn expression(
    alloc: Global,
    raw: &RawKernel<'_>,
    meanings: &[Meaning],
    at: usize,
) -> Result<Built, NoMemory>
    requires resolved { IsResolved raw.now meanings.now }
    requires within { at ≤ length raw.now.nodes.items }
    ensures next { IfOk result (λ r. (at ≤ r.next) × (r.next ≤ length raw.now.nodes.items)) }
    ensures built { IfOk result (λ r. (e : RawExpr) → IsHere raw.now at e →
        IsBuilt raw.now at e r.expr r.next) }
{
    let first = atom(alloc, raw, meanings, at)?;
    chain(alloc, raw, meanings, at, first)
}
