//! The statements of a kernel without faults.
//!
//! A statement has the nodes of its expressions behind it, and then those of its blocks.

ghost use Rattle.std.specs.Prelude.{◌≡◌, ◌≤◌, ◌<◌, ◌+◌, ℕ, Option, List, length, slice_get, IfOk, Some, IsTrue};
ghost use Rattle.frame_ast.specs.declared.kernel.Stmt.{Stmt, out-Stmt};
ghost use Rattle.kernel_raw.specs.Raw.{RawBlock, block_size, statement_count};
ghost use Rattle.kernel_code.specs.Known.{number_named};
ghost use Rattle.kernel_code.specs.Trees.{BlockOf};
ghost use Rattle.kernel_code.specs.Places.{set_of, statement_with_one, statement_with_two, has_first, IsFirst, IsBlockHere, IsResolved};

use crate::check::expressions::{expression, meaning_at, number_of};
use crate::check::names::{Meaning, Named};
use frame_ast::kernel::{Expr, Stmt};
use job_base::NoMemory;
use kernel_raw::{RawForm, RawKernel, RawNode, node_at};
use std::alloc::Global;

// The statement `x = e;`.
fn set_of(named: Option<Named>, e: Expr) -> Stmt
    ensures { out-Stmt result ≡ set_of named e }
{
    match named {
        Some(Named::Parameter(x)) => Stmt::SetValue(x, e),
        Some(Named::Variable(k)) => Stmt::Assign(k, e),
        Some(Named::LoopVariable(k)) => Stmt::Assign(k, e),
        None => Stmt::Assign(0, e),
    }
}

// The statement of a form with one expression and no block. Of the forms of the last arm only `write` is one.
fn statement_with_one(form: RawForm, meaning: Meaning, e: Expr) -> Stmt
    ensures { out-Stmt result ≡ statement_with_one form meaning e }
{
    match form {
        RawForm::Var => Stmt::Assign(number_of(meaning.name), e),
        RawForm::SetName => set_of(meaning.name, e),
        RawForm::SetRemove => {
            Stmt::RemoveKey(number_of(meaning.answer), number_of(meaning.name), e)
        }
        RawForm::AddItem => Stmt::Add(number_of(meaning.name), e),
        RawForm::Remove => Stmt::RemoveAt(number_of(meaning.name), e),
        RawForm::Write
        | RawForm::Number
        | RawForm::Index
        | RawForm::Name
        | RawForm::Element
        | RawForm::Length
        | RawForm::Has
        | RawForm::Count
        | RawForm::Item
        | RawForm::Unary
        | RawForm::Binary
        | RawForm::SetPlace
        | RawForm::SetTryAdd
        | RawForm::AddPair
        | RawForm::Clear
        | RawForm::Begin
        | RawForm::If
        | RawForm::IfElse
        | RawForm::For
        | RawForm::While => { Stmt::Write(number_of(meaning.name), e) }
    }
}

// The statement of a form with two expressions and no block. Of the forms of the last arm only `add` of a map is one.
fn statement_with_two(form: RawForm, meaning: Meaning, e: Expr, f: Expr) -> Stmt
    ensures { out-Stmt result ≡ statement_with_two form meaning e f }
{
    match form {
        RawForm::SetPlace => Stmt::Store(number_of(meaning.name), e, f),
        RawForm::SetTryAdd => {
            Stmt::TryAdd(number_of(meaning.answer), number_of(meaning.name), e, f)
        }
        RawForm::AddPair
        | RawForm::Number
        | RawForm::Index
        | RawForm::Name
        | RawForm::Element
        | RawForm::Length
        | RawForm::Has
        | RawForm::Count
        | RawForm::Item
        | RawForm::Unary
        | RawForm::Binary
        | RawForm::Var
        | RawForm::SetName
        | RawForm::SetRemove
        | RawForm::AddItem
        | RawForm::Remove
        | RawForm::Clear
        | RawForm::Write
        | RawForm::Begin
        | RawForm::If
        | RawForm::IfElse
        | RawForm::For
        | RawForm::While => { Stmt::AddPair(number_of(meaning.name), e, f) }
    }
}

// The statement of a node. Of the forms of the last arm only `clear` is one.
#[cycle(statement)]
fn statement(
    alloc: Global,
    raw: &RawKernel<'_>,
    meanings: &[Meaning],
    at: usize,
    node: RawNode,
) -> Result<Stmt, NoMemory>
    requires resolved { IsResolved raw.now meanings.now }
    requires here { slice_get raw.now.nodes.items at ≡ Some node }
    ensures { IfOk result (λ s. (owner : Option ℕ) (b : RawBlock) →
        IsTrue (has_first b) → IsBlockHere raw.now owner at b → IsFirst raw.now at b s) }
{
    let meaning = meaning_at(meanings, at);
    let inner = at + 1 + node.heads as usize;
    let behind = inner + node.inside as usize;
    match node.form {
        RawForm::Var
        | RawForm::SetName
        | RawForm::SetRemove
        | RawForm::AddItem
        | RawForm::Remove
        | RawForm::Write => {
            let e = expression(alloc, raw, meanings, at + 1)?;
            Ok(statement_with_one(node.form, meaning, e.expr))
        }
        RawForm::SetPlace | RawForm::SetTryAdd | RawForm::AddPair => {
            let e = expression(alloc, raw, meanings, at + 1)?;
            let f = expression(alloc, raw, meanings, e.next)?;
            Ok(statement_with_two(node.form, meaning, e.expr, f.expr))
        }
        RawForm::Begin => {
            let e = expression(alloc, raw, meanings, at + 1)?;
            let body = block(alloc, raw, meanings, inner, behind)?;
            Ok(Stmt::Begin(number_of(meaning.name), e.expr, body))
        }
        RawForm::If => {
            let e = expression(alloc, raw, meanings, at + 1)?;
            let body = block(alloc, raw, meanings, inner, behind)?;
            Ok(Stmt::If(e.expr, body, Vec::new(alloc)))
        }
        RawForm::IfElse => {
            let e = expression(alloc, raw, meanings, at + 1)?;
            let body = block(alloc, raw, meanings, inner, behind)?;
            let end = at + 1 + node.after as usize;
            let other = block(alloc, raw, meanings, behind, end)?;
            Ok(Stmt::If(e.expr, body, other))
        }
        RawForm::For => {
            let e = expression(alloc, raw, meanings, at + 1)?;
            let f = expression(alloc, raw, meanings, e.next)?;
            let body = block(alloc, raw, meanings, inner, behind)?;
            Ok(Stmt::For(number_of(meaning.name), e.expr, f.expr, body))
        }
        RawForm::While => {
            let e = expression(alloc, raw, meanings, at + 1)?;
            let body = block(alloc, raw, meanings, inner, behind)?;
            Ok(Stmt::While(e.expr, body))
        }
        RawForm::Clear
        | RawForm::Number
        | RawForm::Index
        | RawForm::Name
        | RawForm::Element
        | RawForm::Length
        | RawForm::Has
        | RawForm::Count
        | RawForm::Item
        | RawForm::Unary
        | RawForm::Binary => { Ok(Stmt::Clear(number_of(meaning.name))) }
    }
}

// How many statements stand from one node up to another, so that their list is made with room for them.
fn count_statements(raw: &RawKernel<'_>, from: usize, end: usize) -> usize
    ensures { (owner : Option ℕ) (b : RawBlock) →
        IsBlockHere raw.now owner from b → end ≡ from + block_size b → result ≡ statement_count b }
{
    let mut count = 0;
    let mut at = from;
    while at < end && at < raw.nodes.len() {
        count += 1;
        at += 1 + raw.nodes[at].after as usize;
    }
    count
}

/// The statements of the nodes from one up to another.
#[cycle(statement)]
pub fn block(
    alloc: Global,
    raw: &RawKernel<'_>,
    meanings: &[Meaning],
    from: usize,
    end: usize,
) -> Result<Vec<Stmt>, NoMemory>
    requires { IsResolved raw.now meanings.now }
    ensures { IfOk result (λ v. (owner : Option ℕ) (b : RawBlock) →
        IsBlockHere raw.now owner from b → end ≡ from + block_size b → BlockOf raw.now from b v.items) }
{
    let mut statements = Vec::with_capacity(alloc, count_statements(raw, from, end))?;
    let mut at = from;
    while at < end {
        let Some(node) = node_at(raw, at) else {
            return Ok(statements);
        };
        statements.push(statement(alloc, raw, meanings, at, node)?)?;
        at += 1 + node.after as usize;
    }
    Ok(statements)
}
