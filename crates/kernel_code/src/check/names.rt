//! What names stand for: parameters and locals.

ghost use Rattle.std.specs.Prelude.{◌≡◌, ◌≤◌, ◌<◌, ◌^◌, ℕ, length, if◌then◌else◌, IfOk, IfSome};
ghost use Rattle.std.specs.List.{position};
ghost use Rattle.std.specs.Str.{bytes_eq};
ghost use Rattle.job_base.specs.declared.limits.TheConstants.{MOST_LOCALS, MOST_PARAMS};
ghost use Rattle.kernel_raw.specs.RawTexts.{text_at};
ghost use Rattle.kernel_code.specs.Scopes.{parameter, in_scope, as_local, local_among, meaning_among};
ghost use Rattle.kernel_code.specs.declared.check.names.Named.TheVariants.{Variable, LoopVariable};
ghost use Rattle.kernel_code.specs.Known.{AreNames};

use frame_grammar::TokenAt;
use job_base::NoMemory;
use kernel_raw::{RawKernel, is_spelled, text_at};
use kernel_text::is_same;
use std::alloc::Global;

/// What a name stands for, by its number among the parameters or the locals.
#[derive(Clone, Copy, Debug, PartialEq, Eq)]
pub enum Named {
    Parameter(u32),
    /// A local of a `var`.
    Variable(u32),
    /// A local of a `for`.
    LoopVariable(u32),
}

/// A local: the token of its name, and the nodes at which it is in scope, from `start` up to `end`.
#[derive(Clone, Copy, Debug, PartialEq, Eq)]
pub struct Local {
    pub name: TokenAt,
    pub start: usize,
    pub end: usize,
    pub is_loop: bool,
}

/// What the names of a node stand for.
#[derive(Clone, Copy, Debug, PartialEq, Eq)]
pub struct Meaning {
    /// The local before an effect.
    pub answer: Option<Named>,
    /// Its name; the local itself where the node declares one.
    pub name: Option<Named>,
}

/// The names of the parameters, which are looked up at each name of the kernel and so are read once.
pub fn names_of<'a>(alloc: Global, raw: &RawKernel<'a>) -> Result<Vec<&'a [u8]>, NoMemory>
    ensures { IfOk result (λ names. AreNames raw.now names.items) }
{
    let mut names = Vec::with_capacity(alloc, raw.params.len())?;
    for param in &raw.params {
        names.push(text_at(raw, param.name))?;
    }
    Ok(names)
}

// The first of these names that is the same.
fn place_of(names: &[&[u8]], name: &[u8]) -> Option<usize>
    ensures found { result ≡ position (λ n. bytes_eq n.now name.now) names.now }
    ensures within { IfSome result (λ x. x < length names.now) }
{
    names.iter().position(|other| is_same(other, name))
}

/// The parameter that the name at a place is, where the parameters have these names.
pub fn parameter_at(raw: &RawKernel<'_>, names: &[&[u8]], at: TokenAt) -> Option<usize>
    requires { AreNames raw.now names.now }
    ensures found { result ≡ parameter raw.now (text_at raw.now at) }
    ensures within { IfSome result (λ x. x < length raw.now.params.items) }
{
    place_of(names, text_at(raw, at))
}

fn in_scope(node: usize, local: Local) -> bool
    ensures { result ≡ in_scope node local }
{
    local.start <= node && node < local.end
}

/// What a local is, by its number and by whether a `for` declares it.
pub fn as_local(is_loop: bool, number: u32) -> Named
    ensures { result ≡ (if is_loop then LoopVariable number else Variable number) }
{
    if is_loop {
        Named::LoopVariable(number)
    } else {
        Named::Variable(number)
    }
}

// The local in scope at a node that a name is.
#[inline(always)]
fn local_among(raw: &RawKernel<'_>, locals: &[Local], node: usize, name: &[u8]) -> Option<Named>
    requires { length locals.now ≤ MOST_LOCALS }
    ensures { result ≡ local_among raw.now node name.now 0 locals.now }
{
    for (k, local) in locals.iter().enumerate() {
        if in_scope(node, *local) && is_spelled(raw, local.name, name) {
            return Some(as_local(local.is_loop, k as u32));
        }
    }
    None
}

/// What a name is at a node, where the parameters have these names and these locals are declared before it.
// In line, since almost all calls are those of one loop.
#[inline(always)]
pub fn meaning_of(
    raw: &RawKernel<'_>,
    names: &[&[u8]],
    locals: &[Local],
    node: usize,
    name: &[u8],
) -> Option<Named>
    requires names { AreNames raw.now names.now }
    requires few_params { length raw.now.params.items ≤ MOST_PARAMS }
    requires few_locals { length locals.now ≤ MOST_LOCALS }
    ensures { result ≡ meaning_among raw.now locals.now node name.now }
{
    match place_of(names, name) {
        Some(x) => Some(Named::Parameter(x as u32)),
        None => local_among(raw, locals, node, name),
    }
}
