//! What the names of all nodes stand for, up to the first fault.

ghost use Rattle.std.specs.Prelude.{◌≡◌, ◌≤◌, ◌<◌, ◌++◌, ◌||◌, ◌+◌, ℕ, None, Some, length, slice_get, vec_len, IfOk, OnOk, MatchResult};
ghost use Rattle.kernel_code.specs.StaticFaults.{is_over_limit, node_fault, nodes_fault};
ghost use Rattle.kernel_code.specs.Scopes.{declares, end_in, block_end, local_of, local_if, locals_before, locals_of};
ghost use Rattle.kernel_code.specs.Known.{AreNames, stands_in, is_block, IsKnown, name_named, name_stored, meanings_from};

use crate::check::forms::{declares, is_begin, is_loop};
use crate::check::names::{Local, Meaning, Named, as_local, names_of, parameter_at};
use crate::check::nodes::look_up;
use crate::check::plain::plain_name;
use crate::check::streams::{StreamBlock, close_blocks};
use job_base::NoMemory;
use job_base::limits::{MOST_DEPTH, MOST_LOCALS, MOST_NODES, MOST_PARAMS};
use kernel_raw::{RawKernel, RawNode, StaticFault, depth_at};
use std::alloc::Global;

/// What the names of the nodes stand for, and how many locals there are.
#[derive(Drop)]
pub struct Meanings {
    pub of_nodes: Vec<Meaning>,
    pub locals: u32,
}

// What is kept of the nodes before one.
#[derive(Drop)]
struct Known {
    locals: Vec<Local>,
    /// The `begin` blocks, of which the last may have ended.
    blocks: Vec<StreamBlock>,
    /// What the names of the nodes stand for.
    of_nodes: Vec<Meaning>,
}

// The node behind the block in which a node stands.
fn block_end(nodes: &[RawNode], number: usize, owner: Option<u32>) -> usize
    ensures { result ≡ block_end nodes.now number owner }
{
    let Some(p) = owner else {
        return nodes.len();
    };
    match nodes.get(p as usize) {
        Some(owner) => {
            let inside = p as usize + 1 + owner.heads as usize + owner.inside as usize;
            if number < inside {
                inside
            } else {
                p as usize + 1 + owner.after as usize
            }
        }
        None => nodes.len(),
    }
}

// The local that a node declares.
fn local_of(nodes: &[RawNode], number: usize, node: &RawNode) -> Local
    requires { number < length nodes.now }
    ensures { result ≡ local_of nodes.now number node.now }
{
    if is_loop(node.form) {
        let start = number + 1 + node.heads as usize;
        Local {
            name: node.name,
            start,
            end: start + node.inside as usize,
            is_loop: true,
        }
    } else {
        Local {
            name: node.name,
            start: number + 1 + node.after as usize,
            end: block_end(nodes, number, node.owner),
            is_loop: false,
        }
    }
}

// Keeps the local that a node declares, if it declares one, and tells what its name stands for.
fn note_local(
    raw: &RawKernel<'_>,
    locals: &mut Vec<Local>,
    number: usize,
    node: &RawNode,
    named: Option<Named>,
) -> Result<Option<Named>, NoMemory>
    requires within { number < length raw.now.nodes.items }
    requires few { length locals.old.items ≤ MOST_LOCALS }
    requires locals { locals.old.items ≡ locals_before raw.now.nodes.items number }
    requires named { named ≡ name_named raw.now number node.now }
    ensures locals { OnOk result (locals.new.items ≡ locals.old.items
        ++ local_if (declares node.now.form) (local_of raw.now.nodes.items number node.now)) }
    ensures named { IfOk result (λ name. name ≡ name_stored raw.now number node.now) }
{
    if !declares(node.form) {
        return Ok(named);
    }
    let local = local_of(&raw.nodes, number, node);
    let name = as_local(local.is_loop, locals.len() as u32);
    locals.push(local)?;
    Ok(Some(name))
}

// Keeps the block of a node, if it is the `begin` of a parameter.
fn note_block(
    raw: &RawKernel<'_>,
    names: &[&[u8]],
    blocks: &mut Vec<StreamBlock>,
    number: usize,
    node: &RawNode,
) -> Result<(), NoMemory>
    requires within { number < length raw.now.nodes.items }
    requires names { AreNames raw.now names.now }
    requires few { length raw.now.params.items ≤ MOST_PARAMS }
    ensures { OnOk result ((x j : ℕ) →
        stands_in x j blocks.new.items ≡ (stands_in x j blocks.old.items || is_block raw.now x j number node.now)) }
{
    if !is_begin(node.form) {
        return Ok(());
    }
    let Some(x) = parameter_at(raw, names, node.name) else {
        return Ok(());
    };
    let start = number + 1 + node.heads as usize;
    blocks.push(StreamBlock {
        stream: x as u32,
        start,
        end: start + node.inside as usize,
    })?;
    Ok(())
}

// What is kept of a node whatever it is, or its first fault.
// Few nodes come here, and in line this would take registers from the loop over all.
#[inline(never)]
fn note_rare(
    raw: &RawKernel<'_>,
    names: &[&[u8]],
    known: &mut Known,
    number: usize,
    node: &RawNode,
    is_over: bool,
) -> Result<Option<StaticFault>, NoMemory>
    requires names { AreNames raw.now names.now }
    requires params { length raw.now.params.items ≤ MOST_PARAMS }
    requires here { slice_get raw.now.nodes.items number ≡ Some node.now }
    requires known { IsKnown raw.now number known.old.locals.items known.old.blocks.items known.old.of_nodes.items }
    requires over { is_over ≡ is_over_limit raw.now number }
    ensures fault { IfOk result (λ fault. fault ≡ node_fault raw.now number node.now) }
    ensures known { IfOk result (λ fault. fault ≡ None →
        IsKnown raw.now (number + 1) known.new.locals.items known.new.blocks.items known.new.of_nodes.items) }
{
    close_blocks(&mut known.blocks, number);
    let meaning = match look_up(
        raw,
        names,
        &known.locals,
        &known.blocks,
        number,
        node,
        is_over,
    ) {
        Ok(meaning) => meaning,
        Err(fault) => return Ok(Some(fault)),
    };
    let answer = meaning.answer;
    let name = note_local(raw, &mut known.locals, number, node, meaning.name)?;
    note_block(raw, names, &mut known.blocks, number, node)?;
    known.of_nodes.push(Meaning { answer, name })?;
    Ok(None)
}

// What is kept of a node, or its first fault.
#[inline(always)]
fn note_node(
    raw: &RawKernel<'_>,
    names: &[&[u8]],
    known: &mut Known,
    number: usize,
    node: &RawNode,
    is_over: bool,
) -> Result<Option<StaticFault>, NoMemory>
    requires names { AreNames raw.now names.now }
    requires params { length raw.now.params.items ≤ MOST_PARAMS }
    requires here { slice_get raw.now.nodes.items number ≡ Some node.now }
    requires known { IsKnown raw.now number known.old.locals.items known.old.blocks.items known.old.of_nodes.items }
    requires over { is_over ≡ is_over_limit raw.now number }
    ensures fault { IfOk result (λ fault. fault ≡ node_fault raw.now number node.now) }
    ensures known { IfOk result (λ fault. fault ≡ None →
        IsKnown raw.now (number + 1) known.new.locals.items known.new.blocks.items known.new.of_nodes.items) }
{
    if !is_over && let Some(name) = plain_name(raw, names, &known.locals, number, node) {
        known.of_nodes.push(Meaning { answer: None, name })?;
        return Ok(None);
    }
    note_rare(raw, names, known, number, node, is_over)
}

/// What the names of all nodes stand for, or the first fault.
// Once for a kernel; out of line its loop has all registers.
#[inline(never)]
pub fn resolve(
    alloc: Global,
    raw: &RawKernel<'_>,
) -> Result<Result<Meanings, StaticFault>, NoMemory>
    requires { length raw.now.params.items ≤ MOST_PARAMS }
    ensures { IfOk result (λ r. MatchResult r
        (λ m. (nodes_fault raw.now 0 raw.now.nodes.items ≡ None)
        × (m.of_nodes.items ≡ meanings_from raw.now 0 raw.now.nodes.items)
        × (m.locals ≡ length (locals_of raw.now.nodes.items)))
        (λ fault. nodes_fault raw.now 0 raw.now.nodes.items ≡ Some fault)) }
{
    let names = names_of(alloc, raw)?;
    let mut known = Known {
        locals: Vec::new(alloc),
        blocks: Vec::new(alloc),
        of_nodes: Vec::with_capacity(alloc, raw.nodes.len())?,
    };
    for number in 0..raw.nodes.len() {
        let node = &raw.nodes[number];
        let is_over = number >= MOST_NODES as usize || depth_at(raw, number) > MOST_DEPTH;
        if let Some(fault) = note_node(raw, &names, &mut known, number, node, is_over)? {
            return Ok(Err(fault));
        }
    }
    let locals = known.locals.len() as u32;
    let of_nodes = known.of_nodes;
    Ok(Ok(Meanings { of_nodes, locals }))
}
