//! How deep the kept nodes of a kernel stand among all of its nodes.
//!
//! Of most kernels it is enough to know that no node stands too deep, and that few nodes are wide says so. Of others
//! the depths are counted: a node is under all nodes whose first and last node it stands between, so depths are running
//! sums: of how many nodes begin with a node, less how many end before it.
ghost use Rattle.std.specs.Prelude.{◌≡◌, ◌≤◌, ◌<◌, ◌+◌, ◌-◌, ◌==◌, ◌^◌, nat_lt, ℕ, List, take, length, slice_index, vec_len, IfOk};
ghost use Rattle.std.specs.List.{list_any};
ghost use Rattle.job_base.specs.declared.limits.TheConstants.{MOST_DEPTH};
ghost use Rattle.kernel_raw.specs.declared.raw.RawNode.{RawNode};
ghost use Rattle.kernel_raw.specs.declared.raw.TheConstants.{MOST_KEPT};
ghost use Rattle.kernel_raw.specs.Depths.{one_if, depths_of, kept_depths};
ghost use Rattle.kernel_raw.specs.Widths.{is_wide, count_wide, are_shallow};
ghost use Rattle.kernel_raw.specs.Edges.{opened, closed, AreKeptOf};
ghost use Rattle.kernel_raw.specs.Keeping.{one_more};
ghost use Rattle.kernel_raw.specs.RawTexts.{depth_at};

use crate::RawKernel;
use crate::raw::{MOST_KEPT, RawNode};
use job_base::NoMemory;
use job_base::limits::MOST_DEPTH;
use std::alloc::Global;

/// A node with no more nodes under it than these before it, and no more behind it, is narrow.
const NARROW: u32 = 15;

/// So many nodes stand near enough to a node to contain it though they are narrow, itself among them.
const NEIGHBOURS: u32 = 31;

fn is_wide(node: &RawNode) -> bool
    ensures { result ≡ is_wide node.now }
{
    node.before > NARROW || node.after > NARROW
}

fn count_wide(nodes: &[RawNode]) -> usize
    ensures count { result ≡ count_wide nodes.now }
    ensures few { result ≤ length nodes.now }
{
    let mut count = 0;
    for node in nodes {
        if is_wide(node) {
            count += 1;
        }
    }
    count
}

/// Whether so few of these nodes are wide that none stands deeper than `most`. Where they aren't, none needs to.
pub fn are_shallow(nodes: &[RawNode], most: u32) -> bool
    ensures { result ≡ are_shallow nodes.now most }
{
    count_wide(nodes) + NEIGHBOURS as usize <= most as usize
}

// How many nodes begin with each node, and how many end right before it.
#[derive(Drop)]
struct Edges {
    opened: Vec<usize>,
    closed: Vec<usize>,
}

/// Counts one more at a place, if it is among those that are counted.
pub fn count_one(counts: &mut Vec<usize>, place: usize)
    requires { (k : ℕ) → k < vec_len counts.old → slice_index counts.old.items k < 2 ^ 64 - 1 }
    ensures items { counts.new.items ≡ one_more place counts.old.items }
    ensures len { vec_len counts.new ≡ vec_len counts.old }
    ensures counts { (k : ℕ) → k < vec_len counts.old →
        slice_index counts.new.items k ≡ one_if (place == k) + slice_index counts.old.items k }
{
    if place < counts.len() {
        counts[place] += 1;
    }
}

// Those of the kept nodes, where so many late nodes begin with each of them. No late node ends before a kept one.
fn count_edges(alloc: Global, nodes: &[RawNode], joined: Vec<usize>) -> Result<Edges, NoMemory>
    requires begin { (k : ℕ) → k < length nodes.now → slice_index joined.items k + opened k 0 nodes.now < 2 ^ 32 }
    requires few { length nodes.now < 2 ^ 32 }
    ensures opened_len { IfOk result (λ e. vec_len e.opened ≡ length nodes.now) }
    ensures closed_len { IfOk result (λ e. vec_len e.closed ≡ length nodes.now) }
    ensures opened { IfOk result (λ e. (k : ℕ) → k < length nodes.now →
        slice_index e.opened.items k ≡ slice_index joined.items k + opened k 0 nodes.now) }
    ensures closed { IfOk result (λ e. (k : ℕ) → k < length nodes.now →
        slice_index e.closed.items k ≡ closed k 0 nodes.now) }
{
    let mut opened = joined;
    opened.resize(nodes.len(), 0)?;
    let mut closed = vec![in alloc; 0; nodes.len()]?;
    for (j, node) in nodes.iter().enumerate() {
        count_one(&mut opened, j.saturating_sub(node.before as usize));
        count_one(&mut closed, j + node.after as usize + 1);
    }
    Ok(Edges { opened, closed })
}

// How deep the kept nodes stand, where so many late operators begin with each of them.
fn depths_of(alloc: Global, nodes: &[RawNode], joined: Vec<usize>) -> Result<Vec<u32>, NoMemory>
    requires { (all : List RawNode) × AreKeptOf all nodes.now joined.items }
    ensures { IfOk result (λ v. (all : List RawNode) → AreKeptOf all nodes.now joined.items →
        v.items ≡ take MOST_KEPT (depths_of all)) }
{
    let edges = count_edges(alloc, nodes, joined)?;
    let mut depths = Vec::with_capacity(alloc, nodes.len())?;
    let mut depth = 0;
    for i in 0..nodes.len() {
        depth = depth - edges.closed[i] + edges.opened[i];
        depths.push(depth as u32)?;
    }
    Ok(depths)
}

fn is_one_too_deep(depths: &[u32]) -> bool
    ensures { result ≡ list_any (nat_lt MOST_DEPTH) depths.now }
{
    depths.iter().any(|depth| *depth > MOST_DEPTH)
}

/// How deep the kept nodes stand, where so many late operators begin with each of them. Nothing where none of them
/// stands too deep.
// Where there are fewer nodes than are kept, they are all nodes.
pub fn kept_depths(
    alloc: Global,
    nodes: &[RawNode],
    joined: Vec<usize>,
) -> Result<Vec<u32>, NoMemory>
    requires { (all : List RawNode) × AreKeptOf all nodes.now joined.items }
    ensures { IfOk result (λ v. (all : List RawNode) → AreKeptOf all nodes.now joined.items →
        v.items ≡ kept_depths (take MOST_KEPT (depths_of all))) }
{
    if nodes.len() < MOST_KEPT as usize && are_shallow(nodes, MOST_DEPTH) {
        return Ok(Vec::new(alloc));
    }
    let depths = depths_of(alloc, nodes, joined)?;
    if is_one_too_deep(&depths) {
        Ok(depths)
    } else {
        Ok(Vec::new(alloc))
    }
}

/// How deep the node of a number stands, counted from 1; 0 where no depths are kept.
#[inline]
pub fn depth_at(raw: &RawKernel<'_>, number: usize) -> u32
    ensures { result ≡ depth_at raw.now number }
{
    raw.depths.get(number).copied().unwrap_or(0)
}
