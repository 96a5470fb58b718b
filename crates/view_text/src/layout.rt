//! Where boxes stand. A level is a row, and a box stands below what it waits for, as near as the boxes before it let
//! it.
//!
//! Each box and each arrow is looked at once: the boxes of a row and the sources of a box are listed before.
ghost use Rattle.std.specs.Prelude.{◌≡◌, ◌-◌, length, map, IfOk};
ghost use Rattle.view_text.specs.Layouts.{top_of, IsLayoutOf};

use crate::picture::{Node, Picture};
use crate::places::Places;
use std::alloc::{AllocError, Global};

// A character is 7.3 pixels wide, and a line 16 pixels high.
const TENTHS_OF_A_CHARACTER: u32 = 73;

const LINE_HEIGHT: u32 = 16;

// Left and right of the text of a box, and below it.
const INSET: u32 = 8;

// Between boxes of a row, between rows, and beside and above all of them.
const SIDE_GAP: u32 = 28;

const ROW_GAP: u32 = 56;

const LEFT: u32 = 70;

const TOP: u32 = 12;

/// Where a box stands, in pixels.
#[derive(Clone, Copy, Debug, PartialEq, Eq)]
pub struct Spot {
    pub x: u32,
    pub y: u32,
    pub width: u32,
    pub height: u32,
}

/// Where all boxes stand, and how large the whole is.
#[derive(Drop)]
pub struct Layout {
    /// One for each box.
    pub spots: Vec<Spot>,
    /// The top of each row, level 1 first.
    pub rows: Vec<u32>,
    pub width: u32,
    pub height: u32,
}

// A number of 32 bits, and the greatest one for what is more.
fn to_pixels(n: usize) -> u32 {
    u32::try_from(n).unwrap_or(u32::MAX)
}

fn width_of(node: &Node) -> u32 {
    let mut most = 0;
    for line in &node.lines {
        most = line.len().max(most);
    }
    let text = to_pixels(most).saturating_mul(TENTHS_OF_A_CHARACTER) / 10;
    text.saturating_add(2 * INSET)
}

fn height_of(node: &Node) -> u32 {
    let text = to_pixels(node.lines.len()).saturating_mul(LINE_HEIGHT);
    text.saturating_add(INSET)
}

// The place of a level's row.
fn row_of(level: u32) -> usize
    ensures { result ≡ level - 1 }
{
    level.saturating_sub(1) as usize
}

// So many lists with nothing in them.
fn empty_lists(alloc: Global, count: usize) -> Result<Vec<Vec<usize>>, AllocError>
    ensures { IfOk result (λ lists. length lists.items ≡ count) }
{
    let mut lists = Vec::new(alloc);
    for _ in 0..count {
        lists.push(Vec::new(alloc))?;
    }
    Ok(lists)
}

// The boxes of each row.
fn boxes_by_row(alloc: Global, picture: &Picture) -> Result<Vec<Vec<usize>>, AllocError>
    ensures { IfOk result (λ rows. length rows.items ≡ picture.now.levels) }
{
    let mut rows = empty_lists(alloc, picture.levels as usize)?;
    for at in 0..picture.nodes.len() {
        add_to(&mut rows, row_of(picture.nodes[at].level), at)?;
    }
    Ok(rows)
}

// Adds to the list at a place, where there is one.
fn add_to(lists: &mut Vec<Vec<usize>>, place: usize, what: usize) -> Result<(), AllocError>
    ensures { length lists.new.items ≡ length lists.old.items }
{
    if let Some(list) = lists.get_mut(place) {
        list.push(what)?;
    }
    Ok(())
}

// The boxes from which arrows come to each box.
fn sources_by_box(
    alloc: Global,
    picture: &Picture,
    places: &Places,
) -> Result<Vec<Vec<usize>>, AllocError> {
    let mut sources = empty_lists(alloc, picture.nodes.len())?;
    for link in &picture.links {
        if let (Some(from), Some(to)) = (places.source_of(link), places.target_of(link)) {
            add_to(&mut sources, to, from)?;
        }
    }
    Ok(sources)
}

// The tops of the rows, each below the tallest box of the row before, and where the last one ends.
fn tops(alloc: Global, nodes: &[Node], boxes: &[Vec<usize>]) -> Result<(Vec<u32>, u32), AllocError>
    ensures { IfOk result (λ t. length t.0.items ≡ length boxes.now) }
{
    let mut tops = Vec::new(alloc);
    let mut y = TOP;
    for row in boxes {
        tops.push(y)?;
        y = y
            .saturating_add(tallest(nodes, row))
            .saturating_add(ROW_GAP);
    }
    Ok((tops, y))
}

fn tallest(nodes: &[Node], row: &[usize]) -> u32 {
    let mut most = 0;
    for at in row {
        if let Some(node) = nodes.get(*at) {
            most = height_of(node).max(most);
        }
    }
    most
}

// The top of the row of a level.
fn top_of(rows: &[u32], level: u32) -> u32
    ensures { result ≡ top_of rows.now level }
{
    rows.get(row_of(level)).copied().unwrap_or(0)
}

// The middle of the boxes at these places, and 0 where there is none.
fn middle_of(sources: &[usize], lefts: &[u32], widths: &[u32]) -> u32 {
    let mut sum = 0u64;
    let mut count = 0u64;
    for at in sources {
        if let (Some(left), Some(width)) = (lefts.get(*at), widths.get(*at)) {
            sum = sum.saturating_add(u64::from(left.saturating_add(width / 2)));
            count = count.saturating_add(1);
        }
    }
    if count == 0 {
        return 0;
    }
    u32::try_from(sum / count).unwrap_or(u32::MAX)
}

// The boxes of a row, each after where it would stand, from left to right.
fn in_order(
    alloc: Global,
    row: &[usize],
    sources: &[Vec<usize>],
    lefts: &[u32],
    widths: &[u32],
) -> Result<Vec<(u32, usize)>, AllocError> {
    let mut order = Vec::new(alloc);
    for at in row {
        if let Some(from) = sources.get(*at) {
            order.push((middle_of(from, lefts, widths), *at))?;
        }
    }
    order.sort()?;
    Ok(order)
}

// Sets the boxes of a row side by side. The answer is where the row ends.
fn set_row(lefts: &mut [u32], widths: &[u32], order: &[(u32, usize)]) -> u32 {
    let mut x = LEFT;
    for (middle, at) in order {
        let width = widths.get(*at).copied().unwrap_or(0);
        let left = x.max(middle.saturating_sub(width / 2));
        if let Some(place) = lefts.get_mut(*at) {
            *place = left;
            x = left.saturating_add(width).saturating_add(SIDE_GAP);
        }
    }
    x
}

// Where each box begins from the left, and where the widest row ends.
fn lefts_of(
    alloc: Global,
    widths: &[u32],
    boxes: &[Vec<usize>],
    sources: &[Vec<usize>],
) -> Result<(Vec<u32>, u32), AllocError>
    ensures { IfOk result (λ t. length t.0.items ≡ length widths.now) }
{
    let mut lefts = vec![in alloc; LEFT; widths.len()]?;
    let mut end = LEFT;
    for row in boxes {
        let order = in_order(alloc, row, sources, &lefts, widths)?;
        end = set_row(&mut lefts, widths, &order).max(end);
    }
    Ok((lefts, end))
}

fn spots_of(
    alloc: Global,
    nodes: &[Node],
    rows: &[u32],
    lefts: &[u32],
    widths: &[u32],
) -> Result<Vec<Spot>, AllocError>
    requires lefts { length lefts.now ≡ length nodes.now }
    requires widths { length widths.now ≡ length nodes.now }
    ensures { IfOk result (λ v. map (λ s. s.y) v.items ≡ map (λ n. top_of rows.now n.level) nodes.now) }
{
    let mut spots = Vec::new(alloc);
    for at in 0..nodes.len() {
        let node = &nodes[at];
        spots.push(Spot {
            x: lefts[at],
            y: top_of(rows, node.level),
            width: widths[at],
            height: height_of(node),
        })?;
    }
    Ok(spots)
}

/// Lays a picture out.
pub(crate) fn lay_out(
    alloc: Global,
    picture: &Picture,
    places: &Places,
) -> Result<Layout, AllocError>
    ensures { IfOk result (IsLayoutOf picture.now) }
{
    let boxes = boxes_by_row(alloc, picture)?;
    let sources = sources_by_box(alloc, picture, places)?;
    let widths: Vec<u32> = picture
        .nodes
        .iter()
        .map(|node| width_of(node))
        .collect(alloc)?;
    let (lefts, width) = lefts_of(alloc, &widths, &boxes, &sources)?;
    let (rows, height) = tops(alloc, &picture.nodes, &boxes)?;
    let spots = spots_of(alloc, &picture.nodes, &rows, &lefts, &widths)?;
    Ok(Layout {
        spots,
        rows,
        width,
        height,
    })
}
