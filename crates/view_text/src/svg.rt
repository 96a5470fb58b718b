//! A picture as SVG, in a page that needs nothing else.
ghost use Rattle.std.specs.Prelude.{◌≡◌, ◌+◌, ◌++◌, ◌^◌, ◌<◌, Option, length, string_bytes, option_copied, IfOk};
ghost use Rattle.view_text.specs.Layouts.{IsLayoutOf};
ghost use Rattle.view_text.specs.Places.{ArePlacesOf};
ghost use Rattle.view_text.specs.Pages.{box_class, arrow_class, line_text, lines_text, frame_text, box_text, boxes_text, point_text, path_text, label_text, curve_text, arrow_text, arrows_text, row_text, rows_text, opening_text, drawing_text, head_text, body_text, section_text, spot_at, IsPageOf};

use crate::curve::{Curve, curve_between};
use crate::escaping::{Language, escape};
use crate::layout::{Layout, Spot, lay_out};
use crate::picture::{Kind, Link, Node, Picture, Tie};
use crate::places::Places;
use std::alloc::{AllocError, Global};

/// What a page begins with.
pub const PAGE_HEAD: &str =
    "<!DOCTYPE html>\n<html lang=\"en\">\n<meta charset=\"utf-8\">\n<title>Frame</title>\n\
     <p>A box is a job: its number and handle, its call, the line of its schedule, and the containers that it uses. \
     It waits for the jobs that arrows come from: as a dependency or, dashed, because the script had completed them \
     before. Waits that others imply are left out. Heavy: a longest chain. Red: a schedule that was refused, and the \
     job that blocks it.</p>\n";

/// How boxes and arrows look, and the head of an arrow.
const STYLE: &str =
    "<style>text{font:12px monospace}.note{font:10px monospace;fill:#555}rect{fill:#f7f7f2;stroke:#555}\
     path{fill:none;stroke:#777;stroke-width:1.2;marker-end:url(#head)}\
     .chain rect{stroke:#000;stroke-width:2.5}.chain path{stroke:#000;stroke-width:2.5}\
     .completed path{stroke-dasharray:6 4}.refused rect{fill:#fff0f0;stroke:#c00;stroke-dasharray:5 3}\
     .blocks path{stroke:#c00;stroke-dasharray:2 3}.refused text,.blocks text{fill:#c00}g:hover rect{fill:#ffc}\
     </style>\n<defs><marker id=\"head\" viewBox=\"0 0 8 8\" refX=\"8\" refY=\"4\" markerWidth=\"8\" \
     markerHeight=\"8\" markerUnits=\"userSpaceOnUse\" orient=\"auto\">\
     <path d=\"M0 0L8 4L0 8z\" style=\"fill:#555;stroke:none\"/></marker></defs>\n";

fn box_class(kind: Kind) -> &'static str
    ensures { result.now ≡ box_class kind }
{
    match kind {
        Kind::Job => "job",
        Kind::Chain => "job chain",
        Kind::Refused => "refused",
    }
}

fn arrow_class(tie: Tie) -> &'static str
    ensures { result.now ≡ arrow_class tie }
{
    match tie {
        Tie::Depends => "depends",
        Tie::DependsOnChain => "depends chain",
        Tie::Completed => "completed",
        Tie::CompletedOnChain => "completed chain",
        Tie::Blocks => "blocks",
    }
}

fn line_text(alloc: Global, line: &str) -> Result<String, AllocError>
    ensures { IfOk result (λ s. string_bytes s ≡ line_text line.now) }
{
    let text = escape(alloc, line, Language::Html)?;
    format!(in alloc; "<tspan x=\"8\" dy=\"16\">{text}</tspan>")
}

fn lines_text(alloc: Global, lines: &[String]) -> Result<String, AllocError>
    ensures { IfOk result (λ s. string_bytes s ≡ lines_text lines.now) }
{
    let mut text = String::new(alloc);
    for line in lines {
        let part = line_text(alloc, line.as_str())?;
        text.push_str(part.as_str())?;
    }
    Ok(text)
}

#[tactic(auto, unfolding(crate::specs::Pages::frame_text))]
fn frame_text(alloc: Global, spot: &Spot) -> Result<String, AllocError>
    ensures { IfOk result (λ s. string_bytes s ≡ frame_text spot.now) }
{
    let Spot {
        x,
        y,
        width,
        height,
    } = *spot;
    format!(in alloc;
        " transform=\"translate({x} {y})\"><rect width=\"{width}\" height=\"{height}\" rx=\"4\"/>"
    )
}

fn box_text(alloc: Global, node: &Node, spot: &Spot) -> Result<String, AllocError>
    ensures { IfOk result (λ s. string_bytes s ≡ box_text node.now spot.now) }
{
    let class = box_class(node.kind);
    let frame = frame_text(alloc, spot)?;
    let lines = lines_text(alloc, &node.lines)?;
    format!(in alloc; "<g class=\"{class}\"{frame}<text>{lines}</text></g>\n")
}

fn boxes_text(alloc: Global, nodes: &[Node], spots: &[Spot]) -> Result<String, AllocError>
    requires { length spots.now ≡ length nodes.now }
    ensures { IfOk result (λ s. string_bytes s ≡ boxes_text nodes.now spots.now) }
{
    let mut text = String::new(alloc);
    for at in 0..nodes.len() {
        let part = box_text(alloc, &nodes[at], &spots[at])?;
        text.push_str(part.as_str())?;
    }
    Ok(text)
}

#[tactic(auto, unfolding(crate::specs::Pages::point_text))]
fn point_text(alloc: Global, x: u32, y: u32) -> Result<String, AllocError>
    ensures { IfOk result (λ s. string_bytes s ≡ point_text x y) }
{
    format!(in alloc; "{x} {y}")
}

fn path_text(alloc: Global, curve: &Curve) -> Result<String, AllocError>
    ensures { IfOk result (λ s. string_bytes s ≡ path_text curve.now) }
{
    let start = point_text(alloc, curve.x, curve.y)?;
    let below = point_text(alloc, curve.x, curve.half_y)?;
    let above = point_text(alloc, curve.end_x, curve.half_y)?;
    let end = point_text(alloc, curve.end_x, curve.end_y)?;
    format!(in alloc; "<path d=\"M{start}C{below} {above} {end}\"/>")
}

fn label_text(alloc: Global, link: &Link, curve: &Curve) -> Result<String, AllocError>
    ensures { IfOk result (λ s. string_bytes s ≡ label_text link.now curve.now) }
{
    let label = escape(alloc, link.label.as_str(), Language::Html)?;
    let x = curve.half_x;
    let y = curve.half_y;
    format!(in alloc; "<text class=\"note\" x=\"{x}\" y=\"{y}\" dx=\"4\">{label}</text>")
}

fn curve_text(alloc: Global, link: &Link, curve: &Curve) -> Result<String, AllocError>
    ensures { IfOk result (λ s. string_bytes s ≡ curve_text link.now curve.now) }
{
    let class = arrow_class(link.tie);
    let path = path_text(alloc, curve)?;
    let label = label_text(alloc, link, curve)?;
    format!(in alloc; "<g class=\"{class}\">{path}{label}</g>\n")
}

// An arrow between two boxes, where both are there.
fn arrow_text(
    alloc: Global,
    link: &Link,
    from: Option<Spot>,
    to: Option<Spot>,
) -> Result<String, AllocError>
    ensures { IfOk result (λ s. string_bytes s ≡ arrow_text link.now from to) }
{
    match (from, to) {
        (Some(from), Some(to)) => curve_text(alloc, link, &curve_between(&from, &to)),
        (Some(_), None) | (None, _) => Ok(String::new(alloc)),
    }
}

fn spot_at(spots: &[Spot], place: Option<usize>) -> Option<Spot>
    ensures { result ≡ spot_at spots.now place }
{
    match place {
        Some(at) => spots.get(at).copied(),
        None => None,
    }
}

fn arrows_text(
    alloc: Global,
    nodes: &[Node],
    spots: &[Spot],
    links: &[Link],
    places: &Places,
) -> Result<String, AllocError>
    requires { ArePlacesOf nodes.now places.now }
    ensures { IfOk result (λ s. string_bytes s ≡ arrows_text nodes.now spots.now links.now) }
{
    let mut text = String::new(alloc);
    for link in links {
        let from = spot_at(spots, places.source_of(link));
        let to = spot_at(spots, places.target_of(link));
        let part = arrow_text(alloc, link, from, to)?;
        text.push_str(part.as_str())?;
    }
    Ok(text)
}

#[tactic(auto, unfolding(crate::specs::Pages::row_text))]
fn row_text(alloc: Global, level: usize, y: u32) -> Result<String, AllocError>
    ensures { IfOk result (λ s. string_bytes s ≡ row_text level y) }
{
    format!(in alloc; "<text class=\"note\" x=\"8\" y=\"{y}\" dy=\"16\">level {level}</text>\n")
}

fn rows_text(alloc: Global, rows: &[u32]) -> Result<String, AllocError>
    ensures { IfOk result (λ s. string_bytes s ≡ rows_text 1 rows.now) }
{
    let mut text = String::new(alloc);
    for at in 0..rows.len() {
        let part = row_text(alloc, at + 1, rows[at])?;
        text.push_str(part.as_str())?;
    }
    Ok(text)
}

#[tactic(auto, unfolding(crate::specs::Pages::opening_text))]
fn opening_text(alloc: Global, layout: &Layout) -> Result<String, AllocError>
    ensures { IfOk result (λ s. string_bytes s ≡ opening_text layout.now) }
{
    let width = layout.width;
    let height = layout.height;
    format!(in alloc;
        "<svg xmlns=\"http://www.w3.org/2000/svg\" width=\"{width}\" height=\"{height}\">\n{STYLE}"
    )
}

fn drawing_text(
    alloc: Global,
    picture: &Picture,
    layout: &Layout,
    places: &Places,
) -> Result<String, AllocError>
    requires laid_out { IsLayoutOf picture.now layout.now }
    requires places { ArePlacesOf picture.now.nodes.items places.now }
    ensures { IfOk result (λ s. string_bytes s ≡ drawing_text picture.now layout.now) }
{
    let opening = opening_text(alloc, layout)?;
    let rows = rows_text(alloc, &layout.rows)?;
    let arrows = arrows_text(alloc, &picture.nodes, &layout.spots, &picture.links, places)?;
    let boxes = boxes_text(alloc, &picture.nodes, &layout.spots)?;
    format!(in alloc; "{opening}{rows}{arrows}{boxes}</svg>\n")
}

fn head_text(alloc: Global, picture: &Picture) -> Result<String, AllocError>
    ensures { IfOk result (λ s. string_bytes s ≡ head_text picture.now) }
{
    let number = picture.number;
    let head = escape(alloc, picture.head.as_str(), Language::Html)?;
    format!(in alloc; "<h2>Section {number}</h2>\n<p>{head}</p>\n")
}

// A picture without boxes has no drawing.
fn body_text(
    alloc: Global,
    picture: &Picture,
    layout: &Layout,
    places: &Places,
) -> Result<String, AllocError>
    requires laid_out { IsLayoutOf picture.now layout.now }
    requires places { ArePlacesOf picture.now.nodes.items places.now }
    ensures { IfOk result (λ s. string_bytes s
        ≡ body_text picture.now.nodes.items (drawing_text picture.now layout.now)) }
{
    if picture.nodes.is_empty() {
        return Ok(String::new(alloc));
    }
    drawing_text(alloc, picture, layout, places)
}

fn section_text(
    alloc: Global,
    picture: &Picture,
    layout: &Layout,
    places: &Places,
) -> Result<String, AllocError>
    requires laid_out { IsLayoutOf picture.now layout.now }
    requires places { ArePlacesOf picture.now.nodes.items places.now }
    ensures { IfOk result (λ s. string_bytes s ≡ section_text picture.now layout.now) }
{
    let head = head_text(alloc, picture)?;
    let body = body_text(alloc, picture, layout, places)?;
    format!(in alloc; "{head}{body}")
}

/// The part of a page that shows a picture: its number and its head, and the drawing where it has boxes.
pub fn svg_text(alloc: Global, picture: &Picture) -> Result<String, AllocError>
    ensures { IfOk result (λ s. IsPageOf picture.now (string_bytes s)) }
{
    let places = Places::of(alloc, &picture.nodes)?;
    let layout = lay_out(alloc, picture, &places)?;
    let text = section_text(alloc, picture, &layout, &places)?;
    Ok(text)
}
