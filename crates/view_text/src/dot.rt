//! A picture in the language of Graphviz.
ghost use Rattle.std.specs.Prelude.{◌≡◌, ◌++◌, List, codes, decimal, string_bytes, IfOk};
ghost use Rattle.view_text.specs.Escapes.{escaped};
ghost use Rattle.view_text.specs.Graphs.{letter, node_style, tie_style, target, lines_text, node_text, nodes_text, link_text, links_text, head_text, graph_text};

use crate::escaping::{Language, escape};
use crate::picture::{Kind, Link, Node, Picture, Tie};
use std::alloc::{AllocError, Global};

fn letter(kind: Kind) -> &'static str
    ensures { result.now ≡ letter kind }
{
    match kind {
        Kind::Job | Kind::Chain => "j",
        Kind::Refused => "r",
    }
}

fn node_style(kind: Kind) -> &'static str
    ensures { result.now ≡ node_style kind }
{
    match kind {
        Kind::Job => "",
        Kind::Chain => " penwidth=2.5",
        Kind::Refused => " color=red fontcolor=red style=dashed",
    }
}

fn tie_style(tie: Tie) -> &'static str
    ensures { result.now ≡ tie_style tie }
{
    match tie {
        Tie::Depends => "",
        Tie::DependsOnChain => " penwidth=2.5",
        Tie::Completed => " style=dashed",
        Tie::CompletedOnChain => " style=dashed penwidth=2.5",
        Tie::Blocks => " style=dashed color=red fontcolor=red arrowhead=tee",
    }
}

// The letter of the box that an arrow leads to.
fn target(tie: Tie) -> &'static str
    ensures { result.now ≡ target tie }
{
    match tie {
        Tie::Blocks => "r",
        Tie::Depends | Tie::DependsOnChain | Tie::Completed | Tie::CompletedOnChain => "j",
    }
}

// The lines of a box, each with the mark that sets it flush left.
fn lines_text(alloc: Global, lines: &[String]) -> Result<String, AllocError>
    ensures { IfOk result (λ s. string_bytes s ≡ lines_text lines.now) }
{
    let mut text = String::new(alloc);
    for line in lines {
        let part = escape(alloc, line.as_str(), Language::Dot)?;
        text.push_str(part.as_str())?;
        text.push_str("\\l")?;
    }
    Ok(text)
}

fn node_text(alloc: Global, node: &Node) -> Result<String, AllocError>
    ensures { IfOk result (λ s. string_bytes s ≡ node_text node.now) }
{
    let name = letter(node.kind);
    let number = node.number;
    let lines = lines_text(alloc, &node.lines)?;
    let style = node_style(node.kind);
    format!(in alloc; "  {name}{number} [label=\"{lines}\"{style}]\n")
}

fn link_text(alloc: Global, link: &Link) -> Result<String, AllocError>
    ensures { IfOk result (λ s. string_bytes s ≡ link_text link.now) }
{
    let from = link.from;
    let name = target(link.tie);
    let to = link.to;
    let label = escape(alloc, link.label.as_str(), Language::Dot)?;
    let style = tie_style(link.tie);
    format!(in alloc; "  j{from} -> {name}{to} [label=\"{label}\"{style}]\n")
}

fn nodes_text(alloc: Global, nodes: &[Node]) -> Result<String, AllocError>
    ensures { IfOk result (λ s. string_bytes s ≡ nodes_text nodes.now) }
{
    let mut text = String::new(alloc);
    for node in nodes {
        let part = node_text(alloc, node)?;
        text.push_str(part.as_str())?;
    }
    Ok(text)
}

fn links_text(alloc: Global, links: &[Link]) -> Result<String, AllocError>
    ensures { IfOk result (λ s. string_bytes s ≡ links_text links.now) }
{
    let mut text = String::new(alloc);
    for link in links {
        let part = link_text(alloc, link)?;
        text.push_str(part.as_str())?;
    }
    Ok(text)
}

#[tactic(auto, unfolding(crate::specs::Graphs::head_text))]
fn head_text(alloc: Global, picture: &Picture) -> Result<String, AllocError>
    ensures { IfOk result (λ s. string_bytes s ≡ head_text picture.now) }
{
    let number = picture.number;
    let head = escape(alloc, picture.head.as_str(), Language::Dot)?;
    format!(in alloc;
        "digraph section{number} {{\n  label=\"{head}\" labelloc=t\n  \
         node [shape=box fontname=monospace fontsize=11]\n  edge [fontname=monospace fontsize=10]\n"
    )
}

/// The text of a section's graph.
pub fn dot_text(alloc: Global, picture: &Picture) -> Result<String, AllocError>
    ensures { IfOk result (λ s. string_bytes s ≡ graph_text picture.now) }
{
    let head = head_text(alloc, picture)?;
    let nodes = nodes_text(alloc, &picture.nodes)?;
    let links = links_text(alloc, &picture.links)?;
    format!(in alloc; "{head}{nodes}{links}}}\n")
}
