// The texts of one picture, written by hand.
use std::alloc::{AllocError, Global};
use std::test::Fail;
use view_text::{Kind, Link, Node, PAGE_HEAD, Picture, Tie, dot_text, svg_text};

fn texts(alloc: Global, lines: &[&str]) -> Result<Vec<String>, AllocError> {
    let mut texts = Vec::new(alloc);
    for line in lines {
        texts.push(String::from_str(alloc, line)?)?;
    }
    Ok(texts)
}

fn job(alloc: Global, number: u32, lines: &[&str]) -> Result<Node, AllocError> {
    Ok(Node {
        number,
        kind: Kind::Chain,
        level: number,
        lines: texts(alloc, lines)?,
    })
}

fn link(alloc: Global, from: u32, to: u32, tie: Tie, label: &str) -> Result<Link, AllocError> {
    Ok(Link {
        from,
        to,
        tie,
        label: String::from_str(alloc, label)?,
    })
}

const HEAD: &str =
    "jobs 2, pieces 3, refused 0; rounds 2, widest 2, workers 4: 2 rounds, at least 2";

const GRAPH: &str =
    "digraph section1 {\n  label=\"jobs 2, pieces 3, refused 0; rounds 2, widest 2, workers 4: \
                     2 rounds, at least 2\" labelloc=t\n  node [shape=box fontname=monospace fontsize=11]\n  \
                     edge [fontname=monospace fontsize=10]\n  j1 [label=\"job 1 h1\\lscale(x, y)\\l\
                     line 6, indexes 4, pieces 2\\lro x\\lwo y\\l\" penwidth=2.5]\n  \
                     j2 [label=\"job 2 h2\\ltotal(y, t)\\lline 7\\lro y\\lwo t\\l\" penwidth=2.5]\n  \
                     j1 -> j2 [label=\"y\" penwidth=2.5]\n}\n";

// Two jobs, of which the second waits for the first.
#[test]
fn a_graph(rt: HostRuntime) -> Result<(), Fail> {
    let alloc = rt.alloc();
    let first = [
        "job 1 h1",
        "scale(x, y)",
        "line 6, indexes 4, pieces 2",
        "ro x",
        "wo y",
    ];
    let second = ["job 2 h2", "total(y, t)", "line 7", "ro y", "wo t"];
    let picture = Picture {
        number: 1,
        head: String::from_str(alloc, HEAD)?,
        levels: 2,
        nodes: vec![in alloc; job(alloc, 1, &first)?, job(alloc, 2, &second)?]?,
        links: vec![in alloc; link(alloc, 1, 2, Tie::DependsOnChain, "y")?]?,
    };
    assert_eq!(rt; dot_text(alloc, &picture)?.as_str(), GRAPH);
    Ok(())
}

// What the page has after its style: the rows, an arrow from the job to the refused schedule, and the two boxes.
const DRAWING: &str = "<text class=\"note\" x=\"8\" y=\"12\" dy=\"16\">level 1</text>\n\
     <text class=\"note\" x=\"8\" y=\"92\" dy=\"16\">level 2</text>\n\
     <g class=\"blocks\"><path d=\"M103 36C103 64 103 64 103 92\"/>\
     <text class=\"note\" x=\"102\" y=\"64\" dx=\"4\">&lt;p&amp;q&quot;</text></g>\n\
     <g class=\"job chain\" transform=\"translate(70 12)\"><rect width=\"67\" height=\"24\" rx=\"4\"/>\
     <text><tspan x=\"8\" dy=\"16\">job 1\\&quot;</tspan></text></g>\n\
     <g class=\"refused\" transform=\"translate(74 92)\"><rect width=\"59\" height=\"24\" rx=\"4\"/>\
     <text><tspan x=\"8\" dy=\"16\">r &lt; 10</tspan></text></g>\n</svg>\n";

// A job that blocks a schedule, with characters that are escaped.
#[test]
fn a_page(rt: HostRuntime) -> Result<(), Fail> {
    let alloc = rt.alloc();
    let refused = Node {
        number: 1,
        kind: Kind::Refused,
        level: 2,
        lines: texts(alloc, &["r < 10"])?,
    };
    let picture = Picture {
        number: 3,
        head: String::from_str(alloc, "a & b")?,
        levels: 2,
        nodes: vec![in alloc; job(alloc, 1, &["job 1\\\""])?, refused]?,
        links: vec![in alloc; link(alloc, 1, 1, Tie::Blocks, "<p&q\"")?]?,
    };
    let page = svg_text(alloc, &picture)?;
    let head =
        "<h2>Section 3</h2>\n<p>a &amp; b</p>\n<svg xmlns=\"http://www.w3.org/2000/svg\" width=\"165\" \
                height=\"172\">\n<style>";
    assert!(rt; page.as_str().starts_with(head));
    let (_, drawing) = page.as_str().split_once("</defs>\n").ok_or("a style")?;
    assert_eq!(rt; drawing, DRAWING);
    let graph = dot_text(alloc, &picture)?;
    assert!(rt;
        graph
            .as_str()
            .contains("[label=\"job 1\\\\\\\"\\l\" penwidth=2.5]")
    );
    assert!(rt;
        graph
            .as_str()
            .contains("j1 -> r1 [label=\"<p&q\\\"\" style=dashed")
    );
    Ok(())
}
