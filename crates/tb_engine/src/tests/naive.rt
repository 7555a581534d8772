//! Witness trees by the definition's recursion, over nodes in boxes, whose values have no byte that is escaped.

use std::alloc::{AllocError, Global};
use tb_pattern::{Edge, Mark};
use tb_span::Axis;
use tb_tree::{Node, Test};

/// What is offered below a node with these kids, row by row; texts side by side aren't joined yet.
#[cycle(naive)]
pub fn rows(alloc: Global, edges: &[Edge], kids: &[Node]) -> Result<Vec<Vec<u8>>, AllocError> {
    let mut rows = Vec::new(alloc);
    rows.push(Vec::new(alloc))?;
    for edge in edges {
        let trees = trees(alloc, edge, kids)?;
        let offers = offers(alloc, edge.mark, trees)?;
        rows = product(alloc, rows.as_slice(), offers.as_slice())?;
    }
    Ok(rows)
}

// The trees of all witnesses of an edge.
#[cycle(naive)]
fn trees(alloc: Global, edge: &Edge, kids: &[Node]) -> Result<Vec<Vec<u8>>, AllocError> {
    let mut nodes = Vec::new(alloc);
    push_axis(edge.axis, kids, &mut nodes)?;
    let mut trees = Vec::new(alloc);
    for node in &nodes {
        if !meets(&edge.to.test, node) {
            continue;
        }
        let rows = rows(alloc, edge.to.edges.as_slice(), kids_of(node))?;
        for row in &rows {
            let mut tree = Vec::new(alloc);
            push_tree(edge.to.whole, node, row.as_slice(), &mut tree)?;
            trees.push(tree)?;
        }
    }
    Ok(trees)
}

fn offers(alloc: Global, mark: Mark, trees: Vec<Vec<u8>>) -> Result<Vec<Vec<u8>>, AllocError> {
    match mark {
        Mark::One => Ok(trees),
        Mark::Optional => match trees.is_empty() {
            true => together(alloc, trees.as_slice()),
            false => Ok(trees),
        },
        Mark::Some => match trees.is_empty() {
            true => Ok(trees),
            false => together(alloc, trees.as_slice()),
        },
        Mark::Any => together(alloc, trees.as_slice()),
    }
}

fn together(alloc: Global, trees: &[Vec<u8>]) -> Result<Vec<Vec<u8>>, AllocError> {
    let mut all = Vec::new(alloc);
    for tree in trees {
        all.extend_from_slice(tree.as_slice())?;
    }
    let mut offers = Vec::new(alloc);
    offers.push(all)?;
    Ok(offers)
}

fn product(
    alloc: Global,
    rows: &[Vec<u8>],
    offers: &[Vec<u8>],
) -> Result<Vec<Vec<u8>>, AllocError> {
    let mut all = Vec::new(alloc);
    for row in rows {
        for offer in offers {
            let mut longer = row.as_slice().to_vec(alloc)?;
            longer.extend_from_slice(offer.as_slice())?;
            all.push(longer)?;
        }
    }
    Ok(all)
}

fn push_axis<'a>(
    axis: Axis,
    kids: &'a [Node],
    nodes: &mut Vec<&'a Node>,
) -> Result<(), AllocError> {
    if let Axis::Descendant = axis {
        return push_all(kids, nodes);
    }
    for kid in kids {
        nodes.push(kid)?;
    }
    Ok(())
}

fn push_all<'a>(kids: &'a [Node], nodes: &mut Vec<&'a Node>) -> Result<(), AllocError> {
    for kid in kids {
        nodes.push(kid)?;
        if let Node::Elem { kids, .. } = kid {
            push_all(kids.as_slice(), nodes)?;
        }
    }
    Ok(())
}

fn kids_of(node: &Node) -> &[Node] {
    match node {
        Node::Elem { kids, .. } => kids.as_slice(),
        _ => &[],
    }
}

fn meets(test: &Test, node: &Node) -> bool {
    match (test, node) {
        (Test::Name(wanted), Node::Elem { name, .. }) => wanted.as_slice() == name.as_slice(),
        (Test::AnyElement, Node::Elem { .. }) => true,
        (Test::AttrName(wanted), Node::Attr { name, .. }) => wanted.as_slice() == name.as_slice(),
        (Test::AnyAttr, Node::Attr { .. }) => true,
        (Test::AnyText, Node::Text { .. }) => true,
        _ => false,
    }
}

fn push_tree(whole: bool, node: &Node, inside: &[u8], out: &mut Vec<u8>) -> Result<(), AllocError> {
    match node {
        Node::Elem { name, kids } => {
            if whole {
                push_attributes(kids.as_slice(), out)?;
            }
            push_line(b"(", name.as_slice(), out)?;
            if whole {
                push_content(kids.as_slice(), out)?;
            }
            out.extend_from_slice(inside)?;
            push_line(b")", name.as_slice(), out)
        }
        Node::Attr { name, value } => {
            push_line(b"(@", name.as_slice(), out)?;
            if whole && !value.as_slice().is_empty() {
                push_line(b"-", value.as_slice(), out)?;
            }
            out.extend_from_slice(inside)?;
            push_line(b")@", name.as_slice(), out)
        }
        Node::Text { value } => push_line(b"-", value.as_slice(), out),
    }
}

fn push_attributes(kids: &[Node], out: &mut Vec<u8>) -> Result<(), AllocError> {
    for kid in kids {
        if let Node::Attr { name, value } = kid {
            out.push(b'A')?;
            out.extend_from_slice(name.as_slice())?;
            push_line(b" CDATA ", value.as_slice(), out)?;
        }
    }
    Ok(())
}

fn push_content(kids: &[Node], out: &mut Vec<u8>) -> Result<(), AllocError> {
    for kid in kids {
        match kid {
            Node::Elem { name, kids } => {
                push_attributes(kids.as_slice(), out)?;
                push_line(b"(", name.as_slice(), out)?;
                push_content(kids.as_slice(), out)?;
                push_line(b")", name.as_slice(), out)?;
            }
            Node::Attr { .. } => {}
            Node::Text { value } => push_line(b"-", value.as_slice(), out)?,
        }
    }
    Ok(())
}

fn push_line(lead: &[u8], name: &[u8], out: &mut Vec<u8>) -> Result<(), AllocError> {
    out.extend_from_slice(lead)?;
    out.extend_from_slice(name)?;
    out.push(b'\n')?;
    Ok(())
}

/// The lines with those of texts side by side joined.
pub fn joined(alloc: Global, lines: &[u8]) -> Result<Vec<u8>, AllocError> {
    let mut out = Vec::new(alloc);
    let mut starts = true;
    let mut is_text = false;
    for byte in lines {
        if starts && *byte == b'-' && is_text {
            out.pop();
            starts = false;
            continue;
        }
        if starts {
            is_text = *byte == b'-';
        }
        out.push(*byte)?;
        starts = *byte == b'\n';
    }
    Ok(out)
}
