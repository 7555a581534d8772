//! A query as a line that a reader of a test can follow.

use std::alloc::{AllocError, Global};
use tb_number::{AggKind, CmpOp};
use tb_pattern::{Cond, Edge, Literal, Mark, Pattern};
use tb_query::{
    AttrPart, Back, Clause, Comparison, Cons, Content, Flwor, GroupBy, Key, Operand, Part, Path,
    Query, Right, Start,
};
use tb_span::Axis;
use tb_tree::Test;

/// Each clause, condition, group and key in order with `; ` behind it, and what is given back; of a
/// pattern the document's name and each edge with its node.
pub fn tell(alloc: Global, query: &Query) -> Result<Vec<u8>, AllocError> {
    let mut out = Vec::new(alloc);
    match query {
        Query::Match(pattern) => tell_pattern(alloc, pattern, &mut out)?,
        Query::Flwor(flwor) => tell_flwor(alloc, flwor, &mut out)?,
    }
    Ok(out)
}

fn tell_flwor(alloc: Global, flwor: &Flwor, out: &mut Vec<u8>) -> Result<(), AllocError> {
    for clause in flwor.clauses.as_slice() {
        tell_clause(alloc, clause, out)?;
    }
    for cond in flwor.conds.as_slice() {
        tell_comparison(alloc, cond, out)?;
    }
    if let Some(group) = &flwor.group {
        tell_group(alloc, group, out)?;
    }
    for key in flwor.keys.as_slice() {
        tell_key(alloc, key, out)?;
    }
    out.extend_from_slice(b"back ")?;
    match &flwor.back {
        Back::Nodes(path) => tell_path(alloc, path, out)?,
        Back::Cons(cons) => tell_cons(alloc, cons, out)?,
    }
    out.extend_from_slice(b"; ")
}

fn tell_clause(alloc: Global, clause: &Clause, out: &mut Vec<u8>) -> Result<(), AllocError> {
    match clause {
        Clause::For { var, empty, path } => {
            out.extend_from_slice(b"for ")?;
            tell_variable(alloc, *var, out)?;
            if *empty {
                out.extend_from_slice(b" or empty")?;
            }
            out.extend_from_slice(b" in ")?;
            tell_path(alloc, path, out)?;
        }
        Clause::Let { var, path } => {
            out.extend_from_slice(b"let ")?;
            tell_variable(alloc, *var, out)?;
            out.extend_from_slice(b" is ")?;
            tell_path(alloc, path, out)?;
        }
    }
    out.extend_from_slice(b"; ")
}

fn tell_comparison(alloc: Global, cond: &Comparison, out: &mut Vec<u8>) -> Result<(), AllocError> {
    out.extend_from_slice(b"where ")?;
    tell_operand(alloc, &cond.left, out)?;
    out.push(b' ')?;
    out.extend_from_slice(sign(cond.op))?;
    match &cond.right {
        Right::Operand(operand) => tell_operand(alloc, operand, out)?,
        Right::Literal(literal) => tell_literal(alloc, literal, out)?,
    }
    out.extend_from_slice(b"; ")
}

fn tell_group(alloc: Global, group: &GroupBy, out: &mut Vec<u8>) -> Result<(), AllocError> {
    out.extend_from_slice(b"group ")?;
    tell_variable(alloc, group.var, out)?;
    out.extend_from_slice(b" by ")?;
    tell_path(alloc, &group.path, out)?;
    out.extend_from_slice(b"; ")
}

fn tell_key(alloc: Global, key: &Key, out: &mut Vec<u8>) -> Result<(), AllocError> {
    out.extend_from_slice(b"key ")?;
    tell_operand(alloc, &key.operand, out)?;
    out.extend_from_slice(if key.descending { b" down; " } else { b" up; " })
}

fn tell_operand(alloc: Global, operand: &Operand, out: &mut Vec<u8>) -> Result<(), AllocError> {
    match operand {
        Operand::Nodes(path) => tell_path(alloc, path, out),
        Operand::Agg { kind, path } => {
            out.extend_from_slice(aggregate(*kind))?;
            tell_path(alloc, path, out)?;
            out.push(b')')?;
            Ok(())
        }
    }
}

fn aggregate(kind: AggKind) -> &'static [u8] {
    match kind {
        AggKind::Count => b"count(",
        AggKind::Sum => b"sum(",
        AggKind::Min => b"min(",
        AggKind::Max => b"max(",
    }
}

fn tell_path(alloc: Global, path: &Path, out: &mut Vec<u8>) -> Result<(), AllocError> {
    match &path.start {
        Start::Document(name) => {
            out.extend_from_slice(b"doc(")?;
            out.extend_from_slice(name.as_slice())?;
            out.extend_from_slice(b")")?;
        }
        Start::Var(var) => tell_variable(alloc, *var, out)?,
    }
    for step in path.steps.as_slice() {
        out.push(b' ')?;
        out.extend_from_slice(axis(step.axis))?;
        tell_test(&step.test, out)?;
    }
    Ok(())
}

fn tell_variable(alloc: Global, number: u32, out: &mut Vec<u8>) -> Result<(), AllocError> {
    let text = number.to_string(alloc)?;
    out.extend_from_slice(b"$")?;
    out.extend_from_slice(text.as_bytes())
}

#[cycle(constructors)]
fn tell_cons(alloc: Global, cons: &Cons, out: &mut Vec<u8>) -> Result<(), AllocError> {
    out.extend_from_slice(cons.name.as_slice())?;
    out.extend_from_slice(b"[")?;
    for attr in cons.attrs.as_slice() {
        tell_attr(alloc, attr, out)?;
    }
    out.extend_from_slice(b"](")?;
    tell_parts(alloc, cons.parts.as_slice(), out)?;
    out.extend_from_slice(b")")
}

#[cycle(constructors)]
fn tell_parts(alloc: Global, parts: &[Part], out: &mut Vec<u8>) -> Result<(), AllocError> {
    for part in parts {
        match part {
            Part::Cons(cons) => tell_cons(alloc, cons, out)?,
            Part::Content(content) => tell_content(alloc, content, out)?,
        }
        out.push(b' ')?;
    }
    Ok(())
}

fn tell_attr(alloc: Global, attr: &AttrPart, out: &mut Vec<u8>) -> Result<(), AllocError> {
    out.extend_from_slice(attr.name.as_slice())?;
    out.extend_from_slice(b"=")?;
    tell_content(alloc, &attr.from, out)?;
    out.extend_from_slice(b" ")
}

fn tell_content(alloc: Global, content: &Content, out: &mut Vec<u8>) -> Result<(), AllocError> {
    match content {
        Content::Text(text) => tell_text(text.as_slice(), out),
        Content::Operand(operand) => tell_operand(alloc, operand, out),
    }
}

fn tell_pattern(alloc: Global, pattern: &Pattern, out: &mut Vec<u8>) -> Result<(), AllocError> {
    out.extend_from_slice(b"match ")?;
    out.extend_from_slice(pattern.document.as_slice())?;
    out.extend_from_slice(b": ")?;
    tell_edges(alloc, pattern.edges.as_slice(), out)
}

#[cycle(edges)]
fn tell_edges(alloc: Global, edges: &[Edge], out: &mut Vec<u8>) -> Result<(), AllocError> {
    for edge in edges {
        out.extend_from_slice(axis(edge.axis))?;
        out.extend_from_slice(mark(edge.mark))?;
        tell_test(&edge.to.test, out)?;
        tell_conds(alloc, edge.to.conds.as_slice(), out)?;
        if edge.to.whole {
            out.extend_from_slice(b" !")?;
        }
        tell_below(alloc, edge, out)?;
    }
    Ok(())
}

#[cycle(edges)]
fn tell_below(alloc: Global, edge: &Edge, out: &mut Vec<u8>) -> Result<(), AllocError> {
    if edge.to.edges.as_slice().is_empty() {
        return out.extend_from_slice(b"; ");
    }
    out.extend_from_slice(b" (")?;
    tell_edges(alloc, edge.to.edges.as_slice(), out)?;
    out.extend_from_slice(b") ")
}

fn tell_conds(alloc: Global, conds: &[Cond], out: &mut Vec<u8>) -> Result<(), AllocError> {
    for cond in conds {
        out.extend_from_slice(b" [")?;
        out.extend_from_slice(sign(cond.op))?;
        tell_literal(alloc, &cond.with, out)?;
        out.push(b']')?;
    }
    Ok(())
}

fn axis(axis: Axis) -> &'static [u8] {
    match axis {
        Axis::Child => b"child ",
        Axis::Descendant => b"descendant ",
    }
}

fn mark(mark: Mark) -> &'static [u8] {
    match mark {
        Mark::One => b"one ",
        Mark::Optional => b"optional ",
        Mark::Some => b"some ",
        Mark::Any => b"any ",
    }
}

fn tell_test(test: &Test, out: &mut Vec<u8>) -> Result<(), AllocError> {
    match test {
        Test::Name(name) => out.extend_from_slice(name.as_slice()),
        Test::AnyElement => out.extend_from_slice(b"*"),
        Test::AttrName(name) => {
            out.push(b'@')?;
            out.extend_from_slice(name.as_slice())
        }
        Test::AnyAttr => out.extend_from_slice(b"@*"),
        Test::AnyText => out.extend_from_slice(b"text()"),
    }
}

fn sign(op: CmpOp) -> &'static [u8] {
    match op {
        CmpOp::Eq => b"= ",
        CmpOp::Ne => b"!= ",
        CmpOp::Lt => b"< ",
        CmpOp::Le => b"<= ",
        CmpOp::Gt => b"> ",
        CmpOp::Ge => b">= ",
    }
}

fn tell_literal(alloc: Global, literal: &Literal, out: &mut Vec<u8>) -> Result<(), AllocError> {
    match literal {
        Literal::Number(number) => {
            let text = number.to_string(alloc)?;
            out.extend_from_slice(text.as_bytes())
        }
        Literal::Text(text) => tell_text(text.as_slice(), out),
    }
}

fn tell_text(text: &[u8], out: &mut Vec<u8>) -> Result<(), AllocError> {
    out.extend_from_slice(b"'")?;
    out.extend_from_slice(text)?;
    out.extend_from_slice(b"'")
}
