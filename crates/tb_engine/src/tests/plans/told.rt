//! A plan as lines that a reader of a test can follow.

use std::alloc::{AllocError, Global};
use tb_number::{AggKind, CmpOp, SortKey};
use tb_pattern::Mark;
use tb_span::Axis;
use tb_tlc::{ColumnStart, Op, Steps};
use tb_tree::{Against, Shape, ShapeAttr, ShapeContent, ShapeElem, ShapePart, Test};

/// Each operator with `; ` behind it. `.3` is the column of number 3.
pub fn tell(alloc: Global, ops: &[Op]) -> Result<Vec<u8>, AllocError> {
    let mut out = Vec::new(alloc);
    for op in ops {
        tell_op(alloc, op, &mut out)?;
        out.extend_from_slice(b"; ")?;
    }
    Ok(out)
}

fn tell_op(alloc: Global, op: &Op, out: &mut Vec<u8>) -> Result<(), AllocError> {
    match op {
        Op::Match { .. } => out.extend_from_slice(b"match"),
        Op::Select { start, steps, mark } => tell_select(alloc, start, steps, *mark, out),
        Op::Filter { left, op, right } => tell_filter(alloc, *left, *op, right, out),
        Op::ValueJoin { left, right } => tell_join(alloc, *left, *right, out),
        Op::Group { key } => tell_of(alloc, b"group ", *key, out),
        Op::Aggregate { from, kind } => tell_of(alloc, aggregate(*kind), *from, out),
        Op::Order { keys } => tell_order(alloc, keys.as_slice(), out),
        Op::Project { .. } => out.extend_from_slice(b"project"),
        Op::Distinct => out.extend_from_slice(b"distinct"),
        Op::Construct { shape } => tell_shape(alloc, shape, out),
    }
}

fn tell_of(alloc: Global, word: &[u8], column: u32, out: &mut Vec<u8>) -> Result<(), AllocError> {
    out.extend_from_slice(word)?;
    tell_column(alloc, column, out)
}

fn tell_select(
    alloc: Global,
    start: &ColumnStart,
    steps: &Steps,
    mark: Mark,
    out: &mut Vec<u8>,
) -> Result<(), AllocError> {
    out.extend_from_slice(marked(mark))?;
    match start {
        ColumnStart::Document(name) => out.extend_from_slice(name.as_slice())?,
        ColumnStart::Column(column) => tell_column(alloc, *column, out)?,
    }
    for part in steps.parts() {
        for step in part.as_slice() {
            out.extend_from_slice(axis(step.axis))?;
            tell_test(&step.test, out)?;
        }
    }
    Ok(())
}

fn marked(mark: Mark) -> &'static [u8] {
    match mark {
        Mark::One => b"each ",
        Mark::Optional => b"each or none ",
        Mark::Some => b"some ",
        Mark::Any => b"all ",
    }
}

fn axis(axis: Axis) -> &'static [u8] {
    match axis {
        Axis::Child => b"/",
        Axis::Descendant => b"//",
    }
}

fn tell_test(test: &Test, out: &mut Vec<u8>) -> Result<(), AllocError> {
    match test {
        Test::Name(name) => out.extend_from_slice(name.as_slice()),
        Test::AnyElement => out.extend_from_slice(b"*"),
        Test::AttrName(name) => {
            out.extend_from_slice(b"@")?;
            out.extend_from_slice(name.as_slice())
        }
        Test::AnyAttr => out.extend_from_slice(b"@*"),
        Test::AnyText => out.extend_from_slice(b"text()"),
    }
}

fn tell_column(alloc: Global, column: u32, out: &mut Vec<u8>) -> Result<(), AllocError> {
    out.extend_from_slice(b".")?;
    let text = column.to_string(alloc)?;
    out.extend_from_slice(text.as_bytes())
}

fn tell_filter(
    alloc: Global,
    left: u32,
    op: CmpOp,
    right: &Against,
    out: &mut Vec<u8>,
) -> Result<(), AllocError> {
    tell_of(alloc, b"keep ", left, out)?;
    out.extend_from_slice(sign(op))?;
    match right {
        Against::Column(column) => tell_column(alloc, *column, out),
        Against::Number(number) => {
            let text = number.to_string(alloc)?;
            out.extend_from_slice(text.as_bytes())
        }
        Against::Text(text) => out.extend_from_slice(text.as_slice()),
    }
}

fn sign(op: CmpOp) -> &'static [u8] {
    match op {
        CmpOp::Eq => b" = ",
        CmpOp::Ne => b" != ",
        CmpOp::Lt => b" < ",
        CmpOp::Le => b" <= ",
        CmpOp::Gt => b" > ",
        CmpOp::Ge => b" >= ",
    }
}

fn tell_join(alloc: Global, left: u32, right: u32, out: &mut Vec<u8>) -> Result<(), AllocError> {
    tell_of(alloc, b"join ", left, out)?;
    tell_of(alloc, b" ", right, out)
}

fn aggregate(kind: AggKind) -> &'static [u8] {
    match kind {
        AggKind::Count => b"count ",
        AggKind::Sum => b"sum ",
        AggKind::Min => b"min ",
        AggKind::Max => b"max ",
    }
}

fn tell_order(alloc: Global, keys: &[SortKey], out: &mut Vec<u8>) -> Result<(), AllocError> {
    out.extend_from_slice(b"order")?;
    for key in keys {
        tell_of(
            alloc,
            if key.descending { b" down " } else { b" up " },
            key.column,
            out,
        )?;
    }
    Ok(())
}

fn tell_shape(alloc: Global, shape: &Shape, out: &mut Vec<u8>) -> Result<(), AllocError> {
    match shape {
        Shape::Nodes(column) => tell_of(alloc, b"give ", *column, out),
        Shape::Elem(elem) => tell_elem(alloc, elem, out),
    }
}

#[cycle(shapes)]
fn tell_elem(alloc: Global, elem: &ShapeElem, out: &mut Vec<u8>) -> Result<(), AllocError> {
    out.extend_from_slice(b"make ")?;
    out.extend_from_slice(elem.name.as_slice())?;
    for attr in elem.attrs.as_slice() {
        tell_attr(alloc, attr, out)?;
    }
    out.extend_from_slice(b" (")?;
    tell_parts(alloc, elem.parts.as_slice(), out)?;
    out.extend_from_slice(b")")
}

#[cycle(shapes)]
fn tell_parts(alloc: Global, parts: &[ShapePart], out: &mut Vec<u8>) -> Result<(), AllocError> {
    for part in parts {
        tell_part(alloc, part, out)?;
    }
    Ok(())
}

#[cycle(shapes)]
fn tell_part(alloc: Global, part: &ShapePart, out: &mut Vec<u8>) -> Result<(), AllocError> {
    match part {
        ShapePart::Elem(elem) => tell_elem(alloc, elem, out),
        ShapePart::Content(content) => tell_content(alloc, content, out),
    }
}

fn tell_attr(alloc: Global, attr: &ShapeAttr, out: &mut Vec<u8>) -> Result<(), AllocError> {
    out.extend_from_slice(b" ")?;
    out.extend_from_slice(attr.name.as_slice())?;
    out.extend_from_slice(b"=")?;
    tell_content(alloc, &attr.from, out)
}

fn tell_content(
    alloc: Global,
    content: &ShapeContent,
    out: &mut Vec<u8>,
) -> Result<(), AllocError> {
    match content {
        ShapeContent::Text(text) => out.extend_from_slice(text.as_slice()),
        ShapeContent::Column(column) => tell_column(alloc, *column, out),
    }
}
