//! The operators of what is returned, and its shape.

ghost use Rattle.std.specs.Prelude.{◌≡◌, ◌++◌, ◌+◌, ◌<◌, [], ◌∷◌, map, IfOk, OnOk};
ghost use Rattle.tb_query.specs.Parts.{cons_of, part_of, back_of, plain_parts};
ghost use Rattle.tb_tlc.specs.Returned.{content_ops, content_width, content_shape, attrs_ops, attrs_width, attrs_shape};
ghost use Rattle.tb_tlc.specs.Returned.{cons_ops, cons_width, cons_shape, part_ops, part_width, part_shape};
ghost use Rattle.tb_tlc.specs.Returned.{parts_ops, parts_width, parts_shape, back_ops, back_width, back_shape};
ghost use Rattle.tb_tlc.specs.Scopes.{seen};

use crate::Op;
use crate::operands::{push_operand, push_path};
use crate::scope::Scope;
use std::alloc::{AllocError, Global};
use tb_pattern::Mark;
use tb_query::{AttrPart, Back, Cons, Content, Part};
use tb_tree::{Items, Shape, ShapeAttr, ShapeContent, ShapeElem, ShapePart};

/// Pushes the operators of what is returned, and answers its shape.
pub fn push_back(
    alloc: Global,
    ops: &mut Vec<Op>,
    scope: &Scope,
    start: u32,
    back: &Back,
) -> Result<Shape, AllocError>
    requires narrow { start + back_width (back_of back.now) < 4294967296 }
    ensures ops { OnOk result (ops.new.items ≡ ops.old.items ++ back_ops (seen scope.now) start (back_of back.now)) }
    ensures shape { IfOk result (λ shape. shape ≡ back_shape start (back_of back.now)) }
{
    match back {
        Back::Nodes(path) => {
            push_path(alloc, ops, scope, start, Mark::Any, path)?;
            Ok(Shape::Nodes(start))
        }
        Back::Cons(cons) => {
            let (shape, _) = push_cons(alloc, ops, scope, start, cons)?;
            Ok(Shape::Elem(shape))
        }
    }
}

/// A constructor: its attributes, and then its parts. Answers its shape, and the number of the next column.
#[cycle(constructors)]
fn push_cons(
    alloc: Global,
    ops: &mut Vec<Op>,
    scope: &Scope,
    start: u32,
    cons: &Cons,
) -> Result<(ShapeElem, u32), AllocError>
    requires narrow { start + cons_width (cons_of cons.now) < 4294967296 }
    ensures ops { OnOk result (ops.new.items ≡ ops.old.items ++ cons_ops (seen scope.now) start (cons_of cons.now)) }
    ensures shape { IfOk result (λ made. made.0 ≡ cons_shape start (cons_of cons.now)) }
    ensures next { IfOk result (λ made. made.1 ≡ start + cons_width (cons_of cons.now)) }
{
    let name = cons.name.copy(alloc)?;
    let (attrs, next) = push_attrs(alloc, ops, scope, start, cons.attrs.as_slice())?;
    let (parts, next) = push_parts(alloc, ops, scope, next, cons.parts.as_slice())?;
    Ok((ShapeElem { name, attrs, parts }, next))
}

#[cycle(constructors)]
fn push_parts(
    alloc: Global,
    ops: &mut Vec<Op>,
    scope: &Scope,
    start: u32,
    parts: &[Part],
) -> Result<(Items<ShapePart>, u32), AllocError>
    requires narrow { start + parts_width (plain_parts (map part_of parts.now)) < 4294967296 }
    ensures ops { OnOk result (ops.new.items
        ≡ ops.old.items ++ parts_ops (seen scope.now) start (plain_parts (map part_of parts.now))) }
    ensures shape { IfOk result (λ made. made.0 ≡ parts_shape start (plain_parts (map part_of parts.now))) }
    ensures next { IfOk result (λ made. made.1 ≡ start + parts_width (plain_parts (map part_of parts.now))) }
{
    let mut shapes = Vec::with_capacity(alloc, parts.len())?;
    let mut next = start;
    'parts: for part in parts {
        let (shape, behind) = push_part(alloc, ops, scope, next, part)?;
        shapes.push(shape)?;
        next = behind;
    }
    Ok((Items::from_vec(shapes), next))
}

#[cycle(constructors)]
fn push_part(
    alloc: Global,
    ops: &mut Vec<Op>,
    scope: &Scope,
    start: u32,
    part: &Part,
) -> Result<(ShapePart, u32), AllocError>
    requires narrow { start + part_width (part_of part.now) < 4294967296 }
    ensures ops { OnOk result (ops.new.items ≡ ops.old.items ++ part_ops (seen scope.now) start (part_of part.now)) }
    ensures shape { IfOk result (λ made. made.0 ≡ part_shape start (part_of part.now)) }
    ensures next { IfOk result (λ made. made.1 ≡ start + part_width (part_of part.now)) }
{
    match part {
        Part::Cons(cons) => {
            let (shape, next) = push_cons(alloc, ops, scope, start, cons)?;
            Ok((ShapePart::Elem(shape), next))
        }
        Part::Content(content) => {
            let (shape, next) = push_content(alloc, ops, scope, start, content)?;
            Ok((ShapePart::Content(shape), next))
        }
    }
}

fn push_attrs(
    alloc: Global,
    ops: &mut Vec<Op>,
    scope: &Scope,
    start: u32,
    attrs: &[AttrPart],
) -> Result<(Items<ShapeAttr>, u32), AllocError>
    requires narrow { start + attrs_width attrs.now < 4294967296 }
    ensures ops { OnOk result (ops.new.items ≡ ops.old.items ++ attrs_ops (seen scope.now) start attrs.now) }
    ensures shape { IfOk result (λ made. made.0 ≡ attrs_shape start attrs.now) }
    ensures next { IfOk result (λ made. made.1 ≡ start + attrs_width attrs.now) }
{
    let mut shapes = Vec::with_capacity(alloc, attrs.len())?;
    let mut next = start;
    'attrs: for attr in attrs {
        let (from, behind) = push_content(alloc, ops, scope, next, &attr.from)?;
        shapes.push(ShapeAttr {
            name: attr.name.copy(alloc)?,
            from,
        })?;
        next = behind;
    }
    Ok((Items::from_vec(shapes), next))
}

/// A string, or an operand by its column; and the number of the next column.
fn push_content(
    alloc: Global,
    ops: &mut Vec<Op>,
    scope: &Scope,
    start: u32,
    content: &Content,
) -> Result<(ShapeContent, u32), AllocError>
    requires narrow { start + content_width content.now < 4294967296 }
    ensures ops { OnOk result (ops.new.items ≡ ops.old.items ++ content_ops (seen scope.now) start content.now) }
    ensures shape { IfOk result (λ made. made.0 ≡ content_shape start content.now) }
    ensures next { IfOk result (λ made. made.1 ≡ start + content_width content.now) }
{
    match content {
        Content::Text(text) => Ok((ShapeContent::Text(text.copy(alloc)?), start)),
        Content::Operand(operand) => {
            let column = push_operand(alloc, ops, scope, start, operand)?;
            Ok((ShapeContent::Column(column), column + 1))
        }
    }
}
