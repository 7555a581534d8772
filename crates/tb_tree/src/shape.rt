//! Shapes: what is made of each row of a table.

use crate::{Bytes, Items};

/// The nodes of a column, or an element.
#[derive(Debug, Drop)]
pub enum Shape {
    /// The column of this number, from 0.
    Nodes(u32),
    Elem(ShapeElem),
}

/// An element with its attributes and with what stands inside, both in order.
#[cycle(shape)]
#[derive(Debug, Drop)]
pub struct ShapeElem {
    pub name: Bytes,
    pub attrs: Items<ShapeAttr>,
    pub parts: Items<ShapePart>,
}

/// What stands inside an element.
#[cycle(shape)]
#[derive(Debug, Drop)]
pub enum ShapePart {
    Elem(ShapeElem),
    Content(ShapeContent),
}

/// An attribute.
#[derive(Debug, Drop)]
pub struct ShapeAttr {
    pub name: Bytes,
    pub from: ShapeContent,
}

/// A text, or what a row has in the column of this number.
#[derive(Debug, Drop)]
pub enum ShapeContent {
    Text(Bytes),
    Column(u32),
}
