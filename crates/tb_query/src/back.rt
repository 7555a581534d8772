//! What stands behind `RETURN`: nodes, or a constructor.

use crate::{Operand, Path};
use tb_tree::{Bytes, Items};

/// What a query gives back.
#[derive(Debug, Drop)]
pub enum Back {
    Nodes(Path),
    Cons(Cons),
}

/// A constructor of an element. Its name is one that an element may have, and its attributes have
/// different ones, where trees are to be made of it.
#[cycle(constructor)]
#[derive(Debug, Drop)]
pub struct Cons {
    pub name: Bytes,
    pub attrs: Items<AttrPart>,
    pub parts: Items<Part>,
}

/// What stands inside a constructor.
#[cycle(constructor)]
#[derive(Debug, Drop)]
pub enum Part {
    Cons(Cons),
    Content(Content),
}

/// An attribute of a constructor.
#[derive(Debug, Drop)]
pub struct AttrPart {
    pub name: Bytes,
    pub from: Content,
}

/// A string, or an operand in braces.
#[derive(Debug, Drop)]
pub enum Content {
    Text(Bytes),
    Operand(Operand),
}
